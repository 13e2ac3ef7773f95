// Prints the report on the file links.sev. What is printed is worked out by `telling`, which is told what each read answered.
#![tactic(auto)]

ghost use Rattle.std.specs.Prelude.{◌≡◌, IfOk, OnOk, OnErr, is_none, unwrap_or};
ghost use Rattle.std.specs.Io.KnownBytes.{Appends};
ghost use Rattle.report.specs.Reading.{Silent, heard_of, Hears, Gives};

use std::fs::File;
use std::io;
use std::io::{Cursor, ErrorKind, Read, Write};
use std::rt::Files;
use telling::{Heard, Next};

// 'with k = 4 and room for n up to 512'
const ROOM: usize = 4;

const FRAG_WORDS: usize = 8192;

const HELD_WORDS: usize = 2048;

// Bytes of a read, and of the text.
const PART: usize = 4096;

const TEXT: usize = 65536;

// So many reads are never made: each brings a byte, a pass is refused with 12 before it has six bytes for each of 2^24 entries, and there are at most
// 129 passes.
const TURNS: u64 = 1000000000000;

fn open_list<R: Files>(rt: &R) -> io::Result<R::File> {
    File::open(rt, "links.sev")
}

// A file that cannot be opened is missing, or there is another reason.
fn unopened(error: io::Error) -> Heard
    ensures { Silent result }
{
    if error.kind() == ErrorKind::NotFound {
        return Heard::NoFile;
    }
    Heard::Failed
}

// What is heard of a read, and the error where one says why.
#[derive(Clone, Copy)]
struct Got {
    heard: Heard,
    error: Option<io::Error>,
}

// What is heard of a read that failed, or put so many bytes into the buffer: none at the end of the file, and never more than there is room for.
#[tactic(auto, using(base::specs::Pick::tests), unfolding(crate::specs::Reading::heard_of))]
fn heard(read: Option<usize>, room: usize) -> Heard
    ensures { result ≡ heard_of (is_none read) room (unwrap_or read 0) }
{
    match read {
        None => Heard::Failed,
        Some(count) if room < count => Heard::Failed,
        Some(0) => Heard::End,
        Some(count) => Heard::Bytes(count),
    }
}

// Reads behind the bytes at the buffer's front, which stay as they are.
fn hear<F: Read>(file: &mut io::Result<F>, buffer: &mut [u8], have: usize) -> Got
    ensures hears { Hears have buffer.old result.heard buffer.new }
    ensures gives { IfOk file.old (λ f. IfOk file.new (λ f'. Gives (F.remaining f) (F.remaining f') have result.heard buffer.new)) }
    ensures silent { OnErr file.old (Silent result.heard) }
{
    match file {
        Ok(file) => hear_file(file, buffer, have),
        Err(error) => Got {
            heard: unopened(*error),
            error: Some(*error),
        },
    }
}

// The same of a file that is open.
fn hear_file<F: Read>(file: &mut F, buffer: &mut [u8], have: usize) -> Got
    ensures hears { Hears have buffer.old result.heard buffer.new }
    ensures gives { Gives (F.remaining file.old) (F.remaining file.new) have result.heard buffer.new }
{
    if have >= buffer.len() {
        return Got {
            heard: Heard::Failed,
            error: None,
        };
    }
    let room = buffer.len() - have;
    let answer = file.read(&mut buffer[have..]);
    Got {
        heard: heard(answer.ok(), room),
        error: answer.err(),
    }
}

// The file once more, from its start.
fn reopened<R: Files>(rt: &R, file: io::Result<R::File>) -> io::Result<R::File> {
    drop(file);
    open_list(rt)
}

// Tells the file until there is something to print, or an error to say.
fn tell_list<R: Files>(
    rt: &R,
    frag: &mut [u32],
    held: &mut [u32],
    buffer: &mut [u8],
    text: &mut [u8],
) -> (Next, Option<io::Error>) {
    let mut file = open_list(rt);
    let mut t = telling::begin(ROOM);
    for _ in 0..TURNS {
        let got = hear(&mut file, buffer, t.have);
        match telling::tell(t, frag, held, buffer, text, got.heard) {
            Next::More(more) => t = more,
            Next::Again(again) => {
                file = reopened(rt, file);
                t = again;
            }
            end => return (end, got.error),
        }
    }
    (Next::More(t), None)
}

// Writes all of the text, or stops at the first write that takes nothing, where no error says why, or fails: one that was interrupted too, which the
// `write_all` of std would try again.
fn write_all<W: Write>(out: &mut W, text: &[u8]) -> Result<(), Option<io::Error>>
    ensures { OnOk result (Appends (W.contents out.old) (W.contents out.new) text.now) }
{
    let mut done = 0;
    while done < text.len() {
        match out.write(&text[done..]) {
            Ok(0) => return Err(None),
            Ok(n) => done += n,
            Err(error) => return Err(Some(error)),
        }
    }
    Ok(())
}

// The system's text of an error, without its number.
fn reason(text: &str) -> &str {
    match text.split_once(" (os error ") {
        Some((words, _)) => words,
        None => text,
    }
}

// Says on standard error what failed, a colon and why.
fn fail<R: Eprint>(rt: &R, what: &str, error: io::Error) {
    let mut line = Cursor::new([0u8; 256]);
    let _ = write!(line, "{error}");
    let written = line.position() as usize;
    let bytes = line.into_inner();
    let size = written.min(bytes.len());
    if let Ok(text) = str::from_utf8(&bytes[..size]) {
        let words = reason(text);
        let _ = eprintln!(rt; "{what}: {words}");
    }
}

// Where a write takes nothing, `last` is said.
fn write_text<R: Print + Eprint>(rt: &R, text: &[u8], size: usize, last: io::Error) {
    let mut out = io::writer(rt);
    if size <= text.len()
        && let Err(error) = write_all(&mut out, &text[..size])
    {
        fail(rt, "report: standard output", error.unwrap_or(last));
    }
}

fn print<R: Print + Eprint>(rt: &R, next: Next, text: &[u8], error: Option<io::Error>) {
    // Where nothing failed, the system's number of no error.
    let last = error.unwrap_or(io::Error::from_raw_os_error(0));
    match next {
        Next::More(_) | Next::Again(_) => {}
        Next::Report(_, size) | Next::Refused(_, size) | Next::NoFile(size) => {
            write_text(rt, text, size, last);
        }
        Next::Failed => fail(rt, "report: links.sev", last),
    }
}

fn main(rt: HostRuntime) {
    let mut frag = [0u32; FRAG_WORDS];
    let mut held = [0u32; HELD_WORDS];
    let mut buffer = [0u8; PART];
    let mut text = [0u8; TEXT];
    let (next, error) = tell_list(&rt, &mut frag, &mut held, &mut buffer, &mut text);
    print(&rt, next, &text, error);
}
