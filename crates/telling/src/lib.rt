// A list file told and reported without reading it: what was read is told, and the answer says what to do next. State, place in the file, what
// is left of an unfinished number or link, and the step of the work travel in one record.
#![tactic(auto)]

ghost use Rattle.std.specs.Prelude.{◌≡◌, not, eqb};
ghost use Rattle.numbers.specs.Answers.{told_end};
ghost use Rattle.state.specs.Answers.{begun_told};
ghost use Rattle.state.specs.Close.{open_call, close_call};
ghost use Rattle.parts.specs.Parts.{open_part, feed_part};
ghost use Rattle.lines.specs.Report.{report_call};
ghost use Rattle.telling.specs.declared.Step.TheVariants.{Head};
ghost use Rattle.telling.specs.Tell.{size_of, is_first, is_links, is_over, was_read, is_end, count_in, unheard, said, turned, goes, next_does, rereads, telling_of, beginning, refusing, reporting, opening, ending, feeding, entering, unfinished, entered, heading, parted, given, tell_call};

use forest::{Closed, Refusal, Stage, State, Why};

mod steps;

pub use steps::UnknownStep;

// A link has at most so many bytes.
const LINK: usize = 6;

// Where the work stands: nothing was read; a pass begins, and the head of the file is to come; in the links; over.
#[derive(Clone, Copy)]
pub enum Step {
    First = 0,
    Head = 1,
    Links = 2,
    Over = 3,
}

#[derive(Clone, Copy)]
pub struct Telling {
    pub state: State,
    pub step: Step,
    // the byte of the file that stands at the buffer's front
    pub offset: usize,
    // how many bytes stand there: the next read goes behind them
    pub have: usize,
}

// What reading answered: so many bytes more, the end of the file, that it failed, or that there is no such file.
#[derive(Clone, Copy)]
pub enum Heard {
    Bytes(usize),
    End,
    Failed,
    NoFile,
}

// What to do next: read more; read again, from the start of the file; or stop, and print so many bytes of the text. Where a read failed there
// is nothing to print.
#[derive(Drop)]
pub enum Next {
    More(Telling),
    Again(Telling),
    Report(State, usize),
    Refused(Refusal, usize),
    NoFile(usize),
    Failed,
}

// To tell a file with room k.
pub fn begin(k: usize) -> Telling
    ensures { result ≡ beginning k }
{
    Telling {
        state: State::begun(0, k, Stage::Building),
        step: Step::First,
        offset: 0,
        have: 0,
    }
}

fn size_of(written: Result<usize, Why>) -> usize
    ensures { result ≡ size_of (told_end written) }
{
    written.unwrap_or(0)
}

fn refuse(number: u32, place: usize, text: &mut [u8]) -> Next
    ensures { said result text.new ≡ refusing number place text.old }
{
    let size = size_of(lines::refusal_line(number, place, text));
    Next::Refused(Refusal { number, place }, size)
}

// Nothing is printed where a read failed.
fn unread(heard: Heard, text: &mut [u8]) -> Next
    ensures { said result text.new ≡ unheard heard text.old }
{
    match heard {
        Heard::Bytes(_) => Next::Failed,
        Heard::End => Next::Failed,
        Heard::Failed => Next::Failed,
        Heard::NoFile => Next::NoFile(size_of(lines::no_file_line(text))),
    }
}

fn report(s: State, frag: &mut [u32], held: &[u32], text: &mut [u8]) -> Next
    ensures { turned result frag.new held.now text.new ≡ reporting s frag.old held.now (report_call s frag.old held.now text.old) }
{
    match lines::report(s, frag, held, text) {
        Ok(size) => Next::Report(s, size),
        Err(why) => refuse(why.number(), 0, text),
    }
}

// The list is told again, to this state.
fn again(s: State) -> Next
    ensures { next_does result ≡ rereads (telling_of s Head 0 0) }
{
    Next::Again(Telling {
        state: s,
        step: Step::Head,
        offset: 0,
        have: 0,
    })
}

fn open_again(s: State, frag: &mut [u32], held: &mut [u32], text: &mut [u8]) -> Next
    ensures { turned result frag.new held.new text.new ≡ opening (open_call s frag.old held.old) text.old }
{
    match forest::open_reading(s, frag, held) {
        Ok(next) => again(next),
        Err(bad) => refuse(bad.number, bad.place, text),
    }
}

// The end of a pass.
fn end_pass(s: State, frag: &mut [u32], held: &mut [u32], text: &mut [u8]) -> Next
    ensures { turned result frag.new held.new text.new ≡ ending (close_call s frag.old held.old) text.old }
{
    match forest::close(s, frag, held) {
        Ok(Closed::More(next)) => again(next),
        Ok(Closed::Done(next)) => open_again(next, frag, held, text),
        Ok(Closed::Read(next)) => report(next, frag, held, text),
        Ok(Closed::False(_)) => refuse(9, 0, text),
        Err(bad) => refuse(bad.number, bad.place, text),
    }
}

// The links of a part of the file: the bytes at the buffer's front.
fn feed(
    t: Telling,
    frag: &mut [u32],
    held: &mut [u32],
    buffer: &mut [u8],
    text: &mut [u8],
    last: bool,
) -> Next
    ensures { goes result frag.new held.new buffer.new text.new ≡ feeding last text.old (feed_part t.state frag.old held.old buffer.old t.have t.offset last) }
{
    match parts::feed(t.state, frag, held, buffer, t.have, t.offset, last) {
        Ok((next, at, left)) => {
            if last {
                return end_pass(next, frag, held, text);
            }
            Next::More(Telling {
                state: next,
                step: Step::Links,
                offset: at,
                have: left,
            })
        }
        Err(bad) => refuse(bad.number, bad.place, text),
    }
}

fn is_over(step: Step) -> bool
    ensures { result ≡ is_over step }
{
    matches!(step, Step::Over)
}

fn is_links(step: Step) -> bool
    ensures { result ≡ is_links step }
{
    matches!(step, Step::Links)
}

fn is_first(step: Step) -> bool
    ensures { result ≡ is_first step }
{
    matches!(step, Step::First)
}

fn is_other(n: usize, size: usize) -> bool
    ensures { result ≡ not (eqb n size) }
{
    n != size
}

// The state that the links are told to, for the number of fragments that the head has: another one than before is refused, since the file is not
// the one that the forest is built for.
fn enter(t: Telling, n: usize, frag: &mut [u32], held: &mut [u32]) -> Result<State, Refusal>
    ensures { begun_told result frag.new held.new ≡ entering t.state t.step n frag.old held.old }
{
    let s = t.state;
    let step = t.step;
    if is_first(step) {
        return State::start(n, s.k, frag, held);
    }
    if is_other(n, s.n) {
        return Err(Refusal::from(Why::Differs));
    }
    Ok(s)
}

// Whether more bytes may mend what was refused: the bytes end inside the head, and the file has not ended.
#[tactic(auto, unfolding(crate::specs::Tell::unfinished))]
fn is_unfinished(number: u32, last: bool) -> bool
    ensures { result ≡ unfinished number last }
{
    !last && number == 8
}

// Tells the links that stand at the buffer's front, where the head of the file has n.
fn enter_links(
    t: Telling,
    n: usize,
    frag: &mut [u32],
    held: &mut [u32],
    buffer: &mut [u8],
    text: &mut [u8],
    last: bool,
) -> Next
    ensures { goes result frag.new held.new buffer.new text.new ≡ entered t.offset t.have last text.old buffer.old (entering t.state t.step n frag.old held.old) }
{
    match enter(t, n, frag, held) {
        Ok(s) => {
            let links = Telling {
                state: s,
                step: Step::Links,
                ..t
            };
            feed(links, frag, held, buffer, text, last)
        }
        Err(bad) => refuse(bad.number, bad.place, text),
    }
}

// The first part of a pass: the head, and what is there of the links.
fn head(
    t: Telling,
    frag: &mut [u32],
    held: &mut [u32],
    buffer: &mut [u8],
    text: &mut [u8],
    last: bool,
) -> Next
    ensures { goes result frag.new held.new buffer.new text.new ≡ heading t frag.old held.old text.old last (open_part t.have buffer.old) }
{
    match parts::open(buffer, t.have) {
        Ok((n, begins, have)) => {
            let links = Telling {
                offset: begins,
                have,
                ..t
            };
            enter_links(links, n as usize, frag, held, buffer, text, last)
        }
        Err(bad) => {
            if is_unfinished(bad.number, last) {
                return Next::More(t);
            }
            refuse(bad.number, bad.place, text)
        }
    }
}

// A part of the file: the bytes at the buffer's front.
fn part(
    t: Telling,
    frag: &mut [u32],
    held: &mut [u32],
    buffer: &mut [u8],
    text: &mut [u8],
    last: bool,
) -> Next
    ensures { goes result frag.new held.new buffer.new text.new ≡ parted t frag.old held.old buffer.old text.old last t.step }
{
    let step = t.step;
    if is_over(step) {
        return refuse(6, 0, text);
    }
    if is_links(step) {
        return feed(t, frag, held, buffer, text, last);
    }
    head(t, frag, held, buffer, text, last)
}

// `count` bytes more stand in the buffer, behind those that it had.
fn give(
    t: Telling,
    frag: &mut [u32],
    held: &mut [u32],
    buffer: &mut [u8],
    text: &mut [u8],
    count: usize,
    last: bool,
) -> Next
    ensures { goes result frag.new held.new buffer.new text.new ≡ given t frag.old held.old buffer.old text.old count last }
{
    let room = buffer.len();
    if room < LINK {
        return refuse(3, 0, text);
    }
    if room < count {
        return refuse(3, 0, text);
    }
    if room - count < t.have {
        return refuse(3, 0, text);
    }
    let there = Telling {
        have: t.have + count,
        ..t
    };
    part(there, frag, held, buffer, text, last)
}

// Whether the file was read: bytes of it, or its end.
fn was_read(heard: Heard) -> bool
    ensures { result ≡ was_read heard }
{
    matches!(heard, Heard::Bytes(_) | Heard::End)
}

fn is_end(heard: Heard) -> bool
    ensures { result ≡ is_end heard }
{
    matches!(heard, Heard::End)
}

fn count_in(heard: Heard) -> usize
    ensures { result ≡ count_in heard }
{
    match heard {
        Heard::Bytes(count) => count,
        Heard::End => 0,
        Heard::Failed => 0,
        Heard::NoFile => 0,
    }
}

// Tells what was read.
pub fn tell(
    t: Telling,
    frag: &mut [u32],
    held: &mut [u32],
    buffer: &mut [u8],
    text: &mut [u8],
    heard: Heard,
) -> Next
    ensures { goes result frag.new held.new buffer.new text.new ≡ tell_call t frag.old held.old buffer.old text.old heard }
{
    if !was_read(heard) {
        return unread(heard, text);
    }
    give(t, frag, held, buffer, text, count_in(heard), is_end(heard))
}
