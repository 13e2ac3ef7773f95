// A list file told in parts of any length: a buffer holds what is left of an unfinished link in front of the next part's bytes.
#![tactic(auto)]

ghost use Rattle.std.specs.Prelude.{◌≡◌, ◌≤◌, length};
ghost use Rattle.parts.specs.Parts.{in_block, place_in, carried, open_part, tellable, feed_part};
ghost use Rattle.parts.specs.Answers.{opened_told, fed_told};

use forest::{Refusal, State, Why};

// Moves the bytes from `from` up to `len` to the front.
fn carry(buffer: &mut [u8], from: usize, len: usize)
    requires { (from ≤ len) × (len ≤ length buffer.old) }
    ensures { buffer.new ≡ carried from len buffer.old }
{
    buffer.copy_within(from..len, 0);
}

// Reads the header from a file's first part, `len` bytes at the buffer's front, and moves what is behind it to the front. Answers the number of
// fragments, the byte of the file where the links begin, and how many bytes of them are there.
pub fn open(buffer: &mut [u8], len: usize) -> Result<(u32, usize, usize), Refusal>
    ensures { opened_told result buffer.new ≡ open_part len buffer.old }
{
    if buffer.len() < len {
        return Err(Refusal::from(Why::Short));
    }
    let (n, begins) = numbers::read_number(&buffer[..len], 0)?;
    carry(buffer, begins, len);
    Ok((n, begins, len - begins))
}

// How many of the first `len` bytes are told.
fn tell_to(buffer: &[u8], len: usize, last: bool) -> usize
    requires { len ≤ length buffer.now }
    ensures { (result ≡ tellable len last buffer.now) × (result ≤ len) }
{
    if last {
        return len;
    }
    lists::cut(&buffer[..len])
}

// A refusal that is met in a block.
#[tactic(auto, unfolding(crate::specs::Parts::in_block))]
fn in_block(number: u32) -> bool
    ensures { result ≡ in_block number }
{
    matches!(number, 4 | 5 | 7 | 8 | 12)
}

// The place in the file of a refusal that was met in a block at byte `offset`.
fn in_file(bad: Refusal, offset: usize) -> Refusal
    ensures { (result.number ≡ bad.number) × (result.place ≡ place_in offset bad.number bad.place) }
{
    if in_block(bad.number) {
        return Refusal {
            place: offset.wrapping_add(bad.place),
            ..bad
        };
    }
    Refusal { place: 0, ..bad }
}

// Takes the whole links of a part, `len` bytes at the buffer's front, of which the first is byte `offset` of the file, and moves what is left
// to the front. At the file's end all bytes are taken. Answers the state to go on with, the byte of the file that stands at the buffer's front
// now, and how many bytes stand there.
pub fn feed(
    s: State,
    frag: &mut [u32],
    held: &mut [u32],
    buffer: &mut [u8],
    len: usize,
    offset: usize,
    last: bool,
) -> Result<(State, usize, usize), Refusal>
    ensures { fed_told s result frag.new held.new buffer.new ≡ feed_part s frag.old held.old buffer.old len offset last }
{
    if buffer.len() < len {
        return Err(Refusal::from(Why::Short));
    }
    let end = tell_to(buffer, len, last);
    match forest::take(s, frag, held, &buffer[..end]) {
        Ok(next) => {
            carry(buffer, end, len);
            Ok((next, offset.wrapping_add(end), len - end))
        }
        Err(bad) => Err(in_file(bad, offset)),
    }
}
