// Numbers in groups of seven bits, one byte each, lowest group first. Programs above know them by these promises only.
#![tactic(auto)]

ghost use Rattle.std.specs.Prelude.{◌≡◌, ◌+◌, ◌≤◌, get_or, length};
ghost use Rattle.numbers.specs.Number.{read_number, put, width_of, write_number};
ghost use Rattle.numbers.specs.Answers.{number_of, of_no_place, told, told_end, wrote};
ghost use Rattle.numbers.specs.Writing.{all_groups};

// The greatest value.
const VALUE_MOST: u32 = 2097151;

// Document 01's table of refusals, with its numbers.
#[derive(Clone, Copy, PartialEq, Eq)]
pub enum Why {
    Fragments = 1,
    Room = 2,
    Short = 3,
    NoFragment = 4,
    Same = 5,
    Stage = 6,
    Form = 7,
    Unfinished = 8,
    Differs = 9,
    Parents = 10,
    Tables = 11,
    Entries = 12,
}

impl Why {
    pub fn number(self) -> u32
        ensures { result ≡ number_of self }
    {
        self as u32
    }

    // The refusal, at a byte of a block.
    pub fn at(self, place: usize) -> Refusal
        ensures { (result.number ≡ number_of self) × (result.place ≡ place) }
    {
        Refusal {
            number: self.number(),
            place,
        }
    }
}

// A refusal: document 01's number of it, and its place.
#[derive(Clone, Copy)]
pub struct Refusal {
    pub number: u32,
    pub place: usize,
}

// 'and 0 otherwise'
impl From<Why> for Refusal {
    ghost from_gives = { of_no_place };

    fn from(why: Why) -> Refusal {
        why.at(0)
    }
}

// The byte at `at`, 0 where none stands.
fn byte_at(bytes: &[u8], at: usize) -> u64
    ensures { result ≡ get_or bytes.now at 0 }
{
    match bytes.get(at) {
        Some(&byte) => u64::from(byte),
        None => 0,
    }
}

// The number that stands in `bytes` at position `at`. Where a second byte follows, whether a third does is reckoned with and not asked: in a
// long list a branch on it would be guessed wrong at every second number.
pub fn read_number(bytes: &[u8], at: usize) -> Result<(u32, usize), Why>
    ensures { told result ≡ read_number bytes.now at }
{
    if at >= bytes.len() {
        return Err(Why::Unfinished);
    }
    let first = u64::from(bytes[at]);
    if first < 128 {
        return Ok((first as u32, at + 1));
    }
    let second = byte_at(bytes, at + 1);
    let third = byte_at(bytes, at + 2);
    // 1 where a third byte follows, else 0.
    let more = second / 128;
    let next = at + 2 + more as usize;
    if next > bytes.len() {
        return Err(Why::Unfinished);
    }
    let value = first % 128 + second % 128 * 128 + more * third * 16384;
    // Less where the last byte is 0, which stands only alone.
    if value < 128 + more * 16256 {
        return Err(Why::Form);
    }
    // Greater where the third byte has its top bit set.
    if value > VALUE_MOST as u64 {
        return Err(Why::Form);
    }
    Ok((value as u32, next))
}

// How many groups `value` has: one, and those of the quotient.
fn groups_in(value: u32) -> usize
    ensures { result ≡ length (all_groups value) }
{
    if value < 128 {
        return 1;
    }
    1 + groups_in(value / 128)
}

// How many bytes a number takes, and 0 for one that has no form.
pub fn width(value: u32) -> usize
    ensures { result ≡ width_of value }
{
    if value > VALUE_MOST {
        return 0;
    }
    groups_in(value)
}

// Puts the groups of `value` into `buffer` from position `at` on: 'the remainder by 128, and each further group is written by the same rule from
// the quotient'.
fn put_groups(value: u32, buffer: &mut [u8], at: usize)
    requires { at + length (all_groups value) ≤ length buffer.old }
    ensures { buffer.new ≡ put buffer.old at (all_groups value) }
{
    if value < 128 {
        buffer[at] = value as u8;
        return;
    }
    buffer[at] = (value % 128 + 128) as u8;
    put_groups(value / 128, buffer, at + 1);
}

// Writes `value` into `buffer` from position `at` on, once it is known to fit.
pub fn write_number(value: u32, buffer: &mut [u8], at: usize) -> Result<usize, Why>
    ensures { wrote result buffer.new ≡ write_number value buffer.old at }
{
    let size = width(value);
    if size == 0 {
        return Err(Why::Form);
    }
    if at > buffer.len() {
        return Err(Why::Short);
    }
    if buffer.len() - at < size {
        return Err(Why::Short);
    }
    put_groups(value, buffer, at);
    Ok(at + size)
}
