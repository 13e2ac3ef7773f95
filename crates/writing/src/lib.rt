// The list writer. Numbers are written through the crate `numbers` and links are tested as `lists` tests them, both known by their promises only.
#![tactic(auto)]

ghost use Rattle.std.specs.Prelude.{◌≡◌, ◌++◌, length};
ghost use Rattle.numbers.specs.Number.{written_number, put};
ghost use Rattle.numbers.specs.Answers.{told_end, wrote};
ghost use Rattle.writing.specs.Write.{write_list};
ghost use Rattle.writing.specs.Steps.{list_size, Fitting, written_words, Stored, Room};

use lists::{bad_ends, bad_size};
use numbers::{Why, width};

// How many bytes the list takes, or what is wrong with it.
fn list_size(n: u32, words: &[u32]) -> Result<usize, Why>
    ensures { told_end result ≡ list_size n words.now }
{
    if bad_size(n) {
        return Err(Why::Fragments);
    }
    let mut size = width(n);
    let (pairs, rest) = words.as_chunks::<2>();
    for &[a, b] in pairs {
        bad_ends(n, a, b)?;
        size += width(a) + width(b);
    }
    if !rest.is_empty() {
        return Err(Why::Unfinished);
    }
    Ok(size)
}

// Writes a number that there is room for. Returns the position after it.
fn put_number(value: u32, buffer: &mut [u8], at: usize) -> usize
    requires { Fitting value at (length buffer.old) }
    ensures { Stored value at buffer.old result buffer.new }
{
    numbers::write_number(value, buffer, at).unwrap()
}

// Writes the list that there is room for.
fn put_list(n: u32, words: &[u32], buffer: &mut [u8])
    requires { Room n words.now buffer.old }
    ensures { buffer.new ≡ put buffer.old 0 (written_number n ++ written_words words.now) }
{
    let mut at = put_number(n, buffer, 0);
    for &word in words {
        at = put_number(word, buffer, at);
    }
}

// Writes a list of n fragments, its links as words, two each, to the front of `buffer`.
pub fn write_list(n: u32, words: &[u32], buffer: &mut [u8]) -> Result<usize, Why>
    ensures { wrote result buffer.new ≡ write_list n words.now buffer.old }
{
    let size = list_size(n, words)?;
    if buffer.len() < size {
        return Err(Why::Short);
    }
    put_list(n, words, buffer);
    Ok(size)
}
