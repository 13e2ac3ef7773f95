// A number of 64 bits in two words, the low one first.
ghost use Rattle.std.specs.Prelude.{◌≡◌};
ghost use Rattle.c_words.specs.Pair.{low_word, high_word, joined as pair_of};

use crate::words::wide;

// One more than the greatest word.
const WORDS: usize = 4294967296;

pub fn low(x: usize) -> u32
    ensures { result ≡ low_word x }
{
    (x % WORDS) as u32
}

pub fn high(x: usize) -> u32
    ensures { result ≡ high_word x }
{
    (x / WORDS) as u32
}

// The number that two words hold.
pub fn joined(low: u32, high: u32) -> usize
    ensures { result ≡ pair_of low high }
{
    wide(low) + wide(high) * WORDS
}
