// A telling in an array of words.
ghost use Rattle.std.specs.Prelude.{◌≡◌};
ghost use Rattle.telling.specs.Tell.{next_does};
ghost use Rattle.c_telling.specs.Telling.{have_in, telling_in, rest_words, telling_words, heard_in};
ghost use Rattle.c_telling.specs.Answers.{ended, does_end};

use c_words::{high, joined, low, pack, unpack, word};
use forest::Stage;
use telling::{Heard, Next, Step, Telling};

// Words of a telling.
pub const TELLING: usize = 13;

// The step of a telling that is over.
const OVER: u32 = 3;

// What stands for a read that failed, and for no such file.
const FAILED: usize = 18446744073709551615;

const NO_FILE: usize = 18446744073709551614;

// How many bytes stand at the buffer's front. Where the telling is over none do: its words have the size of the text there.
fn have_in(step: u32, low: u32, high: u32) -> usize
    ensures { result ≡ have_in step low high }
{
    if step > 2 {
        return 0;
    }
    joined(low, high)
}

// The telling in an array of words; a bad stage word is read as Built, in which no link is taken and no pass closed.
pub fn telling_in(words: &[u32]) -> Telling
    ensures { result ≡ telling_in words.now }
{
    let step = word(words, 7);
    Telling {
        state: unpack(Stage::Built, words),
        step: Step::try_from(step).unwrap_or(Step::Over),
        offset: joined(word(words, 8), word(words, 9)),
        have: have_in(step, word(words, 10), word(words, 11)),
    }
}

// What was heard, from the answer of a read.
pub fn heard_in(heard: usize) -> Heard
    ensures { result ≡ heard_in heard }
{
    if heard == 0 {
        return Heard::End;
    }
    if heard == FAILED {
        return Heard::Failed;
    }
    if heard == NO_FILE {
        return Heard::NoFile;
    }
    Heard::Bytes(heard)
}

// Writes the words behind those of the state; an array too short stays as it is.
fn put_rest(step: u32, place: usize, count: usize, number: u32, words: &mut [u32])
    ensures { words.new ≡ rest_words step place count number words.old }
{
    if words.len() < TELLING {
        return;
    }
    words[7] = step;
    words[8] = low(place);
    words[9] = high(place);
    words[10] = low(count);
    words[11] = high(count);
    words[12] = number;
}

// Writes a telling.
pub fn put_telling(t: Telling, words: &mut [u32])
    ensures { words.new ≡ telling_words t words.old }
{
    pack(t.state, words);
    put_rest(u32::from(t.step), t.offset, t.have, 0, words);
}

// Writes what a telling answered, and returns its number.
pub fn end_tell(next: Next, words: &mut [u32]) -> u32
    ensures { ended result words.new ≡ does_end (next_does next) words.old }
{
    match next {
        Next::More(t) => {
            put_telling(t, words);
            0
        }
        Next::Again(t) => {
            put_telling(t, words);
            1
        }
        Next::Report(s, size) => {
            pack(s, words);
            put_rest(OVER, 0, size, 0, words);
            2
        }
        Next::Refused(bad, size) => {
            put_rest(OVER, bad.place, size, bad.number, words);
            3
        }
        Next::NoFile(size) => {
            put_rest(OVER, 0, size, 0, words);
            4
        }
        Next::Failed => {
            put_rest(OVER, 0, 0, 0, words);
            5
        }
    }
}
