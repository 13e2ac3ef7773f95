// A state in an array of words.
ghost use Rattle.std.specs.Prelude.{◌≡◌, get_or};
ghost use Rattle.c_words.specs.State.{entries_in, state_in, word_for, state_words};

use state::{Stage, State};

// Words of a state.
pub const STATE: usize = 7;

const MOST: usize = 4294967295;

pub fn wide(word: u32) -> usize
    ensures { result ≡ word }
{
    word as usize
}

// A word that is not there is read as 0.
pub fn word(words: &[u32], i: usize) -> u32
    ensures { result ≡ get_or words.now i 0 }
{
    if i < words.len() {
        return words[i];
    }
    0
}

fn word_at(words: &[u32], i: usize) -> usize
    ensures { result ≡ get_or words.now i 0 }
{
    wide(word(words, i))
}

fn entries_in(entries: usize, mark: usize) -> usize
    ensures { result ≡ entries_in entries mark }
{
    if 1 < mark {
        return State::ENTRIES + 1;
    }
    entries
}

// The state in an array of words; `other` is the stage that a bad stage word is read as.
pub fn unpack(other: Stage, words: &[u32]) -> State
    ensures { result ≡ state_in other words.now }
{
    let mark = word_at(words, 6);
    let entries = entries_in(word_at(words, 4), mark);
    State {
        n: word_at(words, 0),
        k: word_at(words, 1),
        stage: Stage::try_from(word(words, 2)).unwrap_or(other),
        passes: word_at(words, 3),
        entries,
        held: word_at(words, 5),
        crossed: mark == 1,
    }
}

fn word_for(x: usize) -> u32
    ensures { result ≡ word_for x }
{
    x.min(MOST) as u32
}

// Writes a state into an array of words; one too short stays as it is.
pub fn pack(s: State, words: &mut [u32])
    ensures { words.new ≡ state_words s words.old }
{
    if words.len() < STATE {
        return;
    }
    words[0] = word_for(s.n);
    words[1] = word_for(s.k);
    words[2] = u32::from(s.stage);
    words[3] = word_for(s.passes);
    words[4] = word_for(s.entries);
    words[5] = word_for(s.held);
    words[6] = u32::from(s.crossed);
}
