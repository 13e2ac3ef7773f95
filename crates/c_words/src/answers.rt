// What the calls answer, in words: each function returns the number of the refusal, 0 where the call was accepted.
ghost use Rattle.std.specs.Prelude.{◌≡◌};
ghost use Rattle.c_words.specs.Answers.{reply, ended, begun_end, opened_end, taken_end, closed_end, asked_reply, judged_reply};

use crate::words::pack;
use numbers::{Refusal, Why};
use state::{Closed, State};

// Start, adopt and open reading: writes the state to go on with.
pub fn end_state(answer: Result<State, Refusal>, words: &mut [u32]) -> u32
    ensures begun { ended result 0 words.new ≡ begun_end answer words.old }
    ensures opened { ended result 0 words.new ≡ opened_end answer words.old }
{
    match answer {
        Ok(s) => {
            pack(s, words);
            0
        }
        Err(r) => r.number,
    }
}

// Take: writes the state to go on with, or the place of the refusal.
pub fn end_take(taken: Result<State, Refusal>, words: &mut [u32], place: &mut u64) -> u32
    ensures { ended result place.new words.new ≡ taken_end taken words.old }
{
    match taken {
        Ok(s) => {
            pack(s, words);
            *place = 0;
            0
        }
        Err(r) => {
            *place = r.place as u64;
            r.number
        }
    }
}

// Close: writes how the pass ended and the state that it leaves, or the place of the refusal.
pub fn end_close(closed: Result<Closed, Refusal>, words: &mut [u32], ending: &mut u64) -> u32
    ensures { ended result ending.new words.new ≡ closed_end closed words.old }
{
    let (s, how, number) = match closed {
        Ok(Closed::More(s)) => (s, 0, 0),
        Ok(Closed::Done(s)) => (s, 1, 0),
        Ok(Closed::Read(s)) => (s, 2, 0),
        Ok(Closed::False(s)) => (s, 0, Why::Differs.number()),
        Err(r) => {
            *ending = r.place as u64;
            return r.number;
        }
    };
    pack(s, words);
    *ending = how;
    number
}

// A question: writes the number asked for, or the place of the refusal.
pub fn tell(asked: Result<usize, Refusal>, answer: &mut u64) -> u32
    ensures { reply result answer.new ≡ asked_reply asked }
{
    match asked {
        Ok(x) => {
            *answer = x as u64;
            0
        }
        Err(r) => {
            *answer = r.place as u64;
            r.number
        }
    }
}

// The same, of yes and no.
pub fn judge(judged: Result<bool, Refusal>, answer: &mut u64) -> u32
    ensures { reply result answer.new ≡ judged_reply judged }
{
    tell(judged.map(usize::from), answer)
}
