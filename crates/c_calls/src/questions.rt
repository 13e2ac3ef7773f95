// The questions.
ghost use Rattle.std.specs.Prelude.{◌≡◌};
ghost use Rattle.c_words.specs.Answers.{reply};
ghost use Rattle.c_calls.specs.Call.{c_parent, c_level, c_piece, c_cut, c_sole};

use c_words::{STATE, judge, tell, unpack, wide};
use forest::{Stage, cut, level, parent, piece, sole};

#[unsafe(no_mangle)]
pub extern "C" fn welmocant_parent(
    state: &[u32],
    frag: &[u32],
    held: &[u32],
    v: u32,
    answer: &mut u64,
) -> u32
    ensures { reply result answer.new ≡ c_parent state.now frag.now held.now v }
{
    if state.len() < STATE {
        *answer = 0;
        return 3;
    }
    let s = unpack(Stage::Building, state);
    let asked = parent(s, frag, held, wide(v));
    tell(asked, answer)
}

#[unsafe(no_mangle)]
pub extern "C" fn welmocant_level(
    state: &[u32],
    frag: &[u32],
    held: &[u32],
    v: u32,
    answer: &mut u64,
) -> u32
    ensures { reply result answer.new ≡ c_level state.now frag.now held.now v }
{
    if state.len() < STATE {
        *answer = 0;
        return 3;
    }
    let s = unpack(Stage::Building, state);
    let asked = level(s, frag, held, wide(v));
    tell(asked, answer)
}

#[unsafe(no_mangle)]
pub extern "C" fn welmocant_piece(
    state: &[u32],
    frag: &mut [u32],
    held: &[u32],
    v: u32,
    answer: &mut u64,
) -> u32
    ensures { (reply result answer.new ≡ c_piece state.now frag.old held.now v) × (frag.new ≡ frag.old) }
{
    if state.len() < STATE {
        *answer = 0;
        return 3;
    }
    let s = unpack(Stage::Building, state);
    let asked = piece(s, frag, held, wide(v));
    tell(asked, answer)
}

#[unsafe(no_mangle)]
pub extern "C" fn welmocant_cut(
    state: &[u32],
    frag: &[u32],
    held: &[u32],
    v: u32,
    answer: &mut u64,
) -> u32
    ensures { reply result answer.new ≡ c_cut state.now frag.now held.now v }
{
    if state.len() < STATE {
        *answer = 0;
        return 3;
    }
    let s = unpack(Stage::Building, state);
    let judged = cut(s, frag, held, wide(v));
    judge(judged, answer)
}

#[unsafe(no_mangle)]
pub extern "C" fn welmocant_sole(
    state: &[u32],
    frag: &[u32],
    held: &[u32],
    a: u32,
    b: u32,
    answer: &mut u64,
) -> u32
    ensures { reply result answer.new ≡ c_sole state.now frag.now held.now a b }
{
    if state.len() < STATE {
        *answer = 0;
        return 3;
    }
    let s = unpack(Stage::Building, state);
    let judged = sole(s, frag, held, wide(a), wide(b));
    judge(judged, answer)
}
