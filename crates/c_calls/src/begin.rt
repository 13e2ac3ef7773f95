// Start and adopt.
ghost use Rattle.std.specs.Prelude.{◌≡◌};
ghost use Rattle.c_calls.specs.Call.{returned, short_refusal, c_start, c_adopt};

use c_words::{STATE, end_state, wide};
use forest::{State, Why, adopt};
use state::bounds;

// The refusal due where the array is too short for a state.
fn short(n: usize, k: usize, frags: usize, helds: usize) -> u32
    ensures { result ≡ short_refusal n k frags helds }
{
    match bounds(n, k, frags, helds) {
        Ok(()) => Why::Short.number(),
        Err(why) => why.number(),
    }
}

// Building with nothing placed.
#[unsafe(no_mangle)]
pub extern "C" fn welmocant_start(
    n: u32,
    k: u32,
    state: &mut [u32],
    frag: &mut [u32],
    held: &mut [u32],
) -> u32
    ensures { returned result 0 state.new frag.new held.new ≡ c_start n k state.old frag.old held.old }
{
    if state.len() < STATE {
        return short(wide(n), wide(k), frag.len(), held.len());
    }
    let started = State::start(wide(n), wide(k), frag, held);
    end_state(started, state)
}

// Built, with a forest made elsewhere: the parent of each fragment, itself for a root.
#[unsafe(no_mangle)]
pub extern "C" fn welmocant_adopt(
    n: u32,
    k: u32,
    parents: &[u32],
    state: &mut [u32],
    frag: &mut [u32],
    held: &mut [u32],
) -> u32
    ensures { returned result 0 state.new frag.new held.new ≡ c_adopt n k parents.now state.old frag.old held.old }
{
    if state.len() < STATE {
        return short(wide(n), wide(k), frag.len(), held.len());
    }
    let started = adopt(wide(n), wide(k), parents, frag, held);
    end_state(started, state)
}
