// Open reading, take and close.
ghost use Rattle.std.specs.Prelude.{◌≡◌};
ghost use Rattle.c_calls.specs.Call.{returned, c_open, c_take, c_close};

use c_words::{STATE, end_close, end_state, end_take, unpack};
use forest::{Stage, close, open_reading, take};

// From Built or Read to Reading.
#[unsafe(no_mangle)]
pub extern "C" fn welmocant_open_reading(
    state: &mut [u32],
    frag: &mut [u32],
    held: &mut [u32],
) -> u32
    ensures { returned result 0 state.new frag.new held.new ≡ c_open state.old frag.old held.old }
{
    if state.len() < STATE {
        return 3;
    }
    let given = unpack(Stage::Building, state);
    let taken = open_reading(given, frag, held);
    end_state(taken, state)
}

// A block of whole links, in Building and Reading; where it is refused, the place.
#[unsafe(no_mangle)]
pub extern "C" fn welmocant_take(
    state: &mut [u32],
    frag: &mut [u32],
    held: &mut [u32],
    block: &[u8],
    place: &mut u64,
) -> u32
    ensures { returned result place.new state.new frag.new held.new ≡ c_take state.old frag.old held.old block.now }
{
    if state.len() < STATE {
        *place = 0;
        return 3;
    }
    let given = unpack(Stage::Built, state);
    let taken = take(given, frag, held, block);
    end_take(taken, state, place)
}

// The end of a pass: 0 where it is to be told again, 1 where the forest is built, 2 where the list read has it.
#[unsafe(no_mangle)]
pub extern "C" fn welmocant_close(
    state: &mut [u32],
    frag: &mut [u32],
    held: &mut [u32],
    ending: &mut u64,
) -> u32
    ensures { returned result ending.new state.new frag.new held.new ≡ c_close state.old frag.old held.old }
{
    if state.len() < STATE {
        *ending = 0;
        return 3;
    }
    let given = unpack(Stage::Built, state);
    let closed = close(given, frag, held);
    end_close(closed, state, ending)
}
