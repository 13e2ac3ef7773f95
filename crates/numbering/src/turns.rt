// The turns: how many stand below the smaller ones beside each fragment, then one pass over the order from the first to the last.
ghost use Rattle.std.specs.Prelude.{◌≡◌, ◌*◌, ◌≤◌, ◌<◌};
ghost use Rattle.state.specs.Layout.{forest_in};
ghost use Rattle.testing.specs.Whole.{Whole};
ghost use Rattle.numbering.specs.Passes.{Small, seat_of, Sized, Passing, turned_at, Turnable, Turns, Turned, Ends};

use crate::sections::{LEVELS, SIZE};
use state::wide;
use tables::{END, TURN, WHOSE, parent_of};

// The word that counts those below the ones beside v.
#[tactic(auto, using(crate::specs::Laws::Sizes::parent_in))]
fn seat(frag: &[u32], n: usize, v: usize) -> usize
    requires { Whole n frag.now × (v < n) }
    ensures { (result ≡ seat_of n (forest_in n frag.now) v) × (5 * n ≤ result) × (result < 7 * n) }
{
    let p = parent_of(frag, n, v);
    if p == v {
        return WHOSE * n;
    }
    END * n + p
}

// By rising number: how many stand below the smaller ones beside each fragment.
pub(crate) fn count_passed(frag: &mut [u32], n: usize)
    requires { Sized n frag.old }
    ensures { Passing n n frag.old frag.new }
{
    for v in 0..n {
        let s = seat(frag, n, v);
        let passed = frag[s];
        let size = frag[SIZE * n + v];
        frag[TURN * n + v] = passed;
        frag[s] = passed + size + 1;
    }
}

// v comes behind its parent.
#[tactic(auto, using(crate::specs::Laws::Sizes::parent_in))]
fn turn_one(frag: &mut [u32], n: usize, v: usize)
    requires { Whole n frag.old × Small 4 n frag.old × (v < n) }
    ensures { frag.new ≡ turned_at n v frag.old }
{
    let p = parent_of(frag, n, v);
    if p == v {
        return;
    }
    frag[TURN * n + v] = frag[TURN * n + p] + frag[TURN * n + v] + 1;
}

pub(crate) fn turns(frag: &mut [u32], n: usize)
    requires { Turnable n frag.old }
    ensures { Turns n frag.old frag.new }
{
    for i in 0..n {
        let v = wide(frag[LEVELS * n + i]);
        turn_one(frag, n, v);
    }
}

// Where those below each fragment end, and whose each turn is.
#[tactic(auto, using(crate::specs::Laws::Ends::ends_turn_small, crate::specs::Laws::Ends::ends_size_small))]
pub(crate) fn ends(frag: &mut [u32], n: usize)
    requires { Turned n frag.old }
    ensures { Ends n n frag.old frag.new }
{
    for v in 0..n {
        let turn = frag[TURN * n + v];
        let size = frag[SIZE * n + v];
        frag[END * n + v] = turn + size + 1;
        frag[WHOSE * n + turn as usize] = v as u32;
    }
}
