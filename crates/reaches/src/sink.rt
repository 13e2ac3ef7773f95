// Passes over the turns, by which parents come first: the least of each fragment's value and those of all below it, and the value of the root for all of its tree.
ghost use Rattle.std.specs.Prelude.{◌≡◌, ◌<◌};
ghost use Rattle.reaches.specs.Passes.{Sinkable, sunk_at, Sinks, Ready, fallen_at, Falls};

use crate::sections::PIECE;
use state::wide;
use tables::{WHOSE, parent_of};

// The parent's value becomes no greater than v's. Values stand from `base` on.
#[tactic(auto, using(crate::specs::Laws::Passes::parent_in))]
fn sink_one(frag: &mut [u32], n: usize, base: usize, v: usize)
    requires { Sinkable n base frag.old × (v < n) }
    ensures { frag.new ≡ sunk_at n base v frag.old }
{
    let p = parent_of(frag, n, v);
    frag[base + p] = frag[base + p].min(frag[base + v]);
}

// From the last to the first: each fragment's value becomes the least of its own and those of all below it.
pub(crate) fn sink(frag: &mut [u32], n: usize, base: usize)
    requires { Sinkable n base frag.old }
    ensures { Sinks n base frag.old frag.new }
{
    for turn in (0..n).rev() {
        let v = wide(frag[WHOSE * n + turn]);
        sink_one(frag, n, base, v);
    }
}

#[tactic(auto, using(crate::specs::Laws::Passes::parent_in))]
fn fall_one(frag: &mut [u32], n: usize, v: usize)
    requires { Ready n frag.old × (v < n) }
    ensures { frag.new ≡ fallen_at n v frag.old }
{
    let p = parent_of(frag, n, v);
    frag[PIECE * n + v] = frag[PIECE * n + p];
}

// From the first to the last: each fragment has its root's value.
pub(crate) fn fall(frag: &mut [u32], n: usize)
    requires { Ready n frag.old }
    ensures { Falls n frag.old frag.new }
{
    for i in 0..n {
        let v = wide(frag[WHOSE * n + i]);
        fall_one(frag, n, v);
    }
}
