// How many stand below each fragment, in one pass over the order from the last to the first.
ghost use Rattle.std.specs.Prelude.{◌≡◌, ◌<◌};
ghost use Rattle.testing.specs.Whole.{Whole};
ghost use Rattle.numbering.specs.Passes.{Small, grown_at, Growable, Sizes};

use crate::sections::{LEVELS, SIZE};
use state::wide;
use tables::parent_of;

// v and those below it are added to those below its parent.
#[tactic(auto, using(crate::specs::Laws::Sizes::parent_in))]
fn grow_one(frag: &mut [u32], n: usize, v: usize)
    requires { Whole n frag.old × Small 9 n frag.old × (v < n) }
    ensures { frag.new ≡ grown_at n v frag.old }
{
    let p = parent_of(frag, n, v);
    if p == v {
        return;
    }
    frag[SIZE * n + p] = frag[SIZE * n + p] + frag[SIZE * n + v] + 1;
}

pub(crate) fn sizes(frag: &mut [u32], n: usize)
    requires { Growable n frag.old }
    ensures { Sizes n frag.old frag.new }
{
    for i in (0..n).rev() {
        let v = wide(frag[LEVELS * n + i]);
        grow_one(frag, n, v);
    }
}
