// The members of each piece, chained by rising number in section 8. Labels stand in section 7.
ghost use Rattle.std.specs.Prelude.{◌≡◌, ◌<◌};
ghost use Rattle.rules.specs.Building.{size_of};
ghost use Rattle.state.specs.Layout.{section};
ghost use Rattle.closing.specs.Closing.{Membered, Chainable, Chains, Follows, Chained};
ghost use Rattle.closing.specs.Walk.{Wide};

use crate::sections::{FIRST, LABEL, MEMBER};
use state::wide;

// From the last fragment to the first, with the first member seen so far of each piece in section 9.
pub(crate) fn chain_members(frag: &mut [u32], n: usize)
    requires { Chainable n frag.old }
    ensures { Chains n frag.old frag.new }
{
    for v in (0..n).rev() {
        let p = wide(frag[LABEL * n + v]);
        frag[MEMBER * n + v] = frag[FIRST * n + p];
        frag[FIRST * n + p] = v as u32 + 1;
    }
}

// The next member of v's piece; n behind the last.
pub(crate) fn next_member(frag: &[u32], n: usize, v: usize) -> usize
    requires { Wide n frag.now × Membered n frag.now × (v < n) }
    ensures { Follows n v frag.now result }
{
    let next = wide(frag[MEMBER * n + v]);
    if next == 0 { n } else { next - 1 }
}

// How many members the piece p has.
pub(crate) fn size_of(frag: &[u32], n: usize, p: usize) -> usize
    requires { Chained n p frag.now }
    ensures { (result ≡ size_of n (section n 7 frag.now) p) × (0 < result) }
{
    let mut size = 0;
    let mut v = p;
    while v < n {
        size += 1;
        v = next_member(frag, n, v);
    }
    size
}
