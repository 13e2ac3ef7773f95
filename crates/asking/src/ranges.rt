// The reach of a fragment, over the turns of those below it, and what it says of a link.
ghost use Rattle.std.specs.Prelude.{◌≡◌, ◌<◌};
ghost use Rattle.rules.specs.Reading.{reach as reaching, child_of, sole_below, sole as sole_of};
ghost use Rattle.state.specs.Layout.{forest_in};
ghost use Rattle.testing.specs.Whole.{Numbered};

use tables::{end_at, level_of, low_of, parent_of, turn_at, whose_at};

// The least note of v and all below it.
pub(crate) fn reach(frag: &[u32], n: usize, v: usize) -> usize
    requires { Numbered n frag.now × (v < n) }
    ensures { result ≡ reaching n (forest_in n frag.now) v }
{
    let end = end_at(frag, n, v);
    let mut least = low_of(frag, n, v);
    for i in turn_at(frag, n, v) + 1..end {
        least = low_of(frag, n, whose_at(frag, n, i)).min(least);
    }
    least
}

// Whether c is a child of v.
fn is_child(frag: &[u32], n: usize, v: usize, c: usize) -> bool
    ensures { result ≡ child_of (forest_in n frag.now) v c }
{
    parent_of(frag, n, c) == v && c != v
}

// Whether p is the parent of c, and nothing below c reaches higher.
fn sole_below(frag: &[u32], n: usize, p: usize, c: usize) -> bool
    requires { Numbered n frag.now × (c < n) }
    ensures { result ≡ sole_below n (forest_in n frag.now) p c }
{
    is_child(frag, n, p, c) && reach(frag, n, c) == level_of(frag, n, c)
}

pub(crate) fn is_sole(frag: &[u32], n: usize, a: usize, b: usize) -> bool
    requires { Numbered n frag.now × (a < n) × (b < n) }
    ensures { result ≡ sole_of n (forest_in n frag.now) a b }
{
    sole_below(frag, n, a, b) || sole_below(frag, n, b, a)
}
