// What the reaches say: which links to a parent are sole, and which fragments are cut.
ghost use Rattle.std.specs.Prelude.{◌≡◌, ◌<◌};
ghost use Rattle.reaches.specs.Spread.{sole_at};
ghost use Rattle.state.specs.Layout.{forest_in};
ghost use Rattle.reaches.specs.Judged.{Reached, Soles, cuts_at, cut_word, cut_one, Cuttable, Cuts};

use crate::sections::{CHILD, CUT, LOW, SOLE};
use state::wide;
use tables::{level_of, parent_of};

// 1 where the link of v to its parent is sole.
fn sole_word(frag: &[u32], n: usize, v: usize) -> u32
    requires { Reached n frag.now × (v < n) }
    ensures { result ≡ sole_at n (forest_in n frag.now) v }
{
    if parent_of(frag, n, v) == v {
        return 0;
    }
    if wide(frag[LOW * n + v]) == level_of(frag, n, v) {
        return 1;
    }
    0
}

pub(crate) fn mark_soles(frag: &mut [u32], n: usize)
    requires { Reached n frag.old }
    ensures { Soles n n frag.old frag.new }
{
    for v in 0..n {
        frag[SOLE * n + v] = sole_word(frag, n, v);
    }
}

// Whether p is cut by its child c: a root by its second child, any other where the child's reach is at least p's level.
fn cuts(frag: &[u32], n: usize, p: usize, c: usize) -> bool
    requires { Reached n frag.now × (p < n) × (c < n) }
    ensures { result ≡ cuts_at n p c frag.now }
{
    if parent_of(frag, n, p) == p {
        return frag[CHILD * n + p] != 0;
    }
    level_of(frag, n, p) <= wide(frag[LOW * n + c])
}

// The word of p in the section of cuts, by its child c.
fn cut_word(frag: &[u32], n: usize, p: usize, c: usize) -> u32
    requires { Reached n frag.now × (p < n) × (c < n) }
    ensures { result ≡ cut_word n p c frag.now }
{
    if cuts(frag, n, p, c) {
        return 1;
    }
    frag[CUT * n + p]
}

#[tactic(auto, using(crate::specs::Laws::Passes::parent_in))]
fn mark_cut(frag: &mut [u32], n: usize, c: usize)
    requires { Reached n frag.old × (c < n) }
    ensures { frag.new ≡ cut_one n c frag.old }
{
    let p = parent_of(frag, n, c);
    if p == c {
        return;
    }
    frag[CUT * n + p] = cut_word(frag, n, p, c);
    frag[CHILD * n + p] = 1;
}

pub(crate) fn mark_cuts(frag: &mut [u32], n: usize)
    requires { Cuttable n frag.old }
    ensures { Cuts n n frag.old frag.new }
{
    for c in 0..n {
        mark_cut(frag, n, c);
    }
}
