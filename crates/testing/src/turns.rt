// The test of the numbers of the forest: each fragment's words against those of its parent, of its first child and of the next one beside it.
ghost use Rattle.std.specs.Prelude.{◌≡◌, ◌*◌, ◌≤◌, length};
ghost use Rattle.rules.specs.Search.{every};
ghost use Rattle.state.specs.Layout.{words, forest_in};
ghost use Rattle.testing.specs.Test.{under_at, comes_at, rises_to, root_fits, child_fits, words_fit};

use crate::sections::Sections;

// Whether the fragment whose turn is i has the parent p.
fn is_under(t: Sections, p: usize, i: usize) -> bool
    ensures { result ≡ under_at t.entry.n (forest_in t.entry.n t.entry.frag.now) t.entry.frag.now p i }
{
    if t.n <= i {
        return false;
    }
    let w = t.whose_at(i);
    w < t.n && t.parent_at(w) == p
}

// v comes at its own turn, and what stands below it ends there or begins with a child.
fn comes(t: Sections, v: usize) -> bool
    ensures { result ≡ comes_at t.entry.n (forest_in t.entry.n t.entry.frag.now) t.entry.frag.now v }
{
    let turn = t.turn_at(v);
    if t.n <= turn {
        return false;
    }
    if t.whose_at(turn) != v {
        return false;
    }
    let end = t.end_at(v);
    turn < end && (end == turn + 1 || is_under(t, v, turn + 1))
}

// Whether the fragment whose turn is i is greater than v and has the parent p.
fn rises(t: Sections, v: usize, p: usize, i: usize) -> bool
    ensures { result ≡ rises_to t.entry.n (forest_in t.entry.n t.entry.frag.now) t.entry.frag.now v p i }
{
    v < t.whose_at(i) && is_under(t, p, i)
}

fn root_fits(t: Sections, v: usize) -> bool
    ensures { result ≡ root_fits t.entry.n (forest_in t.entry.n t.entry.frag.now) t.entry.frag.now v }
{
    let end = t.end_at(v);
    end == t.n || rises(t, v, t.whose_at(end), end)
}

fn child_fits(t: Sections, p: usize, v: usize) -> bool
    ensures { result ≡ child_fits t.entry.n (forest_in t.entry.n t.entry.frag.now) t.entry.frag.now p v }
{
    if t.turn_at(v) <= t.turn_at(p) {
        return false;
    }
    let end = t.end_at(v);
    end == t.end_at(p) || rises(t, v, p, end)
}

fn words_fit(t: Sections, v: usize) -> bool
    ensures { result ≡ words_fit t.entry.n (forest_in t.entry.n t.entry.frag.now) t.entry.frag.now v }
{
    if !comes(t, v) {
        return false;
    }
    let p = t.parent_at(v);
    if p == v {
        return root_fits(t, v);
    }
    child_fits(t, p, v)
}

pub(crate) fn numbers_fit(frag: &[u32], n: usize) -> bool
    requires { words * n ≤ length frag.now }
    ensures { result ≡ every (words_fit n (forest_in n frag.now) frag.now) n }
{
    let t = Sections::of(frag, n);
    (0..n).all(|v| words_fit(t, v))
}
