// Whether a fragment is cut: by its children, which stand one behind the other in its range of turns.
ghost use Rattle.std.specs.Prelude.{◌≡◌, ◌<◌, leb};
ghost use Rattle.rules.specs.Search.{count, some};
ghost use Rattle.rules.specs.Reading.{child_of, cut};
ghost use Rattle.state.specs.Layout.{forest_in};
ghost use Rattle.testing.specs.Whole.{Numbered};
ghost use Rattle.asking.specs.Ranges.{shut};

use crate::ranges::reach;
use tables::{end_at, level_of, parent_of, turn_at, whose_at};

// Whether v has two children or more: the first one's turns end before v's.
fn has_two(frag: &[u32], n: usize, v: usize) -> bool
    requires { Numbered n frag.now × (v < n) }
    ensures { result ≡ leb 2 (count (child_of (forest_in n frag.now) v) n) }
{
    let end = end_at(frag, n, v);
    let i = turn_at(frag, n, v) + 1;
    if end <= i {
        return false;
    }
    end_at(frag, n, whose_at(frag, n, i)) < end
}

// Whether some child of v does not reach above v.
fn has_shut(frag: &[u32], n: usize, v: usize) -> bool
    requires { Numbered n frag.now × (v < n) }
    ensures { result ≡ some (shut n (forest_in n frag.now) v) n }
{
    let level = level_of(frag, n, v);
    let end = end_at(frag, n, v);
    let mut i = turn_at(frag, n, v) + 1;
    while i < end {
        let c = whose_at(frag, n, i);
        let next = end_at(frag, n, c);
        if level <= reach(frag, n, c) {
            return true;
        }
        i = next;
    }
    false
}

pub(crate) fn is_cut(frag: &[u32], n: usize, v: usize) -> bool
    requires { Numbered n frag.now × (v < n) }
    ensures { result ≡ cut n (forest_in n frag.now) v }
{
    if parent_of(frag, n, v) == v {
        return has_two(frag, n, v);
    }
    has_shut(frag, n, v)
}
