// What a close chooses for a piece: the best note of its members, its top, and whether it is lost. The members stand chained.
ghost use Rattle.std.specs.Prelude.{◌≡◌, ◌≤◌};
ghost use Rattle.rules.specs.Building.{noted, lost};
ghost use Rattle.state.specs.Layout.{section, forest_in};
ghost use Rattle.closing.specs.Closing.{Chained, Noting, top_by, first_noted};

use crate::members::next_member;
use tables::{MARK, NOTE, better_note};

// The best note of the members of the piece p; 0 where none is noted.
pub(crate) fn best_note(frag: &[u32], n: usize, p: usize) -> usize
    requires { Noting n p frag.now }
    ensures { (result ≡ noted (forest_in n frag.now) (section n 7 frag.now) p n) × (result ≤ n) }
{
    let mut best = 0;
    let mut v = p;
    while v < n {
        best = better_note(frag, n, best, frag[NOTE * n + v] as usize);
        v = next_member(frag, n, v);
    }
    best
}

// The smallest member of the piece p that has this note.
fn first_noted(frag: &[u32], n: usize, p: usize, note: usize) -> usize
    requires { Chained n p frag.now }
    ensures { result ≡ first_noted n (forest_in n frag.now) (section n 7 frag.now) p note }
{
    let mut v = p;
    while v < n {
        if frag[NOTE * n + v] as usize == note {
            return v;
        }
        v = next_member(frag, n, v);
    }
    v
}

// The top of the piece p, of which this is the best note.
pub(crate) fn top_of(frag: &[u32], n: usize, p: usize, note: usize) -> usize
    requires { Chained n p frag.now }
    ensures { result ≡ top_by n (forest_in n frag.now) (section n 7 frag.now) p note }
{
    if note == 0 {
        return p;
    }
    first_noted(frag, n, p, note)
}

// Some member of the piece p carries a lost mark.
pub(crate) fn is_lost(frag: &[u32], n: usize, p: usize) -> bool
    requires { Chained n p frag.now }
    ensures { result ≡ lost n (forest_in n frag.now) (section n 7 frag.now) p }
{
    let mut v = p;
    while v < n {
        if frag[MARK * n + v] != 0 {
            return true;
        }
        v = next_member(frag, n, v);
    }
    false
}
