// Placing a piece: the whole walk, or only the path to its deepest member, with the members' forest saved in sections 12 and 13 meanwhile.
ghost use Rattle.std.specs.Prelude.{◌≡◌, ◌<◌};
ghost use Rattle.closing.specs.Closing.{Chained, Copyable, copied_at, Copies, Climbable, Climbs, MayHang, PlacesWhole, PlacesPath, MayPlace, PlacesPiece};

use crate::choose::{best_note, is_lost, top_of};
use crate::members::{next_member, size_of};
use crate::sections::SAVED;
use crate::walk::{hang, walk};

// The two words of a fragment are copied from one place to another, apart from it.
fn copy(frag: &mut [u32], n: usize, from: usize, to: usize, v: usize)
    requires { Copyable n from to frag.old × (v < n) }
    ensures { frag.new ≡ copied_at n from to v frag.old }
{
    frag[to + v] = frag[from + v];
    frag[to + n + v] = frag[from + n + v];
}

// Those of every member of the piece p.
fn copy_members(frag: &mut [u32], n: usize, p: usize, from: usize, to: usize)
    requires { Chained n p frag.old × Copyable n from to frag.old }
    ensures { Copies n p from to n frag.old frag.new }
{
    let mut v = p;
    while v < n {
        copy(frag, n, from, to, v);
        v = next_member(frag, n, v);
    }
}

// The path from the deepest member up to the top is kept.
fn climb(frag: &mut [u32], n: usize, top: usize, deepest: usize)
    requires { Climbable n top deepest frag.old }
    ensures { Climbs n top deepest frag.old frag.new }
{
    let steps = frag[n + deepest] - frag[n + top];
    let mut v = deepest;
    for _ in 0..steps {
        copy(frag, n, 0, SAVED * n, v);
        v = frag[v] as usize;
    }
    copy(frag, n, 0, SAVED * n, v);
}

// Of a lost piece only the path from the top to the deepest member is placed.
fn place_path(
    frag: &mut [u32],
    held: &[u32],
    n: usize,
    count: usize,
    p: usize,
    top: usize,
    note: usize,
)
    requires { MayHang n count p top note frag.old held.now }
    ensures { PlacesPath n count p top note frag.old held.now frag.new }
{
    let size = size_of(frag, n, p);
    copy_members(frag, n, p, 0, SAVED * n);
    hang(frag, n, top, note);
    // All members but the top are missing.
    let deepest = walk(frag, held, n, count, top, size - 1);
    climb(frag, n, top, deepest);
    copy_members(frag, n, p, SAVED * n, 0);
}

// Of a piece that is not lost the whole walk is placed.
fn place_whole(
    frag: &mut [u32],
    held: &[u32],
    n: usize,
    count: usize,
    p: usize,
    top: usize,
    note: usize,
)
    requires { MayHang n count p top note frag.old held.now }
    ensures { PlacesWhole n count p top note frag.old held.now frag.new }
{
    let size = size_of(frag, n, p);
    hang(frag, n, top, note);
    walk(frag, held, n, count, top, size - 1);
}

// The piece with smallest member p is placed.
pub(crate) fn place_piece(frag: &mut [u32], held: &[u32], n: usize, count: usize, p: usize)
    requires { MayPlace n count p frag.old held.now }
    ensures { PlacesPiece n count p frag.old held.now frag.new }
{
    let note = best_note(frag, n, p);
    let top = top_of(frag, n, p, note);
    if is_lost(frag, n, p) {
        place_path(frag, held, n, count, p, top, note);
    } else {
        place_whole(frag, held, n, count, p, top, note);
    }
}
