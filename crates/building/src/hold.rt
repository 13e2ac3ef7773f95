// B3: a link between two unplaced fragments is held, or marks its piece lost.
ghost use Rattle.std.specs.Prelude.{◌≡◌};
ghost use Rattle.rules.specs.Building.{hold_link};
ghost use Rattle.pieces.specs.Gathered.{held_tables};
ghost use Rattle.building.specs.Telling.{Leaves, Sized, room_at, Holdable, Holds, Between, MayHold};

use crate::noted::{Place, is_held, note_held};
use pieces::{LINKS, SIZE, find, join};
use state::wide;
use tables::{MARK, put_link};

// Room for one more link in the piece whose smallest member is p.
fn has_room(frag: &[u32], n: usize, k: usize, p: usize) -> bool
    requires { Sized n k p frag.now }
    ensures { result ≡ room_at n k p frag.now }
{
    let links = wide(frag[LINKS * n + p]);
    let size = wide(frag[SIZE * n + p]) + 1;
    links < k * size - 1
}

// Whether a link between two unplaced fragments is to be held. One that joins two pieces is new.
// One inside a piece that is new and finds no room marks the piece lost.
fn may_hold(
    frag: &mut [u32],
    held: &[u32],
    n: usize,
    k: usize,
    count: usize,
    a: usize,
    b: usize,
    place: Place<'_>,
) -> bool
    requires { Between n k count a b frag.old held.now }
    ensures { MayHold n k count a b frag.old held.now result frag.new }
{
    let p = find(frag, n, a);
    let q = find(frag, n, b);
    if p != q {
        return true;
    }
    let room = has_room(frag, n, k, p);
    // Full and lost: held or not, the link changes nothing.
    if !room && frag[MARK * n + p] == 1 {
        return false;
    }
    if is_held(frag, held, n, count, a, b, place) {
        return false;
    }
    if room {
        return true;
    }
    frag[MARK * n + p] = 1;
    false
}

// The link is held, with the smaller end first, and its pieces become one.
fn hold(frag: &mut [u32], held: &mut [u32], n: usize, count: usize, a: usize, b: usize)
    requires { Holdable n count a b frag.old held.old }
    ensures { Holds n count a b frag.old held.old frag.new held.new }
{
    put_link(held, count, a, b);
    if a < b {
        join(frag, n, a, b);
    } else {
        join(frag, n, b, a);
    }
}

// A link between two unplaced fragments. Returns how many links are held now.
pub(crate) fn hold_link(
    frag: &mut [u32],
    held: &mut [u32],
    n: usize,
    k: usize,
    count: usize,
    a: usize,
    b: usize,
    place: Place<'_>,
) -> usize
    requires { Between n k count a b frag.old held.old }
    ensures { Leaves n k count frag.old held.old result frag.new held.new (hold_link n k a b (held_tables n count frag.old held.old)) }
{
    if may_hold(frag, held, n, k, count, a, b, place) {
        hold(frag, held, n, count, a, b);
        note_held(frag, n, a, b);
        return count + 1;
    }
    count
}
