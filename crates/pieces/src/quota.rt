// Whether no piece of the held links is over its quota.
ghost use Rattle.std.specs.Prelude.{◌<◌, ◌≤◌, ◌≡◌};
ghost use Rattle.base.specs.Pick.{pick};
ghost use Rattle.state.specs.Layout.{held_links};
ghost use Rattle.state.specs.Test.{quota_fits};
ghost use Rattle.state.specs.Call.{room_most};
ghost use Rattle.pieces.specs.Gathered.{with_pieces};
ghost use Rattle.pieces.specs.Pieces.{Pointing, Gatherable};
ghost use Rattle.pieces.specs.Check.{piece_fits, Tells, Readable};

use crate::pieces::{END, LINKS, POINTER, SIZE, gather, shorten};
use state::{clear, wide};

// 'at most k·s - 1 in a piece of s', where p is the smallest member of its piece.
fn piece_fits(frag: &[u32], n: usize, k: usize, p: usize) -> bool
    requires { Readable n k p frag.now }
    ensures { Tells n frag.now result (λ held. piece_fits n k held p) }
{
    if frag[POINTER * n + p] != 0 {
        return true;
    }
    let size = wide(frag[SIZE * n + p]) + 1;
    wide(frag[LINKS * n + p]) <= k * size - 1
}

fn quota_fits(frag: &[u32], n: usize, k: usize) -> bool
    requires { Pointing n frag.now × (0 < k) × (k ≤ room_most) }
    ensures { Tells n frag.now result (quota_fits n k) }
{
    for p in 0..n {
        if !piece_fits(frag, n, k, p) {
            return false;
        }
    }
    true
}

// The same of links that are not gathered, and where they pass their pieces in scratch.
pub(crate) fn pieces_fit(frag: &mut [u32], held: &[u32], n: usize, k: usize, count: usize) -> bool
    requires { Gatherable n frag.old held.now count × (0 < k) × (k ≤ room_most) }
    ensures { (result ≡ quota_fits n k (held_links count held.now)) × (frag.new ≡ pick result (with_pieces n (held_links count held.now) frag.old) frag.old) }
{
    gather(frag, held, n, count);
    if !quota_fits(frag, n, k) {
        clear(frag, POINTER * n, END * n);
        return false;
    }
    shorten(frag, n);
    true
}
