// The walk of a piece along the held links, which stand arranged. Two cursors for each fragment reached: no neighbour that it passed is looked at again.
ghost use Rattle.std.specs.Prelude.{◌≡◌, ◌<◌, length};
ghost use Rattle.closing.specs.Arranged.{smaller_at, after_at};
ghost use Rattle.closing.specs.Walk.{Wide, cursors_at, entered_at, Found, Findable, Seekable, SeeksSmaller, SeeksGreater, Seeks, put_at, hung_at, Hangable, Reachable, deeper, reached_at, MayWalk, Walks};

use crate::sections::{GREATER, LEAST, SMALLER, START};
use tables::RADIX;

// The neighbour at a place among the smaller neighbours of a fragment.
fn smaller_at(held: &[u32], i: usize) -> usize
    requires { i < length held.now }
    ensures { result ≡ smaller_at held.now i }
{
    (held[i] % RADIX) as usize
}

// Of the neighbour at a place, the next greater neighbour after the fragment whose place it is; that fragment where there is none.
fn after_at(held: &[u32], i: usize) -> usize
    requires { i < length held.now }
    ensures { result ≡ after_at held.now i }
{
    (held[i] / RADIX) as usize
}

// The place of v among the smaller neighbours of b, which rise.
fn place_of(frag: &[u32], held: &[u32], n: usize, b: usize, v: usize) -> usize
    requires { Findable n b v frag.now held.now }
    ensures { Found n b v frag.now held.now result }
{
    let first = frag[START * n + b] as usize;
    let end = frag[START * n + (b + 1)] as usize;
    first + held[first + 1..end].partition_point(|w| (*w % RADIX) as usize <= v)
}

// The place of the next unplaced one of the smaller neighbours of v, or the place where they end.
fn next_smaller(frag: &[u32], held: &[u32], n: usize, v: usize) -> usize
    requires { Seekable n v frag.now held.now }
    ensures { SeeksSmaller n v result frag.now held.now }
{
    let from = frag[SMALLER * n + v] as usize;
    let end = frag[START * n + (v + 1)] as usize;
    for i in from..end {
        let w = smaller_at(held, i);
        if frag[n + w] == 0 {
            return i;
        }
    }
    end
}

// One more than the next unplaced one of the greater neighbours of v; 0 where the walk is through with them.
fn next_greater(frag: &[u32], held: &[u32], n: usize, v: usize) -> usize
    requires { Seekable n v frag.now held.now }
    ensures { SeeksGreater n v result frag.now held.now }
{
    let mut g = frag[GREATER * n + v] as usize;
    while g != 0 {
        let b = g - 1;
        if frag[n + b] == 0 {
            return g;
        }
        let i = place_of(frag, held, n, b, v);
        let w = after_at(held, i);
        if w == b {
            return 0;
        }
        g = w + 1;
    }
    0
}

// The cursors of v are kept.
fn keep_cursors(frag: &mut [u32], n: usize, v: usize, g: u32, s: u32)
    requires { Wide n frag.old × (v < n) }
    ensures { frag.new ≡ cursors_at n v g s frag.old }
{
    frag[GREATER * n + v] = g;
    frag[SMALLER * n + v] = s;
}

// The smallest unplaced neighbour of v; n where there is none.
fn next_of(frag: &mut [u32], held: &[u32], n: usize, v: usize) -> usize
    requires { Seekable n v frag.old held.now }
    ensures { Seeks n v result frag.old held.now frag.new }
{
    let i = next_smaller(frag, held, n, v);
    let end = frag[START * n + (v + 1)] as usize;
    if i < end {
        frag[SMALLER * n + v] = i as u32;
        return smaller_at(held, i);
    }
    let g = next_greater(frag, held, n, v);
    keep_cursors(frag, n, v, g as u32, i as u32);
    if g != 0 {
        return g - 1;
    }
    n
}

// The walk comes to v: the cursors stand at its first neighbours.
fn enter(frag: &mut [u32], n: usize, v: usize)
    requires { Wide n frag.old × (v < n) }
    ensures { frag.new ≡ entered_at n v frag.old }
{
    let g = frag[LEAST * n + v];
    let s = frag[START * n + v];
    keep_cursors(frag, n, v, g, s);
}

// A fragment is placed: its parent, and one more than its level.
fn put(frag: &mut [u32], n: usize, v: usize, p: usize, r: u32)
    requires { Wide n frag.old × (v < n) × (p < n) }
    ensures { frag.new ≡ put_at n v p r frag.old }
{
    frag[v] = p as u32;
    frag[n + v] = r;
}

// The top of a piece hangs under the fragment noted, or is a root.
pub(crate) fn hang(frag: &mut [u32], n: usize, top: usize, note: usize)
    requires { Hangable n top note frag.old }
    ensures { frag.new ≡ hung_at n top note frag.old }
{
    if note == 0 {
        put(frag, n, top, top, 1);
    } else {
        let r = frag[n + (note - 1)];
        put(frag, n, top, note - 1, r + 1);
    }
}

// The walk goes on from `at` to x; the deepest reached so far.
fn reach(frag: &mut [u32], n: usize, at: usize, x: usize, deepest: usize) -> usize
    requires { Reachable n at x deepest frag.old }
    ensures { (result ≡ deeper n at x deepest frag.old) × (frag.new ≡ reached_at n at x frag.old) }
{
    let r = frag[n + at] + 1;
    let most = frag[n + deepest];
    put(frag, n, x, at, r);
    enter(frag, n, x);
    if most < r { x } else { deepest }
}

// The whole walk from a top that is placed; the deepest member. At most `missing` members of its piece are not reached yet: it ends with the last of them.
pub(crate) fn walk(
    frag: &mut [u32],
    held: &[u32],
    n: usize,
    count: usize,
    top: usize,
    mut missing: usize,
) -> usize
    requires { MayWalk n count top missing frag.old held.now }
    ensures { Walks n count top missing result frag.old held.now frag.new }
{
    enter(frag, n, top);
    let mut at = top;
    let mut deepest = top;
    for _ in 0..2 * n {
        if missing == 0 {
            return deepest;
        }
        let x = next_of(frag, held, n, at);
        if x < n {
            deepest = reach(frag, n, at, x, deepest);
            at = x;
            missing -= 1;
        } else {
            if at == top {
                return deepest;
            }
            at = frag[at] as usize;
        }
    }
    deepest
}
