// The pieces that the held links make, in scratch: by pointers that only go to smaller members, with sizes and counts at the smallest.
ghost use Rattle.std.specs.Prelude.{◌≡◌, ◌<◌, length};
ghost use Rattle.pieces.specs.Joined.{is_in, leads, found, added, counted, grown, united, bound, joined};
ghost use Rattle.pieces.specs.Pieces.{Members, Gatherable, Gathers, shorter, Leading, short_at, Shortable, Shortens};

use state::State;
use tables::{high_end, low_end};

// Sections of scratch: to a smaller member of the piece, and at the smallest member its size and its held links.
pub const POINTER: usize = 4;

pub const SIZE: usize = 5;

pub const LINKS: usize = 6;

// The first section behind them.
pub(crate) const END: usize = 7;

// What a word stays below.
const WORD: u64 = 4294967296;

// Whether a table of `len` words has the sections of n fragments, of which v is one.
fn is_in(len: usize, n: usize, v: usize) -> bool
    ensures { result ≡ is_in len n v }
{
    n <= State::FRAGMENTS && State::WORDS * n <= len && v < n
}

// Whether the pointer of u leads to a smaller fragment.
fn leads_on(word: u32, u: usize) -> bool
    ensures { result ≡ leads word u }
{
    word != 0 && word as usize <= u
}

// The smallest member of v's piece. Each fragment on the way points two steps on afterwards, so that the next way is shorter.
// It ends in any table, since it goes on to a smaller fragment only. It is v where the table has not the sections.
pub fn find(frag: &mut [u32], n: usize, v: usize) -> usize
    ensures { (result, frag.new) ≡ found n v frag.old }
{
    if !is_in(frag.len(), n, v) {
        return v;
    }
    let first = POINTER * n;
    let mut u = v;
    loop {
        let word = frag[first + u];
        if !leads_on(word, u) {
            return u;
        }
        let p = word as usize - 1;
        let up = frag[first + p];
        if !leads_on(up, p) {
            return p;
        }
        frag[first + u] = up;
        u = up as usize - 1;
    }
}

// A word with another and one added; as it was where the sum is too great for a word.
fn sum(x: u32, y: u32) -> u32
    ensures { result ≡ added x y }
{
    let both = x as u64 + y as u64 + 1;
    if both < WORD {
        return both as u32;
    }
    x
}

// One more link in the piece whose smallest member is p.
fn count_one(frag: &mut [u32], n: usize, p: usize)
    requires { Members n p p frag.old }
    ensures { frag.new ≡ counted n p frag.old }
{
    frag[LINKS * n + p] = sum(frag[LINKS * n + p], 0);
}

// One word grows by another and one.
fn grow(words: &mut [u32], at: usize, by: usize)
    requires { (at < length words.old) × (by < length words.old) }
    ensures { words.new ≡ grown at by words.old }
{
    words[at] = sum(words[at], words[by]);
}

// Of two pieces one, by a link between them: q, the greater of the two smallest members, points to p.
fn unite(frag: &mut [u32], n: usize, p: usize, q: usize)
    requires { Members n p q frag.old }
    ensures { frag.new ≡ united n p q frag.old }
{
    grow(frag, SIZE * n + p, SIZE * n + q);
    grow(frag, LINKS * n + p, LINKS * n + q);
    frag[POINTER * n + q] = p as u32 + 1;
}

// One more link, from the piece with smallest member p to the one with smallest member q.
fn bind(frag: &mut [u32], n: usize, p: usize, q: usize)
    requires { Members n p q frag.old }
    ensures { frag.new ≡ bound n p q frag.old }
{
    if p == q {
        count_one(frag, n, p);
    } else if p < q {
        unite(frag, n, p, q);
    } else {
        unite(frag, n, q, p);
    }
}

// One more held link, from a to b. Nothing changes where the table has not the sections, or an end is none of the fragments.
pub fn join(frag: &mut [u32], n: usize, a: usize, b: usize)
    ensures { frag.new ≡ joined n a b frag.old }
{
    if !is_in(frag.len(), n, a) {
        return;
    }
    if !is_in(frag.len(), n, b) {
        return;
    }
    let p = find(frag, n, a);
    let q = find(frag, n, b);
    bind(frag, n, p, q);
}

// The pieces that the first `count` held links make.
pub(crate) fn gather(frag: &mut [u32], held: &[u32], n: usize, count: usize)
    requires { Gatherable n frag.old held.now count }
    ensures { Gathers n frag.old held.now count frag.new }
{
    for i in 0..count {
        let a = low_end(held, i);
        let b = high_end(held, i);
        join(frag, n, a, b);
    }
}

// Where a pointer goes on to. The fragment to which it leads points to `up`, or is the smallest member.
fn further(word: u32, up: u32) -> u32
    ensures { result ≡ shorter word up }
{
    if up == 0 {
        return word;
    }
    up
}

// v points to the smallest member of its piece, as the fragment does to which it pointed, and has neither size nor links.
fn shorten_one(frag: &mut [u32], n: usize, v: usize)
    requires { Leading n v frag.old }
    ensures { frag.new ≡ short_at n v frag.old }
{
    let word = frag[POINTER * n + v];
    let up = frag[POINTER * n + (word as usize - 1)];
    frag[POINTER * n + v] = further(word, up);
    frag[SIZE * n + v] = 0;
    frag[LINKS * n + v] = 0;
}

// Every pointer says the smallest member, and no other fragment has a size or links: pieces stand in one way only.
pub(crate) fn shorten(frag: &mut [u32], n: usize)
    requires { Shortable n frag.old }
    ensures { Shortens n frag.old frag.new }
{
    for v in 0..n {
        if frag[POINTER * n + v] != 0 {
            shorten_one(frag, n, v);
        }
    }
}
