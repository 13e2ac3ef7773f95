// Whether a link is held twice: the held words noted in scratch, class by class.
ghost use Rattle.std.specs.Prelude.{◌≤◌, ◌≡◌, eqb};
ghost use Rattle.index.specs.Index.{Indexed};
ghost use Rattle.differing.specs.Batches.{Open, classes_most, class_of, Batchable, Batches, Recalls, Missable, Misses, Comparable, Sifts, Compares};

use index::look;
use state::{State, clear};
use tables::STORED;

// A class of words by its number, of so many.
#[derive(Clone, Copy)]
struct Class {
    number: usize,
    of: usize,
}

impl Class {
    // Whether a word is in the class: equal words are in one. The factor is not that of `home`, so that the words of a class spread over all slots.
    fn has(self, w: u32) -> bool
        requires { self.of ≤ classes_most }
        ensures { result ≡ eqb (class_of self.of w) self.number }
    {
        let spread = w as u64 * 2246822519 % 4294967296;
        (spread * self.of as u64 / 4294967296) as usize == self.number
    }
}

// Held words of class c from one place on are noted, to another or until one finds no slot. Returns where it stopped; 0 where a word was noted already.
fn note_batch(
    frag: &mut [u32],
    held: &[u32],
    at: usize,
    size: usize,
    from: usize,
    to: usize,
    c: Class,
) -> usize
    requires { Batchable at size from to c.of frag.old held.now }
    ensures { Batches at size from to c.number c.of frag.old held.now result frag.new }
{
    for i in from..to {
        let w = held[i];
        if !c.has(w) {
            continue;
        }
        let s = look(frag, at, size as u32, w);
        if s == size {
            return i;
        }
        if frag[at + s] != 0 {
            return 0;
        }
        frag[at + s] = w;
    }
    to
}

fn is_noted(frag: &[u32], at: usize, size: usize, w: u32) -> bool
    requires { Open at size frag.now × Indexed at size frag.now }
    ensures { Recalls at size frag.now w result }
{
    let s = look(frag, at, size as u32, w);
    s != size && frag[at + s] != 0
}

// None of the held words of class c from one place to another is noted.
fn none_noted(
    frag: &[u32],
    held: &[u32],
    at: usize,
    size: usize,
    from: usize,
    to: usize,
    c: Class,
) -> bool
    requires { Missable at size from to c.of frag.now held.now }
    ensures { Misses at size from to c.number c.of frag.now held.now result }
{
    for i in from..to {
        let w = held[i];
        if c.has(w) && is_noted(frag, at, size, w) {
            return false;
        }
    }
    true
}

// No word of class c is held twice. As a rule one batch notes them all. Where one finds no slot, those behind the batch are looked up, and noted in further batches.
fn class_differs(frag: &mut [u32], held: &[u32], n: usize, count: usize, c: Class) -> bool
    requires { Comparable n count frag.old held.now × (c.of ≤ classes_most) }
    ensures { Sifts n count c.number c.of frag.old held.now result frag.new }
{
    let mut base = 0;
    while base < count {
        let end = note_batch(frag, held, 4 * n, 12 * n, base, count, c);
        if end == 0 {
            return false;
        }
        if !none_noted(frag, held, 4 * n, 12 * n, end, count, c) {
            return false;
        }
        clear(frag, STORED * n, State::WORDS * n);
        base = end;
    }
    true
}

// 'none twice', class by class. A class has some 8n words at most, which the 12n slots hold; n may be 0.
pub(crate) fn none_twice(frag: &mut [u32], held: &[u32], n: usize, count: usize) -> bool
    requires { Comparable n count frag.old held.now }
    ensures { Compares n count frag.old held.now result frag.new }
{
    let classes = count / (8 * n + 1) + 1;
    for number in 0..classes {
        let c = Class {
            number,
            of: classes,
        };
        if !class_differs(frag, held, n, count, c) {
            return false;
        }
    }
    true
}
