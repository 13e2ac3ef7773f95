// Links noted in sections 7 to 15 while a block is told, each with whether it is held: a link told again is not looked for in the held table.
ghost use Rattle.std.specs.Prelude.{◌*◌, ◌≤◌, ◌<◌, min, max, ◌≡◌, length};
ghost use Rattle.state.specs.Layout.{radix, link_in, word_of, held_links};
ghost use Rattle.building.specs.Noted.{Ends, Noted, Apart, Askable, Answers, Flags, Learnable, Flaggable, Addable, Stands, Fresh, Anew, Matching, Unnoted};

use crate::links::is_among;
use index::{FLAG, look};
use state::{State, clear};

// The first section of the index.
pub(crate) const NOTED: usize = 7;

// Where a link stands that is told: at byte `at` of a block, with `entries` before it in the pass.
#[derive(Clone, Copy)]
pub(crate) struct Place<'a> {
    pub(crate) block: &'a [u8],
    pub(crate) at: usize,
    pub(crate) entries: u32,
}

// The word of a link, the smaller end in the high part.
fn word_of(a: usize, b: usize) -> u32
    requires { (a < radix) × (b < radix) }
    ensures { result ≡ word_of (min a b, max a b) }
{
    tables::word_of(a, b)
}

// A word as it stands, 0 where it is not noted.
fn standing(frag: &[u32], n: usize, w: u32) -> u32
    requires { Flaggable n w frag.now }
    ensures { Stands n w frag.now result }
{
    let size = 9 * n - 1;
    let i = look(frag, NOTED * n, size as u32, w);
    if i == size {
        return 0;
    }
    frag[NOTED * n + i]
}

// A held link that is not noted, whose way ends in the empty slot i. The word behind the slots is 0, or one more than how many links are noted
// where every held one is: then this one is noted too, until 4·n are.
fn note_more(frag: &mut [u32], n: usize, w: u32, i: usize)
    requires { Addable n w i frag.old }
    ensures { Flags n (link_in w) frag.old frag.new }
{
    let behind = NOTED * n + (9 * n - 1);
    let whole = frag[behind];
    if whole == 0 {
        return;
    }
    if 4 * n < whole as usize {
        frag[behind] = 0;
    } else {
        frag[NOTED * n + i] = w + FLAG;
        frag[behind] = whole + 1;
    }
}

// The link of a word is held: the word has its flag where it is noted.
fn set_flag(frag: &mut [u32], n: usize, w: u32)
    requires { Flaggable n w frag.old }
    ensures { Flags n (link_in w) frag.old frag.new }
{
    let size = 9 * n - 1;
    let i = look(frag, NOTED * n, size as u32, w);
    if i == size {
        // No slot is left: not every held link is noted.
        frag[NOTED * n + size] = 0;
        return;
    }
    let x = frag[NOTED * n + i];
    if x == 0 {
        note_more(frag, n, w, i);
        return;
    }
    if x < FLAG {
        frag[NOTED * n + i] = x + FLAG;
    }
}

// The link from a to b is held now.
pub(crate) fn note_held(frag: &mut [u32], n: usize, a: usize, b: usize)
    requires { Learnable n a b frag.old }
    ensures { Flags n (min a b, max a b) frag.old frag.new }
{
    set_flag(frag, n, word_of(a, b));
}

// The first `count` held links are told to the links noted.
fn set_flags(frag: &mut [u32], held: &[u32], n: usize, count: usize)
    requires { Matching n count frag.old held.now }
    ensures { Noted n (held_links count held.now) frag.new × Apart n frag.old frag.new }
{
    for &w in &held[..count] {
        set_flag(frag, n, w);
    }
}

// Where the held links are few, every one of them is noted: a link that is not noted then is not held.
pub(crate) fn note_all(frag: &mut [u32], held: &[u32], n: usize, count: usize)
    requires { Unnoted n count frag.old held.now }
    ensures { Noted n (held_links count held.now) frag.new × Apart n frag.old frag.new }
{
    if count < 4 * n {
        frag[NOTED * n + (9 * n - 1)] = 1;
        set_flags(frag, held, n, count);
    }
}

// A link between two unplaced fragments is noted. Returns how many were: 0 or 1, or 4·n where no slot is left.
fn note_one(frag: &mut [u32], n: usize, a: usize, b: usize) -> usize
    requires { Fresh n frag.old × Ends n a b }
    ensures { Fresh n frag.new × Apart n frag.old frag.new × (result ≤ 4 * n) }
{
    if frag[n + a] != 0 || frag[n + b] != 0 {
        return 0;
    }
    let w = word_of(a, b);
    let size = 9 * n - 1;
    let i = look(frag, NOTED * n, size as u32, w);
    if i == size {
        return 4 * n;
    }
    if frag[NOTED * n + i] != 0 {
        return 0;
    }
    frag[NOTED * n + i] = w;
    1
}

// Where in a block the noting ends: not much farther than what was told and held before.
fn block_end(len: usize, at: usize, most: usize) -> usize
    ensures { result ≤ len }
{
    at.saturating_add(at / 2).saturating_add(most).min(len)
}

// Links of a block from a place up to byte `end` are noted, until 4·n are.
fn note_links(frag: &mut [u32], n: usize, place: Place<'_>, end: usize)
    requires { Fresh n frag.old × (end ≤ length place.block.now) }
    ensures { Fresh n frag.new × Apart n frag.old frag.new }
{
    let mut told = place.entries;
    let mut at = place.at;
    let mut c = 0;
    while at < end {
        if 4 * n <= c {
            return;
        }
        match lists::link_at(n as u32, told, place.block, at) {
            Ok((a, b, next)) => {
                c += note_one(frag, n, a as usize, b as usize);
                told += 1;
                at = next;
            }
            Err(_) => {
                return;
            }
        }
    }
}

// The links noted so far give way to those that follow in the block.
fn note_anew(frag: &mut [u32], held: &[u32], n: usize, count: usize, place: Place<'_>)
    requires { Anew n count frag.old held.now }
    ensures { Noted n (held_links count held.now) frag.new × Apart n frag.old frag.new }
{
    clear(frag, NOTED * n, State::WORDS * n);
    let end = block_end(place.block.len(), place.at, 2 * count + 1024);
    note_links(frag, n, place, end);
    set_flags(frag, held, n, count);
}

// Whether the link between a and b, which is told at this place, is held.
pub(crate) fn is_held(
    frag: &mut [u32],
    held: &[u32],
    n: usize,
    count: usize,
    a: usize,
    b: usize,
    place: Place<'_>,
) -> bool
    requires { Askable n count a b frag.old held.now }
    ensures { Answers n count a b frag.old held.now result frag.new }
{
    let x = standing(frag, n, word_of(a, b));
    if x != 0 {
        return FLAG <= x;
    }
    if frag[NOTED * n + (9 * n - 1)] != 0 {
        return false;
    }
    let answer = is_among(held, 0, count, a, b);
    note_anew(frag, held, n, count, place);
    answer
}
