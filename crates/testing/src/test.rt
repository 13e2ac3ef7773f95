// The test of the tables, refusal 11, but for the held links: what the state says, one pass over the fragments, and the words that must be 0.
ghost use Rattle.std.specs.Prelude.{◌*◌, ◌≤◌, ◌≡◌, length};
ghost use Rattle.rules.specs.Search.{count, every};
ghost use Rattle.rules.specs.Tables.{placed as is_placed};
ghost use Rattle.state.specs.Layout.{words, forest_in};
ghost use Rattle.state.specs.Call.{fragments_most, room_most};
ghost use Rattle.state.specs.Test.{is_numbered, stands_at, clear_at, asked as askedIf};
ghost use Rattle.state.proofs.Laws.Bounds.{Bounds};
ghost use Rattle.testing.specs.Test.{mark_at, waits_at, noted_at, fragment_fits, counts_hold, stage_holds, rest_fits, sound_but_links};

use crate::turns::numbers_fit;
use state::{Stage, State, is_building, is_built, is_read, is_reading, zeros};
use tables::{SCRATCH, STORED, level_of, mark_at, note_at, parent_at, rank_at};

// 'a placed fragment is a root of level 0, or has a placed parent of level one less'
fn stands(frag: &[u32], n: usize, v: usize) -> bool
    ensures { result ≡ stands_at n (forest_in n frag.now) v }
{
    let p = parent_at(frag, n, v);
    let rank = rank_at(frag, n, v);
    if p == v {
        return rank == 1;
    }
    if n <= p {
        return false;
    }
    let above = rank_at(frag, n, p);
    above != 0 && rank == above + 1
}

// Neither note nor mark.
fn is_clear(frag: &[u32], n: usize, v: usize) -> bool
    ensures { result ≡ clear_at (forest_in n frag.now) v }
{
    note_at(frag, n, v) == 0 && mark_at(frag, n, v) == 0
}

// A mark is 0 or 1 and not on a root; in Read it is on every other fragment.
fn marked(frag: &[u32], n: usize, read: bool, v: usize) -> bool
    ensures { result ≡ mark_at read (forest_in n frag.now) v }
{
    let mark = mark_at(frag, n, v);
    if parent_at(frag, n, v) == v {
        return mark == 0;
    }
    if mark == 0 {
        return !read;
    }
    mark == 1
}

// An unplaced fragment has no parent, a mark of 0 or 1, and a placed fragment noted if any.
fn waits(frag: &[u32], n: usize, v: usize) -> bool
    ensures { result ≡ waits_at n (forest_in n frag.now) v }
{
    if parent_at(frag, n, v) != 0 {
        return false;
    }
    if 1 < mark_at(frag, n, v) {
        return false;
    }
    let note = note_at(frag, n, v);
    note == 0 || (note <= n && rank_at(frag, n, note - 1) != 0)
}

// The note and the mark of a placed fragment: cleared, or those of a reading pass.
fn noted(frag: &[u32], n: usize, stage: Stage, v: usize) -> bool
    ensures { result ≡ noted_at stage (forest_in n frag.now) v }
{
    if !reads(stage) {
        return is_clear(frag, n, v);
    }
    // 'a reading note is at most its fragment's level'
    note_at(frag, n, v) <= level_of(frag, n, v) && marked(frag, n, is_read(stage), v)
}

fn reads(g: Stage) -> bool
    ensures { result ≡ is_numbered g }
{
    matches!(g, Stage::Reading | Stage::Read)
}

// What the test asks of one fragment. Only Building has one that waits.
fn fragment(frag: &[u32], n: usize, stage: Stage, v: usize) -> bool
    ensures { result ≡ fragment_fits stage n (forest_in n frag.now) v }
{
    if rank_at(frag, n, v) == 0 {
        return is_building(stage) && waits(frag, n, v);
    }
    stands(frag, n, v) && noted(frag, n, stage, v)
}

fn fragments(frag: &[u32], n: usize, stage: Stage) -> bool
    ensures { result ≡ every (fragment_fits stage n (forest_in n frag.now)) n }
{
    (0..n).all(|v| fragment(frag, n, stage, v))
}

// How many fragments are placed.
pub fn count_placed(frag: &[u32], n: usize) -> usize
    ensures { result ≡ count (is_placed (forest_in n frag.now)) n }
{
    (0..n).filter(|&v| rank_at(frag, n, v) != 0).count()
}

// A clause that is asked only where a test holds.
fn asked(test: bool, clause: bool) -> bool
    ensures { result ≡ askedIf test clause }
{
    !test || clause
}

// What the test asks of the counts, where so many fragments are placed.
fn counts_hold(s: State, placed: usize) -> bool
    requires { (s.n ≤ fragments_most) × (s.k ≤ room_most) × (placed ≤ s.n) }
    ensures { result ≡ counts_hold s placed }
{
    if placed + 1 < s.passes {
        return false;
    }
    if State::ENTRIES < s.entries {
        return false;
    }
    s.held <= s.k * s.n
}

// What it asks of them by the stage.
fn stage_holds(s: State, placed: usize) -> bool
    ensures { result ≡ stage_holds s placed }
{
    let stage = s.stage;
    let building = is_building(stage);
    if !asked(building, placed < s.n) {
        return false;
    }
    if !asked(!building, s.held == 0) {
        return false;
    }
    if !asked(is_built(stage), s.entries == 0) {
        return false;
    }
    asked(!is_reading(stage), !s.crossed)
}

// Scratch is 0, and the forest's numbers are those of the forest where it is numbered.
fn rest_fits(frag: &[u32], n: usize, stage: Stage) -> bool
    requires { words * n ≤ length frag.now }
    ensures { result ≡ rest_fits n stage frag.now }
{
    if !reads(stage) {
        return zeros(frag, STORED * n, State::WORDS * n);
    }
    zeros(frag, SCRATCH * n, State::WORDS * n) && numbers_fit(frag, n)
}

// Everything but the held links.
pub(crate) fn but_links(s: State, frag: &[u32], held: &[u32]) -> bool
    requires { Bounds s.n s.k (length frag.now) (length held.now) }
    ensures { result ≡ sound_but_links s frag.now held.now }
{
    let n = s.n;
    let stage = s.stage;
    let placed = count_placed(frag, n);
    if !counts_hold(s, placed) {
        return false;
    }
    if !stage_holds(s, placed) {
        return false;
    }
    if !fragments(frag, n, stage) {
        return false;
    }
    if !zeros(held, s.held, s.k * n) {
        return false;
    }
    rest_fits(frag, n, stage)
}
