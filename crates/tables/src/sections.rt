// The stored sections of the fragment table. A fragment that is none, or one past the table, has 0.
ghost use Rattle.std.specs.Prelude.{◌<◌, ◌≤◌, ◌≡◌, get_or};
ghost use Rattle.rules.specs.Tables.{parent_of, rank, note_of, mark_of, par, lev};
ghost use Rattle.rules.specs.Building.{better};
ghost use Rattle.rules.specs.Reading.{lowest};
ghost use Rattle.state.specs.Layout.{section, forest_in, turn_in, end_in, whose_in, above_in, Says};

use state::wide;

pub const PARENT: usize = 0;

// One more than the level.
pub const LEVEL: usize = 1;

pub const NOTE: usize = 2;

pub const MARK: usize = 3;

// So many sections are stored in every stage.
pub const STORED: usize = 4;

// The numbers of the forest, which are stored in Reading and Read.
pub const TURN: usize = 4;

pub const END: usize = 5;

pub const WHOSE: usize = 6;

// The first section that is scratch in every stage.
pub const SCRATCH: usize = 7;

// Word v of a section behind the first.
fn word_at(frag: &[u32], n: usize, j: usize, v: usize) -> usize
    requires { (0 < j) × (j ≤ 6) }
    ensures { Says result (get_or (section n j frag.now) v 0) }
{
    if n <= v {
        return 0;
    }
    if frag.len() < n {
        return 0;
    }
    let i = j * n + v;
    if frag.len() <= i {
        return 0;
    }
    wide(frag[i])
}

pub fn parent_at(frag: &[u32], n: usize, v: usize) -> usize
    ensures { Says result (parent_of (forest_in n frag.now) v) }
{
    if n <= v {
        return 0;
    }
    if frag.len() <= v {
        return 0;
    }
    wide(frag[v])
}

// One more than the level.
pub fn rank_at(frag: &[u32], n: usize, v: usize) -> usize
    ensures { Says result (rank (forest_in n frag.now) v) }
{
    word_at(frag, n, LEVEL, v)
}

pub fn note_at(frag: &[u32], n: usize, v: usize) -> usize
    ensures { Says result (note_of (forest_in n frag.now) v) }
{
    word_at(frag, n, NOTE, v)
}

pub fn mark_at(frag: &[u32], n: usize, v: usize) -> usize
    ensures { Says result (mark_of (forest_in n frag.now) v) }
{
    word_at(frag, n, MARK, v)
}

// The parent and the level in the forest that stands: an unplaced fragment counts as a root by itself.
pub fn parent_of(frag: &[u32], n: usize, v: usize) -> usize
    ensures { result ≡ par (forest_in n frag.now) v }
{
    if rank_at(frag, n, v) == 0 {
        return v;
    }
    parent_at(frag, n, v)
}

pub fn level_of(frag: &[u32], n: usize, v: usize) -> usize
    ensures { result ≡ lev (forest_in n frag.now) v }
{
    let rank = rank_at(frag, n, v);
    if rank == 0 {
        return 0;
    }
    rank - 1
}

// The least of a fragment's own level and the levels that it noted.
pub fn low_of(frag: &[u32], n: usize, v: usize) -> usize
    ensures { result ≡ lowest (forest_in n frag.now) v }
{
    let own = level_of(frag, n, v);
    let note = note_at(frag, n, v);
    if own <= note {
        return 0;
    }
    own - note
}

// The turn of v in depth-first order.
pub fn turn_at(frag: &[u32], n: usize, v: usize) -> usize
    ensures { Says result (turn_in n frag.now v) }
{
    word_at(frag, n, TURN, v)
}

// Where those below v end: the turn of the next one that is not below it.
pub fn end_at(frag: &[u32], n: usize, v: usize) -> usize
    ensures { Says result (end_in n frag.now v) }
{
    word_at(frag, n, END, v)
}

// The fragment whose turn is i.
pub fn whose_at(frag: &[u32], n: usize, i: usize) -> usize
    ensures { Says result (whose_in n frag.now i) }
{
    word_at(frag, n, WHOSE, i)
}

// Whether b comes at a's turn or behind it, and before those below a end.
pub fn is_above(frag: &[u32], n: usize, a: usize, b: usize) -> bool
    ensures { result ≡ above_in n frag.now a b }
{
    let turn = turn_at(frag, n, b);
    if turn < turn_at(frag, n, a) {
        return false;
    }
    turn < end_at(frag, n, a)
}

// B2: of two notes the better.
pub fn better_note(frag: &[u32], n: usize, old: usize, new: usize) -> usize
    ensures { result ≡ better (forest_in n frag.now) old new }
{
    if new == 0 {
        return old;
    }
    if old == 0 {
        return new;
    }
    let was = rank_at(frag, n, old - 1);
    let is = rank_at(frag, n, new - 1);
    if was < is {
        return new;
    }
    if is < was {
        return old;
    }
    if new < old {
        return new;
    }
    old
}
