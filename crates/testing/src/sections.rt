// The sections that the numbers of the forest are tested by. Each is a slice of its own, so that a word is read after one comparison.
ghost use Rattle.std.specs.Prelude.{◌≡◌, ◌*◌, ◌≤◌, get_or, length};
ghost use Rattle.rules.specs.Tables.{parent_of};
ghost use Rattle.state.specs.Layout.{words, section, forest_in, turn_in, end_in, whose_in, Says};

use state::wide;
use tables::{END, LEVEL, PARENT, SCRATCH, TURN, WHOSE};

// The parents and the numbers of n fragments in their table.
#[derive(Clone, Copy)]
pub(crate) struct Sections<'a> {
    pub(crate) n: usize,
    // the table, which the clauses alone speak of
    frag: &'a [u32],
    parent: &'a [u32],
    turn: &'a [u32],
    end: &'a [u32],
    whose: &'a [u32],
    ghost parents: { parent.now ≡ section n 0 frag.now },
    ghost turns: { turn.now ≡ section n 4 frag.now },
    ghost ends: { end.now ≡ section n 5 frag.now },
    ghost whoses: { whose.now ≡ section n 6 frag.now },
}

// Word v of a section; 0 past its end.
fn word(section: &[u32], v: usize) -> usize
    ensures { Says result (get_or section.now v 0) }
{
    if v < section.len() {
        return wide(section[v]);
    }
    0
}

impl<'a> Sections<'a> {
    pub(crate) fn of(frag: &'a [u32], n: usize) -> Sections<'a>
        requires { words * n ≤ length frag.now }
        ensures { (result.n ≡ n) × (result.frag.now ≡ frag.now) }
    {
        Sections {
            n,
            frag,
            parent: &frag[PARENT * n..LEVEL * n],
            turn: &frag[TURN * n..END * n],
            end: &frag[END * n..WHOSE * n],
            whose: &frag[WHOSE * n..SCRATCH * n],
        }
    }

    pub(crate) fn parent_at(self, v: usize) -> usize
        ensures { Says result (parent_of (forest_in self.entry.n self.entry.frag.now) v) }
    {
        word(self.parent, v)
    }

    pub(crate) fn turn_at(self, v: usize) -> usize
        ensures { Says result (turn_in self.entry.n self.entry.frag.now v) }
    {
        word(self.turn, v)
    }

    pub(crate) fn end_at(self, v: usize) -> usize
        ensures { Says result (end_in self.entry.n self.entry.frag.now v) }
    {
        word(self.end, v)
    }

    pub(crate) fn whose_at(self, i: usize) -> usize
        ensures { Says result (whose_in self.entry.n self.entry.frag.now i) }
    {
        word(self.whose, i)
    }
}
