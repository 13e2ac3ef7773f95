// Close in Building: the pieces are placed one after another, then notes, marks and held links are cleared.
ghost use Rattle.std.specs.Prelude.{◌≡◌, ◌<◌};
ghost use Rattle.rules.specs.Building.{done};
ghost use Rattle.state.specs.Layout.{forest_in};
ghost use Rattle.state.specs.Test.{is_building};
ghost use Rattle.state.specs.Close.{close_in};
ghost use Rattle.state.specs.Answers.{closed_told};
ghost use Rattle.closing.specs.Closing.{Labels, MayClose, PlacesAll, MayEnd, PreparesFrom, EndsFrom, due_at};
ghost use Rattle.closing.specs.Walk.{Wide};

use crate::arrange::{arrange, next_or};
use crate::members::chain_members;
use crate::path::place_piece;
use crate::sections::LABEL;
use numbers::Refusal;
use pieces::{POINTER, gathered};
use state::{Closed, Stage, State, clear};
use tables::NOTE;

// Every fragment's label is the smallest member of its piece: where its pointer leads, or itself.
fn label_all(frag: &mut [u32], n: usize)
    requires { Wide n frag.old }
    ensures { Labels n frag.old frag.new }
{
    for v in 0..n {
        frag[LABEL * n + v] = next_or(v as u32, frag[POINTER * n + v]);
    }
}

// p is unplaced and its piece's smallest member.
fn is_due(frag: &[u32], n: usize, p: usize) -> bool
    requires { Wide n frag.now × (p < n) }
    ensures { result ≡ due_at n p frag.now }
{
    frag[n + p] == 0 && frag[LABEL * n + p] as usize == p
}

// The pieces are placed by smallest member.
fn place_all(frag: &mut [u32], held: &[u32], n: usize, count: usize)
    requires { MayClose n count frag.old held.now }
    ensures { PlacesAll n count frag.old held.now frag.new }
{
    for p in 0..n {
        if is_due(frag, n, p) {
            place_piece(frag, held, n, count, p);
        }
    }
}

// The pieces that stand in scratch get their labels, their members are chained, and the held links are arranged for the walks.
fn prepare(frag: &mut [u32], held: &mut [u32], n: usize, count: usize)
    requires { MayEnd n count frag.old held.old }
    ensures { PreparesFrom n count frag.old held.old frag.new held.new }
{
    label_all(frag, n);
    clear(frag, POINTER * n, LABEL * n);
    chain_members(frag, n);
    arrange(frag, held, n, count);
}

// The pass ends: its pieces are placed, and all but the forest is cleared.
pub(crate) fn end_pass(frag: &mut [u32], held: &mut [u32], n: usize, count: usize)
    requires { MayEnd n count frag.old held.old }
    ensures { EndsFrom n count frag.old held.old frag.new held.new }
{
    prepare(frag, held, n, count);
    place_all(frag, held, n, count);
    clear(frag, NOTE * n, State::WORDS * n);
    clear(held, 0, count);
}

// Every fragment is placed.
pub(crate) fn all_placed(frag: &[u32], n: usize) -> bool
    requires { Wide n frag.now }
    ensures { result ≡ done n (forest_in n frag.now) }
{
    frag[n..2 * n].iter().all(|r| *r != 0)
}

// A pass ends: it is counted, and its entries are forgotten.
pub fn close(s: State, frag: &mut [u32], held: &mut [u32]) -> Result<Closed, Refusal>
    ensures { closed_told s result frag.new held.new ≡ close_in is_building s frag.old held.old }
{
    gathered(s, frag, held)?;
    end_pass(frag, held, s.n, s.held);
    let counted = s.passes + 1;
    if all_placed(frag, s.n) {
        return Ok(Closed::Done(s.moved(Stage::Built, counted, 0, 0, false)));
    }
    Ok(Closed::More(s.moved(Stage::Building, counted, 0, 0, false)))
}
