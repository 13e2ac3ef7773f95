// The pieces, cuts and sole links of all fragments, for the report of a whole forest.
ghost use Rattle.std.specs.Prelude.{◌≡◌};
ghost use Rattle.numbers.specs.Answers.{due};
ghost use Rattle.state.specs.Test.{is_read};
ghost use Rattle.state.specs.Call.{head_refusal};
ghost use Rattle.state.specs.Layout.{forest_in};
ghost use Rattle.reaches.specs.Spread.{laid, spread_in};
ghost use Rattle.reaches.specs.Passes.{Ready, Layable, Low, Own};
ghost use Rattle.reaches.specs.Judged.{Lows, Pieces};

use crate::judge::{mark_cuts, mark_soles};
use crate::sections::{LOW, PAST, PIECE};
use crate::sink::{fall, sink};
use numbers::Why;
use state::{State, clear, is_read};
use tables::low_of;
use testing::head;

#[tactic(auto, using(crate::specs::Laws::Passes::low_small))]
fn note_all(frag: &mut [u32], n: usize)
    requires { Ready n frag.old }
    ensures { Low n n frag.old frag.new }
{
    for v in 0..n {
        frag[LOW * n + v] = low_of(frag, n, v) as u32;
    }
}

fn own_all(frag: &mut [u32], n: usize)
    requires { Ready n frag.old }
    ensures { Own n n frag.old frag.new }
{
    for v in 0..n {
        frag[PIECE * n + v] = v as u32;
    }
}

// The reach of each fragment.
fn lows(frag: &mut [u32], n: usize)
    requires { Ready n frag.old }
    ensures { Lows n frag.old frag.new }
{
    note_all(frag, n);
    sink(frag, n, LOW * n);
}

// The smallest fragment of each tree, found at its root and handed down to all.
fn pieces(frag: &mut [u32], n: usize)
    requires { Ready n frag.old }
    ensures { Pieces n frag.old frag.new }
{
    own_all(frag, n);
    sink(frag, n, PIECE * n);
    fall(frag, n);
}

fn lay(frag: &mut [u32], n: usize)
    requires { Layable n frag.old }
    ensures { frag.new ≡ laid n (forest_in n frag.old) frag.old }
{
    lows(frag, n);
    pieces(frag, n);
    mark_soles(frag, n);
    mark_cuts(frag, n);
    clear(frag, LOW * n, PAST * n);
}

// The refusal due at the head of a question that is asked in Read. Where none is the answers stand in sections 7 to 9, else the table is as it was found.
pub fn spread(s: State, frag: &mut [u32], held: &[u32]) -> Result<(), Why>
    ensures { (due result ≡ head_refusal is_read s frag.old held.now) × (frag.new ≡ spread_in s frag.old held.now) }
{
    head(s, is_read(s.stage), frag, held)?;
    lay(frag, s.n);
    Ok(())
}
