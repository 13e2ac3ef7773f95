// Close in Reading: 'refusal 9 is given exactly when the pass is false or some parent link was not seen'
ghost use Rattle.std.specs.Prelude.{◌+◌, ◌*◌, ◌≤◌, ◌≡◌, ◌&&◌, not};
ghost use Rattle.rules.specs.Search.{every};
ghost use Rattle.rules.specs.Reading.{seen};
ghost use Rattle.state.specs.Layout.{stored, numbers, forest_in, wiped};
ghost use Rattle.state.specs.Call.{fragments_most};
ghost use Rattle.state.specs.Test.{is_reading};
ghost use Rattle.state.specs.Close.{close_in};
ghost use Rattle.state.specs.Answers.{closed_told};
ghost use Rattle.state.specs.declared.Closed.TheVariants.{False};
ghost use Rattle.reading.specs.Pass.{failed};

use numbers::Refusal;
use state::{Closed, Stage, State, clear, is_reading};
use tables::{NOTE, SCRATCH, mark_at, parent_of};
use testing::head;

fn seen_at(frag: &[u32], n: usize, v: usize) -> bool
    ensures { result ≡ seen (forest_in n frag.now) v }
{
    parent_of(frag, n, v) == v || 0 < mark_at(frag, n, v)
}

fn all_seen(frag: &[u32], n: usize) -> bool
    ensures { result ≡ every (seen (forest_in n frag.now)) n }
{
    for v in 0..n {
        if !seen_at(frag, n, v) {
            return false;
        }
    }
    true
}

// The pass is true of the forest.
fn holds(frag: &[u32], n: usize, crossed: bool) -> bool
    ensures { result ≡ (not crossed && every (seen (forest_in n frag.now)) n) }
{
    !crossed && all_seen(frag, n)
}

// Refusal 9: the notes are cleared, and the numbers with them, and the stage is Built.
fn fail(s: State, frag: &mut [u32]) -> Closed
    requires { s.n ≤ fragments_most }
    ensures { (result ≡ False (failed s)) × (frag.new ≡ wiped (2 * s.n) ((stored + numbers) * s.n) frag.old) }
{
    let n = s.n;
    clear(frag, NOTE * n, SCRATCH * n);
    Closed::False(s.moved(Stage::Built, s.passes, 0, 0, false))
}

pub fn close(s: State, frag: &mut [u32], held: &mut [u32]) -> Result<Closed, Refusal>
    ensures { closed_told s result frag.new held.new ≡ close_in is_reading s frag.old held.old }
{
    head(s, is_reading(s.stage), frag, held)?;
    if !holds(frag, s.n, s.crossed) {
        return Ok(fail(s, frag));
    }
    Ok(Closed::Read(s.moved(Stage::Read, s.passes, s.entries, s.held, s.crossed)))
}
