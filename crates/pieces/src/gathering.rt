// The first step of take and of close: the refusals 1, 2, 3, 6 and 11, and where none is due the pieces of the held links.
ghost use Rattle.std.specs.Prelude.{◌≡◌};
ghost use Rattle.numbers.specs.Answers.{due};
ghost use Rattle.state.specs.Test.{is_building};
ghost use Rattle.state.specs.Call.{head_refusal};
ghost use Rattle.pieces.specs.Gathered.{gathered_in};

use crate::quota::pieces_fit;
use differing::head_but_quota;
use numbers::Why;
use state::State;

// The refusal that is due. Where none is the pieces stand in sections 4 to 6, else the fragment table is as it was found.
pub fn gathered(s: State, frag: &mut [u32], held: &[u32]) -> Result<(), Why>
    ensures { (due result ≡ head_refusal is_building s frag.old held.now) × (frag.new ≡ gathered_in s frag.old held.now) }
{
    head_but_quota(s, frag, held)?;
    if !pieces_fit(frag, held, s.n, s.k, s.held) {
        return Err(Why::Tables);
    }
    Ok(())
}
