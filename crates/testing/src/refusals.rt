// The refusals that every call on a state tests first: 1, 2, 3, 6 and 11, this one but for the held links. Outside Building no link is held, so there it is whole.
ghost use Rattle.std.specs.Prelude.{◌≡◌};
ghost use Rattle.numbers.specs.Answers.{due};
ghost use Rattle.testing.specs.Test.{head_but_links};

use crate::test::but_links;
use numbers::Why;
use state::{State, bounds};

// The refusal that is due; `allowed` says whether the stage allows the call.
pub fn head(s: State, allowed: bool, frag: &[u32], held: &[u32]) -> Result<(), Why>
    ensures { due result ≡ head_but_links allowed s frag.now held.now }
{
    bounds(s.n, s.k, frag.len(), held.len())?;
    if !allowed {
        return Err(Why::Stage);
    }
    if !but_links(s, frag, held) {
        return Err(Why::Tables);
    }
    Ok(())
}
