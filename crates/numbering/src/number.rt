// The forest numbered, and the head of a call that wants it numbered.
ghost use Rattle.std.specs.Prelude.{◌≡◌};
ghost use Rattle.numbers.specs.Answers.{due};
ghost use Rattle.state.specs.Layout.{forest_in};
ghost use Rattle.testing.specs.Test.{head_but_links};
ghost use Rattle.numbering.specs.Order.{Orderable};
ghost use Rattle.numbering.specs.Numbering.{numbered, numbered_in};

use crate::order::order;
use crate::sections::{BEHIND, LEVELS};
use crate::sizes::sizes;
use crate::turns::{count_passed, ends, turns};
use numbers::Why;
use state::{State, clear, is_built};

pub(crate) fn number(frag: &mut [u32], n: usize)
    requires { Orderable n frag.old }
    ensures { frag.new ≡ numbered n (forest_in n frag.old) frag.old }
{
    order(frag, n);
    sizes(frag, n);
    count_passed(frag, n);
    turns(frag, n);
    ends(frag, n);
    clear(frag, LEVELS * n, BEHIND * n);
}

// The refusal that is due; `allowed` says whether the stage allows the call. Where none is the forest has its numbers: in Built they are made, later they stand there.
pub fn head(s: State, allowed: bool, frag: &mut [u32], held: &[u32]) -> Result<(), Why>
    ensures { (due result ≡ head_but_links allowed s frag.old held.now) × (frag.new ≡ numbered_in allowed s frag.old held.now) }
{
    testing::head(s, allowed, frag, held)?;
    if !is_built(s.stage) {
        return Ok(());
    }
    number(frag, s.n);
    Ok(())
}
