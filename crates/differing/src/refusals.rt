// The head of a call in Building, where the held links are tested: the refusals 1, 2, 3, 6 and 11, this one but for the quota of the pieces.
ghost use Rattle.std.specs.Prelude.{◌≡◌};
ghost use Rattle.numbers.specs.Answers.{due};
ghost use Rattle.state.specs.Layout.{forest_in, held_links};
ghost use Rattle.differing.specs.Links.{links_differ, head_but_quota, Lookable};

use crate::ends::ends_fit;
use crate::twice::none_twice;
use numbers::Why;
use state::{State, clear, is_building};
use tables::STORED;
use testing::head;

// The held links join different unplaced fragments, none twice.
fn links_differ(frag: &mut [u32], held: &[u32], n: usize, k: usize, count: usize) -> bool
    requires { Lookable n k count frag.old held.now }
    ensures { (result ≡ links_differ n (forest_in n frag.old) (held_links count held.now)) × (frag.new ≡ frag.old) }
{
    if !ends_fit(frag, held, n, count) {
        return false;
    }
    if !none_twice(frag, held, n, count) {
        clear(frag, STORED * n, State::WORDS * n);
        return false;
    }
    true
}

// The refusal that is due. Scratch is 0 again.
pub fn head_but_quota(s: State, frag: &mut [u32], held: &[u32]) -> Result<(), Why>
    ensures { (due result ≡ head_but_quota s frag.old held.now) × (frag.new ≡ frag.old) }
{
    head(s, is_building(s.stage), frag, held)?;
    if !links_differ(frag, held, s.n, s.k, s.held) {
        return Err(Why::Tables);
    }
    Ok(())
}
