// The ends of the held links.
ghost use Rattle.std.specs.Prelude.{◌≤◌, ◌≡◌, length};
ghost use Rattle.state.specs.Layout.{forest_in, held_links};
ghost use Rattle.state.specs.Test.{ends_fit};
ghost use Rattle.differing.specs.Links.{link_fits};

use tables::{high_end, low_end, rank_at};

// 'held links join different unplaced fragments'
fn link_fits(frag: &[u32], n: usize, a: usize, b: usize) -> bool
    ensures { result ≡ link_fits n (forest_in n frag.now) a b }
{
    if b <= a {
        return false;
    }
    if n <= b {
        return false;
    }
    if rank_at(frag, n, a) != 0 {
        return false;
    }
    rank_at(frag, n, b) == 0
}

pub(crate) fn ends_fit(frag: &[u32], held: &[u32], n: usize, count: usize) -> bool
    requires { count ≤ length held.now }
    ensures { result ≡ ends_fit n (forest_in n frag.now) (held_links count held.now) }
{
    for i in 0..count {
        let a = low_end(held, i);
        let b = high_end(held, i);
        if !link_fits(frag, n, a, b) {
            return false;
        }
    }
    true
}
