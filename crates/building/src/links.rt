// A link looked for among the held ones.
ghost use Rattle.std.specs.Prelude.{◌-◌, ◌≤◌, ◌≡◌, length, drop};
ghost use Rattle.rules.specs.Links.{between, linked};
ghost use Rattle.state.specs.Layout.{held_links};

use tables::{high_end, low_end};

// The links from c to d and from a to b are one.
fn is_same(c: usize, d: usize, a: usize, b: usize) -> bool
    ensures { result ≡ between (c, d) a b }
{
    if c == a { d == b } else { c == b && d == a }
}

// The link between a and b is among the held links from one place to another.
pub(crate) fn is_among(held: &[u32], from: usize, to: usize, a: usize, b: usize) -> bool
    requires { (from ≤ to) × (to ≤ length held.now) }
    ensures { result ≡ linked (held_links (to - from) (drop from held.now)) a b }
{
    for i in from..to {
        let c = low_end(held, i);
        let d = high_end(held, i);
        if is_same(c, d, a, b) {
            return true;
        }
    }
    false
}
