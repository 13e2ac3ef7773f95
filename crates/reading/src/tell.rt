// The reading rules: what the links of a block leave in the fragment table.
ghost use Rattle.std.specs.Prelude.{◌≡◌, not, ◌||◌, [], ◌∷◌, ◌<◌, ◌-◌, max};
ghost use Rattle.rules.specs.Reading.{above, hear as hearing};
ghost use Rattle.lists.specs.List.{block_links};
ghost use Rattle.state.specs.Layout.{forest_in};
ghost use Rattle.testing.specs.Whole.{Whole, Numbered};
ghost use Rattle.reading.specs.Tell.{Leaves, Reads, Given, links_of};

use state::wide;
use tables::{LEVEL, MARK, NOTE, end_at, parent_of, turn_at};

// How far the note lies under the fragment's own level, once it hears of a level.
fn farther(note: u32, own: u32, other: u32) -> u32
    ensures { result ≡ max note (own - other) }
{
    note.max(own.saturating_sub(other))
}

// What v hears of a link to w.
fn hear(frag: &mut [u32], n: usize, v: usize, w: usize)
    requires { Whole n frag.old × (v < n) × (w < n) }
    ensures { Leaves n frag.old frag.new (hearing v w) }
{
    if parent_of(frag, n, v) == w {
        frag[MARK * n + v] = 1;
    } else {
        frag[NOTE * n + v] = farther(frag[NOTE * n + v], frag[LEVEL * n + v], frag[LEVEL * n + w]);
    }
}

// Whether neither of a and b is above the other: those below the one whose turn comes first end before the other's turn.
fn apart(frag: &[u32], n: usize, a: usize, b: usize) -> bool
    requires { Numbered n frag.now × (a < n) × (b < n) }
    ensures { result ≡ not (above (forest_in n frag.now) a b || above (forest_in n frag.now) b a) }
{
    let one = turn_at(frag, n, a);
    let other = turn_at(frag, n, b);
    if one <= other {
        return end_at(frag, n, a) <= other;
    }
    end_at(frag, n, b) <= one
}

// One link. Returns whether the pass is false now.
fn read_link(frag: &mut [u32], n: usize, crossed: bool, a: usize, b: usize) -> bool
    requires { Numbered n frag.old × (a < n) × (b < n) }
    ensures { Reads n crossed frag.old result frag.new ((a, b) ∷ []) }
{
    let crosses = apart(frag, n, a, b);
    hear(frag, n, a, b);
    hear(frag, n, b, a);
    crosses || crossed
}

// The links of a block that was scanned. Returns whether the pass is false now.
pub(crate) fn tell(frag: &mut [u32], n: usize, entries: u32, crossed: bool, block: &[u8]) -> bool
    requires { Numbered n frag.old × Given n entries block.now }
    ensures { Reads n crossed frag.old result frag.new (links_of (block_links n entries block.now)) }
{
    let mut at: usize = 0;
    let mut told = entries;
    let mut crosses = crossed;
    while at < block.len() {
        match lists::link_at(n as u32, told, block, at) {
            Ok((a, b, next)) => {
                crosses = read_link(frag, n, crosses, wide(a), wide(b));
                told += 1;
                at = next;
            }
            Err(_) => return crosses,
        }
    }
    crosses
}
