// The building rules B2 and B3: what the links of a block leave in the two tables.
ghost use Rattle.std.specs.Prelude.{◌≡◌};
ghost use Rattle.rules.specs.Building.{build_link};
ghost use Rattle.pieces.specs.Gathered.{held_tables};
ghost use Rattle.building.specs.Noted.{Ends};
ghost use Rattle.building.specs.Telling.{Leaves, Telling, Notable, noting, Rest, Tells, MayTell, TellsAll};

use crate::hold::hold_link;
use crate::noted::{Place, note_all};
use pieces::POINTER;
use state::{State, clear};
use tables::{NOTE, better_note, note_at, rank_at};

// A link from unplaced u to placed p: the better note stays.
fn note_link(frag: &mut [u32], n: usize, u: usize, p: usize)
    requires { Notable n u p frag.old }
    ensures { frag.new ≡ noting n u p frag.old }
{
    let old = note_at(frag, n, u);
    let note = better_note(frag, n, old, p + 1);
    frag[NOTE * n + u] = note as u32;
}

// One link, by which of its ends are placed. Returns how many links are held now.
fn build_link(
    frag: &mut [u32],
    held: &mut [u32],
    n: usize,
    k: usize,
    count: usize,
    a: usize,
    b: usize,
    place: Place<'_>,
) -> usize
    requires { Telling n k count frag.old held.old × Ends n a b }
    ensures { Leaves n k count frag.old held.old result frag.new held.new (build_link n k (held_tables n count frag.old held.old) (a, b)) }
{
    if rank_at(frag, n, a) != 0 {
        if rank_at(frag, n, b) != 0 {
            return count;
        }
        note_link(frag, n, b, a);
        return count;
    }
    if rank_at(frag, n, b) != 0 {
        note_link(frag, n, a, b);
        return count;
    }
    hold_link(frag, held, n, k, count, a, b, place)
}

// The links of a block that was scanned, one after another. Returns how many links are held now.
fn tell_links(
    frag: &mut [u32],
    held: &mut [u32],
    n: usize,
    k: usize,
    first: usize,
    entries: u32,
    block: &[u8],
) -> usize
    requires { Telling n k first frag.old held.old × Rest n entries block.now 0 }
    ensures { Tells n k first entries block.now frag.old held.old result frag.new held.new }
{
    let mut count = first;
    let mut told = entries;
    let mut at: usize = 0;
    while at < block.len() {
        match lists::link_at(n as u32, told, block, at) {
            Ok((a, b, next)) => {
                let a = a as usize;
                let b = b as usize;
                let place = Place {
                    block,
                    at,
                    entries: told,
                };
                count = build_link(frag, held, n, k, count, a, b, place);
                told += 1;
                at = next;
            }
            Err(_) => {
                return count;
            }
        }
    }
    count
}

// The links of a block that was scanned. The pieces stand in scratch, which is 0 afterwards. Returns how many links are held now.
pub(crate) fn tell_block(
    frag: &mut [u32],
    held: &mut [u32],
    n: usize,
    k: usize,
    count: usize,
    entries: u32,
    block: &[u8],
) -> usize
    requires { MayTell n k count frag.old held.old × Rest n entries block.now 0 }
    ensures { TellsAll n k count entries block.now frag.old held.old result frag.new held.new }
{
    note_all(frag, held, n, count);
    let now_held = tell_links(frag, held, n, k, count, entries, block);
    clear(frag, POINTER * n, State::WORDS * n);
    now_held
}
