// The question that the tree of a fragment decides, over the turns of the roots: piece.
ghost use Rattle.std.specs.Prelude.{◌≡◌, ◌<◌, leb};
ghost use Rattle.base.specs.Pick.{pick};
ghost use Rattle.base.specs.Answer.{gives, refuses};
ghost use Rattle.rules.specs.Reading.{root_of, piece as piece_of};
ghost use Rattle.state.specs.Layout.{forest_in};
ghost use Rattle.state.specs.Ask.{piece_call};
ghost use Rattle.state.specs.Answers.{asked_told};
ghost use Rattle.testing.specs.Whole.{Numbered};

use numbering::head;
use numbers::{Refusal, Why};
use state::{State, clear, is_building, is_built};
use tables::{SCRATCH, TURN, end_at, is_above, turn_at, whose_at};

// The root of v's tree: the one whose turns v's is among.
fn root(frag: &[u32], n: usize, v: usize) -> usize
    requires { Numbered n frag.now × (v < n) }
    ensures { result ≡ root_of (forest_in n frag.now) v }
{
    let turn = turn_at(frag, n, v);
    let mut top = whose_at(frag, n, 0);
    while end_at(frag, n, top) <= turn {
        top = whose_at(frag, n, end_at(frag, n, top));
    }
    top
}

// The smallest fragment of v's tree.
fn smallest(frag: &[u32], n: usize, v: usize) -> usize
    requires { Numbered n frag.now × (v < n) }
    ensures { result ≡ piece_of n (forest_in n frag.now) v }
{
    let top = root(frag, n, v);
    (0..v).find(|&u| is_above(frag, n, top, u)).unwrap_or(v)
}

// The answer about v.
fn told(frag: &[u32], n: usize, v: usize) -> Result<usize, Refusal>
    requires { Numbered n frag.now }
    ensures { asked_told result ≡ pick (leb n v) (refuses 4 0) (gives (piece_of n (forest_in n frag.now) v)) }
{
    if n <= v {
        return Err(Refusal::from(Why::NoFragment));
    }
    Ok(smallest(frag, n, v))
}

// The fragment table is lent to number the forest in, where that is not done yet; it is left as found.
pub fn piece(s: State, frag: &mut [u32], held: &[u32], v: usize) -> Result<usize, Refusal>
    ensures { (asked_told result ≡ piece_call s frag.old held.now v) × (frag.new ≡ frag.old) }
{
    let n = s.n;
    head(s, !is_building(s.stage), frag, held)?;
    let answer = told(frag, n, v);
    if !is_built(s.stage) {
        return answer;
    }
    clear(frag, TURN * n, SCRATCH * n);
    answer
}
