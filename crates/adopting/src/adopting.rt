// Adopt: 'Adopt (n, k, a parent table of at least n words, of which the first n are read) gives Built.'
ghost use Rattle.std.specs.Prelude.{suc, ◌<◌, ◌≡◌};
ghost use Rattle.numbers.specs.Answers.{due};
ghost use Rattle.rules.specs.Forest.{depth};
ghost use Rattle.rules.specs.Adopting.{parent_in};
ghost use Rattle.state.specs.Adopt.{adopt_refusal, adopt_call};
ghost use Rattle.state.specs.Answers.{begun_told};
ghost use Rattle.state.proofs.Laws.Tests.{Room};
ghost use Rattle.adopting.specs.Adopt.{Rooted, Ranked, Placed};

use crate::parents::may_adopt;
use numbers::{Refusal, Why};
use state::{Stage, State, bounds, clear, wide};
use tables::NOTE;

// Which of the refusals 1, 2, 3 and 10 is due.
fn refusal_of(n: usize, k: usize, parents: &[u32], frags: usize, helds: usize) -> Result<(), Why>
    ensures { due result ≡ adopt_refusal n k parents.now frags helds }
{
    bounds(n, k, frags, helds)?;
    if parents.len() < n {
        return Err(Why::Short);
    }
    if !may_adopt(parents, n) {
        return Err(Why::Parents);
    }
    Ok(())
}

// One more than v's level. The way is followed to a root, or to one below v, whose level is written.
fn rank_of(frag: &[u32], parents: &[u32], n: usize, v: usize) -> usize
    requires { Room n frag.now × Rooted n parents.now × (v < n) × Ranked n parents.now v frag.now }
    ensures { result ≡ suc (depth (parent_in parents.now) n v) }
{
    let mut u = v;
    let mut i = 0;
    loop {
        let p = wide(parents[u]);
        if p == u {
            return i + 1;
        }
        if p < v {
            return i + 1 + wide(frag[n + p]);
        }
        u = p;
        i += 1;
    }
}

// Parents and levels are written.
fn place_all(frag: &mut [u32], parents: &[u32], n: usize)
    requires { Room n frag.old × Rooted n parents.now }
    ensures { Placed n parents.now n frag.old frag.new }
{
    for v in 0..n {
        let rank = rank_of(frag, parents, n, v);
        frag[v] = parents[v];
        frag[n + v] = rank as u32;
    }
}

pub fn adopt(
    n: usize,
    k: usize,
    parents: &[u32],
    frag: &mut [u32],
    held: &mut [u32],
) -> Result<State, Refusal>
    ensures { begun_told result frag.new held.new ≡ adopt_call n k parents.now frag.old held.old }
{
    refusal_of(n, k, parents, frag.len(), held.len())?;
    place_all(frag, parents, n);
    clear(frag, NOTE * n, State::WORDS * n);
    clear(held, 0, k * n);
    Ok(State::begun(n, k, Stage::Built))
}
