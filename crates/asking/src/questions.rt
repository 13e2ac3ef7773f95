// The questions that the reaches decide: sole and cut.
ghost use Rattle.std.specs.Prelude.{◌≡◌};
ghost use Rattle.state.specs.Ask.{sole_call, cut_call};
ghost use Rattle.state.specs.Answers.{judged_told};

use crate::ask::asked;
use crate::cutting::is_cut;
use crate::ranges::is_sole;
use numbers::{Refusal, Why};
use state::{State, is_read};

pub fn sole(s: State, frag: &[u32], held: &[u32], a: usize, b: usize) -> Result<bool, Refusal>
    ensures { judged_told result ≡ sole_call s frag.now held.now a b }
{
    // Both are fragments where the greater is one.
    asked(s, is_read(s.stage), frag, held, a.max(b))?;
    if a == b {
        return Err(Refusal::from(Why::Same));
    }
    Ok(is_sole(frag, s.n, a, b))
}

pub fn cut(s: State, frag: &[u32], held: &[u32], v: usize) -> Result<bool, Refusal>
    ensures { judged_told result ≡ cut_call s frag.now held.now v }
{
    asked(s, is_read(s.stage), frag, held, v)?;
    Ok(is_cut(frag, s.n, v))
}
