// The head of a question about one fragment, and the questions that one word answers: parent and level.
ghost use Rattle.std.specs.Prelude.{◌≡◌};
ghost use Rattle.numbers.specs.Answers.{due};
ghost use Rattle.state.specs.Ask.{parent_call, level_call};
ghost use Rattle.state.specs.Answers.{asked_told};
ghost use Rattle.asking.specs.Asked.{ask_refusal};

use numbers::{Refusal, Why};
use state::{State, is_building};
use tables::{level_of, parent_at};
use testing::head;

// The refusal that is due; `allowed` says whether the stage allows the question.
pub(crate) fn asked(
    s: State,
    allowed: bool,
    frag: &[u32],
    held: &[u32],
    v: usize,
) -> Result<(), Why>
    ensures { due result ≡ ask_refusal allowed s frag.now held.now v }
{
    head(s, allowed, frag, held)?;
    if s.n <= v {
        return Err(Why::NoFragment);
    }
    Ok(())
}

pub fn parent(s: State, frag: &[u32], held: &[u32], v: usize) -> Result<usize, Refusal>
    ensures { asked_told result ≡ parent_call s frag.now held.now v }
{
    asked(s, !is_building(s.stage), frag, held, v)?;
    Ok(parent_at(frag, s.n, v))
}

pub fn level(s: State, frag: &[u32], held: &[u32], v: usize) -> Result<usize, Refusal>
    ensures { asked_told result ≡ level_call s frag.now held.now v }
{
    asked(s, !is_building(s.stage), frag, held, v)?;
    Ok(level_of(frag, s.n, v))
}
