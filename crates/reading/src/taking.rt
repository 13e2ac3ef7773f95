// Take in Reading.
ghost use Rattle.std.specs.Prelude.{◌≡◌};
ghost use Rattle.state.specs.Test.{is_reading};
ghost use Rattle.state.specs.Take.{take_in};
ghost use Rattle.state.specs.Answers.{taken_told};

use crate::tell::tell;
use numbers::Refusal;
use state::{State, is_reading, wide};
use testing::head;

pub fn take(s: State, frag: &mut [u32], held: &mut [u32], block: &[u8]) -> Result<State, Refusal>
    ensures { taken_told s result frag.new held.new ≡ take_in is_reading s frag.old held.old block.now }
{
    head(s, is_reading(s.stage), frag, held)?;
    let entries = s.entries as u32;
    let count = lists::scan(s.n as u32, entries, block)?;
    let crossed = tell(frag, s.n, entries, s.crossed, block);
    let total = s.entries + wide(count);
    Ok(s.moved(s.stage, s.passes, total, s.held, crossed))
}
