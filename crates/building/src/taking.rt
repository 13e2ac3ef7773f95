// Take in Building.
ghost use Rattle.std.specs.Prelude.{◌≡◌};
ghost use Rattle.state.specs.Test.{is_building};
ghost use Rattle.state.specs.Take.{take_in};
ghost use Rattle.state.specs.Answers.{taken_told};

use crate::noted::NOTED;
use crate::tell::tell_block;
use numbers::Refusal;
use pieces::{POINTER, gathered};
use state::{Stage, State, clear, wide};

// The links of a block are told by the building rules. The block is scanned first, so that nothing of a refused one is kept.
pub fn take(s: State, frag: &mut [u32], held: &mut [u32], block: &[u8]) -> Result<State, Refusal>
    ensures { taken_told s result frag.new held.new ≡ take_in is_building s frag.old held.old block.now }
{
    gathered(s, frag, held)?;
    let n = s.n;
    let entries = s.entries as u32;
    match lists::scan(n as u32, entries, block) {
        Ok(links) => {
            let count = tell_block(frag, held, n, s.k, s.held, entries, block);
            let told = s.entries + wide(links);
            Ok(s.moved(Stage::Building, s.passes, told, count, false))
        }
        Err(bad) => {
            clear(frag, POINTER * n, NOTED * n);
            Err(bad)
        }
    }
}
