// Open reading: 'Open reading is allowed in Built and Read, and clears the notes.' The forest is numbered as it is opened for the first time.
ghost use Rattle.std.specs.Prelude.{◌≡◌};
ghost use Rattle.state.specs.Close.{open_call};
ghost use Rattle.state.specs.Answers.{taken_told};

use numbering::head;
use numbers::Refusal;
use state::{Stage, State, clear, may_open};
use tables::{NOTE, STORED};

pub fn open_reading(s: State, frag: &mut [u32], held: &mut [u32]) -> Result<State, Refusal>
    ensures { taken_told s result frag.new held.new ≡ open_call s frag.old held.old }
{
    head(s, may_open(s.stage), frag, held)?;
    clear(frag, NOTE * s.n, STORED * s.n);
    Ok(s.moved(Stage::Reading, s.passes, 0, 0, false))
}
