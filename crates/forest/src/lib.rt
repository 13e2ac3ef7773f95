// Every call of document 01, in the stage that the state is in.
#![tactic(auto)]

ghost use Rattle.std.specs.Prelude.{◌≡◌};
ghost use Rattle.state.specs.Take.{take_call};
ghost use Rattle.state.specs.Close.{close_call};
ghost use Rattle.state.specs.Answers.{taken_told, closed_told};

pub use adopting::adopt;
pub use asking::{cut, level, parent, piece, sole};
pub use numbers::{Refusal, Why};
pub use reading::open_reading;
use state::is_building;
pub use state::{Closed, Stage, State};

// Takes a block of links, in Building and in Reading.
pub fn take(s: State, frag: &mut [u32], held: &mut [u32], block: &[u8]) -> Result<State, Refusal>
    ensures { taken_told s result frag.new held.new ≡ take_call s frag.old held.old block.now }
{
    if is_building(s.stage) {
        building::take(s, frag, held, block)
    } else {
        reading::take(s, frag, held, block)
    }
}

// Ends a pass, in Building and in Reading.
pub fn close(s: State, frag: &mut [u32], held: &mut [u32]) -> Result<Closed, Refusal>
    ensures { closed_told s result frag.new held.new ≡ close_call s frag.old held.old }
{
    if is_building(s.stage) {
        closing::close(s, frag, held)
    } else {
        reading::close(s, frag, held)
    }
}
