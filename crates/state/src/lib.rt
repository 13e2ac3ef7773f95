// The state of a forest that is built, read and asked about, and the two lent tables that go with it.
#![tactic(auto)]

ghost use Rattle.std.specs.Prelude.{◌≡◌};
ghost use Rattle.numbers.specs.Answers.{due};
ghost use Rattle.state.specs.Answers.{begun_told};
ghost use Rattle.state.specs.Call.{bounds_refusal};
ghost use Rattle.state.specs.Start.{start_call};
ghost use Rattle.state.specs.Layout.{begun as beginning, moved_on};

use numbers::{Refusal, Why};

mod stages;
mod words;

pub use stages::{UnknownStage, is_building, is_built, is_read, is_reading, may_open};
pub use words::{clear, wide, zeros};

#[derive(Clone, Copy)]
pub enum Stage {
    Building = 0,
    Built = 1,
    Reading = 2,
    Read = 3,
}

#[derive(Clone, Copy)]
pub struct State {
    // the number of fragments
    pub n: usize,
    // room: how many links may be held for each fragment
    pub k: usize,
    pub stage: Stage,
    // closes accepted since the start, those of Building only
    pub passes: usize,
    // entries taken in this pass
    pub entries: usize,
    // links now held
    pub held: usize,
    // the reading pass is false
    pub crossed: bool,
}

// How a pass ended, and the state to go on with. False is refusal 9, the one that changes something.
#[derive(Clone, Copy)]
pub enum Closed {
    More(State),
    Done(State),
    Read(State),
    False(State),
}

// Which of the refusals 1, 2 and 3 is due, or none.
pub fn bounds(n: usize, k: usize, frags: usize, helds: usize) -> Result<(), Why>
    ensures { due result ≡ bounds_refusal n k frags helds }
{
    if n == 0 {
        return Err(Why::Fragments);
    }
    if State::FRAGMENTS < n {
        return Err(Why::Fragments);
    }
    if k == 0 {
        return Err(Why::Room);
    }
    if State::ROOM < k {
        return Err(Why::Room);
    }
    if frags < State::WORDS * n {
        return Err(Why::Short);
    }
    if helds < k * n {
        return Err(Why::Short);
    }
    Ok(())
}

impl State {
    // The limits of document 01, 'Numbers that bound it'.
    pub const FRAGMENTS: usize = lists::FRAGMENTS_MOST as usize;

    pub const ROOM: usize = 64;

    pub const ENTRIES: usize = lists::ENTRIES_MOST as usize;
    // Words of the fragment table for each fragment.
    pub const WORDS: usize = 16;

    // The state that start and adopt give.
    pub fn begun(n: usize, k: usize, stage: Stage) -> State
        ensures { result ≡ beginning n k stage }
    {
        State {
            n,
            k,
            stage,
            passes: 0,
            entries: 0,
            held: 0,
            crossed: false,
        }
    }

    // The state that a call goes on to.
    pub fn moved(
        self,
        stage: Stage,
        passes: usize,
        entries: usize,
        held: usize,
        crossed: bool,
    ) -> State
        ensures { result ≡ moved_on self stage passes entries held crossed }
    {
        State {
            stage,
            passes,
            entries,
            held,
            crossed,
            ..self
        }
    }

    // Building with nothing placed, in tables that are cleared as far as the state reaches.
    pub fn start(n: usize, k: usize, frag: &mut [u32], held: &mut [u32]) -> Result<State, Refusal>
        ensures { begun_told result frag.new held.new ≡ start_call n k frag.old held.old }
    {
        bounds(n, k, frag.len(), held.len())?;
        clear(frag, 0, State::WORDS * n);
        clear(held, 0, k * n);
        Ok(State::begun(n, k, Stage::Building))
    }
}
