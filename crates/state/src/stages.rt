// The stages: which one it is, and the number of each.
ghost use Rattle.std.specs.Prelude.{◌≡◌};
ghost use Rattle.state.specs.Test.{is_building, is_built, is_reading, is_read};
ghost use Rattle.state.specs.Close.{opens};
ghost use Rattle.state.specs.StageNumber.{numbered_as, Names};

use crate::Stage;

// A number that no stage has.
#[derive(Clone, Copy, Debug, PartialEq, Eq)]
pub struct UnknownStage(pub u32);

impl From<Stage> for u32 {
    ghost from_gives = { numbered_as };

    fn from(stage: Stage) -> u32 {
        stage as u32
    }
}

impl TryFrom<u32> for Stage {
    type Error = UnknownStage;

    ghost try_from_gives = { Names };

    fn try_from(number: u32) -> Result<Self, UnknownStage> {
        match number {
            0 => Ok(Stage::Building),
            1 => Ok(Stage::Built),
            2 => Ok(Stage::Reading),
            3 => Ok(Stage::Read),
            _ => Err(UnknownStage(number)),
        }
    }
}

pub fn is_building(g: Stage) -> bool
    ensures { result ≡ is_building g }
{
    matches!(g, Stage::Building)
}

pub fn is_built(g: Stage) -> bool
    ensures { result ≡ is_built g }
{
    matches!(g, Stage::Built)
}

pub fn is_reading(g: Stage) -> bool
    ensures { result ≡ is_reading g }
{
    matches!(g, Stage::Reading)
}

pub fn is_read(g: Stage) -> bool
    ensures { result ≡ is_read g }
{
    matches!(g, Stage::Read)
}

// Open reading is allowed in Built and Read.
pub fn may_open(g: Stage) -> bool
    ensures { result ≡ opens g }
{
    matches!(g, Stage::Built | Stage::Read)
}
