// The number of each step.
ghost use Rattle.telling.specs.StepNumber.{numbered_as, Names};

use crate::Step;

// A number that no step has.
#[derive(Clone, Copy, Debug, PartialEq, Eq)]
pub struct UnknownStep(pub u32);

impl From<Step> for u32 {
    ghost from_gives = { numbered_as };

    fn from(step: Step) -> u32 {
        step as u32
    }
}

impl TryFrom<u32> for Step {
    type Error = UnknownStep;

    ghost try_from_gives = { Names };

    fn try_from(number: u32) -> Result<Self, UnknownStep> {
        match number {
            0 => Ok(Step::First),
            1 => Ok(Step::Head),
            2 => Ok(Step::Links),
            3 => Ok(Step::Over),
            _ => Err(UnknownStep(number)),
        }
    }
}
