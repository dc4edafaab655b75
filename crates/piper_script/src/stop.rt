//! Why a replay stops before the end of its script.

ghost use Rattle.std.specs.Prelude.{◌≡◌};
ghost use Rattle.piper_script.specs.declared.stop.Stop.TheVariants.{Refused, Memory};

use crate::command::Refusal;
use piper_machine::OutOfMemory;
use piper_machine::refusals::StepRefusal;
use std::alloc::AllocError;

/// Why a replay stops before the end of its script.
#[derive(Clone, Copy)]
pub enum Stop {
    /// A line was refused.
    Refused(Refusal),
    /// Memory was refused.
    Memory,
    /// The script could not be read on.
    Read,
    /// The output could not be written.
    Write,
}

impl From<Refusal> for Stop {
    ghost from_gives = { λ refusal stop. stop ≡ Refused refusal };

    fn from(refusal: Refusal) -> Stop {
        Stop::Refused(refusal)
    }
}

impl From<AllocError> for Stop {
    ghost from_gives = { λ _ stop. stop ≡ Memory };

    fn from(_error: AllocError) -> Stop {
        Stop::Memory
    }
}

impl From<OutOfMemory> for Stop {
    ghost from_gives = { λ _ stop. stop ≡ Memory };

    fn from(_error: OutOfMemory) -> Stop {
        Stop::Memory
    }
}

impl From<StepRefusal> for Stop {
    ghost use Rattle.piper_script.specs.Refused.{stop_of};

    ghost from_gives = { λ refusal stop. stop ≡ stop_of refusal };

    fn from(refusal: StepRefusal) -> Stop {
        match refusal {
            StepRefusal::Busy => Stop::Refused(Refusal::Busy),
            StepRefusal::Idle => Stop::Refused(Refusal::Idle),
            StepRefusal::Dropped => Stop::Refused(Refusal::Dropped),
            StepRefusal::BadDraw => Stop::Refused(Refusal::BadDraw),
            StepRefusal::PastLent => Stop::Refused(Refusal::PastLent),
            StepRefusal::PastPeek => Stop::Refused(Refusal::PastPeek),
            StepRefusal::Memory => Stop::Memory,
        }
    }
}
