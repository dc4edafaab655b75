//! Why a script is not played on, on handles.
ghost use Rattle.std.specs.Prelude.{◌≡◌};
ghost use Rattle.piper_compare.specs.declared.halt.Halt.TheVariants.{Script, OnlyMachine};

use piper_script::command::Refusal;
use piper_script::reply::Reply;
use piper_script::stop::Stop;
use std::alloc::AllocError;

/// Why a script is not played on.
#[derive(Clone, Copy)]
pub enum Halt {
    /// For a reason for which the machine stops as well.
    Script(Stop),
    /// A line asks for what only the machine can play.
    OnlyMachine,
}

impl From<Stop> for Halt {
    ghost from_gives = { λ stop halt. halt ≡ Script stop };

    fn from(stop: Stop) -> Halt {
        Halt::Script(stop)
    }
}

impl From<Refusal> for Halt {
    ghost use Rattle.piper_script.specs.declared.stop.Stop.TheVariants.{Refused};

    ghost from_gives = { λ refusal halt. halt ≡ Script (Refused refusal) };

    fn from(refusal: Refusal) -> Halt {
        Halt::Script(Stop::Refused(refusal))
    }
}

impl From<AllocError> for Halt {
    ghost use Rattle.piper_script.specs.declared.stop.Stop.TheVariants.{Memory};

    ghost from_gives = { λ _ halt. halt ≡ Script Memory };

    fn from(_error: AllocError) -> Halt {
        Halt::Script(Stop::Memory)
    }
}

/// Ends the text of a line: as it is, or as that of a refusal. Reports whether the line was
/// refused.
pub fn finish(played: Result<(), Halt>, number: u64, reply: &mut Reply) -> Result<bool, Stop> {
    match played {
        Ok(()) => {
            reply.write("\n")?;
            return Ok(false);
        }
        Err(Halt::Script(Stop::Refused(refusal))) => {
            reply.clear();
            reply.write_refusal(number, refusal)?;
        }
        Err(Halt::OnlyMachine) => {
            reply.clear();
            reply.write_refusal(number, "OnlyMachine")?;
        }
        Err(Halt::Script(stop)) => return Err(stop),
    }
    Ok(true)
}
