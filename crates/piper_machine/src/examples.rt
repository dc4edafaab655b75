//! Callers of the machine, proved from its contracts alone.
ghost use Rattle.std.specs.Prelude.{◌≡◌, ◌≤◌, ◌+◌, ◌*◌, ◌⊎◌, ℕ, List, ◌∷◌, [], length, replicate, true, IfOk, IfErr, Err};
ghost use Rattle.piper_protocol.specs.Index.{IsCapacity};
ghost use Rattle.piper_protocol.specs.Reported.{HasFailed};
ghost use Rattle.piper_machine.specs.Log.{events};
ghost use Rattle.piper_protocol.specs.declared.table.Side.{Side};
ghost use Rattle.piper_machine.specs.declared.events.Event.{Event};
ghost use Rattle.piper_machine.specs.declared.refusals.StepRefusal.{StepRefusal};
ghost use Rattle.piper_protocol.specs.declared.table.Side.TheVariants.{Reader};
ghost use Rattle.piper_machine.specs.declared.calls.Call.TheVariants as call;
ghost use Rattle.piper_protocol.specs.declared.table.Query.TheVariants.{Len};
ghost use Rattle.piper_machine.specs.declared.calls.Step.TheVariants.{Begin, Go};
ghost use Rattle.piper_protocol.specs.declared.answer.Answer.TheVariants.{Count};
ghost use Rattle.piper_machine.specs.Pipe.{Pipe, fresh, begun};
ghost use Rattle.piper_machine.specs.Query.{unread_count};
ghost use Rattle.piper_machine.specs.Run.{Runs, RefusedAt};
ghost use Rattle.piper_machine.specs.Answered.{AreAnswered};
ghost use Rattle.piper_machine.specs.Counts.{tally_of};
ghost use Rattle.piper_machine.specs.Honest.{IsHonest};
ghost use Rattle.piper_machine.specs.Refusal.{IsIdle};
ghost use Rattle.piper_machine.specs.Remembered.{other, WasCalled, WaitsRegistered};
ghost use Rattle.piper_machine.specs.Wait.{wait_of};
ghost use Rattle.piper_machine.specs.Examples.{KeepsBytes, IsOutside, IsReportedLast};

use crate::OutOfMemory;
use crate::calls::Step;
use crate::events::Log;
use crate::machine::{Machine, run};
use crate::refusals::RunRefusal;
use piper_protocol::table::ReadPoint;
use std::alloc::Global;

/// The bytes go in, and come out as they went in.
pub fn through(alloc: Global, bytes: &[u8], dest: &mut [u8]) -> Result<usize, OutOfMemory>
    requires capacity { IsCapacity (length bytes.now) }
    requires fits { length dest.old ≡ length bytes.now }
    ensures count { IfOk result (λ n. n ≡ length bytes.now) }
    ensures same { IfOk result (λ n. dest.new ≡ bytes.now) }
    ensures untouched { IfErr result (λ _. dest.new ≡ dest.old) }
    ensures refused { IfErr result HasFailed }
{
    let mut machine = Machine::new(alloc, bytes.len())?;
    machine.w_try_fill(bytes);
    Ok(machine.r_try_drain(dest))
}

/// Makes the steps, whoever chose them, and says what every one of their orders keeps.
pub fn made_by_the_laws(
    alloc: Global,
    cap: usize,
    steps: &[Step],
) -> Result<(Machine, Log), RunRefusal>
    requires { IsCapacity cap }
    ensures made { IfOk result (λ run. Runs (fresh cap) [] steps.now run.0 (events run.1)) }
    ensures refused { (i : ℕ) (why : StepRefusal) →
        result ≡ Err (RunRefusal.At i why) → RefusedAt cap steps.now i why }
    ensures bytes { IfOk result (λ run. KeepsBytes cap run.0 (events run.1)) }
    ensures nobody_is_forgotten { IfOk result (λ run. (side : Side) →
        IsIdle side run.0 → IsOutside (other side) run.0 →
        let w = wait_of side (events run.1) in
        w.is_pending ≡ true → WasCalled w ⊎ WaitsRegistered side run.0 w) }
    ensures the_end_is_honest { IfOk result (λ run. IsHonest (events run.1)) }
    ensures answers_are_right { IfOk result (λ run. AreAnswered cap steps.now (events run.1)) }
    ensures few_steps { IfOk result (λ run. (side : Side) →
        (tally_of side steps.now).made ≤ 6 + 5 * cap) }
{
    run(alloc, cap, steps)
}

/// Counts the unread bytes. Whoever has made this call by steps, while the writer made none, was
/// told the same number last.
pub fn len_alone(machine: &mut Machine) -> usize
    requires { machine.old.reader ≡ ReadPoint.Idle }
    ensures value { result ≡ unread_count machine.old }
    ensures after { machine.new ≡ begun machine.old }
    ensures by_steps { (k : ℕ) (q : Pipe) (before after : List Event) →
        Runs machine.old before (Begin (call.Query Reader Len) ∷ replicate k (Go Reader)) q after →
        IsOutside Reader q → IsReportedLast (Count result) before after }
{
    machine.r_len()
}
