//! Steps of a side's open call.

ghost use Rattle.std.specs.Prelude.{◌≡◌, OnOk, OnErr, IfErr};
ghost use Rattle.piper_machine.specs.Log.{events};
ghost use Rattle.piper_machine.specs.Refusal.{state_of};
ghost use Rattle.piper_machine.specs.Run.{Made, IsRefusal};
ghost use Rattle.piper_script.specs.Steps.{Goes, GoesAs, GoesBefore, GoesFewer};

use crate::command::Steps;
use piper_machine::Side;
use piper_machine::calls::{SideState, Step};
use piper_machine::events::Log;
use piper_machine::machine::Machine;
use piper_machine::refusals::StepRefusal;

/// Makes so many steps of the side. Those before a refused one are made.
pub fn make_steps(
    machine: &mut Machine,
    side: Side,
    steps: Steps,
    log: &mut Log,
) -> Result<(), StepRefusal>
    ensures goes { OnOk result
        (GoesAs steps side machine.old (events log.old) machine.new (events log.new)) }
    ensures refused { IfErr result (λ refusal. IsRefusal (Step.Go side) machine.new refusal) }
    ensures before { OnErr result
        (GoesBefore steps side machine.old (events log.old) machine.new (events log.new)) }
{
    match steps {
        Steps::Count(count) => make_some(machine, side, count, log),
        Steps::ToAnswer => make_to_answer(machine, side, log),
    }
}

#[tactic(auto, using(crate::proofs::Going::goes_more))]
fn make_some(
    machine: &mut Machine,
    side: Side,
    count: usize,
    log: &mut Log,
) -> Result<(), StepRefusal>
    ensures goes { OnOk result
        (Goes count side machine.old (events log.old) machine.new (events log.new)) }
    ensures refused { IfErr result (λ refusal. IsRefusal (Step.Go side) machine.new refusal) }
    ensures before { OnErr result
        (GoesFewer count side machine.old (events log.old) machine.new (events log.new)) }
{
    for _ in 0..count {
        go(machine, side, log)?;
    }
    Ok(())
}

// Makes one step of the side's open call.
fn go(machine: &mut Machine, side: Side, log: &mut Log) -> Result<(), StepRefusal>
    ensures made { OnOk result
        (Made machine.old (Step.Go side) machine.new (events log.old) (events log.new)) }
    ensures refused { IfErr result (λ refusal. IsRefusal (Step.Go side) machine.old refusal) }
    ensures same { OnErr result (machine.new ≡ machine.old) }
    ensures same_log { OnErr result (events log.new ≡ events log.old) }
{
    machine.step(&Step::Go(side), log)
}

// Makes steps of the side until its open call returns.
#[tactic(auto, using(crate::proofs::Going::goes_more))]
fn make_to_answer(machine: &mut Machine, side: Side, log: &mut Log) -> Result<(), StepRefusal>
    ensures goes { OnOk result
        (GoesAs Steps.ToAnswer side machine.old (events log.old) machine.new (events log.new)) }
    ensures refused { IfErr result (λ refusal. IsRefusal (Step.Go side) machine.new refusal) }
    ensures before { OnErr result
        (GoesBefore Steps.ToAnswer side machine.old (events log.old) machine.new (events log.new)) }
{
    for _ in 0..u64::MAX {
        go(machine, side, log)?;
        if state(machine, side) != SideState::Busy {
            return Ok(());
        }
    }
    // No call makes as many steps, and no memory has room for their log.
    Err(StepRefusal::Memory)
}

// What the side is about.
fn state(machine: &Machine, side: Side) -> SideState
    ensures { result ≡ state_of side machine.now }
{
    match side {
        Side::Reader => machine.r_state(),
        Side::Writer => machine.w_state(),
    }
}
