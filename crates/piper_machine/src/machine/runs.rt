//! Runs: steps of both sides in any order, and the log of what happened.
ghost use Rattle.std.specs.Prelude.{◌≡◌, ◌<◌, ◌≤◌, ℕ, [], length, OnOk, OnErr, IfOk, IfErr, slice_set};
ghost use Rattle.piper_protocol.specs.Index.{IsCapacity};
ghost use Rattle.piper_machine.specs.Log.{events};
ghost use Rattle.piper_machine.specs.Lend.{lending};
ghost use Rattle.piper_machine.specs.Places.{peeked_count};
ghost use Rattle.piper_machine.specs.Step.{action_of, stepped, MayLend};
ghost use Rattle.piper_machine.specs.Pipe.{fresh};
ghost use Rattle.piper_machine.specs.Disjoint.{KeepsKnown, IsWriterStep};
ghost use Rattle.piper_machine.specs.Sound.{IsSound};
ghost use Rattle.piper_machine.specs.Lawful.{IsLawful};
ghost use Rattle.piper_machine.specs.Front.{Front};
ghost use Rattle.piper_machine.specs.Run.{Made, IsStepped, Runs, IsRefusal, IsRunRefusal, IsOfMemory, MemoryIsRefused};

use super::Machine;
use crate::calls::Step;
use crate::events::{Log, answered};
use crate::refusals::{RunRefusal, StepRefusal};
use piper_protocol::answer::Answer;
use piper_protocol::table::{Action, Side, WritePoint};
use std::alloc::Global;

impl Machine {
    // The step that the side makes next.
    pub(super) fn next(&self, side: Side) -> Action
        ensures step { result ≡ action_of side self.now }
        ensures head { (n : ℕ) → result ≡ Action.StoreHead n → n ≤ peeked_count self.now }
        ensures tail { (n : ℕ) → result ≡ Action.StoreTail n → n ≤ length self.now.lent }
    {
        match side {
            Side::Reader => self.reader_next(),
            Side::Writer => self.writer_next(),
        }
    }

    // Makes the side's next step, which is of this kind.
    pub(super) fn goes(&mut self, side: Side, action: Action) -> Option<Answer>
        requires { action ≡ action_of side self.old }
        ensures after { self.new ≡ (stepped self.new.lent (Step.Go side) self.old).pipe }
        ensures answer { result ≡ (stepped self.new.lent (Step.Go side) self.old).answer }
        ensures lent { MayLend self.new.lent (Step.Go side) self.old }
    {
        match side {
            Side::Reader => self.reader_goes(action),
            Side::Writer => self.writer_goes(action),
        }
    }

    // Makes the side's next step and logs it.
    fn go(&mut self, side: Side, log: &mut Log) -> Result<(), StepRefusal>
        ensures ok { OnOk result
            (IsStepped self.old (Step.Go side) self.new (events log.old) (events log.new)) }
        ensures same { OnErr result (self.new ≡ self.old) }
        ensures same_log { OnErr result (events log.new ≡ events log.old) }
        ensures memory { IfErr result (λ refusal. refusal ≡ StepRefusal.Memory) }
        ensures refused { OnErr result MemoryIsRefused }
    {
        let action = self.next(side);
        let event = self.event(side, action).map_err(|_| StepRefusal::Memory)?;
        log.reserve().map_err(|_| StepRefusal::Memory)?;
        let answer = self.goes(side, action);
        log.add(event, answered(side, answer));
        Ok(())
    }

    /// Writes a byte into what is lent, `offset` places from its beginning.
    ///
    /// Requires: the writer is idle, and `offset` is below the length of what is lent.
    pub fn w_put(&mut self, offset: usize, byte: u8)
        requires idle { self.old.writer ≡ WritePoint.Idle }
        requires within { offset < length self.old.lent }
        ensures { self.new ≡ lending (slice_set self.old.lent offset byte) self.old }
    {
        let place = self.write.front() + offset;
        self.bytes[place] = byte;
    }

    /// Makes one step of a run, and logs it.
    ///
    /// A refused step changes neither the machine nor the log: all memory is asked for before
    /// anything changes.
    pub fn step(&mut self, step: &Step, log: &mut Log) -> Result<(), StepRefusal>
        ensures made { OnOk result
            (Made self.old step.now self.new (events log.old) (events log.new)) }
        ensures refused { IfErr result (λ refusal. IsRefusal step.now self.old refusal) }
        ensures memory { IfErr result IsOfMemory }
        ensures known_kept { IsWriterStep step.now → KeepsKnown self.old self.new }
        ensures same { OnErr result (self.new ≡ self.old) }
        ensures same_log { OnErr result (events log.new ≡ events log.old) }
        ensures sound { OnOk result (IsSound self.new) }
    {
        let _ = &self.is_closed; // what holds of every machine, holds of this one
        match self.refusal(step) {
            Some(refusal) => return Err(refusal),
            None => {}
        }
        let made = match step {
            Step::Begin(call) => self.begin(call, log),
            Step::Go(side) => self.go(*side, log),
            Step::Put(offset, byte) => {
                self.w_put(*offset, *byte);
                Ok(())
            }
        };
        let _ = &self.is_closed; // and of what the step made of it
        made
    }
}

/// Makes the steps on a new machine, one after another, and gives back the machine and what
/// happened.
///
/// Requires: `cap` is at least 1 and less than 2^63.
pub fn run(alloc: Global, cap: usize, steps: &[Step]) -> Result<(Machine, Log), RunRefusal>
    requires { IsCapacity cap }
    ensures runs { IfOk result (λ run. Runs (fresh cap) [] steps.now run.0 (events run.1)) }
    ensures capacity { IfOk result (λ run. run.0.capacity ≡ cap) }
    ensures lawful { IfOk result (λ run. IsLawful cap steps.now run.0 (events run.1)) }
    ensures fronts { IfOk result (λ run. (i : ℕ) → Front cap steps.now i run.0 (events run.1)) }
    ensures refused { IfErr result (IsRunRefusal cap steps.now) }
{
    let Ok(mut machine) = Machine::new(alloc, cap) else {
        return Err(RunRefusal::NoMachine);
    };
    let mut log = Log::new(alloc);
    for i in 0..steps.len() {
        match machine.step(&steps[i], &mut log) {
            Ok(()) => {}
            Err(refusal) => return Err(RunRefusal::At(i, refusal)),
        }
    }
    Ok((machine, log))
}
