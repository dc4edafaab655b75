//! Why a step would be refused, other than for want of memory.
ghost use Rattle.std.specs.Prelude.{◌≡◌};
ghost use Rattle.piper_machine.specs.Refusal.{reader_state, writer_state, state_of, cannot_begin, cannot_go, unless, or_else, past, refusal_of};

use super::Machine;
use crate::calls::{Call, SideState, Step};
use crate::refusals::StepRefusal;
use piper_protocol::table::{ReadPoint, Side, WritePoint};

// Why no call can be opened.
fn cannot_begin(state: SideState) -> Option<StepRefusal>
    ensures { result ≡ cannot_begin state }
{
    match state {
        SideState::Idle => None,
        SideState::Busy => Some(StepRefusal::Busy),
        SideState::Dropped => Some(StepRefusal::Dropped),
    }
}

// Why no step can be made.
fn cannot_go(state: SideState) -> Option<StepRefusal>
    ensures { result ≡ cannot_go state }
{
    match state {
        SideState::Idle => Some(StepRefusal::Idle),
        SideState::Busy => None,
        SideState::Dropped => Some(StepRefusal::Dropped),
    }
}

// The refusal where a test fails.
fn unless(holds: bool, refusal: StepRefusal) -> Option<StepRefusal>
    ensures { result ≡ unless holds refusal }
{
    if holds { None } else { Some(refusal) }
}

// The first reason, or else the second.
fn or_else(first: Option<StepRefusal>, second: Option<StepRefusal>) -> Option<StepRefusal>
    ensures { result ≡ or_else first second }
{
    match first {
        None => second,
        Some(refusal) => Some(refusal),
    }
}

impl Machine {
    /// Whether the reader is idle, inside a call, or dropped.
    pub fn r_state(&self) -> SideState
        ensures state { result ≡ reader_state self.now.reader }
        ensures idle { result ≡ SideState.Idle → self.now.reader ≡ ReadPoint.Idle }
    {
        match self.read.point() {
            ReadPoint::Idle => SideState::Idle,
            ReadPoint::Dropped => SideState::Dropped,
            _ => SideState::Busy,
        }
    }

    /// Whether the writer is idle, inside a call, or dropped.
    pub fn w_state(&self) -> SideState
        ensures state { result ≡ writer_state self.now.writer }
        ensures idle { result ≡ SideState.Idle → self.now.writer ≡ WritePoint.Idle }
    {
        match self.write.point() {
            WritePoint::Idle => SideState::Idle,
            WritePoint::Dropped => SideState::Dropped,
            _ => SideState::Busy,
        }
    }

    // What the side is about.
    fn state(&self, side: Side) -> SideState
        ensures { result ≡ state_of side self.now }
    {
        match side {
            Side::Reader => self.r_state(),
            Side::Writer => self.w_state(),
        }
    }

    // Why the call asks for more than there is.
    fn past(&self, call: &Call) -> Option<StepRefusal>
        ensures { result ≡ past call.now self.now }
    {
        match *call {
            Call::Consume(n) => unless(n <= self.peekable(), StepRefusal::PastPeek),
            Call::Produced(n) => unless(n <= self.lent_count(), StepRefusal::PastLent),
            _ => None,
        }
    }

    /// Why the call would not be opened, other than for want of memory.
    pub fn call_refusal(&self, call: &Call) -> Option<StepRefusal>
        ensures { result ≡ refusal_of (Step.Begin call.now) self.now }
    {
        let draw = unless(call.has_good_draw(), StepRefusal::BadDraw);
        or_else(
            cannot_begin(self.state(call.side())),
            or_else(draw, self.past(call)),
        )
    }

    /// Why the step would be refused, other than for want of memory.
    pub fn refusal(&self, step: &Step) -> Option<StepRefusal>
        ensures { result ≡ refusal_of step.now self.now }
    {
        match step {
            Step::Begin(call) => self.call_refusal(call),
            Step::Go(side) => cannot_go(self.state(*side)),
            Step::Put(offset, _) => {
                let past = unless(*offset < self.lent_count(), StepRefusal::PastLent);
                or_else(cannot_begin(self.w_state()), past)
            }
        }
    }
}
