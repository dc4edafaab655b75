//! What is logged of a step before it is made.
ghost use Rattle.std.specs.Prelude.{◌≡◌, ◌≤◌, ℕ, length, take, IfOk, IfErr};
ghost use Rattle.piper_protocol.specs.Reported.{HasFailed};
ghost use Rattle.piper_machine.specs.Log.{listed};
ghost use Rattle.piper_machine.specs.Places.{peeked_count};
ghost use Rattle.piper_machine.specs.Action.{call_of, logged_of, index_event, wake_of, yield_of, registration_of};

use super::Machine;
use crate::bytes::Bytes;
use crate::calls::OpenCall;
use crate::events::{Event, Seen};
use crate::polling::Context;
use piper_protocol::memory::OutOfMemory;
use piper_protocol::table::{Action, Side};

// What the load of the other side's index is logged as.
fn index_event(side: Side, count: usize) -> Event
    ensures { result ≡ index_event side count }
{
    match side {
        Side::Reader => Event::Looked(side, Seen::Tail(count)),
        Side::Writer => Event::Looked(side, Seen::Head(count)),
    }
}

// What the registration of the context's waker is logged as.
fn registration(side: Side, context: Option<Context>) -> Option<Event>
    ensures { listed result ≡ registration_of side context }
{
    match context {
        Some(cx) if cx.luck.register_granted => Some(Event::Registered(side, cx.waker)),
        _ => None,
    }
}

// What the call of a waker is logged as.
fn woken(taken: Option<u32>) -> Option<Event>
    ensures { listed result ≡ wake_of taken }
{
    taken.map(Event::Woken)
}

// What a yield is logged as.
fn yield_event(context: Option<Context>) -> Option<Event>
    ensures { listed result ≡ yield_of context }
{
    match context {
        Some(cx) if cx.luck.yield_granted => Some(Event::Woken(cx.waker)),
        _ => None,
    }
}

impl Machine {
    // What the open call of the side holds.
    pub(super) fn call(&self, side: Side) -> OpenCall
        ensures { result ≡ call_of side self.now }
    {
        match side {
            Side::Reader => self.reader_call,
            Side::Writer => self.writer_call,
        }
    }

    // What is logged of a step of this kind.
    pub(super) fn event(&self, side: Side, action: Action) -> Result<Option<Event>, OutOfMemory>
        requires head { (n : ℕ) → action ≡ Action.StoreHead n → n ≤ peeked_count self.now }
        requires tail { (n : ℕ) → action ≡ Action.StoreTail n → n ≤ length self.now.lent }
        ensures event { IfOk result (λ event. listed event ≡ logged_of side action self.now) }
        ensures refused { IfErr result HasFailed }
    {
        let call = self.call(side);
        let event = match action {
            Action::Rest | Action::Take(_) => None,
            Action::LoadHead => Some(Event::Looked(side, Seen::Head(self.unread_count()))),
            Action::LoadTail => Some(Event::Looked(side, Seen::Tail(self.unread_count()))),
            Action::LoadIndex => Some(index_event(side, self.unread_count())),
            Action::LoadClosed => Some(Event::Looked(side, Seen::Closed(self.is_closed))),
            Action::Register => registration(side, call.context),
            Action::StoreHead(n) => Some(Event::Consumed(self.front_bytes(n)?)),
            Action::StoreTail(n) => Some(Event::Published(self.lent_bytes(n)?)),
            Action::StoreClosed { is_shut: _ } => Some(Event::Closed(side)),
            Action::Wake => woken(call.taken),
            Action::Yield => yield_event(call.context),
            Action::CallDestination | Action::CallSource => None,
        };
        Ok(event)
    }

    // A copy of the first unread bytes.
    fn front_bytes(&self, n: usize) -> Result<Bytes, OutOfMemory>
        requires { n ≤ peeked_count self.now }
        ensures bytes { IfOk result (λ bytes. bytes ≡ take n self.now.unread) }
        ensures refused { IfErr result HasFailed }
    {
        Bytes::copy_of(self.alloc, &self.r_peek()[..n])
    }

    // A copy of the first lent bytes.
    fn lent_bytes(&self, n: usize) -> Result<Bytes, OutOfMemory>
        requires { n ≤ length self.now.lent }
        ensures bytes { IfOk result (λ bytes. bytes ≡ take n self.now.lent) }
        ensures refused { IfErr result HasFailed }
    {
        Bytes::copy_of(self.alloc, &self.w_lent()[..n])
    }
}
