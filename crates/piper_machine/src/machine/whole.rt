//! Calls run whole: the side is driven to its answer while the other side makes no step.
ghost use Rattle.std.specs.Prelude.{◌≡◌, ◌<◌, ◌≤◌, ◌+◌, [], length, true, false, None, Some};
ghost use Rattle.piper_machine.specs.Call.{side_of};
ghost use Rattle.piper_machine.specs.Pipe.{begun};
ghost use Rattle.piper_machine.specs.Query.{unread_count, is_empty, is_full, is_closed};
ghost use Rattle.piper_machine.specs.Lend.{Lendable, lending};
ghost use Rattle.piper_machine.specs.Places.{peeked_count};
ghost use Rattle.piper_machine.specs.Look.{context, reader_look, writer_look};
ghost use Rattle.piper_machine.specs.Move.{produce, consume};
ghost use Rattle.piper_machine.specs.Close.{close, dropped};
ghost use Rattle.piper_machine.specs.Step.{action_of};
ghost use Rattle.piper_machine.specs.Refusal.{IsIdle, state_of, past};
ghost use Rattle.piper_machine.specs.Sound.{IsSound};
ghost use Rattle.piper_machine.specs.BySteps.{IsWholeBySteps, AreWholeBySteps, is_plain, whole};
ghost use Rattle.piper_machine.specs.Alone.{heard, yield_waker, resting, alone_of, is_copying, wakes_of};

use super::Machine;
use crate::calls::{Call, SideState};
use crate::destination::Destination;
use crate::polling::{Context, Luck};
use crate::source::Source;
use piper_protocol::answer::{Answer, Polled};
use piper_protocol::table::{Action, Query, ReadPoint, Side, WritePoint};

// The waker that a yield of this call calls.
fn yield_waker(context: Option<Context>) -> Option<u32>
    ensures { result ≡ yield_waker context }
{
    match context {
        Some(cx) if cx.luck.yield_granted => Some(cx.waker),
        _ => None,
    }
}

impl Machine {
    // A whole call of the side begins. That each call which may be opened now is the same run whole
    // and made by steps alone holds of every machine; a whole call hands it on as `by_steps`.
    pub(super) fn begin_whole(&mut self, side: Side)
        requires { IsIdle side self.old }
        ensures after { self.new ≡ begun self.old }
        ensures rests { self.old ≡ resting side self.old }
        ensures sound { IsSound self.old }
        ensures by_steps { AreWholeBySteps self.old }
    {
        self.woken.clear();
    }

    // A waker that the side's next step calls joins those that the call has called.
    pub(super) fn hear(&mut self, side: Side, action: Action)
        requires next { action ≡ action_of side self.old }
        requires wakes { action ≡ Action.Wake → length self.old.woken < 2 }
        requires yields { action ≡ Action.Yield → length self.old.woken < 2 }
        ensures after { self.new ≡ heard side (action_of side self.old) self.old }
        ensures next { action ≡ action_of side self.new }
    {
        let call = self.call(side);
        match action {
            Action::Wake => if let Some(name) = call.taken {
                self.woken.add(name);
            },
            Action::Yield => if let Some(name) = yield_waker(call.context) {
                self.woken.add(name);
            },
            _ => {}
        }
    }

    // Makes the side's steps up to the answer of its open call.
    fn drive(&mut self, side: Side) -> Answer
        requires busy { state_of side self.old ≡ SideState.Busy }
        requires moves { is_copying side self.old ≡ false }
        requires wakes { length self.old.woken + wakes_of side self.old ≤ 2 }
        ensures answer { result ≡ (alone_of side self.old).answer }
        ensures after { self.new ≡ (alone_of side self.old).pipe }
    {
        'steps: loop {
            let action = self.next(side);
            self.hear(side, action);
            match self.goes(side, action) {
                Some(answer) => return answer,
                None => {}
            }
        }
    }

    // Opens a call that neither copies nor lends, and makes its steps up to its answer.
    fn run_whole(&mut self, call: Call) -> Answer
        requires idle { IsIdle (side_of call) self.old }
        requires within { past call self.old ≡ None }
        requires plain { is_plain call ≡ true }
        ensures answer { result ≡ (whole [] call self.old).answer }
        ensures after { self.new ≡ (whole [] call self.old).pipe }
        ensures by_steps { IsWholeBySteps call self.old }
    {
        let side = call.side();
        self.begin_whole(side);
        let mut destination = Destination::Slice(0);
        let mut source = Source::none(self.alloc);
        self.open(&call, &mut destination, &mut source);
        self.drive(side)
    }

    /// How many bytes are unread, as the reader finds it.
    ///
    /// Requires: the reader is idle.
    pub fn r_len(&mut self) -> usize
        requires { self.old.reader ≡ ReadPoint.Idle }
        ensures value { result ≡ unread_count self.old }
        ensures after { self.new ≡ begun self.old }
        ensures by_steps { IsWholeBySteps (Call.Query Side.Reader Query.Len) self.old }
    {
        self.run_whole(Call::Query(Side::Reader, Query::Len))
            .count()
    }

    /// Whether no byte is unread, as the reader finds it.
    ///
    /// Requires: the reader is idle.
    pub fn r_is_empty(&mut self) -> bool
        requires { self.old.reader ≡ ReadPoint.Idle }
        ensures value { result ≡ is_empty self.old }
        ensures after { self.new ≡ begun self.old }
        ensures by_steps { IsWholeBySteps (Call.Query Side.Reader Query.IsEmpty) self.old }
    {
        self.run_whole(Call::Query(Side::Reader, Query::IsEmpty))
            .flag()
    }

    /// Whether as many bytes are unread as the pipe can hold, as the reader finds it.
    ///
    /// Requires: the reader is idle.
    pub fn r_is_full(&mut self) -> bool
        requires { self.old.reader ≡ ReadPoint.Idle }
        ensures value { result ≡ is_full self.old }
        ensures after { self.new ≡ begun self.old }
        ensures by_steps { IsWholeBySteps (Call.Query Side.Reader Query.IsFull) self.old }
    {
        self.run_whole(Call::Query(Side::Reader, Query::IsFull))
            .flag()
    }

    /// Whether the pipe is closed, by the writer or by the drop of a side, as the reader finds it.
    ///
    /// Requires: the reader is idle.
    pub fn r_is_closed(&mut self) -> bool
        requires { self.old.reader ≡ ReadPoint.Idle }
        ensures value { result ≡ is_closed self.old }
        ensures after { self.new ≡ begun self.old }
        ensures by_steps { IsWholeBySteps (Call.IsClosed Side.Reader) self.old }
    {
        self.run_whole(Call::IsClosed(Side::Reader)).flag()
    }

    /// How many bytes are unread, as the writer finds it.
    ///
    /// Requires: the writer is idle.
    pub fn w_len(&mut self) -> usize
        requires { self.old.writer ≡ WritePoint.Idle }
        ensures value { result ≡ unread_count self.old }
        ensures after { self.new ≡ begun self.old }
        ensures by_steps { IsWholeBySteps (Call.Query Side.Writer Query.Len) self.old }
    {
        self.run_whole(Call::Query(Side::Writer, Query::Len))
            .count()
    }

    /// Whether no byte is unread, as the writer finds it.
    ///
    /// Requires: the writer is idle.
    pub fn w_is_empty(&mut self) -> bool
        requires { self.old.writer ≡ WritePoint.Idle }
        ensures value { result ≡ is_empty self.old }
        ensures after { self.new ≡ begun self.old }
        ensures by_steps { IsWholeBySteps (Call.Query Side.Writer Query.IsEmpty) self.old }
    {
        self.run_whole(Call::Query(Side::Writer, Query::IsEmpty))
            .flag()
    }

    /// Whether as many bytes are unread as the pipe can hold, as the writer finds it.
    ///
    /// Requires: the writer is idle.
    pub fn w_is_full(&mut self) -> bool
        requires { self.old.writer ≡ WritePoint.Idle }
        ensures value { result ≡ is_full self.old }
        ensures after { self.new ≡ begun self.old }
        ensures by_steps { IsWholeBySteps (Call.Query Side.Writer Query.IsFull) self.old }
    {
        self.run_whole(Call::Query(Side::Writer, Query::IsFull))
            .flag()
    }

    /// Whether the pipe is closed, by the writer or by the drop of a side, as the writer finds it.
    ///
    /// Requires: the writer is idle.
    pub fn w_is_closed(&mut self) -> bool
        requires { self.old.writer ≡ WritePoint.Idle }
        ensures value { result ≡ is_closed self.old }
        ensures after { self.new ≡ begun self.old }
        ensures by_steps { IsWholeBySteps (Call.IsClosed Side.Writer) self.old }
    {
        self.run_whole(Call::IsClosed(Side::Writer)).flag()
    }

    /// Checks for a byte. If none is unread, the waker is registered, and called once that may have
    /// changed.
    ///
    /// Ready with true: a byte is known. Ready with false: the pipe is closed, and no byte is
    /// unread. `Memory` is returned exactly where a registration is needed and not granted.
    ///
    /// Requires: the reader is idle, and the draw is below 100.
    pub fn r_poll(&mut self, waker: u32, luck: Luck) -> Polled<bool>
        requires idle { self.old.reader ≡ ReadPoint.Idle }
        requires draw { luck.draw < 100 }
        ensures answer { result
            ≡ (reader_look (Some (context waker luck)) (begun self.old)).answer }
        ensures after { self.new ≡ (reader_look (Some (context waker luck)) (begun self.old)).pipe }
        ensures by_steps { IsWholeBySteps (Call.Poll Side.Reader waker luck) self.old }
    {
        self.run_whole(Call::Poll(Side::Reader, waker, luck))
            .polled()
    }

    /// Checks for room. If there is none, the waker is registered, and called once that may have
    /// changed.
    ///
    /// Ready with true: room is known. Ready with false: the pipe is closed. `Memory` is returned
    /// exactly where a registration is needed and not granted.
    ///
    /// Requires: the writer is idle, and the draw is below 100.
    pub fn w_poll(&mut self, waker: u32, luck: Luck) -> Polled<bool>
        requires idle { self.old.writer ≡ WritePoint.Idle }
        requires draw { luck.draw < 100 }
        ensures answer { result
            ≡ (writer_look (Some (context waker luck)) (begun self.old)).answer }
        ensures after { self.new ≡ (writer_look (Some (context waker luck)) (begun self.old)).pipe }
        ensures by_steps { IsWholeBySteps (Call.Poll Side.Writer waker luck) self.old }
    {
        self.run_whole(Call::Poll(Side::Writer, waker, luck))
            .polled()
    }

    /// Gives up the first `n` bytes of the peeked slice, and wakes the writer, also at 0.
    ///
    /// Requires: the reader is idle, and `n` is at most the length of `r_peek`.
    pub fn r_consume(&mut self, n: usize)
        requires idle { self.old.reader ≡ ReadPoint.Idle }
        requires within { n ≤ peeked_count self.old }
        ensures after { self.new ≡ consume n (begun self.old) }
        ensures by_steps { IsWholeBySteps (Call.Consume n) self.old }
    {
        self.run_whole(Call::Consume(n));
    }

    /// Lends at most `max` free places in one piece, in place of what was lent before, and returns
    /// how many.
    ///
    /// Nothing is lent of a shut pipe; else at least the lesser of `max`, 4096, the known room and
    /// what is left up to the end of the buffer. What is lent is written by `w_put`, shown by
    /// `w_lent` and published by `w_produced`.
    ///
    /// Requires: the writer is idle.
    pub fn w_write_buf(&mut self, max: usize) -> usize
        requires { self.old.writer ≡ WritePoint.Idle }
        ensures bounds { Lendable max self.old result }
        ensures count { length self.new.lent ≡ result }
        ensures after { self.new ≡ lending self.new.lent (begun self.old) }
        ensures by_steps { IsWholeBySteps (Call.WriteBuf max) self.old }
    {
        self.begin_whole(Side::Writer);
        self.lend(max)
    }

    /// Publishes the first `n` bytes of what is lent, as they are now, and wakes the reader, also
    /// at 0.
    ///
    /// Requires: the writer is idle, and `n` is at most the length of `w_lent`.
    pub fn w_produced(&mut self, n: usize)
        requires idle { self.old.writer ≡ WritePoint.Idle }
        requires within { n ≤ length self.old.lent }
        ensures after { self.new ≡ produce n (begun self.old) }
        ensures by_steps { IsWholeBySteps (Call.Produced n) self.old }
    {
        self.run_whole(Call::Produced(n));
    }

    /// Closes the pipe: nothing can be written any more, and both sides are woken. What is unread
    /// stays.
    ///
    /// Requires: the writer is idle.
    pub fn w_close(&mut self)
        requires { self.old.writer ≡ WritePoint.Idle }
        ensures after { self.new ≡ close (begun self.old) }
        ensures by_steps { IsWholeBySteps Call.Close self.old }
    {
        self.run_whole(Call::Close);
    }

    /// Drops the reader: the pipe is closed, and the writer is woken. What is unread stays.
    ///
    /// Requires: the reader is idle.
    pub fn r_drop(&mut self)
        requires { self.old.reader ≡ ReadPoint.Idle }
        ensures after { self.new ≡ dropped Side.Reader (begun self.old) }
        ensures by_steps { IsWholeBySteps (Call.Drop Side.Reader) self.old }
    {
        self.run_whole(Call::Drop(Side::Reader));
    }

    /// Drops the writer: the pipe is closed, and the reader is woken. What is unread stays.
    ///
    /// Requires: the writer is idle.
    pub fn w_drop(&mut self)
        requires { self.old.writer ≡ WritePoint.Idle }
        ensures after { self.new ≡ dropped Side.Writer (begun self.old) }
        ensures by_steps { IsWholeBySteps (Call.Drop Side.Writer) self.old }
    {
        self.run_whole(Call::Drop(Side::Writer));
    }
}
