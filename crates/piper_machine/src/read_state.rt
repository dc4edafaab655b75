//! The reader's side: its own index, the writer's as it last saw it, and its point inside the open
//! call.
ghost use Rattle.std.specs.Prelude.{IsSome, ◌≡◌, ◌≢◌, ℕ, true, ◌*◌, ◌<◌, ◌≤◌, ◌==◌, ◌+◌};
ghost use Rattle.piper_protocol.specs.Index.{IsCapacity, distance, offset_of, advanced};
ghost use Rattle.piper_protocol.specs.Table.{SumFits, head_store, moved_in, read_action, read_after, read_done, read_sum, reader_looks_for};

use piper_protocol::answer::{Answer, Polled};
use piper_protocol::indices::ReadIndices;
use piper_protocol::table::ReadPoint::{
    CallDestination, Dropped, Idle, LookClosed, LookRegister, LookTail, LookTailAgain, LookTake,
    QueryClosed, QueryHead, QueryTail, StoreClosed, StoreHead, TakeWriter, WakeWriter, Yield,
};
use piper_protocol::table::{
    Action, AfterRead, Form, Found, Purpose, ReadPoint, Side, end_or_pending, failed_answer,
    yield_answer,
};
use std::marker::Model;

/// What the reader keeps. It knows no buffer, no slot, no waker and no runtime.
///
/// A call is opened by `begin`. `next` then says which step the call table puts next, and `step`
/// takes in what that step found; it returns where the call ends. A step that moves an index is
/// reported by `tail_loaded` or `stored_head`.
#[derive(Drop)]
pub struct ReadState {
    indices: ReadIndices,
    point: ReadPoint,
}

impl Model for ReadState {
    ghost use Rattle.piper_machine.specs.Side.{Reading, IsReading};
    ghost use Rattle.piper_machine.specs.SideSteps.{reading_of};

    ghost Value = { Reading };

    ghost view = { λ side. reading_of side.indices side.point };

    ghost invariant = { λ side. IsReading (reading_of side.indices side.point) };
}

impl ReadState {
    ghost use Rattle.piper_protocol.specs.Table.{head_store, read_sum};
    ghost use Rattle.piper_machine.specs.Side.{IsReading, fresh_reading, known_of, peekable_of};
    ghost use Rattle.piper_machine.specs.SideSteps.{reading_after, reading_answer, tail_found};

    /// The reader of an empty pipe.
    pub fn new(capacity: usize) -> Self
        requires { IsCapacity capacity }
        ensures fresh { result ≡ fresh_reading capacity }
        ensures sound { IsReading result }
    {
        ReadState {
            indices: ReadIndices::new(capacity),
            point: ReadPoint::Idle,
        }
    }

    /// How many places the pipe has.
    pub fn capacity(&self) -> usize
        ensures { result ≡ self.now.capacity }
    {
        self.indices.capacity()
    }

    /// The reader's own index.
    pub fn head(&self) -> usize
        ensures { result ≡ self.now.head }
    {
        self.indices.head()
    }

    /// The place of the first unread byte.
    pub fn front(&self) -> usize
        ensures value { result ≡ offset_of self.now.capacity self.now.head }
        ensures below { result < self.now.capacity }
    {
        self.indices.piece().from
    }

    /// How many known bytes are contiguous.
    pub fn peekable(&self) -> usize
        ensures { result ≡ peekable_of self.now }
    {
        self.indices.piece().len
    }

    /// Where the reader is inside its open call.
    pub fn point(&self) -> ReadPoint
        ensures { result ≡ self.now.point }
    {
        self.point
    }

    /// Opens a call at its first point. One that gives up bytes gives up those of one piece.
    pub fn begin(&mut self, point: ReadPoint)
        requires idle { self.old.point ≡ ReadPoint.Idle }
        requires within { head_store point ≤ peekable_of self.old }
        requires new { read_sum point ≡ 0 }
        ensures after { self.new ≡ record self.old { point = point } }
        ensures sound { IsReading self.new }
    {
        self.point = point;
    }

    /// Opens a call that begins with a look.
    pub fn begin_look(&mut self, purpose: Purpose)
        requires { self.old.point ≡ ReadPoint.Idle }
        ensures after { self.new ≡ record self.old {
          point = reader_looks_for (known_of self.old == 0) purpose;
        } }
        ensures sound { IsReading self.new }
    {
        self.point = ReadPoint::look(self.indices.knows_none(), purpose);
    }

    /// The step that the call table puts next.
    pub fn next(&self) -> Action
        ensures step { result ≡ read_action self.now.point }
        ensures within { (n : ℕ) → result ≡ Action.StoreHead n → n ≤ peekable_of self.now }
        ensures no_tail { (n : ℕ) → result ≢ Action.StoreTail n }
        ensures not_shut { result ≢ Action.StoreClosed true }
    {
        action(self.point)
    }

    /// The step that comes next was made and found this, and no index moved with it.
    pub fn step(&mut self, found: Found) -> Option<Answer>
        requires next { read_action self.old.point ≢ Action.Rest }
        requires no_store { head_store self.old.point ≡ 0 }
        requires within { moved_in found ≤ peekable_of self.old }
        ensures after { self.new ≡ reading_after found self.old }
        ensures answer { result ≡ reading_answer found self.old }
        ensures open { self.new.point ≡ ReadPoint.Idle → IsSome result }
        ensures sound { IsReading self.new }
    {
        let (point, answer) = after(self.point, self.indices.capacity(), found);
        self.point = point;
        answer
    }

    /// The tail was loaded in a look, and was at this index.
    pub fn tail_loaded(&mut self, tail: usize) -> Option<Answer>
        requires next { read_action self.old.point ≡ Action.LoadIndex }
        requires index { tail < 2 * self.old.capacity }
        requires within { distance self.old.capacity self.old.head tail ≤ self.old.capacity }
        ensures after { self.new ≡ record (reading_after (tail_found tail self.old) self.old) {
          tail = tail;
        } }
        ensures answer { result ≡ reading_answer (tail_found tail self.old) self.old }
        ensures open { self.new.point ≡ ReadPoint.Idle → IsSome result }
        ensures sound { IsReading self.new }
    {
        self.indices.set_tail(tail);
        let none = self.indices.knows_none();
        let (point, answer) = after(
            self.point,
            self.indices.capacity(),
            Found::IndexLoaded { none },
        );
        self.point = point;
        answer
    }

    /// The head was stored, past `n` bytes.
    pub fn stored_head(&mut self, n: usize) -> Option<Answer>
        requires next { read_action self.old.point ≡ Action.StoreHead n }
        requires within { n ≤ peekable_of self.old }
        ensures after { self.new ≡ record (reading_after Found.Nothing self.old) {
          head = advanced self.old.capacity self.old.head n;
        } }
        ensures answer { result ≡ reading_answer Found.Nothing self.old }
        ensures open { self.new.point ≡ ReadPoint.Idle → IsSome result }
        ensures sound { IsReading self.new }
    {
        self.indices.consume(n);
        let (point, answer) = after(self.point, self.indices.capacity(), Found::Nothing);
        self.point = point;
        answer
    }
}

// The rows of the call table, as the model reads them: which step a point puts next, and where what
// that step found leads.

// The step that comes next.
fn action(point: ReadPoint) -> Action
    ensures { result ≡ read_action point }
{
    match point {
        Idle | Dropped => Action::Rest,
        QueryHead(_) => Action::LoadHead,
        QueryTail(_) => Action::LoadTail,
        QueryClosed | LookClosed(_) => Action::LoadClosed,
        LookTail(_) | LookTailAgain(_, _) => Action::LoadIndex,
        LookRegister(_) => Action::Register,
        LookTake(_) => Action::Take(Side::Reader),
        Yield => Action::Yield,
        CallDestination(_, _) => Action::CallDestination,
        StoreHead(n, _) => Action::StoreHead(n),
        TakeWriter(_) => Action::Take(Side::Writer),
        WakeWriter(_) => Action::Wake,
        StoreClosed => Action::StoreClosed { is_shut: false },
    }
}

// The point after the writer was woken, or had no waker, and the answer if the call ends there.
fn woke(next: AfterRead) -> (ReadPoint, Option<Answer>)
    ensures point { result.0 ≡ (read_done next).point }
    ensures answer { result.1 ≡ (read_done next).answer }
{
    match next {
        AfterRead::Answer => (Idle, Some(Answer::Done)),
        AfterRead::Drop => (Dropped, Some(Answer::Done)),
        AfterRead::Round(form, sum) => (CallDestination(form, sum), None),
    }
}

// The point after the next step, by what that found in a pipe of this capacity, and the answer if
// the call ends there.
fn after(point: ReadPoint, capacity: usize, found: Found) -> (ReadPoint, Option<Answer>)
    requires fits { SumFits (read_sum point) found }
    ensures point { result.0 ≡ (read_after capacity point found).point }
    ensures answer { result.1 ≡ (read_after capacity point found).answer }
    ensures open { read_action point ≢ Action.Rest → result.0 ≡ ReadPoint.Idle → IsSome result.1 }
    ensures store { head_store result.0 ≤ moved_in found }
    ensures sum { read_sum result.0 ≤ read_sum point + head_store result.0 }
{
    match (point, found) {
        (QueryHead(query), _) => (QueryTail(query), None),
        (QueryTail(query), Found::Unread(count)) => (Idle, Some(query.answer(capacity, count))),
        (QueryClosed, Found::Flag(is_closed)) => (Idle, Some(Answer::Flag(is_closed))),
        (LookTail(look), Found::IndexLoaded { none }) if none => (look.reader_found_none(), None),
        (LookTail(look), Found::IndexLoaded { .. }) => (look.reader_found(), None),
        (LookRegister(look), Found::Granted(is_granted)) if is_granted => (LookClosed(look), None),
        (LookRegister(look), Found::Granted(_)) => (Idle, Some(look.look_answer(Polled::Memory))),
        (LookClosed(look), Found::Flag(is_closed)) => (LookTailAgain(look, is_closed), None),
        (LookTailAgain(look, was_closed), Found::IndexLoaded { none }) if none => (
            Idle,
            Some(look.look_answer(end_or_pending(was_closed))),
        ),
        (LookTailAgain(look, _), Found::IndexLoaded { .. }) => (look.reader_found(), None),
        (LookTake(Purpose::Poll), _) => (Idle, Some(Answer::Poll(Polled::Ready(true)))),
        (LookTake(Purpose::Copy(Form::Polling { is_drawn: true })), _) => (Yield, None),
        (LookTake(Purpose::Copy(form)), _) => (CallDestination(form, 0), None),
        (Yield, Found::Granted(is_granted)) => (Idle, Some(yield_answer(is_granted))),
        (CallDestination(form, sum), Found::Moved(n)) if n == 0 => (
            Idle,
            Some(form.count_answer(sum)),
        ),
        (CallDestination(form, sum), Found::Moved(n)) => (
            StoreHead(n, AfterRead::Round(form, sum + n)),
            None,
        ),
        (CallDestination(_, _), Found::Failed) => (Idle, Some(failed_answer())),
        (StoreHead(_, next), _) => (TakeWriter(next), None),
        (TakeWriter(next), Found::Waker(is_found)) if is_found => (WakeWriter(next), None),
        (TakeWriter(next), Found::Waker(_)) => woke(next),
        (WakeWriter(next), _) => woke(next),
        (StoreClosed, _) => (TakeWriter(AfterRead::Drop), None),
        _ => (point, None),
    }
}
