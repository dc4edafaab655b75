//! The writer's side: its own index, the reader's as it last saw it, what is lent, and its point
//! inside the open call.
ghost use Rattle.std.specs.Prelude.{IsSome, ◌≡◌, ◌≢◌, ℕ, ◌+◌, ◌-◌, ◌*◌, ◌<◌, ◌≤◌, true, false, ◌==◌};
ghost use Rattle.piper_protocol.specs.Table.{SumFits, moved_in, publishes, tail_store, write_action, write_after, write_done, write_sum};
ghost use Rattle.piper_protocol.specs.Index.{IsCapacity, distance, offset_of, advanced};

use piper_protocol::answer::{Answer, Polled};
use piper_protocol::indices::WriteIndices;
use piper_protocol::table::WritePoint::{
    CallSource, Dropped, Idle, LookClosed, LookClosedAgain, LookHead, LookHeadAgain, LookRegister,
    LookTake, QueryClosed, QueryHead, QueryTail, RoundClosed, StoreClosed, StoreTail, TakeReader,
    TakeWriter, WakeReader, WakeWriter, Yield,
};
use piper_protocol::table::{
    Action, AfterWrite, Form, Found, Purpose, Side, WritePoint, end_or_pending, failed_answer,
    yield_answer,
};
use std::marker::Model;

/// What the writer keeps. It knows no buffer, no slot, no waker and no runtime.
///
/// A call is opened by `begin`. `next` then says which step the call table puts next, and `step`
/// takes in what that step found; it returns where the call ends. A step that moves an index or
/// shuts the pipe is reported by `head_loaded`, `stored_tail` or `shut`.
#[derive(Drop)]
pub struct WriteState {
    indices: WriteIndices,
    point: WritePoint,
}

impl Model for WriteState {
    ghost use Rattle.piper_machine.specs.Side.{Writing, IsWriting};
    ghost use Rattle.piper_machine.specs.SideSteps.{writing_of};

    ghost Value = { Writing };

    ghost view = { λ side. writing_of side.indices side.point };

    ghost invariant = { λ side. IsWriting (writing_of side.indices side.point) };
}

impl WriteState {
    ghost use Rattle.piper_protocol.specs.Table.{publishes, tail_store, write_sum};
    ghost use Rattle.piper_machine.specs.Side.{IsWriting, fresh_writing, lend_length, lent_out};
    ghost use Rattle.piper_machine.specs.SideSteps.{writing_after, writing_answer, head_found};

    /// The writer of an empty pipe.
    pub fn new(capacity: usize) -> Self
        requires { IsCapacity capacity }
        ensures fresh { result ≡ fresh_writing capacity }
        ensures sound { IsWriting result }
    {
        WriteState {
            indices: WriteIndices::new(capacity),
            point: WritePoint::Idle,
        }
    }

    /// The writer's own index.
    pub fn tail(&self) -> usize
        ensures { result ≡ self.now.tail }
    {
        self.indices.tail()
    }

    /// The place from which on the writer is lent.
    pub fn front(&self) -> usize
        ensures value { result ≡ offset_of self.now.capacity self.now.tail }
        ensures below { result < self.now.capacity }
    {
        self.indices.front()
    }

    /// How many places are lent.
    pub fn lent(&self) -> usize
        ensures { result ≡ self.now.lent }
    {
        self.indices.lent()
    }

    /// Where the writer is inside its open call.
    pub fn point(&self) -> WritePoint
        ensures { result ≡ self.now.point }
    {
        self.point
    }

    /// Lends up to `most` free places in one piece, in place of what was lent before, and returns
    /// how many.
    ///
    /// Places beyond those that were set already are to be set to zero before they are handed out.
    pub fn lend(&mut self, most: usize) -> usize
        requires { tail_store self.old.point ≡ 0 }
        ensures count { result ≡ lend_length most self.old }
        ensures after { self.new ≡ lent_out result self.old }
        ensures sound { IsWriting self.new }
    {
        self.indices.lend(most).len
    }

    /// Takes back what is lent.
    pub fn unlend(&mut self)
        requires { tail_store self.old.point ≡ 0 }
        ensures after { self.new ≡ record self.old { lent = 0 } }
        ensures sound { IsWriting self.new }
    {
        self.indices.unlend();
    }

    /// Opens a call at its first point. One that publishes bytes publishes lent ones.
    pub fn begin(&mut self, point: WritePoint)
        requires idle { self.old.point ≡ WritePoint.Idle }
        requires within { tail_store point ≤ self.old.lent }
        requires new { write_sum point ≡ 0 }
        ensures after { self.new ≡ record self.old { point = point } }
        ensures sound { IsWriting self.new }
    {
        self.point = point;
    }

    /// The step that the call table puts next.
    pub fn next(&self) -> Action
        ensures step { result ≡ write_action self.now.point }
        ensures within { (n : ℕ) → result ≡ Action.StoreTail n → n ≤ self.now.lent }
        ensures no_head { (n : ℕ) → result ≢ Action.StoreHead n }
    {
        action(self.point)
    }

    /// The step that comes next was made and found this, and no index moved with it.
    pub fn step(&mut self, found: Found) -> Option<Answer>
        requires next { write_action self.old.point ≢ Action.Rest }
        requires no_store { publishes self.old.point ≡ false }
        requires within { moved_in found ≤ self.old.lent }
        ensures after { self.new ≡ writing_after found self.old }
        ensures answer { result ≡ writing_answer found self.old }
        ensures open { self.new.point ≡ WritePoint.Idle → IsSome result }
        ensures rests { IsSome result → tail_store self.new.point ≡ 0 }
        ensures sound { IsWriting self.new }
    {
        let room = self.indices.room();
        let (point, answer) = after(self.point, self.indices.capacity(), room, found);
        self.point = point;
        answer
    }

    /// The head was loaded in a look, and was at this index.
    pub fn head_loaded(&mut self, head: usize) -> Option<Answer>
        requires next { write_action self.old.point ≡ Action.LoadIndex }
        requires index { head < 2 * self.old.capacity }
        requires within { distance self.old.capacity head self.old.tail ≤ self.old.capacity }
        requires lent { self.old.lent
            ≤ self.old.capacity - distance self.old.capacity head self.old.tail }
        ensures after { self.new ≡ record (writing_after (head_found head self.old) self.old) {
          head = head;
        } }
        ensures answer { result ≡ writing_answer (head_found head self.old) self.old }
        ensures open { self.new.point ≡ WritePoint.Idle → IsSome result }
        ensures sound { IsWriting self.new }
    {
        self.indices.set_head(head);
        let room = self.indices.room();
        let none = room == 0;
        let (point, answer) = after(
            self.point,
            self.indices.capacity(),
            room,
            Found::IndexLoaded { none },
        );
        self.point = point;
        answer
    }

    /// The tail was stored, past the first `n` bytes of what is lent.
    pub fn stored_tail(&mut self, n: usize) -> Option<Answer>
        requires next { write_action self.old.point ≡ Action.StoreTail n }
        requires within { n ≤ self.old.lent }
        ensures after { self.new ≡ record (writing_after Found.Nothing self.old) {
          tail = advanced self.old.capacity self.old.tail n;
          lent = self.old.lent - n;
        } }
        ensures answer { result ≡ writing_answer Found.Nothing self.old }
        ensures open { self.new.point ≡ WritePoint.Idle → IsSome result }
        ensures sound { IsWriting self.new }
    {
        self.indices.publish(n);
        let room = self.indices.room();
        let (point, answer) = after(self.point, self.indices.capacity(), room, Found::Nothing);
        self.point = point;
        answer
    }

    /// The closed flag was set, by a close: nothing is lent from now on.
    pub fn shut(&mut self) -> Option<Answer>
        requires next { write_action self.old.point ≡ Action.StoreClosed true }
        ensures after { self.new ≡ record (writing_after Found.Nothing self.old) {
          lent = 0;
          is_shut = true;
        } }
        ensures answer { result ≡ writing_answer Found.Nothing self.old }
        ensures open { self.new.point ≡ WritePoint.Idle → IsSome result }
        ensures sound { IsWriting self.new }
    {
        self.indices.shut();
        let room = self.indices.room();
        let (point, answer) = after(self.point, self.indices.capacity(), room, Found::Nothing);
        self.point = point;
        answer
    }
}

// The rows of the call table, as the model reads them: which step a point puts next, and where what
// that step found leads.

// The step that comes next.
fn action(point: WritePoint) -> Action
    ensures { result ≡ write_action point }
{
    match point {
        Idle | Dropped => Action::Rest,
        QueryHead(_) => Action::LoadHead,
        QueryTail(_, _) => Action::LoadTail,
        QueryClosed | LookClosed(_) | LookClosedAgain(_) | RoundClosed(_, _, _) =>
            Action::LoadClosed,
        LookHead(_) | LookHeadAgain(_) => Action::LoadIndex,
        LookRegister(_) => Action::Register,
        LookTake(_) | TakeWriter => Action::Take(Side::Writer),
        Yield => Action::Yield,
        CallSource(_, _) => Action::CallSource,
        StoreTail(n, _) => Action::StoreTail(n),
        TakeReader(_) => Action::Take(Side::Reader),
        WakeReader(_) | WakeWriter => Action::Wake,
        StoreClosed(AfterWrite::WakeWriter) => Action::StoreClosed { is_shut: true },
        StoreClosed(_) => Action::StoreClosed { is_shut: false },
    }
}

// The point after the reader was woken, or had no waker, and the answer if the call ends there.
fn woke(next: AfterWrite) -> (WritePoint, Option<Answer>)
    ensures point { result.0 ≡ (write_done next).point }
    ensures answer { result.1 ≡ (write_done next).answer }
{
    match next {
        AfterWrite::Answer => (Idle, Some(Answer::Done)),
        AfterWrite::Drop => (Dropped, Some(Answer::Done)),
        AfterWrite::WakeWriter => (TakeWriter, None),
        AfterWrite::Round(form, sum) => (CallSource(form, sum), None),
    }
}

// The point after the next step, by what that found in a pipe of this capacity and known room, and
// the answer if the call ends there.
fn after(
    point: WritePoint,
    capacity: usize,
    room: usize,
    found: Found,
) -> (WritePoint, Option<Answer>)
    requires fits { SumFits (write_sum point) found }
    ensures point { result.0 ≡ (write_after capacity room point found).point }
    ensures answer { result.1 ≡ (write_after capacity room point found).answer }
    ensures open { write_action point ≢ Action.Rest → result.0 ≡ WritePoint.Idle
        → IsSome result.1 }
    ensures rests { IsSome result.1 → tail_store result.0 ≡ 0 }
    ensures store { (most : ℕ) → tail_store point ≤ most → moved_in found ≤ most
        → tail_store result.0 ≤ most }
    ensures sum { (most : ℕ) → publishes point ≡ false → write_sum point ≤ most + tail_store point
        → write_sum result.0 ≤ most + tail_store result.0 }
    ensures published { publishes point ≡ true → (tail_store result.0 ≡ 0)
        × (write_sum result.0 ≡ write_sum point) }
{
    match (point, found) {
        (QueryHead(query), Found::Unread(count)) => (QueryTail(query, count), None),
        (QueryTail(query, count), _) => (Idle, Some(query.answer(capacity, count))),
        (QueryClosed, Found::Flag(is_closed)) => (Idle, Some(Answer::Flag(is_closed))),
        (LookClosed(look), Found::Flag(is_closed)) if is_closed => (
            Idle,
            Some(look.look_answer(Polled::Ready(false))),
        ),
        (LookClosed(look), Found::Flag(_)) if room == 0 => (LookHead(look), None),
        (LookClosed(look), Found::Flag(_)) => (look.writer_found(), None),
        (LookHead(look), Found::IndexLoaded { none }) if none => (look.writer_found_none(), None),
        (LookHead(look), Found::IndexLoaded { .. }) => (look.writer_found(), None),
        (LookRegister(look), Found::Granted(is_granted)) if is_granted => (
            LookHeadAgain(look),
            None,
        ),
        (LookRegister(look), Found::Granted(_)) => (Idle, Some(look.look_answer(Polled::Memory))),
        (LookHeadAgain(look), Found::IndexLoaded { none }) if none => (LookClosedAgain(look), None),
        (LookHeadAgain(look), Found::IndexLoaded { .. }) => (look.writer_found(), None),
        (LookClosedAgain(look), Found::Flag(is_closed)) => (
            Idle,
            Some(look.look_answer(end_or_pending(is_closed))),
        ),
        (LookTake(Purpose::Poll), _) => (Idle, Some(Answer::Poll(Polled::Ready(true)))),
        (LookTake(Purpose::Copy(Form::Polling { is_drawn: true })), _) => (Yield, None),
        (LookTake(Purpose::Copy(form)), _) => (CallSource(form, 0), None),
        (Yield, Found::Granted(is_granted)) => (Idle, Some(yield_answer(is_granted))),
        (CallSource(form, sum), Found::Moved(n)) if n == 0 => (Idle, Some(form.count_answer(sum))),
        (CallSource(form, sum), Found::Moved(n)) => (RoundClosed(n, form, sum + n), None),
        (CallSource(_, _), Found::Failed) => (Idle, Some(failed_answer())),
        (RoundClosed(_, form, sum), Found::Flag(is_closed)) if is_closed => (
            Idle,
            Some(form.count_answer(sum)),
        ),
        (RoundClosed(n, form, sum), Found::Flag(_)) => (
            StoreTail(n, AfterWrite::Round(form, sum)),
            None,
        ),
        (StoreTail(_, next), _) => (TakeReader(next), None),
        (TakeReader(next), Found::Waker(is_found)) if is_found => (WakeReader(next), None),
        (TakeReader(next), Found::Waker(_)) => woke(next),
        (WakeReader(next), _) => woke(next),
        (StoreClosed(next), _) => (TakeReader(next), None),
        (TakeWriter, Found::Waker(is_found)) if is_found => (WakeWriter, None),
        (TakeWriter, Found::Waker(_)) => (Idle, Some(Answer::Done)),
        (WakeWriter, _) => (Idle, Some(Answer::Done)),
        _ => (point, None),
    }
}
