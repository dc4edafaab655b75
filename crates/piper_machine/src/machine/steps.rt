//! The steps of the two sides, one at a time.
ghost use Rattle.std.specs.Prelude.{IsSome, ◌≡◌, ◌≢◌, ◌≤◌, ℕ, [], length, Bool, true, false};
ghost use Rattle.piper_machine.specs.Open.{is_granted, is_yield_granted, no_call};
ghost use Rattle.piper_protocol.specs.Table.{head_store, moved_in, publishes, read_action, tail_store, write_action};
ghost use Rattle.piper_machine.specs.Lend.{Lendable, lending};
ghost use Rattle.piper_machine.specs.Round.{given, found_of, moved_by};
ghost use Rattle.piper_machine.specs.Action.{found_by, performed, registered_in, source_called};
ghost use Rattle.piper_machine.specs.Places.{peeked_count};
ghost use Rattle.piper_machine.specs.Step.{reader_stepped, writer_stepped, went, stepped, call_after, source_after, destination_after, lent_count_after, round_left, round_answer, drain_left, drain_answer, MayLend};

use super::Machine;
use crate::calls::{OpenCall, Step};
use crate::destination::Destination;
use crate::polling::Context;
use crate::slot::SlotState;
use crate::source::Source;
use crate::write_state::WriteState;
use piper_protocol::answer::{Answer, Failed};
use piper_protocol::table::{Action, Found, MOST_A_ROUND, Side};
use std::alloc::Global;
use std::mem;

// Puts the waker of the context into the slot, if its clone is granted, and returns whether it was.
fn register(slot: &mut SlotState<u32>, context: Option<Context>) -> bool
    ensures answer { result ≡ is_granted context }
    ensures after { slot.new ≡ registered_in context slot.old }
{
    match context {
        Some(cx) if cx.luck.register_granted => {
            slot.put(cx.waker);
            true
        }
        _ => false,
    }
}

// Whether the clone of the context's waker is granted for a yield.
fn is_yield_granted(context: Option<Context>) -> bool
    ensures { result ≡ is_yield_granted context }
{
    match context {
        Some(cx) => cx.luck.yield_granted,
        None => false,
    }
}

// A call of the reader that has returned holds nothing, and its drain fills nothing more.
fn settle_reader(
    call: &mut OpenCall,
    destination: &mut Destination,
    answer: Option<Answer>,
) -> Option<Answer>
    ensures answer { result ≡ answer }
    ensures call { call.new ≡ call_after answer call.old }
    ensures destination { destination.new ≡ destination_after answer destination.old }
    ensures holds_nothing { IsSome answer → call.new ≡ no_call }
    ensures fills_nothing { IsSome answer → destination.new ≡ Destination.Slice 0 }
{
    if answer.is_some() {
        *call = OpenCall::none();
        *destination = Destination::Slice(0);
    }
    answer
}

// A call of the writer that has returned holds nothing, and its fill gives nothing more.
fn settle_writer(
    alloc: Global,
    call: &mut OpenCall,
    source: &mut Source,
    answer: Option<Answer>,
) -> Option<Answer>
    ensures answer { result ≡ answer }
    ensures call { call.new ≡ call_after answer call.old }
    ensures source { source.new ≡ source_after answer source.old }
    ensures holds_nothing { IsSome answer → call.new ≡ no_call }
    ensures gives_nothing { IsSome answer → source.new ≡ [] }
{
    if answer.is_some() {
        *call = OpenCall::none();
        *source = Source::none(alloc);
    }
    answer
}

// Nothing stays lent where a fill has returned.
fn settle_lent(write: &mut WriteState, is_fill: bool, answer: Option<Answer>)
    requires { IsSome answer → tail_store write.old.point ≡ 0 }
    ensures { write.new
        ≡ record write.old { lent = lent_count_after is_fill answer write.old.lent } }
{
    if is_fill && answer.is_some() {
        write.unlend();
    }
}

// What a side finds that has called its source or destination.
fn found(moved: Result<usize, Failed>) -> Found
    ensures { result ≡ found_of moved }
{
    match moved {
        Ok(n) => Found::Moved(n),
        Err(Failed) => Found::Failed,
    }
}

impl Machine {
    // The reader made its next step, which moved no index, and found this.
    fn reader_found(&mut self, found: Found) -> Option<Answer>
        requires next { read_action self.old.reader ≢ Action.Rest }
        requires no_store { head_store self.old.reader ≡ 0 }
        requires within { moved_in found ≤ peeked_count self.old }
        ensures after { self.new ≡ drain_left found self.old }
        ensures answer { result ≡ drain_answer found self.old }
    {
        let answer = self.read.step(found);
        settle_reader(&mut self.reader_call, &mut self.destination, answer)
    }

    fn reader_loads_tail(&mut self) -> Option<Answer>
        requires { read_action self.old.reader ≡ Action.LoadIndex }
        ensures after { self.new ≡ (reader_stepped Action.LoadIndex self.old).pipe }
        ensures answer { result ≡ (reader_stepped Action.LoadIndex self.old).answer }
    {
        let answer = self.read.tail_loaded(self.write.tail());
        settle_reader(&mut self.reader_call, &mut self.destination, answer)
    }

    fn reader_stores_head(&mut self, n: usize) -> Option<Answer>
        requires { read_action self.old.reader ≡ Action.StoreHead n }
        ensures after { self.new ≡ (reader_stepped (Action.StoreHead n) self.old).pipe }
        ensures answer { result ≡ (reader_stepped (Action.StoreHead n) self.old).answer }
    {
        let answer = self.read.stored_head(n);
        settle_reader(&mut self.reader_call, &mut self.destination, answer)
    }

    // The destination took so many bytes, or failed.
    pub(super) fn destination_called(&mut self, taken: Result<usize, Failed>) -> Option<Answer>
        requires next { read_action self.old.reader ≡ Action.CallDestination }
        requires within { moved_by taken ≤ peeked_count self.old }
        ensures after { self.new ≡ drain_left (found_of taken) self.old }
        ensures answer { result ≡ drain_answer (found_of taken) self.old }
    {
        self.reader_found(found(taken))
    }

    // The access of the reader's next step, where that moves no index, and what it finds.
    fn reader_finds(&mut self, action: Action) -> Found
        requires next { action ≡ read_action self.old.reader }
        requires open { action ≢ Action.Rest }
        requires no_load_of_the_index { action ≢ Action.LoadIndex }
        requires no_store { (n : ℕ) → action ≢ Action.StoreHead n }
        ensures after { self.new ≡ performed Side.Reader action self.old }
        ensures found { result ≡ found_by Side.Reader action self.old }
    {
        match action {
            Action::LoadTail => Found::Unread(self.unread_count()),
            Action::LoadClosed => Found::Flag(self.is_closed),
            Action::Register => Found::Granted(register(
                &mut self.reader_slot,
                self.reader_call.context,
            )),
            Action::Take(Side::Reader) => {
                self.reader_call.taken = self.reader_slot.take();
                Found::Nothing
            }
            Action::Take(Side::Writer) => {
                let taken = self.writer_slot.take();
                self.reader_call.taken = taken;
                Found::Waker(taken.is_some())
            }
            Action::Wake => {
                self.reader_call.taken = None;
                Found::Nothing
            }
            Action::StoreClosed { is_shut: _ } => {
                self.is_closed = true;
                Found::Nothing
            }
            Action::Yield => Found::Granted(is_yield_granted(self.reader_call.context)),
            Action::CallDestination => {
                let most = self.read.peekable().min(MOST_A_ROUND);
                found(self.destination.take(most))
            }
            _ => Found::Nothing,
        }
    }

    /// Makes the reader's next step, which is of this kind.
    pub(super) fn reader_goes(&mut self, action: Action) -> Option<Answer>
        requires { action ≡ read_action self.old.reader }
        ensures after { self.new ≡ (went Side.Reader self.old).pipe }
        ensures answer { result ≡ (went Side.Reader self.old).answer }
    {
        match action {
            Action::Rest => None,
            Action::LoadIndex => self.reader_loads_tail(),
            Action::StoreHead(n) => self.reader_stores_head(n),
            _ => {
                let found = self.reader_finds(action);
                self.reader_found(found)
            }
        }
    }

    // The step that the reader makes next.
    pub(super) fn reader_next(&self) -> Action
        ensures step { result ≡ read_action self.now.reader }
        ensures within { (n : ℕ) → result ≡ Action.StoreHead n → n ≤ peeked_count self.now }
        ensures no_tail { (n : ℕ) → result ≢ Action.StoreTail n }
        ensures not_shut { result ≢ Action.StoreClosed true }
        ensures no_source { result ≢ Action.CallSource }
    {
        self.read.next()
    }

    // The writer made its next step, which moved no index, and found this.
    fn writer_found(&mut self, found: Found) -> Option<Answer>
        requires next { write_action self.old.writer ≢ Action.Rest }
        requires no_store { publishes self.old.writer ≡ false }
        requires within { moved_in found ≤ length self.old.lent }
        ensures after { self.new ≡ round_left found self.old }
        ensures answer { result ≡ round_answer found self.old }
    {
        let is_fill = self.write.point().ends_fill();
        let answer = self.write.step(found);
        settle_lent(&mut self.write, is_fill, answer);
        settle_writer(self.alloc, &mut self.writer_call, &mut self.source, answer)
    }

    fn writer_loads_head(&mut self) -> Option<Answer>
        requires { write_action self.old.writer ≡ Action.LoadIndex }
        ensures after { self.new ≡ (writer_stepped Action.LoadIndex self.old).pipe }
        ensures answer { result ≡ (writer_stepped Action.LoadIndex self.old).answer }
    {
        let answer = self.write.head_loaded(self.read.head());
        settle_writer(self.alloc, &mut self.writer_call, &mut self.source, answer)
    }

    fn writer_stores_tail(&mut self, n: usize) -> Option<Answer>
        requires { write_action self.old.writer ≡ Action.StoreTail n }
        ensures after { self.new ≡ (writer_stepped (Action.StoreTail n) self.old).pipe }
        ensures answer { result ≡ (writer_stepped (Action.StoreTail n) self.old).answer }
    {
        let answer = self.write.stored_tail(n);
        settle_writer(self.alloc, &mut self.writer_call, &mut self.source, answer)
    }

    fn writer_stores_closed(&mut self) -> Option<Answer>
        requires { write_action self.old.writer ≡ Action.StoreClosed false }
        ensures after { self.new ≡ (writer_stepped (Action.StoreClosed false) self.old).pipe }
        ensures answer { result ≡ (writer_stepped (Action.StoreClosed false) self.old).answer }
    {
        self.is_closed = true;
        let answer = self.write.step(Found::Nothing);
        settle_writer(self.alloc, &mut self.writer_call, &mut self.source, answer)
    }

    fn writer_shuts(&mut self) -> Option<Answer>
        requires { write_action self.old.writer ≡ Action.StoreClosed true }
        ensures after { self.new ≡ (writer_stepped (Action.StoreClosed true) self.old).pipe }
        ensures answer { result ≡ (writer_stepped (Action.StoreClosed true) self.old).answer }
    {
        self.is_closed = true;
        let answer = self.write.shut();
        settle_writer(self.alloc, &mut self.writer_call, &mut self.source, answer)
    }

    // Lends places to the source, which writes into them what it gives. One that fails is lent
    // places too.
    fn offer_source(&mut self) -> Result<usize, Failed>
        requires { write_action self.old.writer ≡ Action.CallSource }
        ensures answer { result ≡ given (length self.new.lent) self.old.source }
        ensures lent { Lendable MOST_A_ROUND self.old (length self.new.lent) }
        ensures after { self.new ≡ source_called (lending self.new.lent self.old) }
    {
        let mut source = mem::replace(&mut self.source, Source::none(self.alloc));
        let is_failing = source.is_failing();
        let count = self.write_round(source.front());
        source.pass(count);
        self.source = source;
        if is_failing { Err(Failed) } else { Ok(count) }
    }

    // The source gave so many bytes, or failed; one that failed was lent places as one that gives
    // bytes is.
    pub(super) fn source_called(&mut self, given: Result<usize, Failed>) -> Option<Answer>
        requires next { write_action self.old.writer ≡ Action.CallSource }
        requires lent { Lendable MOST_A_ROUND self.old (length self.old.lent) }
        requires within { moved_by given ≤ length self.old.lent }
        ensures after { self.new ≡ round_left (found_of given) self.old }
        ensures answer { result ≡ round_answer (found_of given) self.old }
    {
        self.writer_found(found(given))
    }

    fn writer_calls_source(&mut self) -> Option<Answer>
        requires { write_action self.old.writer ≡ Action.CallSource }
        ensures after { self.new ≡ (stepped self.new.lent (Step.Go Side.Writer) self.old).pipe }
        ensures answer { result ≡ (stepped self.new.lent (Step.Go Side.Writer) self.old).answer }
        ensures lent { MayLend self.new.lent (Step.Go Side.Writer) self.old }
    {
        let given = self.offer_source();
        self.source_called(given)
    }

    // The access of the writer's next step, where that moves no index and lends nothing, and what
    // it finds.
    fn writer_finds(&mut self, action: Action) -> Found
        requires next { action ≡ write_action self.old.writer }
        requires open { action ≢ Action.Rest }
        requires no_load_of_the_index { action ≢ Action.LoadIndex }
        requires no_store { (n : ℕ) → action ≢ Action.StoreTail n }
        requires no_close { (is_shut : Bool) → action ≢ Action.StoreClosed is_shut }
        requires no_source { action ≢ Action.CallSource }
        ensures after { self.new ≡ performed Side.Writer action self.old }
        ensures found { result ≡ found_by Side.Writer action self.old }
    {
        match action {
            Action::LoadHead => Found::Unread(self.unread_count()),
            Action::LoadClosed => Found::Flag(self.is_closed),
            Action::Register => Found::Granted(register(
                &mut self.writer_slot,
                self.writer_call.context,
            )),
            Action::Take(slot) => {
                let taken = match slot {
                    Side::Reader => self.reader_slot.take(),
                    Side::Writer => self.writer_slot.take(),
                };
                self.writer_call.taken = taken;
                Found::Waker(taken.is_some())
            }
            Action::Wake => {
                self.writer_call.taken = None;
                Found::Nothing
            }
            Action::Yield => Found::Granted(is_yield_granted(self.writer_call.context)),
            _ => Found::Nothing,
        }
    }

    /// Makes the writer's next step, which is of this kind.
    pub(super) fn writer_goes(&mut self, action: Action) -> Option<Answer>
        requires { action ≡ write_action self.old.writer }
        ensures after { self.new ≡ (stepped self.new.lent (Step.Go Side.Writer) self.old).pipe }
        ensures answer { result ≡ (stepped self.new.lent (Step.Go Side.Writer) self.old).answer }
        ensures lent { MayLend self.new.lent (Step.Go Side.Writer) self.old }
    {
        match action {
            Action::Rest => None,
            Action::CallSource => self.writer_calls_source(),
            Action::LoadIndex => self.writer_loads_head(),
            Action::StoreTail(n) => self.writer_stores_tail(n),
            Action::StoreClosed { is_shut } => if is_shut {
                self.writer_shuts()
            } else {
                self.writer_stores_closed()
            },
            _ => {
                let found = self.writer_finds(action);
                self.writer_found(found)
            }
        }
    }

    // The step that the writer makes next.
    pub(super) fn writer_next(&self) -> Action
        ensures step { result ≡ write_action self.now.writer }
        ensures within { (n : ℕ) → result ≡ Action.StoreTail n → n ≤ length self.now.lent }
        ensures no_head { (n : ℕ) → result ≢ Action.StoreHead n }
        ensures fills_nothing { result ≢ Action.CallDestination }
    {
        self.write.next()
    }
}
