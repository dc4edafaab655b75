//! What each side knows of a slot, at which a side waits for the other, and the steps of both sides
//! on the slot's word. What a side knows takes no space, and a `&` to it gives nothing.
ghost use Rattle.std.specs.Borrow.{ftrue};
ghost use Rattle.std.specs.Prelude.{◌≡◌, ℕ, Bool, [], true, false};
ghost use denote.RawPtr.{Ptr};
ghost use Rattle.piper_ring.specs.Shared.{Names, names_code, waits_in, wakes_in, words_lent};
ghost use Rattle.piper_ring.specs.Slot.{Stored, as_stored, stored_code};

use crate::log::Log;
use crate::ring::marks::{ClosedMark, ReadMark, WriteMark};
use crate::ring::seats::{ReadSeat, WriteSeat};
use piper_cells::token_cell::Token;
use std::marker::{Brand, Model, PhantomData, Send, Sync};
use std::sync::atomic::Ordering::SeqCst;
use std::sync::atomic::raw;

/// A side, at the slot in which it waits: the reader at its own if `for_reader` is `true`, else
/// the writer at its own. `waits` is whether its waker may be there, `tickets` how often it
/// registered, and `heard` what the other side had stored when it checked last before that.
pub struct WaiterState {
    pub(crate) mark: PhantomData<*mut u8>,
    pub(crate) ghost names: { Names } by { names_code },
    pub(crate) ghost for_reader: { Bool },
    pub(crate) ghost waits: { Bool },
    pub(crate) ghost tickets: { ℕ },
    pub(crate) ghost heard: { Stored } by { stored_code },
}

impl Model for WaiterState {
    ghost also_owns = { λ s. waits_in s.names s.for_reader s.waits s.tickets s.heard };

    ghost also_shares = { λ _ _ _. ftrue };
}

// SAFETY: it has no bytes.
unsafe impl Send for WaiterState {}

// SAFETY: as above.
unsafe impl Sync for WaiterState {}

impl Drop for WaiterState {
    fn drop(self) {
        let Self { mark: _ } = self;
    }
}

/// A side, at the slot in which the other waits: the writer at the reader's if `for_reader` is
/// `true`, else the reader at the writer's. `taken` is whose ticket it took last, and `stored` what
/// it had stored when it checked last.
pub(crate) struct WakerState {
    pub(crate) mark: PhantomData<*mut u8>,
    pub(crate) ghost names: { Names } by { names_code },
    pub(crate) ghost for_reader: { Bool },
    pub(crate) ghost taken: { ℕ },
    pub(crate) ghost stored: { Stored } by { stored_code },
}

impl Model for WakerState {
    ghost also_owns = { λ s. wakes_in s.names s.for_reader s.taken s.stored };

    ghost also_shares = { λ _ _ _. ftrue };
}

// SAFETY: it has no bytes.
unsafe impl Send for WakerState {}

// SAFETY: as above.
unsafe impl Sync for WakerState {}

impl Drop for WakerState {
    fn drop(self) {
        let Self { mark: _ } = self;
    }
}

impl WaiterState {
    /// Evidence of what the writer had stored when it last checked before the reader registered.
    pub(crate) fn heard_by_reader(&mut self) -> WriteMark
        requires { self.old.for_reader ≡ true }
        ensures kept { self.new ≡ self.old }
        ensures mark { (result.names ≡ self.old.names) × (result.bytes ≡ self.old.heard.bytes)
            × (result.shut ≡ self.old.heard.closed) }
    {
        WriteMark { mark: PhantomData }
    }

    /// Evidence of what the reader had stored when it last checked before the writer registered.
    pub(crate) fn heard_by_writer(&mut self) -> (ReadMark, ClosedMark)
        requires { self.old.for_reader ≡ false }
        ensures kept { self.new ≡ self.old }
        ensures marks { (result.0.names ≡ self.old.names) × (result.1.names ≡ self.old.names) }
        ensures heard { (result.0.count ≡ self.old.heard.count)
            × (result.1.seen ≡ self.old.heard.closed) }
    {
        (
            ReadMark { mark: PhantomData },
            ClosedMark { mark: PhantomData },
        )
    }
}

/// The words of both slots, which an end lends: so the ring is open. `stored` is what that end has
/// stored, the writer for the reader if `for_reader` is `true`, else the reader for the writer.
pub struct SlotWords<'a> {
    words: *mut u64,
    mark: PhantomData<&'a u8>,
    ghost at: { Ptr },
    ghost names: { Names } by { names_code },
    ghost for_reader: { Bool },
    ghost stored: { Stored } by { stored_code },
}

impl<'a> Model for SlotWords<'a> {
    ghost also_owns = { λ s. words_lent s.words s.at s.names s.for_reader s.stored 'a };
}

// A step gets the index of the word that it is at: the one of the slot that `slot` is about.
impl<'a> SlotWords<'a> {
    ghost use Rattle.std.specs.Prelude.{None, not};
    ghost use Rattle.piper_protocol.specs.OneList.{loaded_slot, swapped};
    ghost use Rattle.piper_ring.specs.Log.{AreSides, IsLogOf, MayNote, accesses_of, did};
    ghost use Rattle.piper_ring.specs.Trace.{side_of};
    ghost use Rattle.piper_ring.specs.Shared.{slot_word};
    ghost use Rattle.piper_ring.specs.Slot.{Exchanges, IsRemembered, IsTicket, is_odd, ticket_if};
    ghost use Rattle.piper_ring.specs.SlotValues.{IsTokenAt, of_waits, of_wakes};

    /// What this side's own slot says: an odd number if its waker is there.
    pub(crate) fn load_own(self, slot: &mut WaiterState, log: &mut Log, word: usize) -> u64
        requires at { (slot.old.names ≡ self.names) × (word ≡ slot_word slot.old.for_reader) }
        requires log { MayNote self.names slot.old.for_reader log.old }
        ensures odd { is_odd result ≡ true → slot.new ≡ slot.old }
        ensures even { is_odd result ≡ false → slot.new ≡ record slot.old { waits = false } }
        ensures waits { is_odd result ≡ true → slot.old.waits ≡ true }
        ensures noted { log.new
            ≡ did (loaded_slot (side_of slot.old.for_reader) (is_odd result)) log.old }
    {
        let SlotWords { words, mark: _ } = self;
        // SAFETY: an end lends the words (`also_owns`), which live until the last end is gone.
        unsafe { raw::load::<Brand>(words.add(word), SeqCst) }
    }

    /// Puts the cell of `right` into this side's own slot, and returns what its word said: of the
    /// cell that lay there, to which `right` is the right now. If a waker went in, the side is
    /// registered with it; else it waits no more.
    pub(crate) fn exchange_own(
        self,
        slot: &mut WaiterState,
        right: &mut Token,
        log: &mut Log,
        new: u64,
        word: usize,
    ) -> u64
        requires at { (slot.old.names ≡ self.names) × (word ≡ slot_word slot.old.for_reader) }
        requires right { IsTokenAt self.names.cells new right.old }
        requires log { IsLogOf self.names slot.old.for_reader log.old }
        ensures side { slot.new ≡ record slot.old
            { waits = slot.new.waits; tickets = slot.new.tickets; heard = slot.new.heard } }
        ensures waits { Exchanges Stored right.old.filled (of_waits slot.old) (of_waits slot.new) }
        ensures right { IsTokenAt self.entry.names.cells result right.new }
        ensures waited { right.new.filled ≡ true → slot.old.waits ≡ true }
        ensures noted { log.new ≡ did (swapped (side_of slot.old.for_reader)
            (ticket_if right.new.filled slot.old.tickets)
            (ticket_if right.old.filled slot.new.tickets)) log.old }
    {
        let SlotWords { words, mark: _ } = self;
        // SAFETY: an end lends the words (`also_owns`), which live until the last end is gone.
        unsafe { raw::swap::<Brand>(words.add(word), new, SeqCst) }
    }

    /// What the other side's slot says: an odd number if its waker is there. If none is, this check
    /// came after all that this side had stored.
    pub(crate) fn load_other(self, slot: &mut WakerState, log: &mut Log, word: usize) -> u64
        requires at { (slot.old.names ≡ self.names) × (slot.old.for_reader ≡ self.for_reader)
            × (word ≡ slot_word slot.old.for_reader) }
        requires log { MayNote self.names (not slot.old.for_reader) log.old }
        ensures odd { is_odd result ≡ true → slot.new ≡ slot.old }
        ensures even { is_odd result ≡ false →
            slot.new ≡ record slot.old { stored = self.entry.stored } }
        ensures noted { log.new
            ≡ did (loaded_slot (side_of slot.old.for_reader) (is_odd result)) log.old }
    {
        let SlotWords { words, mark: _ } = self;
        // SAFETY: an end lends the words (`also_owns`), which live until the last end is gone.
        unsafe { raw::load::<Brand>(words.add(word), SeqCst) }
    }

    /// Puts the empty cell of `right` into the other side's slot, and returns what its word said: of
    /// the cell that lay there, to which `right` is the right now. This check came after all that
    /// this side had stored.
    pub(crate) fn empty_other(
        self,
        slot: &mut WakerState,
        right: &mut Token,
        log: &mut Log,
        new: u64,
        word: usize,
    ) -> u64
        requires at { (slot.old.names ≡ self.names) × (slot.old.for_reader ≡ self.for_reader)
            × (word ≡ slot_word slot.old.for_reader) }
        requires right { IsTokenAt self.names.cells new right.old × (right.old.filled ≡ false) }
        requires log { IsLogOf self.names (not slot.old.for_reader) log.old }
        ensures side { slot.new ≡ record slot.old
            { taken = slot.new.taken; stored = self.entry.stored } }
        ensures ticket { IsTicket right.new.filled slot.old.taken slot.new.taken }
        ensures right { IsTokenAt self.entry.names.cells result right.new }
        ensures noted { log.new ≡ did (swapped (side_of slot.old.for_reader)
            (ticket_if right.new.filled slot.new.taken) None) log.old }
    {
        let SlotWords { words, mark: _ } = self;
        // SAFETY: an end lends the words (`also_owns`), which live until the last end is gone.
        unsafe { raw::swap::<Brand>(words.add(word), new, SeqCst) }
    }

    /// Both sides of a slot held by one thread: a side that waits, and since whose registration the
    /// other checked after something new, was taken. It is no step of the program.
    pub(crate) fn meet_slot(self, waits: &mut WaiterState, wakes: &mut WakerState)
        requires { (waits.old.names ≡ self.names) × (wakes.old.names ≡ self.names)
            × (wakes.old.for_reader ≡ waits.old.for_reader) }
        ensures remembered { IsRemembered Stored (of_waits waits.old) (of_wakes wakes.old) }
        ensures kept { (waits.new ≡ waits.old) × (wakes.new ≡ wakes.old) }
    {
        let SlotWords { words: _, mark: _ } = self;
    }

    /// The logs of both sides held by one thread: what they say is one list. It is no step of the
    /// program.
    pub(crate) fn meet_logs(self, log: &mut Log, other: &mut Log)
        requires { IsLogOf self.names log.old.reads log.old
            × IsLogOf self.names (not log.old.reads) other.old }
        ensures list { AreSides log.old.reads (accesses_of log.old) (accesses_of other.old) }
        ensures kept { (log.new ≡ log.old) × (other.new ≡ other.old) }
    {
        let SlotWords { words: _, mark: _ } = self;
    }
}

impl WriteSeat {
    /// The words of both slots, with evidence of what the writer published.
    #[inline(always)]
    pub(crate) fn slot_words(&self) -> SlotWords<'_>
        ensures ring { result.names ≡ self.now.names }
        ensures stored { (result.for_reader ≡ true)
            × (result.stored ≡ as_stored self.now.sent 0 self.now.shut) }
    {
        let words = self.words;
        SlotWords {
            words,
            mark: PhantomData,
        }
    }
}

impl ReadSeat {
    /// The words of both slots, with evidence of what the reader consumed, and that the ring is
    /// closed, if `saw` says so.
    #[inline(always)]
    pub(crate) fn slot_words(&self, saw: &ClosedMark) -> SlotWords<'_>
        requires { saw.now.names ≡ self.now.names }
        ensures ring { result.names ≡ self.now.names }
        ensures stored { (result.for_reader ≡ false)
            × (result.stored ≡ as_stored [] self.now.head saw.now.seen) }
    {
        let words = self.words;
        SlotWords {
            words,
            mark: PhantomData,
        }
    }
}
