//! A pipe with both its sides, for one owner.
ghost use Rattle.std.specs.Prelude.{◌≡◌, ◌<◌, ◌≤◌, ◌+◌, ◌-◌, ◌++◌, length, take, drop, IfOk, IfErr, min, false};
ghost use Rattle.piper_protocol.specs.Reported.{HasFailed};
ghost use Rattle.piper_protocol.specs.Index.{IsCapacity};
ghost use Rattle.piper_protocol.specs.Table.{tail_store};
ghost use Rattle.piper_machine.specs.Pipe.{fresh};
ghost use Rattle.piper_machine.specs.Buffer.{written};
ghost use Rattle.piper_machine.specs.Places.{peeked, peeked_count, IsPeekHeld, IsLentHeld};
ghost use Rattle.piper_machine.specs.Sound.{IsSound};
ghost use Rattle.piper_machine.specs.Disjoint.{IsDisjoint};
ghost use Rattle.piper_machine.specs.Lend.{Lendable, lending};

use crate::calls::OpenCall;
use crate::destination::Destination;
use crate::read_state::ReadState;
use crate::slot::SlotState;
use crate::source::Source;
use crate::woken::Woken;
use crate::write_state::WriteState;
use piper_protocol::indices;
use piper_protocol::memory::OutOfMemory;
use piper_protocol::table::MOST_A_ROUND;
use std::alloc::Global;
use std::marker::Model;

mod copying;
mod logging;
mod opening;
mod refusals;
mod runs;
mod steps;
mod whole;

pub use runs::run;

/// A pipe of bytes and its two sides. Each call of a side is run whole: the other side makes no
/// step during it.
#[derive(Drop)]
pub struct Machine {
    alloc: Global,
    bytes: Vec<u8>,
    read: ReadState,
    write: WriteState,
    is_closed: bool,
    reader_slot: SlotState<u32>,
    writer_slot: SlotState<u32>,
    woken: Woken,
    reader_call: OpenCall,
    writer_call: OpenCall,
    destination: Destination,
    source: Source,
}

impl Model for Machine {
    ghost use Rattle.piper_machine.specs.Pipe.{Pipe};

    ghost Value = { Pipe };

    ghost use Rattle.piper_machine.specs.Machine.{pipe_of, IsMachine};

    ghost view = { pipe_of };

    ghost invariant = { IsMachine };
}

// Copies `source` to the places from `place` on.
fn write_at(bytes: &mut Vec<u8>, place: usize, source: &[u8])
    requires { place + length source.now ≤ length bytes.old.items }
    ensures { bytes.new.items ≡ written bytes.old.items place source.now }
{
    bytes[place..place + source.len()].copy_from_slice(source);
}

// The two pieces one after the other.
fn joined(alloc: Global, first: &[u8], rest: &[u8]) -> Result<Vec<u8>, OutOfMemory>
    ensures bytes { IfOk result (λ bytes. bytes.items ≡ first.now ++ rest.now) }
    ensures refused { IfErr result HasFailed }
{
    let mut bytes = Vec::with_capacity(alloc, first.len() + rest.len())?;
    bytes.extend_from_slice(first)?;
    bytes.extend_from_slice(rest)?;
    Ok(bytes)
}

impl Machine {
    /// An empty pipe of `cap` bytes.
    ///
    /// Requires: `cap` is at least 1 and less than 2^63.
    pub fn new(alloc: Global, cap: usize) -> Result<Self, OutOfMemory>
        requires { IsCapacity cap }
        ensures fresh { IfOk result (λ machine. machine ≡ fresh cap) }
        ensures refused { IfErr result HasFailed }
    {
        let bytes = vec![in alloc; 0; cap]?;
        Ok(Machine {
            alloc,
            bytes,
            read: ReadState::new(cap),
            write: WriteState::new(cap),
            is_closed: false,
            reader_slot: SlotState::new(),
            writer_slot: SlotState::new(),
            woken: Woken::new(),
            reader_call: OpenCall::none(),
            writer_call: OpenCall::none(),
            destination: Destination::Slice(0),
            source: Source::none(alloc),
        })
    }

    /// How many bytes the pipe can hold.
    pub fn capacity(&self) -> usize
        ensures { result ≡ self.now.capacity }
    {
        self.read.capacity()
    }

    // How many bytes are unread.
    fn unread_count(&self) -> usize
        ensures value { result ≡ length self.now.unread }
        ensures sound { IsSound self.now }
    {
        indices::distance(self.read.capacity(), self.read.head(), self.write.tail())
    }

    /// The known bytes that are contiguous, oldest first: from the first unread byte's place on.
    pub fn r_peek(&self) -> &[u8]
        ensures bytes { result.now ≡ peeked self.now }
        ensures count { length result.now ≡ peeked_count self.now }
        ensures held { IsPeekHeld self.now }
        ensures sound { IsSound self.now }
        ensures disjoint { IsDisjoint self.now }
    {
        let place = self.read.front();
        &self.bytes[place..place + self.read.peekable()]
    }

    // How many known bytes are contiguous.
    fn peekable(&self) -> usize
        ensures { result ≡ peeked_count self.now }
    {
        self.read.peekable()
    }

    // How many bytes are left of the slice last lent.
    fn lent_count(&self) -> usize
        ensures { result ≡ length self.now.lent }
    {
        self.write.lent()
    }

    /// Lends free places in place of what was lent before, and returns how many.
    fn lend(&mut self, most: usize) -> usize
        requires { tail_store self.old.writer ≡ 0 }
        ensures bounds { Lendable most self.old result }
        ensures count { length self.new.lent ≡ result }
        ensures after { self.new ≡ lending self.new.lent self.old }
    {
        self.write.lend(most)
    }

    /// Writes into the front of what is lent.
    fn write_front(&mut self, source: &[u8])
        requires { length source.now ≤ length self.old.lent }
        ensures { self.new
            ≡ lending (source.now ++ drop (length source.now) self.old.lent) self.old }
    {
        write_at(&mut self.bytes, self.write.front(), source);
    }

    // Lends places for a round, and copies in as many of the bytes as fit.
    fn write_round(&mut self, bytes: &[u8]) -> usize
        requires { tail_store self.old.writer ≡ 0 }
        ensures count { result ≡ min (length self.new.lent) (length bytes.now) }
        ensures lent { Lendable MOST_A_ROUND self.old (length self.new.lent) }
        ensures front { take result self.new.lent ≡ take result bytes.now }
        ensures after { self.new ≡ lending self.new.lent self.old }
    {
        let count = self.lend(MOST_A_ROUND).min(bytes.len());
        self.write_front(&bytes[..count]);
        count
    }

    /// The unread bytes in the two pieces in which they are: up to the end of the buffer, and from
    /// its beginning.
    fn pieces(&self) -> (&[u8], &[u8])
        ensures { result.0.now ++ result.1.now ≡ self.now.unread }
    {
        let head = self.read.front();
        let len = self.unread_count();
        let first = len.min(self.read.capacity() - head);
        (&self.bytes[head..head + first], &self.bytes[..len - first])
    }

    /// What is left of the slice last lent: it follows the last unread byte, in one piece.
    pub fn w_lent(&self) -> &[u8]
        ensures bytes { result.now ≡ self.now.lent }
        ensures held { IsLentHeld self.now }
        ensures sound { IsSound self.now }
        ensures disjoint { IsDisjoint self.now }
    {
        let place = self.write.front();
        &self.bytes[place..place + self.write.lent()]
    }

    /// The wakers called by the last whole call, oldest first: at most two.
    pub fn woken(&self) -> &[u32]
        ensures { result.now ≡ self.now.woken }
    {
        self.woken.as_slice()
    }

    /// A copy of the unread bytes, oldest first.
    pub fn unread(&self) -> Result<Vec<u8>, OutOfMemory>
        ensures bytes { IfOk result (λ bytes. bytes.items ≡ self.now.unread) }
        ensures refused { IfErr result HasFailed }
    {
        let (first, rest) = self.pieces();
        joined(self.alloc, first, rest)
    }
}
