//! The two ends of a duplex stream. Each reads from the one pipe and writes into the other.
ghost use Rattle.std.specs.Prelude.{◌≡◌, ◌*◌, ◌^◌, ◌<◌, IfErr, IfOk, length};
ghost use Rattle.piper_protocol.specs.Reported.{HasFailed};
ghost use Rattle.piper.specs.Waits.{ReaderWokeLast, WriterWokeLast};
ghost use Rattle.piper.specs.OfReader.{ring, taken};
ghost use Rattle.piper.specs.OfWriter as of_writer;
ghost use Rattle.piper_duplex.specs.Crosswise.{IsNewPipe, reading, writing};

mod streams;

use piper::{
    DEFAULT_SEED, FinishedReader, FinishedWriter, OutOfMemory, Reader, Writer, pipe_with_seed,
};
use std::alloc::Global;
use std::fmt::{self, Debug, Formatter};

/// One end of a duplex stream. It reads from one pipe and writes into the other.
///
/// It is made by `duplex`, and can't be cloned. An end that is dropped closes both pipes, first the one
/// that it writes into, and wakes who waits at the other end (the order is tested, not proved).
///
/// In clauses, `reading` and `writing` are the handles that the calls `reader` and `writer` lend.
#[derive(Drop)]
pub struct End {
    writer: Writer,
    reader: Reader,
}

/// Creates a duplex stream, of a pipe for each way.
///
/// Requires: each capacity is at least 1 and less than 2^63.
/// Returns: two ends. What the first writes the second reads, through a pipe of `cap_a` bytes; what
/// the second writes the first reads, through one of `cap_b`. Both pipes have the seed
/// `DEFAULT_SEED`.
/// Errors: `OutOfMemory` if memory is refused. Then nothing stays allocated (not proved).
pub fn duplex(alloc: Global, cap_a: usize, cap_b: usize) -> Result<(End, End), OutOfMemory>
    requires there { (0 < cap_a) × (2 * cap_a < 2 ^ 64) }
    requires back { (0 < cap_b) × (2 * cap_b < 2 ^ 64) }
    ensures there { IfOk result
        (λ (first, second). IsNewPipe cap_a 0 (reading second) (writing first)) }
    ensures back { IfOk result
        (λ (first, second). IsNewPipe cap_b 0 (reading first) (writing second)) }
    ensures refused { IfErr result HasFailed }
{
    duplex_with_seed(alloc, cap_a, cap_b, DEFAULT_SEED)
}

/// Creates a duplex stream whose pipes both take a seed.
///
/// Requires: as `duplex`.
/// Returns: as `duplex`, with pipes of this seed.
/// Errors: as `duplex`.
pub fn duplex_with_seed(
    alloc: Global,
    cap_a: usize,
    cap_b: usize,
    seed: u64,
) -> Result<(End, End), OutOfMemory>
    requires there { (0 < cap_a) × (2 * cap_a < 2 ^ 64) }
    requires back { (0 < cap_b) × (2 * cap_b < 2 ^ 64) }
    ensures there { IfOk result
        (λ (first, second). IsNewPipe cap_a seed (reading second) (writing first)) }
    ensures back { IfOk result
        (λ (first, second). IsNewPipe cap_b seed (reading first) (writing second)) }
    ensures refused { IfErr result HasFailed }
{
    let (there_reader, there_writer) = pipe_with_seed(alloc, cap_a, seed)?;
    let (back_reader, back_writer) = pipe_with_seed(alloc, cap_b, seed)?;
    let first = End {
        writer: there_writer,
        reader: back_reader,
    };
    let second = End {
        writer: back_writer,
        reader: there_reader,
    };
    Ok((first, second))
}

impl End {
    ghost use Rattle.piper_duplex.specs.Crosswise.{HaveMet};

    /// Lends the handle that reads what the other end writes.
    pub fn reader(&self) -> &Reader
        ensures { result.now ≡ reading self.now }
    {
        &self.reader
    }

    /// Lends the handle that writes what the other end reads.
    pub fn writer(&self) -> &Writer
        ensures { result.now ≡ writing self.now }
    {
        &self.writer
    }

    /// Gives both handles, each for itself: for two tasks, or for a reader of lines over the one
    /// and answers through the other. No pipe is closed.
    pub fn into_halves(self) -> (Reader, Writer)
        ensures reader { result.0 ≡ reading self }
        ensures writer { result.1 ≡ writing self }
    {
        let End { writer, reader } = self;
        (reader, writer)
    }

    /// Tells each handle of its other side, once one thread holds both ends, as `Reader::meet` does
    /// for each of the two pipes.
    ///
    /// Requires: both are ends of one duplex stream.
    pub fn meet(&mut self, other: &mut End)
        requires there { of_writer.ring (writing self.old) ≡ ring (reading other.old) }
        requires back { of_writer.ring (writing other.old) ≡ ring (reading self.old) }
        ensures there { HaveMet (reading other.old) (reading other.new)
            (writing self.old) (writing self.new) }
        ensures back { HaveMet (reading self.old) (reading self.new)
            (writing other.old) (writing other.new) }
    {
        other.reader.meet(&mut self.writer);
        self.reader.meet(&mut other.writer);
    }

    /// Closes both pipes, first the one that it writes into (the order is tested, not proved). The
    /// other end can still read what it has not read yet.
    ///
    /// Returns: evidence for `meet_finished` of the other end's handles, as `finish` of both handles
    /// gives it, but for their clause `ran`.
    /// Wakes: who waits at the other end. A task that is still registered at this end may also be
    /// woken, as by `Reader::finish` and `Writer::finish`.
    pub fn finish(self) -> (FinishedReader, FinishedWriter)
        ensures ring { (result.0.mark.consumed.names ≡ (ring (reading self)).names)
            × (result.1.mark.names ≡ (of_writer.ring (writing self)).names) }
        ensures taken { result.0.mark.consumed.count ≡ length (taken (reading self)) }
        ensures sent { result.1.mark.bytes ≡ of_writer.sent (writing self) }
        ensures woken { ReaderWokeLast (reading self) result.0
            × WriterWokeLast (writing self) result.1 }
    {
        let End { writer, reader } = self;
        let left = writer.finish();
        (reader.finish(), left)
    }
}

impl Debug for End {
    fn fmt<O: fmt::Write>(&self, f: &mut Formatter<O>) -> fmt::Result {
        f.debug_struct("End")
            .field("reader", &self.reader)
            .field("writer", &self.writer)
            .finish()
    }
}
