//! An end of a duplex stream, for `tokio`.
ghost use Rattle.std.specs.Prelude.{◌≡◌, ◌≤◌, true, [], length, take, drop, refl, Ok};
ghost use Rattle.std.proofs.Common.{◌∙◌};
ghost use Rattle.std.specs.IoError.{error_kind};
ghost use Rattle.std.specs.declared.io.ErrorKind.TheVariants.{OutOfMemory as OutOfMemoryKind};
ghost use Rattle.futures.specs.Task.{Keeps};
ghost use Rattle.tokio.specs.Io.Moved.{bytes_moved, count_moved, IfReadyErr};
ghost use Rattle.piper.specs.Traits.{Closes, Consumes};
ghost use Rattle.piper.specs.Handles.{read_source, write_source};
ghost use Rattle.piper.specs.OfReader.{known};
ghost use Rattle.piper.specs.OfWriter.{shut, saw};
ghost use Rattle.piper.specs.WriterCalls.{WritesAsFill};
ghost use Rattle.piper.specs.ReaderCalls.{AtEnd, ReadsAsDrain, WakesWriter};
ghost use Rattle.piper_duplex.specs.Crosswise.{reading as reading_of, writing as writing_of};
ghost use Rattle.piper_tokio.specs.Halves.{read_half, reading, write_half, writing};
ghost use Rattle.piper_tokio.specs.Passing.{Took, Gave, of_io};
ghost use Rattle.piper_tokio.specs.Shown.{PollsShown, shown_by};
ghost use Rattle.piper_tokio.specs.PassingLaws.{took_nothing, took_in_order, gave_nothing, gave_in_order};

use crate::halves::{CompatReader, CompatWriter};
use futures::task::{Context, Poll};
use piper_duplex::End;
use std::io;
use tokio::io::{AsyncBufRead, AsyncRead, AsyncWrite};

/// An end of a duplex stream, as a reader and a writer of `tokio`.
///
/// Its drop is that of both halves: it closes both pipes, first the one that it writes into, and
/// wakes who waits at the other end (the order is tested, not proved).
///
/// In clauses, `read_half` and `write_half` are what `into_halves` gives, and `reading` and
/// `writing` are their handles.
#[derive(Drop)]
pub struct CompatEnd {
    writer: CompatWriter,
    reader: CompatReader,
}

impl CompatEnd {
    /// Takes the end.
    pub fn new(end: End) -> CompatEnd
        ensures reader { reading result ≡ reading_of end }
        ensures shown { shown_by (read_half result) ≡ [] }
        ensures writer { writing result ≡ writing_of end }
    {
        let (reader, writer) = end.into_halves();
        CompatEnd {
            writer: CompatWriter::new(writer),
            reader: CompatReader::new(reader),
        }
    }

    /// Gives both halves, each for itself: for two tasks. No pipe is closed.
    pub fn into_halves(self) -> (CompatReader, CompatWriter)
        ensures reader { result.0 ≡ read_half self }
        ensures writer { result.1 ≡ write_half self }
    {
        let CompatEnd { writer, reader } = self;
        (reader, writer)
    }
}

impl AsyncRead for CompatEnd {
    ghost needs = { λ compat s. s ≡ read_source (reading compat) };

    ghost reads = { λ a xs b. Took (reading a) xs (reading b) × (write_half b ≡ write_half a) };

    ghost is_at_end = { λ compat. AtEnd (reading compat) };

    ghost fails = { λ _ e. error_kind e ≡ OutOfMemoryKind };

    ghost reads_nothing = { λ a. (took_nothing (reading a), refl) };

    ghost reads_in_order = { λ a xs b ys c p q.
        (took_in_order (reading a) xs (reading b) ys (reading c) p.0 q.0, q.1 ∙ p.1) };

    /// As `poll_read` of the half that reads.
    fn poll_read(&mut self, cx: &mut Context<'_>, buf: &mut [u8]) -> Poll<io::Result<usize>>
        ensures bound { count_moved result ≤ length buf.new }
        ensures bytes { Took (reading self.old) (bytes_moved result buf.new) (reading self.new)
            × (write_half self.new ≡ write_half self.old) }
        ensures drained { ReadsAsDrain (reading self.old) (reading self.new) (of_io result)
            buf.old buf.new cx.old cx.new }
        ensures shown { shown_by (read_half self.new) ≡ [] }
        ensures memory { IfReadyErr result (λ e. error_kind e ≡ OutOfMemoryKind) }
        ensures context { Keeps cx.old cx.new }
    {
        self.reader.poll_read(cx, buf)
    }
}

impl AsyncBufRead for CompatEnd {
    ghost buffered = { λ compat. shown_by (read_half compat) };

    /// As `poll_fill_buf` of the half that reads.
    fn poll_fill_buf(&mut self, cx: &mut Context<'_>) -> Poll<io::Result<()>>
        ensures bytes { Took (reading self.old) [] (reading self.new)
            × (write_half self.new ≡ write_half self.old) }
        ensures polled { PollsShown result (read_half self.old) (read_half self.new)
            cx.old cx.new }
        ensures memory { IfReadyErr result (λ e. error_kind e ≡ OutOfMemoryKind) }
        ensures woken { WakesWriter (reading self.old) (reading self.new) }
        ensures context { Keeps cx.old cx.new }
    {
        self.reader.poll_fill_buf(cx)
    }

    fn buffer(&self) -> &[u8] {
        self.reader.buffer()
    }

    /// As `consume` of the half that reads.
    fn consume(&mut self, amount: usize)
        requires { amount ≤ length (shown_by (read_half self.old)) }
        ensures bytes { Took (reading self.old) (take amount (shown_by (read_half self.old)))
            (reading self.new) × (write_half self.new ≡ write_half self.old) }
        ensures known { known (reading self.new) ≡ drop amount (known (reading self.old)) }
        ensures end { AtEnd (reading self.old) → AtEnd (reading self.new) }
        ensures consumes { Consumes (reading self.old) (reading self.new) amount }
        ensures rest { shown_by (read_half self.new)
            ≡ drop amount (shown_by (read_half self.old)) }
    {
        self.reader.consume(amount);
    }
}

impl AsyncWrite for CompatEnd {
    ghost needs = { λ compat s. s ≡ write_source (writing compat) };

    ghost writes = { λ a xs b. Gave (writing a) xs (writing b) × (read_half b ≡ read_half a) };

    ghost is_shut_down = { λ compat. shut (writing compat) ≡ true };

    ghost is_full = { λ compat. saw (writing compat) ≡ true };

    ghost fails = { λ _ e. error_kind e ≡ OutOfMemoryKind };

    ghost writes_nothing = { λ a. (gave_nothing (writing a), refl) };

    ghost writes_in_order = { λ a xs b ys c p q.
        (gave_in_order (writing a) xs (writing b) ys (writing c) p.0 q.0, q.1 ∙ p.1) };

    /// As `poll_write` of the half that writes.
    fn poll_write(&mut self, cx: &mut Context<'_>, buf: &[u8]) -> Poll<io::Result<usize>>
        ensures bound { count_moved result ≤ length buf.now }
        ensures bytes { Gave (writing self.old) (bytes_moved result buf.now)
            (writing self.new) × (read_half self.new ≡ read_half self.old) }
        ensures filled { WritesAsFill (writing self.old) (writing self.new) (of_io result)
            buf.now cx.old cx.new }
        ensures memory { IfReadyErr result (λ e. error_kind e ≡ OutOfMemoryKind) }
        ensures context { Keeps cx.old cx.new }
    {
        self.writer.poll_write(cx, buf)
    }

    /// As `poll_flush` of the half that writes.
    fn poll_flush(&mut self, cx: &mut Context<'_>) -> Poll<io::Result<()>>
        ensures answer { result ≡ Poll.Ready (Ok (record {})) }
        ensures bytes { Gave (writing self.old) [] (writing self.new)
            × (read_half self.new ≡ read_half self.old) }
        ensures context { cx.new ≡ cx.old }
        ensures rest { self.new ≡ self.old }
    {
        self.writer.poll_flush(cx)
    }

    /// As `poll_shutdown` of the half that writes.
    fn poll_shutdown(&mut self, cx: &mut Context<'_>) -> Poll<io::Result<()>>
        ensures bytes { Gave (writing self.old) [] (writing self.new)
            × (read_half self.new ≡ read_half self.old) }
        ensures closes { Closes (writing self.old) (writing self.new) result cx.old cx.new }
    {
        self.writer.poll_shutdown(cx)
    }
}
