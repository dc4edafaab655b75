//! The calls of both handles, and the traits of `tokio` for them.
ghost use Rattle.std.specs.Prelude.{◌≤◌, ◌≡◌, [], length, take, drop, true, Ok};
ghost use Rattle.std.specs.IoError.{error_kind};
ghost use Rattle.std.specs.declared.io.ErrorKind.TheVariants.{OutOfMemory as OutOfMemoryKind};
ghost use Rattle.futures.specs.Task.{Keeps};
ghost use Rattle.tokio.specs.Io.Moved.{bytes_moved, count_moved, IfReadyErr};
ghost use Rattle.piper.specs.Traits.{Closes, Consumes};
ghost use Rattle.piper.specs.Handles.{read_source, write_source};
ghost use Rattle.piper.specs.OfReader.{known};
ghost use Rattle.piper.specs.WriterCalls.{WritesAsFill};
ghost use Rattle.piper.specs.ReaderCalls.{AtEnd, ReadsAsDrain, WakesWriter};
ghost use Rattle.piper_tokio.specs.Passing.{Took, Gave, of_io};
ghost use Rattle.piper_tokio.specs.Shown.{PollsShown, handle_of, shown_by, writing};
ghost use Rattle.piper_tokio.specs.PassingLaws.{took_nothing, took_in_order, gave_nothing, gave_in_order};
ghost use Rattle.piper.specs.OfWriter.{room, shut, saw};

use super::{CompatReader, CompatWriter};
use futures::task::{Context, Poll};
use piper::{OutOfMemory, Reader, Writer};
use std::io;

impl CompatReader {
    /// Takes the reader.
    pub fn new(reader: Reader) -> CompatReader
        ensures reader { handle_of result ≡ reader }
        ensures shown { shown_by result ≡ [] }
    {
        CompatReader { reader, shown: 0 }
    }

    /// Lends the handle.
    pub fn reader(&self) -> &Reader
        ensures { result.now ≡ handle_of self.now }
    {
        &self.reader
    }

    /// Gives the handle. No pipe is closed. What was shown and not consumed
    /// is still unread.
    pub fn into_inner(self) -> Reader
        ensures { result ≡ handle_of self }
    {
        let CompatReader { reader, shown: _ } = self;
        reader
    }
}

impl tokio::io::AsyncRead for CompatReader {
    ghost needs = { λ compat s. s ≡ read_source (handle_of compat) };

    ghost reads = { λ a xs b. Took (handle_of a) xs (handle_of b) };

    ghost is_at_end = { λ compat. AtEnd (handle_of compat) };

    ghost fails = { λ _ e. error_kind e ≡ OutOfMemoryKind };

    ghost reads_nothing = { λ a. took_nothing (handle_of a) };

    ghost reads_in_order = { λ a xs b ys c p q.
        took_in_order (handle_of a) xs (handle_of b) ys (handle_of c) p q };

    /// Moves known bytes into the front of `buf`, as many as fit. After it `buffer` shows nothing.
    ///
    /// Returns: how many bytes. 0 is the end, for good, if `buf` has room.
    /// Pending: no byte is known and the pipe was not seen closed, even if `buf` is empty; or the
    /// call yields. `buf` stays as it was.
    /// Errors: one of the kind `OutOfMemory`, for the reason for which `Reader::poll` fails. No
    /// byte is taken, and `buf` stays as it was.
    /// Wakes: the writer, if it waits and a byte was moved.
    fn poll_read(&mut self, cx: &mut Context<'_>, buf: &mut [u8]) -> Poll<io::Result<usize>>
        ensures bound { count_moved result ≤ length buf.new }
        ensures bytes { Took (handle_of self.old) (bytes_moved result buf.new)
            (handle_of self.new) }
        ensures drained { ReadsAsDrain (handle_of self.old) (handle_of self.new) (of_io result)
            buf.old buf.new cx.old cx.new }
        ensures shown { shown_by self.new ≡ [] }
        ensures memory { IfReadyErr result (λ e. error_kind e ≡ OutOfMemoryKind) }
        ensures context { Keeps cx.old cx.new }
    {
        self.shown = 0;
        match self.reader.poll_drain_bytes(cx, buf) {
            Poll::Pending => Poll::Pending,
            Poll::Ready(Ok(count)) => Poll::Ready(Ok(count)),
            Poll::Ready(Err(OutOfMemory)) => Poll::Ready(Err(io::ErrorKind::OutOfMemory.into())),
        }
    }
}

impl tokio::io::AsyncBufRead for CompatReader {
    ghost buffered = { shown_by };

    /// Waits for a byte; then `buffer` shows the known bytes that are contiguous. If it shows none,
    /// that is the end, for good.
    ///
    /// Pending: no byte is known, and the pipe was not seen closed.
    /// Errors: one of the kind `OutOfMemory`, for the reason for which `Reader::poll` fails.
    fn poll_fill_buf(&mut self, cx: &mut Context<'_>) -> Poll<io::Result<()>>
        ensures bytes { Took (handle_of self.old) [] (handle_of self.new) }
        ensures polled { PollsShown result self.old self.new cx.old cx.new }
        ensures memory { IfReadyErr result (λ e. error_kind e ≡ OutOfMemoryKind) }
        ensures woken { WakesWriter (handle_of self.old) (handle_of self.new) }
        ensures context { Keeps cx.old cx.new }
    {
        self.shown = 0;
        match self.reader.poll(cx) {
            Poll::Pending => Poll::Pending,
            Poll::Ready(Ok(_)) => {
                self.shown = self.reader.peek_buf().len();
                Poll::Ready(Ok(()))
            }
            Poll::Ready(Err(OutOfMemory)) => Poll::Ready(Err(io::ErrorKind::OutOfMemory.into())),
        }
    }

    fn buffer(&self) -> &[u8] {
        &self.reader.peek_buf()[..self.shown]
    }

    /// Takes the first `amount` bytes of what `buffer` shows.
    ///
    /// Requires: `amount` is at most the length of what `buffer` shows.
    /// Wakes: the writer, if it waits, even if `amount` is 0.
    fn consume(&mut self, amount: usize)
        requires { amount ≤ length (shown_by self.old) }
        ensures bytes { Took (handle_of self.old) (take amount (shown_by self.old))
            (handle_of self.new) }
        ensures known { known (handle_of self.new) ≡ drop amount (known (handle_of self.old)) }
        ensures end { AtEnd (handle_of self.old) → AtEnd (handle_of self.new) }
        ensures consumes { Consumes (handle_of self.old) (handle_of self.new) amount }
        ensures rest { shown_by self.new ≡ drop amount (shown_by self.old) }
    {
        self.shown -= amount;
        self.reader.consume(amount);
    }
}

impl CompatWriter {
    /// Takes the writer.
    pub fn new(writer: Writer) -> CompatWriter
        ensures { writing result ≡ writer }
    {
        CompatWriter { writer }
    }

    /// Lends the handle.
    pub fn writer(&self) -> &Writer
        ensures { result.now ≡ writing self.now }
    {
        &self.writer
    }

    /// Gives the handle. No pipe is closed. No pipe is closed.
    pub fn into_inner(self) -> Writer
        ensures { result ≡ writing self }
    {
        let CompatWriter { writer } = self;
        writer
    }
}

impl tokio::io::AsyncWrite for CompatWriter {
    ghost needs = { λ compat s. s ≡ write_source (writing compat) };

    ghost writes = { λ a xs b. Gave (writing a) xs (writing b) };

    ghost is_shut_down = { λ compat. shut (writing compat) ≡ true };

    ghost is_full = { λ compat. saw (writing compat) ≡ true };

    ghost fails = { λ _ e. error_kind e ≡ OutOfMemoryKind };

    ghost writes_nothing = { λ a. gave_nothing (writing a) };

    ghost writes_in_order = { λ a xs b ys c p q.
        gave_in_order (writing a) xs (writing b) ys (writing c) p q };

    /// Publishes bytes from the front of `buf`, as many as there is known room for.
    ///
    /// Returns: how many bytes it took. 0 says that the pipe is closed, for good, if `buf` has
    /// bytes. In the call that sees it closed counted bytes may be lost.
    /// Pending: there is no room and the pipe was not seen closed; or the call yields.
    /// Errors: one of the kind `OutOfMemory`, for the reason for which `Writer::poll` fails. No
    /// byte is published.
    /// Wakes: the reader, if it waits and a byte was published.
    fn poll_write(&mut self, cx: &mut Context<'_>, buf: &[u8]) -> Poll<io::Result<usize>>
        ensures bound { count_moved result ≤ length buf.now }
        ensures bytes { Gave (writing self.old) (bytes_moved result buf.now) (writing self.new) }
        ensures filled { WritesAsFill (writing self.old) (writing self.new) (of_io result)
            buf.now cx.old cx.new }
        ensures memory { IfReadyErr result (λ e. error_kind e ≡ OutOfMemoryKind) }
        ensures context { Keeps cx.old cx.new }
    {
        match self.writer.poll_fill_bytes(cx, buf) {
            Poll::Pending => Poll::Pending,
            Poll::Ready(Ok(count)) => Poll::Ready(Ok(count)),
            Poll::Ready(Err(OutOfMemory)) => Poll::Ready(Err(io::ErrorKind::OutOfMemory.into())),
        }
    }

    /// Ready at once, always with `Ok(())`. It changes nothing: a write holds no byte back.
    fn poll_flush(&mut self, cx: &mut Context<'_>) -> Poll<io::Result<()>>
        ensures answer { result ≡ Poll.Ready (Ok (record {})) }
        ensures bytes { Gave (writing self.old) [] (writing self.new) }
        ensures context { cx.new ≡ cx.old }
        ensures rest { self.new ≡ self.old }
    {
        // What was written is published already.
        let _unused = cx;
        Poll::Ready(Ok(()))
    }

    /// Closes the pipe for good.
    ///
    /// Returns: `Ok(())`, at once and always.
    /// Wakes: the reader, if it waits. No waker of this writer is left.
    fn poll_shutdown(&mut self, cx: &mut Context<'_>) -> Poll<io::Result<()>>
        ensures bytes { Gave (writing self.old) [] (writing self.new) }
        ensures closes { Closes (writing self.old) (writing self.new) result cx.old cx.new }
    {
        match self.writer.poll_close(cx) {
            Poll::Pending => Poll::Pending,
            Poll::Ready(Ok(())) => Poll::Ready(Ok(())),
            Poll::Ready(Err(OutOfMemory)) => Poll::Ready(Err(io::ErrorKind::OutOfMemory.into())),
        }
    }
}
