//! The traits of readers and writers, for the handles.
ghost use Rattle.std.specs.Prelude.{◌≡◌};
ghost use Rattle.piper.specs.Contexts.{WantsWaker};
ghost use Rattle.piper.specs.Looks.{IsEnded};
ghost use Rattle.piper.specs.Traits.{as_pipe};
ghost use Rattle.piper.specs.Waits.{ReaderIsWaiting, WriterIsWaiting};

use crate::error::{PipeError, PipeResult};
use crate::handles::{Reader, Writer};
use crate::io::{AsyncBufRead, AsyncRead, AsyncWrite};
use futures::task::{Context, Poll};
use piper_protocol::table::Purpose;
use piper_ring::OutOfMemory;

impl Reader {
    ghost use Rattle.piper.specs.ReaderCalls.{ReaderPolled};
    ghost use Rattle.piper.specs.Runs.{ReaderRan, poll_answer, reader_looks};

    // `poll`, as a call of its own: a reader of lines is shorter by it.
    #[inline(never)]
    fn poll_by_call(&mut self, cx: &mut Context<'_>) -> Poll<Result<bool, OutOfMemory>>
        ensures ran { ReaderRan (reader_looks self.old Purpose.Poll) (poll_answer result)
            self.old self.new }
        ensures polled { ReaderPolled result self.old self.new cx.old cx.new }
    {
        self.poll(cx)
    }
}

// What a poll of a handle returns, as the traits do.
fn as_pipe<T>(polled: Poll<Result<T, OutOfMemory>>) -> Poll<PipeResult<T>>
    ensures { result ≡ as_pipe polled }
{
    match polled {
        Poll::Ready(Ok(value)) => Poll::Ready(Ok(value)),
        Poll::Ready(Err(OutOfMemory)) => Poll::Ready(Err(PipeError::Memory)),
        Poll::Pending => Poll::Pending,
    }
}

impl AsyncRead for Reader {
    ghost use Rattle.piper.specs.Handles.{NotifiesWriter, read_source};
    ghost use Rattle.piper.specs.ReaderCalls.{ReadsAsDrain};

    ghost taken = { λ r. r.side.end.taken };

    ghost saw = { λ r. r.side.end.saw };

    ghost knows_end = { λ r. r.side.end.observed_shut };

    ghost ended = { λ r. IsEnded r.side.end };

    ghost needs = { λ r s. s ≡ read_source r };

    ghost waits = { ReaderIsWaiting };

    ghost fails = { λ _ cx e. WantsWaker cx e };

    ghost woken = { NotifiesWriter };

    ghost says = { ReadsAsDrain };

    /// As `poll_drain_bytes`, whose error is `Memory` here.
    fn poll_read(&mut self, cx: &mut Context<'_>, dest: &mut [u8]) -> Poll<PipeResult<usize>> {
        as_pipe(self.poll_drain_bytes(cx, dest))
    }
}

impl AsyncBufRead for Reader {
    ghost use Rattle.piper_ring.specs.ReadView.{in_one_piece};
    ghost use Rattle.piper.specs.Handles.{NotifiesWriter, read_source};
    ghost use Rattle.piper.specs.ReaderCalls.{PollsPiece};
    ghost use Rattle.piper.specs.Traits.{Consumes};

    ghost known = { λ r. r.side.end.known };

    ghost piece = { λ r. in_one_piece r.side.end };

    ghost taken = { λ r. r.side.end.taken };

    ghost saw = { λ r. r.side.end.saw };

    ghost knows_end = { λ r. r.side.end.observed_shut };

    ghost ended = { λ r. IsEnded r.side.end };

    ghost needs = { λ r s. s ≡ read_source r };

    ghost waits = { ReaderIsWaiting };

    ghost fails = { λ _ cx e. WantsWaker cx e };

    ghost woken = { NotifiesWriter };

    ghost lends = { λ a b r. PollsPiece r a b };

    ghost consumes = { Consumes };

    /// As `poll`, and then lends what `peek_buf` does. An empty slice is the end, for good. The
    /// error is `Memory`.
    fn poll_fill_buf(&mut self, cx: &mut Context<'_>) -> Poll<PipeResult<&[u8]>> {
        match as_pipe(self.poll_by_call(cx)) {
            Poll::Ready(Ok(_)) => Poll::Ready(Ok(self.peek_buf())),
            Poll::Ready(Err(error)) => Poll::Ready(Err(error)),
            Poll::Pending => Poll::Pending,
        }
    }

    // A reader of lines consumes in several places, and is shorter if each of them is a call.
    /// As `Reader::consume`.
    #[inline(never)]
    fn consume(&mut self, amt: usize) {
        Reader::consume(self, amt);
    }
}

impl AsyncWrite for Writer {
    ghost use Rattle.piper.specs.Handles.{NotifiesReader, write_source};
    ghost use Rattle.piper.specs.Traits.{Closes, Flushes};
    ghost use Rattle.piper.specs.WriterCalls.{WritesAsFill};

    ghost sent = { λ w. w.side.end.sent };

    ghost saw = { λ w. w.side.end.saw };

    ghost needs = { λ w s. s ≡ write_source w };

    ghost waits = { WriterIsWaiting };

    ghost fails = { λ _ cx e. WantsWaker cx e };

    ghost woken = { NotifiesReader };

    ghost says = { WritesAsFill };

    ghost flushes = { Flushes };

    ghost closes = { Closes };

    /// As `poll_fill_bytes`, whose error is `Memory` here.
    fn poll_write(&mut self, cx: &mut Context<'_>, source: &[u8]) -> Poll<PipeResult<usize>> {
        as_pipe(self.poll_fill_bytes(cx, source))
    }

    /// Ready at once, always with `Ok(())`: what was written is published.
    fn poll_flush(&mut self, cx: &mut Context<'_>) -> Poll<PipeResult<()>> {
        // What was written is published already.
        let _unused = cx;
        Poll::Ready(Ok(()))
    }

    /// As `Writer::poll_close`.
    fn poll_close(&mut self, cx: &mut Context<'_>) -> Poll<PipeResult<()>> {
        as_pipe(Writer::poll_close(self, cx))
    }
}
