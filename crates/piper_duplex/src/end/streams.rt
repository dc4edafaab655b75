//! The traits of readers and writers, for an end. Each call is that call of one of its handles, and
//! leaves the other as it is.
ghost use Rattle.std.specs.Prelude.{◌≡◌};
ghost use Rattle.piper.specs.Contexts.{WantsWaker};
ghost use Rattle.piper.specs.Handles.{NotifiesReader, NotifiesWriter, read_source, write_source};
ghost use Rattle.piper.specs.OfReader.{front, known, taken, observed_shut};
ghost use Rattle.piper.specs.OfReader as of_reader;
ghost use Rattle.piper.specs.OfWriter as of_writer;
ghost use Rattle.piper.specs.ReaderCalls.{AtEnd, PollsPiece, ReadsAsDrain};
ghost use Rattle.piper.specs.Traits.{Closes, Consumes, Flushes};
ghost use Rattle.piper.specs.WriterCalls.{WritesAsFill};
ghost use Rattle.piper.specs.Waits.{ReaderIsWaiting, WriterIsWaiting};
ghost use Rattle.piper_duplex.specs.Crosswise.{reading, writing};

use super::End;
use futures::task::{Context, Poll};
use piper::PipeError;
use piper::io::{AsyncBufRead, AsyncRead, AsyncWrite};

impl AsyncRead for End {
    ghost taken = { λ e. taken (reading e) };

    ghost saw = { λ e. of_reader.saw (reading e) };

    ghost knows_end = { λ e. observed_shut (reading e) };

    ghost ended = { λ e. AtEnd (reading e) };

    ghost needs = { λ e s. s ≡ read_source (reading e) };

    ghost waits = { λ e. ReaderIsWaiting (reading e) };

    ghost fails = { λ _ cx e. WantsWaker cx e };

    ghost woken = { λ e. NotifiesWriter (reading e) };

    ghost says = { λ a b r before after old left.
        ReadsAsDrain (reading a) (reading b) r before after old left × (writing b ≡ writing a) };

    /// As `poll_read` of the handle that reads.
    fn poll_read(
        &mut self,
        cx: &mut Context<'_>,
        dest: &mut [u8],
    ) -> Poll<Result<usize, PipeError>> {
        self.reader.poll_read(cx, dest)
    }
}

impl AsyncBufRead for End {
    ghost known = { λ e. known (reading e) };

    ghost piece = { λ e. front (reading e) };

    ghost taken = { λ e. taken (reading e) };

    ghost saw = { λ e. of_reader.saw (reading e) };

    ghost knows_end = { λ e. observed_shut (reading e) };

    ghost ended = { λ e. AtEnd (reading e) };

    ghost needs = { λ e s. s ≡ read_source (reading e) };

    ghost waits = { λ e. ReaderIsWaiting (reading e) };

    ghost fails = { λ _ cx e. WantsWaker cx e };

    ghost woken = { λ e. NotifiesWriter (reading e) };

    ghost lends = { λ a b r old left.
        PollsPiece r (reading a) (reading b) old left × (writing b ≡ writing a) };

    ghost consumes = { λ a b n.
        Consumes (reading a) (reading b) n × (writing b ≡ writing a) };

    /// As `poll_fill_buf` of the handle that reads.
    fn poll_fill_buf(&mut self, cx: &mut Context<'_>) -> Poll<Result<&[u8], PipeError>> {
        self.reader.poll_fill_buf(cx)
    }

    /// As `consume` of the handle that reads.
    fn consume(&mut self, amt: usize) {
        AsyncBufRead::consume(&mut self.reader, amt);
    }
}

impl AsyncWrite for End {
    ghost sent = { λ e. of_writer.sent (writing e) };

    ghost saw = { λ e. of_writer.saw (writing e) };

    ghost needs = { λ e s. s ≡ write_source (writing e) };

    ghost waits = { λ e. WriterIsWaiting (writing e) };

    ghost fails = { λ _ cx e. WantsWaker cx e };

    ghost woken = { λ e. NotifiesReader (writing e) };

    ghost says = { λ a b r bytes old left.
        WritesAsFill (writing a) (writing b) r bytes old left × (reading b ≡ reading a) };

    ghost flushes = { λ a b r old left.
        Flushes (writing a) (writing b) r old left × (reading b ≡ reading a) };

    ghost closes = { λ a b r old left.
        Closes (writing a) (writing b) r old left × (reading b ≡ reading a) };

    /// As `poll_write` of the handle that writes.
    fn poll_write(
        &mut self,
        cx: &mut Context<'_>,
        source: &[u8],
    ) -> Poll<Result<usize, PipeError>> {
        self.writer.poll_write(cx, source)
    }

    /// Ready at once, always with `Ok(())`. It changes nothing: a write holds no byte back.
    fn poll_flush(&mut self, cx: &mut Context<'_>) -> Poll<Result<(), PipeError>> {
        self.writer.poll_flush(cx)
    }

    /// Closes the pipe that it writes into, for good. What comes from the other end can still be
    /// read.
    ///
    /// Returns: `Ok(())`, at once and always.
    /// Wakes: the other end's reader, if it waits. No waker of this end's writer is left.
    fn poll_close(&mut self, cx: &mut Context<'_>) -> Poll<Result<(), PipeError>> {
        AsyncWrite::poll_close(&mut self.writer, cx)
    }
}
