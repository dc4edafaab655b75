//! An echo of lines: each is read whole and written back.
ghost use Rattle.std.specs.Prelude.{◌≡◌, ◌<◌, ◌≤◌, ◌⊎◌, [], length, true, Ok};
ghost use Rattle.futures.specs.Task.{Covers, Keeps};
ghost use Rattle.futures.specs.Poll.{OnPending};
ghost use Rattle.piper_lines.specs.LineReader.{LinesAreSpent, reader_of, end_of, kept_of};
ghost use Rattle.piper.specs.Polls.{IfReadyErr};
ghost use Rattle.piper_lines.specs.AtEnd.{AtEnd};
ghost use Rattle.piper_lines.specs.Refusals.{IsReported, LacksRoom};
ghost use Rattle.piper_lines.specs.Split.{IsPiece};
ghost use Rattle.piper_lines.specs.Stays.{ReaderStays, WriterStays};

use futures::task::{Context, Poll};
use piper::PipeError;
use piper::io::{AsyncBufRead, AsyncWrite};
use piper_lines::{LineAnswer, Lines, Written, poll_write_all};
use std::alloc::Global;

/// How many lines a poll echoes at most, before other tasks get their turn.
const MOST_LINES: u32 = 64;

/// Why an echo ended.
#[derive(Clone, Copy, Debug, PartialEq, Eq)]
pub enum Echoed {
    /// The reader is at its end, and the writer counted all that the echo took.
    ToTheEnd,
    /// The writer's pipe is closed, and bytes of a line are left.
    UntilClosed,
}

/// Writes back the lines of a reader. It holds the line that is on its way.
///
/// In clauses, `left_of` are the bytes of that line that are not written yet.
#[derive(Drop)]
pub struct LineEcho {
    line: Vec<u8>,
    written: usize,
    ghost within: { written ≤ length line.items },
}

impl LineEcho {
    ghost use Rattle.piper_duplex.specs.Echoes.{EchoPends, Echoes, IsRest, WaitsFor, left_of};

    /// No line is on its way yet, and no memory is asked for.
    pub fn new(alloc: Global) -> LineEcho
        ensures { left_of result ≡ [] }
    {
        LineEcho {
            line: Vec::new(alloc),
            written: 0,
        }
    }

    /// Reads lines, and writes each back once it is whole, up to the reader's end or the close of
    /// the writer's pipe.
    ///
    /// If fewer than `limit` bytes were kept before, a line of more than `limit` bytes goes back in
    /// pieces of `limit` bytes. What follows the last line goes back as well. As long as the writer
    /// has not seen its pipe closed, all counted bytes are published.
    ///
    /// Requires: `limit`, which counts the byte that ends a line, is at least 1.
    /// Returns: why it ended.
    /// Pending: a line is on its way back, and the writer's call is pending; or none is, and the
    /// reader's is; or it took 64 lines, a number that may change, and asked for another poll. A
    /// reader that was told of the end is not waited for.
    /// Errors: that of the reader or of the writer; or `Memory`, before the bytes are taken that
    /// lack room.
    /// Cancel safety: the next poll goes on from where this one ended. What was taken and not
    /// written back is dropped with the `LineEcho` and the `Lines`.
    pub fn poll<R: AsyncBufRead, W: AsyncWrite>(
        &mut self,
        cx: &mut Context<'_>,
        lines: &mut Lines<R>,
        writer: &mut W,
        limit: usize,
    ) -> Poll<Result<Echoed, PipeError>>
        requires { 0 < limit }
        ensures echoes { Echoes
            (λ piece. length (kept_of lines.old) < limit →
            IsPiece (end_of lines.old) limit piece)
            (λ piece. IsRest (end_of lines.old) piece × LinesAreSpent R.ended lines.new)
            (R.taken (reader_of lines.old)) (R.taken (reader_of lines.new))
            (kept_of lines.old) (kept_of lines.new) (left_of self.old) (left_of self.new)
            (W.sent writer.old) (W.sent writer.new) (W.saw writer.old) (W.saw writer.new) }
        ensures ended { result ≡ Poll.Ready (Ok Echoed.ToTheEnd) → (left_of self.new ≡ [])
            × AtEnd (R.known (reader_of lines.new)) (R.saw (reader_of lines.new))
            × LinesAreSpent R.ended lines.new }
        ensures after { LinesAreSpent R.ended lines.old → LinesAreSpent R.ended lines.new
            × (R.taken (reader_of lines.new) ≡ R.taken (reader_of lines.old)) }
        ensures closed { result ≡ Poll.Ready (Ok Echoed.UntilClosed) →
            (W.saw writer.new ≡ true) × (0 < length (left_of self.new)) }
        ensures error { IfReadyErr result (λ e. W.fails writer.new cx.new e
            ⊎ IsReported e (R.fails (reader_of lines.new) cx.new)
            (LacksRoom limit 0 (kept_of lines.new) (R.known (reader_of lines.new)))) }
        ensures pending { OnPending result (Covers cx.new
            (WaitsFor (R.needs (reader_of lines.new)) (W.needs writer.new) (left_of self.new))
            × EchoPends R.known R.knows_end R.waits (reader_of lines.new)
            (W.waits writer.new cx.new) (left_of self.new) (W.saw writer.old)
            (length (R.taken (reader_of lines.old)) < length (R.taken (reader_of lines.new)))
            cx.new) }
        ensures stays { WriterStays W.saw W.woken writer.old writer.new
            × ReaderStays R.knows_end R.woken (reader_of lines.old) (reader_of lines.new)
            × Keeps cx.old cx.new }
    {
        for _ in 0..MOST_LINES {
            match poll_write_all(writer, cx, self.line.as_slice(), &mut self.written) {
                Poll::Pending => return Poll::Pending,
                Poll::Ready(Err(error)) => return Poll::Ready(Err(error)),
                Poll::Ready(Ok(Written::Closed)) => return Poll::Ready(Ok(Echoed::UntilClosed)),
                Poll::Ready(Ok(Written::Whole)) => {}
            }
            self.written = 0;
            let answer = match lines.poll_line(cx, &mut self.line, limit) {
                Poll::Pending => return Poll::Pending,
                Poll::Ready(Err(error)) => return Poll::Ready(Err(error)),
                Poll::Ready(Ok(answer)) => answer,
            };
            match answer {
                LineAnswer::End => return Poll::Ready(Ok(Echoed::ToTheEnd)),
                _ => {}
            }
        }
        cx.yield_now()
    }
}
