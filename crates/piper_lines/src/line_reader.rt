//! Lines, taken whole from a reader that gives bytes as they come.
ghost use Rattle.std.specs.Prelude.{◌≡◌, ◌<◌, ◌≤◌, [], length, take, false, MatchBool, vec_capacity};
ghost use Rattle.std.specs.Borrow.{sem};
ghost use Rattle.futures.specs.Task.{Covers, Keeps};
ghost use Rattle.futures.specs.Poll.{OnPending};
ghost use Rattle.piper_lines.specs.AtEnd.{AnswersOrFails};
ghost use Rattle.piper_lines.specs.Line.{Lacks, IsLine, line_feed};
ghost use Rattle.piper_lines.specs.Moves.{Moves, Grows};
ghost use Rattle.piper_lines.specs.LineAnswers.{Gathers, Hands, OnLinesEnd};
ghost use Rattle.piper_lines.specs.Refusals.{IsReported, LacksRoom};
ghost use Rattle.piper_lines.specs.Stays.{ReaderStays, WaitsForBytes};
ghost use Rattle.piper.specs.Polls.{IfReadyErr};

use futures::task::{Context, Poll};
use memchr::memchr;
use piper::PipeError;
use piper::io::AsyncBufRead;
use std::alloc::Global;
use std::fmt::{self, Debug, Formatter};
use std::mem;

/// What a poll for a line returns.
#[derive(Debug, Drop, Clone, Copy, PartialEq, Eq)]
pub enum LineAnswer {
    /// A whole line with the byte that ends it, of at most as many bytes as the limit.
    Line,
    /// As many bytes as the limit, none of which ends a line; or, if calls with a greater limit kept
    /// more than that, all that was kept.
    TooLong,
    /// What follows the last line, at the end of the reader.
    Last,
    /// The end of the reader, with nothing left of a line. After `End`, and after `Last`, each poll
    /// answers `End` or fails.
    End,
}

impl LineAnswer {
    ghost use Rattle.piper_lines.specs.LineAnswers.{at_end};

    /// Whether the reader has ended: no line comes after this answer.
    pub fn is_end(self) -> bool
        ensures { result ≡ at_end self }
    {
        match self {
            LineAnswer::Line | LineAnswer::TooLong => false,
            LineAnswer::Last | LineAnswer::End => true,
        }
    }
}

/// The lines of a reader.
///
/// Bytes of a line that has not come to its end are kept from poll to poll.
///
/// In clauses, `reader_of` is the reader, `end_of` the byte that ends a line, and `kept_of` the
/// bytes that are kept.
#[derive(Drop)]
pub struct Lines<R> {
    reader: R,
    kept: Vec<u8>,
    end: u8,
    ghost unfinished: { Lacks end kept.items },
}

impl<R: AsyncBufRead> Lines<R> {
    ghost use Rattle.piper_lines.specs.LineReader.{LinesAreSpent, reader_of, end_of, kept_of, room_of, lends_reader};

    /// The lines that end with LF. Nothing is kept yet, and no memory is asked for.
    pub fn new(alloc: Global, reader: R) -> Lines<R>
        ensures reader { reader_of result ≡ reader }
        ensures end { end_of result ≡ line_feed }
        ensures kept { kept_of result ≡ [] }
    {
        Lines::split(alloc, reader, b'\n')
    }

    /// The lines that end with this byte.
    pub fn split(alloc: Global, reader: R, end: u8) -> Lines<R>
        ensures reader { reader_of result ≡ reader }
        ensures end { end_of result ≡ end }
        ensures kept { kept_of result ≡ [] }
    {
        let kept = Vec::new(alloc);
        Lines { reader, kept, end }
    }

    /// Lends the reader. What is kept of a line stays.
    pub fn reader_mut(&mut self) -> &mut R
        ensures value { result.now ≡ reader_of self.old }
        ensures* writes_back { sem 𝓛 (lends_reader R.row self.entry result) }
    {
        &mut self.reader
    }

    /// Gives the reader back. What is kept of a line is dropped.
    pub fn into_reader(self) -> R
        ensures { result ≡ reader_of self }
    {
        let Lines {
            reader,
            kept: _,
            end: _,
        } = self;
        reader
    }

    /// Replaces `line` by the next line of the reader, with the byte that ends it.
    ///
    /// Requires: `limit`, which counts the byte that ends the line, is at least 1.
    /// Returns: what `line` is now, or that the reader has ended.
    /// Pending: the reader knows no byte, and its call is pending. `line` is empty.
    /// Errors: the reader's own; or `Memory`, before the bytes are taken that lack room. `line` is
    /// empty.
    /// Cancel safety: the next poll goes on from where this one ended. What was taken of an
    /// unfinished line is dropped with the `Lines`.
    pub fn poll_line(
        &mut self,
        cx: &mut Context<'_>,
        line: &mut Vec<u8>,
        limit: usize,
    ) -> Poll<Result<LineAnswer, PipeError>>
        requires { 0 < limit }
        ensures moved { Moves (R.taken (reader_of self.old)) (R.taken (reader_of self.new))
            (kept_of self.old) line.new.items (kept_of self.new) }
        ensures hands { Hands result (end_of self.old) limit
            (kept_of self.old) line.new.items (kept_of self.new)
            (R.known (reader_of self.new)) (R.saw (reader_of self.new)) }
        ensures ended { OnLinesEnd result (LinesAreSpent R.ended self.new) }
        ensures after { LinesAreSpent R.ended self.old →
            LinesAreSpent R.ended self.new × AnswersOrFails LineAnswer.End result }
        ensures error { IfReadyErr result (λ e. IsReported e (R.fails (reader_of self.new) cx.new)
            (LacksRoom limit (room_of self.old) (kept_of self.new) (R.known (reader_of self.new)))) }
        ensures pending { OnPending result (Covers cx.new (R.needs (reader_of self.new))
            × WaitsForBytes R.known R.knows_end R.waits (reader_of self.new) cx.new) }
        ensures rest { (end_of self.new ≡ end_of self.old)
            × ReaderStays R.knows_end R.woken (reader_of self.old) (reader_of self.new)
            × Keeps cx.old cx.new }
    {
        line.clear();
        mem::swap(line, &mut self.kept);
        let polled = gather(&mut self.reader, cx, line, self.end, limit);
        match &polled {
            Poll::Ready(Ok(_)) => {}
            _ => mem::swap(line, &mut self.kept),
        }
        polled
    }
}

// Takes bytes from the reader to the end of `line`, through the first that ends it, up to the limit
// or to the end of the reader.
fn gather<R: AsyncBufRead>(
    reader: &mut R,
    cx: &mut Context<'_>,
    line: &mut Vec<u8>,
    end: u8,
    limit: usize,
) -> Poll<Result<LineAnswer, PipeError>>
    requires unfinished { Lacks end line.old.items }
    ensures grown { Grows (R.taken reader.old) (R.taken reader.new) line.old.items line.new.items }
    ensures gathers { Gathers result end limit line.old.items line.new.items
        (R.known reader.new) (R.saw reader.new) }
    ensures ended { OnLinesEnd result (R.ended reader.new) }
    ensures after { 0 < limit → R.ended reader.old → line.old.items ≡ [] →
        R.ended reader.new × (line.new.items ≡ []) × AnswersOrFails LineAnswer.End result }
    ensures error { IfReadyErr result (λ e. IsReported e (R.fails reader.new cx.new)
        (LacksRoom limit (vec_capacity line.old) line.new.items (R.known reader.new))) }
    ensures stays { ReaderStays R.knows_end R.woken reader.old reader.new }
    ensures pending { OnPending result ((R.knows_end reader.new ≡ false) × R.waits reader.new cx.new) }
    ensures covered { OnPending result (Covers cx.new (R.needs reader.new)) }
    ensures kept { Keeps cx.old cx.new }
{
    loop {
        if line.len() >= limit {
            return Poll::Ready(Ok(LineAnswer::TooLong));
        }
        let room = limit - line.len();
        let lent = match reader.poll_fill_buf(cx) {
            Poll::Pending => return Poll::Pending,
            Poll::Ready(Err(error)) => return Poll::Ready(Err(error)),
            Poll::Ready(Ok(lent)) => lent,
        };
        if lent.is_empty() {
            return Poll::Ready(Ok(if line.is_empty() {
                LineAnswer::End
            } else {
                LineAnswer::Last
            }));
        }
        let front = &lent[..lent.len().min(room)];
        let (count, is_found) = through_end(front, end);
        if let Err(refused) = line.extend_from_slice(&front[..count]) {
            return Poll::Ready(Err(refused.into()));
        }
        reader.consume(count);
        if is_found {
            return Poll::Ready(Ok(LineAnswer::Line));
        }
    }
}

// How many bytes there are through the first that ends a line and that there is one, or all of
// them.
fn through_end(bytes: &[u8], end: u8) -> (usize, bool)
    ensures within { result.0 ≤ length bytes.now }
    ensures some { 0 < length bytes.now → 0 < result.0 }
    ensures through { MatchBool result.1 (IsLine end (take result.0 bytes.now))
        (Lacks end (take result.0 bytes.now)) }
{
    match memchr(end, bytes) {
        Some(before) => (before + 1, true),
        None => (bytes.len(), false),
    }
}

impl<R: Debug> Debug for Lines<R> {
    fn fmt<O: fmt::Write>(&self, f: &mut Formatter<O>) -> fmt::Result {
        f.debug_struct("Lines")
            .field("reader", &self.reader)
            .field("end", &self.end)
            .field("kept", &self.kept.len())
            .finish()
    }
}
