//! The lines of a reader, one after another.
ghost use Rattle.std.specs.Prelude.{◌≡◌, ◌<◌, [], length, true, false, IfSome};
ghost use Rattle.futures.specs.Poll.{IfReady, OnPending};
ghost use Rattle.futures.specs.Runs.{After, Within};
ghost use Rattle.futures.specs.Task.{Covers, Keeps};
ghost use Rattle.piper_lines.specs.LineReader.{reader_of, end_of, kept_of};
ghost use Rattle.piper_lines.specs.Line.{line_feed};
ghost use Rattle.piper_lines.specs.Stays.{ReaderStays};

use futures::Stream;
use futures::task::{Context, Poll};
use piper::PipeError;
use piper::io::AsyncBufRead;
use piper_lines::{LineAnswer, Lines};
use std::alloc::Global;
use std::fmt::{self, Debug, Formatter};

/// The lines of a reader, each with the byte that ends it, as a stream. The last item is what
/// follows the last line.
///
/// A line of more bytes than the limit comes in pieces of that many.
///
/// Cancel safety: a `next()` that is dropped loses nothing. What was taken of an unfinished line is
/// dropped with the stream.
///
/// In clauses, `lines_of` are the lines below, `limit_of` is the limit, and `ended_of` says whether
/// the end was reported.
#[derive(Drop)]
pub struct LineStream<R> {
    lines: Lines<R>,
    limit: usize,
    alloc: Global,
    is_ended: bool,
    ghost some: { 0 < limit },
    ghost short: { length (kept_of lines) < limit },
}

impl<R: AsyncBufRead + Drop> LineStream<R> {
    ghost use Rattle.piper_futures.specs.LineStream.{lines_of, limit_of, ended_of};

    /// The lines of at most `limit` bytes that end with LF. It asks for no memory until the first
    /// byte of a line is known (not proved).
    ///
    /// Requires: `limit`, which counts the byte that ends a line, is at least 1.
    pub fn new(alloc: Global, reader: R, limit: usize) -> LineStream<R>
        requires { 0 < limit }
        ensures reader { reader_of (lines_of result) ≡ reader }
        ensures end { end_of (lines_of result) ≡ line_feed }
        ensures kept { kept_of (lines_of result) ≡ [] }
        ensures limit { limit_of result ≡ limit }
        ensures open { ended_of result ≡ false }
    {
        LineStream::split(alloc, reader, b'\n', limit)
    }

    /// The lines of at most `limit` bytes that end with this byte.
    ///
    /// Requires: `limit`, which counts that byte, is at least 1.
    pub fn split(alloc: Global, reader: R, end: u8, limit: usize) -> LineStream<R>
        requires { 0 < limit }
        ensures reader { reader_of (lines_of result) ≡ reader }
        ensures end { end_of (lines_of result) ≡ end }
        ensures kept { kept_of (lines_of result) ≡ [] }
        ensures limit { limit_of result ≡ limit }
        ensures open { ended_of result ≡ false }
    {
        LineStream {
            lines: Lines::split(alloc, reader, end),
            limit,
            alloc,
            is_ended: false,
        }
    }

    /// Gives the reader back. What is kept of a line is dropped.
    pub fn into_reader(self) -> R
        ensures { result ≡ reader_of (lines_of self) }
    {
        let LineStream {
            lines,
            limit: _,
            alloc: _,
            is_ended: _,
        } = self;
        lines.into_reader()
    }
}

impl<R: AsyncBufRead + Drop> Stream for LineStream<R> {
    ghost use Rattle.piper_futures.specs.LineStream.{TellsLine, YieldsLines, lines_of};

    type Item = Result<Vec<u8>, PipeError>;

    ghost needs = { λ stream s. R.needs (reader_of stream.lines) s };

    ghost yields = { YieldsLines R.taken R.known R.saw R.fails };

    /// The next line.
    ///
    /// Returns: `Some` line with the byte that ends it, or a piece of one; at the reader's end what
    /// follows the last line, if that is not empty, and then `None`.
    /// Pending: the reader knows no byte, and its call is pending.
    /// Errors: the reader's own; or `Memory`, before the bytes are taken that lack room. After an
    /// error the stream goes on where it was.
    fn poll_next(&mut self, cx: &mut Context<'_>) -> Poll<Option<Self::Item>>
        ensures value { IfReady result (YieldsLines R.taken R.known R.saw R.fails self.old []) }
        ensures rest { IfReady result (λ o. IfSome o (λ x.
            After (YieldsLines R.taken R.known R.saw R.fails self.old) x
            (YieldsLines R.taken R.known R.saw R.fails self.new))) }
        ensures same { OnPending result (Within (YieldsLines R.taken R.known R.saw R.fails self.old)
            (YieldsLines R.taken R.known R.saw R.fails self.new)) }
        ensures registered { OnPending result
            (Covers cx.new (R.needs (reader_of (lines_of self.new)))) }
        ensures kept { Keeps cx.old cx.new }
        ensures tells { TellsLine R.known R.knows_end R.fails R.waits result self.old self.new cx.new }
        ensures stays { ReaderStays R.knows_end R.woken
            (reader_of (lines_of self.old)) (reader_of (lines_of self.new)) }
    {
        if self.is_ended {
            return Poll::Ready(None);
        }
        let mut line = Vec::new(self.alloc);
        match self.lines.poll_line(cx, &mut line, self.limit) {
            Poll::Pending => Poll::Pending,
            Poll::Ready(Err(error)) => Poll::Ready(Some(Err(error))),
            Poll::Ready(Ok(LineAnswer::End)) => {
                self.is_ended = true;
                Poll::Ready(None)
            }
            Poll::Ready(Ok(LineAnswer::Last)) => {
                self.is_ended = true;
                Poll::Ready(Some(Ok(line)))
            }
            Poll::Ready(Ok(LineAnswer::Line)) => Poll::Ready(Some(Ok(line))),
            Poll::Ready(Ok(LineAnswer::TooLong)) => Poll::Ready(Some(Ok(line))),
        }
    }
}

impl<R: Debug> Debug for LineStream<R> {
    fn fmt<O: fmt::Write>(&self, f: &mut Formatter<O>) -> fmt::Result {
        f.debug_struct("LineStream")
            .field("lines", &self.lines)
            .field("limit", &self.limit)
            .field("ended", &self.is_ended)
            .finish()
    }
}
