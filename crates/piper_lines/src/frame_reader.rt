//! Frames, taken whole from a reader that gives bytes as they come.
ghost use Rattle.std.specs.Prelude.{◌≡◌, ◌+◌, ◌<◌, ◌≤◌, [], length};
ghost use Rattle.std.specs.Borrow.{sem};
ghost use Rattle.futures.specs.Task.{Covers, Keeps};
ghost use Rattle.futures.specs.Poll.{OnPending};
ghost use Rattle.piper.specs.Polls.{IfReadyErr};
ghost use Rattle.piper_lines.specs.AtEnd.{AnswersOrFails};
ghost use Rattle.piper_lines.specs.Header.{header_size, encoded_length, usual_header};
ghost use Rattle.piper_lines.specs.Stays.{Pends, ReaderStays, WentOn};

use crate::gather::{fill_up, pass_over};
use crate::header::FrameHeader;
use futures::task::{Context, Poll};
use piper::PipeError;
use piper::io::AsyncBufRead;
use std::alloc::Global;
use std::fmt::{self, Debug, Formatter};
use std::mem;

/// What a poll for a frame returns.
#[derive(Debug, Drop, Clone, Copy, PartialEq, Eq)]
pub enum FrameAnswer {
    /// A whole frame, whose body has at most as many bytes as the limit.
    Frame,
    /// The body of the next frame has this many bytes, which are more than the limit. This poll took
    /// none of them.
    TooLong(usize),
    /// The end of the reader, with bytes of a frame kept, or of a skipped one still to pass.
    Truncated,
    /// The end of the reader, between frames. Each later poll answers `End` or fails.
    End,
}

/// The frames of a reader: each is a length, and then a body of that many bytes.
///
/// Bytes of a frame that has not come to its end are kept from poll to poll.
///
/// In clauses, `reader_of` is the reader, `format_of` says how the length is reported, `header_of`
/// and `body_of` are the bytes that are kept of the length and of the body, `kept_of` all of them,
/// and `skips_of` says how many bytes of a skipped frame have still to pass.
#[derive(Drop)]
pub struct Frames<R> {
    reader: R,
    header: Vec<u8>,
    body: Vec<u8>,
    to_skip: usize,
    format: FrameHeader,
    ghost header_first: { length header.items < header_size format → body.items ≡ [] },
    ghost fits: { length body.items ≤ encoded_length format header.items },
    ghost short: { length header.items ≤ header_size format },
    ghost skips_first: { 0 < to_skip → header.items ≡ [] },
}

impl<R: AsyncBufRead> Frames<R> {
    ghost use Rattle.piper_lines.specs.FrameReader.{reader_of, format_of, kept_of, header_of, body_of, skips_of, header_room_of, body_room_of, lends_reader, FramesAreSpent};
    ghost use Rattle.piper_lines.specs.Refusals.{IsReported, LacksFrameRoom};
    ghost use Rattle.piper_lines.specs.FrameAnswers.{HandsFrame, LacksBytes, OnFramesEnd, handed};
    ghost use Rattle.piper_lines.specs.Moves.{PassesMoves};

    /// The frames whose length is four bytes, the most significant first. Nothing is kept yet, and
    /// no memory is asked for.
    pub fn new(alloc: Global, reader: R) -> Frames<R>
        ensures reader { reader_of result ≡ reader }
        ensures format { format_of result ≡ usual_header }
        ensures kept { kept_of result ≡ [] }
        ensures skips { skips_of result ≡ 0 }
    {
        Frames::with_header(alloc, reader, FrameHeader::default())
    }

    /// The frames whose length is reported in this way. Nothing is kept yet, and no memory is asked
    /// for.
    pub fn with_header(alloc: Global, reader: R, format: FrameHeader) -> Frames<R>
        ensures reader { reader_of result ≡ reader }
        ensures format { format_of result ≡ format }
        ensures kept { kept_of result ≡ [] }
        ensures skips { skips_of result ≡ 0 }
    {
        let header = Vec::new(alloc);
        let body = Vec::new(alloc);
        Frames {
            reader,
            header,
            body,
            to_skip: 0,
            format,
        }
    }

    /// Lends the reader. What is kept of a frame stays.
    pub fn reader_mut(&mut self) -> &mut R
        ensures value { result.now ≡ reader_of self.old }
        ensures* writes_back { sem 𝓛 (lends_reader R.row self.entry result) }
    {
        &mut self.reader
    }

    /// Gives the reader back. What is kept of a frame is dropped.
    pub fn into_reader(self) -> R
        ensures { result ≡ reader_of self }
    {
        let Frames {
            reader,
            header: _,
            body: _,
            to_skip: _,
            format: _,
        } = self;
        reader
    }

    /// Gives up the next frame: the polls that follow take its bytes and drop them, and then take
    /// the frame after it.
    ///
    /// Requires: the whole length of the frame was taken, as it is after `TooLong` and
    /// `UntilTooLong`.
    pub fn skip(&mut self)
        requires { length (header_of self.old) ≡ header_size (format_of self.old) }
        ensures reader { reader_of self.new ≡ reader_of self.old }
        ensures format { format_of self.new ≡ format_of self.old }
        ensures kept { kept_of self.new ≡ [] }
        ensures skips { skips_of self.new + length (body_of self.old)
            ≡ encoded_length (format_of self.old) (header_of self.old) }
    {
        self.to_skip = self.format.told(&self.header) - self.body.len();
        self.body.clear();
        self.header.clear();
    }

    /// Replaces `frame` by the body of the reader's next frame, if that has at most `limit` bytes.
    ///
    /// After `TooLong` the caller can `skip` the frame, ask again with another limit, or stop.
    ///
    /// Returns: whether `frame` is a whole body, or why there is none; then it is empty.
    /// Pending: the reader knows no byte, and its call is pending; or this poll took at least 64
    /// bytes, and asked for another. `frame` is empty.
    /// Errors: the reader's own; or `Memory`, before the bytes are taken that lack room. `frame` is
    /// empty.
    /// Cancel safety: the next poll goes on from where this one ended. What was taken of an
    /// unfinished frame is dropped with the `Frames`.
    pub fn poll_frame(
        &mut self,
        cx: &mut Context<'_>,
        frame: &mut Vec<u8>,
        limit: usize,
    ) -> Poll<Result<FrameAnswer, PipeError>>
        ensures moved { PassesMoves (R.taken (reader_of self.old)) (R.taken (reader_of self.new))
            (skips_of self.old) (skips_of self.new) (kept_of self.old)
            (handed (format_of self.old) result frame.new.items) (kept_of self.new) }
        ensures hands { HandsFrame (format_of self.old) result limit frame.new.items
            (header_of self.new) (body_of self.old) (body_of self.new) (skips_of self.new)
            (R.known (reader_of self.new)) (R.saw (reader_of self.new)) }
        ensures ended { OnFramesEnd result (R.ended (reader_of self.new)) }
        ensures after { FramesAreSpent R.ended self.old →
            FramesAreSpent R.ended self.new × AnswersOrFails FrameAnswer.End result }
        ensures error { IfReadyErr result (λ e. IsReported e (R.fails (reader_of self.new) cx.new)
            (LacksFrameRoom (format_of self.old) limit (header_room_of self.old)
            (body_room_of self.old) (header_of self.new) (body_of self.new)
            (R.known (reader_of self.new)))) }
        ensures pending { OnPending result (Covers cx.new (R.needs (reader_of self.new))
            × Pends R.known R.knows_end R.waits (reader_of self.new)
            (WentOn (length (R.taken (reader_of self.old))) (length (R.taken (reader_of self.new))))
            cx.new × LacksBytes (format_of self.old) (skips_of self.old)
            (header_of self.new) (body_of self.new)) }
        ensures rest { (format_of self.new ≡ format_of self.old)
            × ReaderStays R.knows_end R.woken (reader_of self.old) (reader_of self.new)
            × Keeps cx.old cx.new }
    {
        frame.clear();
        match pass_over(&mut self.reader, cx, &mut self.to_skip) {
            Poll::Pending => return Poll::Pending,
            Poll::Ready(Err(error)) => return Poll::Ready(Err(error)),
            Poll::Ready(Ok(false)) => return Poll::Ready(Ok(FrameAnswer::Truncated)),
            Poll::Ready(Ok(true)) => {}
        }
        let header_size = self.format.size();
        match fill_up(&mut self.reader, cx, &mut self.header, header_size) {
            Poll::Pending => return Poll::Pending,
            Poll::Ready(Err(error)) => return Poll::Ready(Err(error)),
            Poll::Ready(Ok(false)) => return Poll::Ready(Ok(ended(&self.header))),
            Poll::Ready(Ok(true)) => {}
        }
        let size = self.format.told(&self.header);
        if size > limit {
            return Poll::Ready(Ok(FrameAnswer::TooLong(size)));
        }
        match fill_up(&mut self.reader, cx, &mut self.body, size) {
            Poll::Pending => Poll::Pending,
            Poll::Ready(Err(error)) => Poll::Ready(Err(error)),
            Poll::Ready(Ok(false)) => Poll::Ready(Ok(FrameAnswer::Truncated)),
            Poll::Ready(Ok(true)) => {
                mem::swap(frame, &mut self.body);
                self.header.clear();
                Poll::Ready(Ok(FrameAnswer::Frame))
            }
        }
    }
}

// What the end of the reader says after these bytes of a length.
fn ended(header: &[u8]) -> FrameAnswer
    ensures clean { header.now ≡ [] → result ≡ FrameAnswer.End }
    ensures inside { 0 < length header.now → result ≡ FrameAnswer.Truncated }
{
    if header.is_empty() {
        FrameAnswer::End
    } else {
        FrameAnswer::Truncated
    }
}

impl<R: Debug> Debug for Frames<R> {
    fn fmt<O: fmt::Write>(&self, f: &mut Formatter<O>) -> fmt::Result {
        f.debug_struct("Frames")
            .field("reader", &self.reader)
            .field("format", &self.format)
            .field("header", &self.header.len())
            .field("body", &self.body.len())
            .field("to_skip", &self.to_skip)
            .finish()
    }
}
