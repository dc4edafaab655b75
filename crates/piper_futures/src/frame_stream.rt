//! The frames of a reader, one after another.
ghost use Rattle.std.specs.Prelude.{◌≡◌, [], true, false, IfSome};
ghost use Rattle.futures.specs.Poll.{IfReady, OnPending};
ghost use Rattle.futures.specs.Runs.{After, Within};
ghost use Rattle.futures.specs.Task.{Covers, Keeps};
ghost use Rattle.piper_lines.specs.FrameReader.{reader_of, format_of, kept_of, skips_of};
ghost use Rattle.piper_lines.specs.Header.{usual_header};
ghost use Rattle.piper_lines.specs.Stays.{ReaderStays};

use futures::Stream;
use futures::task::{Context, Poll};
use piper::PipeError;
use piper::io::AsyncBufRead;
use piper_lines::{FrameAnswer, FrameHeader, Frames};
use std::alloc::Global;
use std::fmt::{self, Debug, Formatter};
use std::io::ErrorKind;

/// The bodies of a reader's frames, as a stream.
///
/// Cancel safety: a `next()` that is dropped loses nothing. What was taken of an unfinished frame
/// is dropped with the stream.
///
/// In clauses, `frames_of` are the frames below, `frame_limit_of` is the limit, and `is_over` says
/// whether the stream has ended.
#[derive(Drop)]
pub struct FrameStream<R> {
    frames: Frames<R>,
    limit: usize,
    alloc: Global,
    is_ended: bool,
    ghost whole: { skips_of frames ≡ 0 },
}

impl<R: AsyncBufRead + Drop> FrameStream<R> {
    ghost use Rattle.piper_futures.specs.FrameStream.{frames_of, frame_limit_of, is_over};

    /// The frames of at most `limit` bytes, whose length is four bytes, the most significant first.
    /// It asks for no memory until the first byte of a frame is known (not proved).
    pub fn new(alloc: Global, reader: R, limit: usize) -> FrameStream<R>
        ensures reader { reader_of (frames_of result) ≡ reader }
        ensures format { format_of (frames_of result) ≡ usual_header }
        ensures kept { kept_of (frames_of result) ≡ [] }
        ensures limit { frame_limit_of result ≡ limit }
        ensures open { is_over result ≡ false }
    {
        FrameStream::with_header(alloc, reader, FrameHeader::default(), limit)
    }

    /// The frames of at most `limit` bytes, whose length is reported in this way.
    pub fn with_header(
        alloc: Global,
        reader: R,
        format: FrameHeader,
        limit: usize,
    ) -> FrameStream<R>
        ensures reader { reader_of (frames_of result) ≡ reader }
        ensures format { format_of (frames_of result) ≡ format }
        ensures kept { kept_of (frames_of result) ≡ [] }
        ensures limit { frame_limit_of result ≡ limit }
        ensures open { is_over result ≡ false }
    {
        FrameStream {
            frames: Frames::with_header(alloc, reader, format),
            limit,
            alloc,
            is_ended: false,
        }
    }

    /// Gives the frames below, with what is kept: to take a frame that is too long with another
    /// limit, or to skip it once a `poll_frame` has answered `TooLong` again.
    pub fn into_frames(self) -> Frames<R>
        ensures { result ≡ frames_of self }
    {
        let FrameStream {
            frames,
            limit: _,
            alloc: _,
            is_ended: _,
        } = self;
        frames
    }
}

impl<R: AsyncBufRead + Drop> Stream for FrameStream<R> {
    ghost use Rattle.piper_futures.specs.FrameStream.{TellsFrame, YieldsFrames, frames_of};

    type Item = Result<Vec<u8>, PipeError>;

    ghost needs = { λ stream s. R.needs (reader_of stream.frames) s };

    ghost yields = { YieldsFrames R.taken R.known R.saw R.fails };

    /// The body of the next frame.
    ///
    /// Returns: `Some` body; `None` at the reader's end.
    /// Pending: the reader knows no byte, and its call is pending; or bytes were taken, and it
    /// asked for another poll.
    /// Errors: the reader's own, or `Memory`, before the bytes are taken that lack room: after
    /// these the stream goes on where it was. `InvalidData` if the frame has more bytes than the
    /// limit, `UnexpectedEof` if the reader ends inside a frame: after these the stream has ended.
    fn poll_next(&mut self, cx: &mut Context<'_>) -> Poll<Option<Self::Item>>
        ensures value { IfReady result (YieldsFrames R.taken R.known R.saw R.fails self.old []) }
        ensures rest { IfReady result (λ o. IfSome o (λ x.
            After (YieldsFrames R.taken R.known R.saw R.fails self.old) x
            (YieldsFrames R.taken R.known R.saw R.fails self.new))) }
        ensures same { OnPending result (Within
            (YieldsFrames R.taken R.known R.saw R.fails self.old)
            (YieldsFrames R.taken R.known R.saw R.fails self.new)) }
        ensures registered { OnPending result
            (Covers cx.new (R.needs (reader_of (frames_of self.new)))) }
        ensures kept { Keeps cx.old cx.new }
        ensures tells { TellsFrame R.taken R.known R.saw R.knows_end R.fails R.waits
            result self.old self.new cx.new }
        ensures stays { ReaderStays R.knows_end R.woken
            (reader_of (frames_of self.old)) (reader_of (frames_of self.new))
            × (format_of (frames_of self.new) ≡ format_of (frames_of self.old)) }
    {
        if self.is_ended {
            return Poll::Ready(None);
        }
        let mut frame = Vec::new(self.alloc);
        match self.frames.poll_frame(cx, &mut frame, self.limit) {
            Poll::Pending => Poll::Pending,
            Poll::Ready(Err(error)) => Poll::Ready(Some(Err(error))),
            Poll::Ready(Ok(FrameAnswer::Frame)) => Poll::Ready(Some(Ok(frame))),
            Poll::Ready(Ok(FrameAnswer::End)) => {
                self.is_ended = true;
                Poll::Ready(None)
            }
            Poll::Ready(Ok(FrameAnswer::TooLong(_))) => {
                self.is_ended = true;
                Poll::Ready(Some(Err(PipeError::Io(ErrorKind::InvalidData.into()))))
            }
            Poll::Ready(Ok(FrameAnswer::Truncated)) => {
                self.is_ended = true;
                Poll::Ready(Some(Err(PipeError::Io(ErrorKind::UnexpectedEof.into()))))
            }
        }
    }
}

impl<R: Debug> Debug for FrameStream<R> {
    fn fmt<O: fmt::Write>(&self, f: &mut Formatter<O>) -> fmt::Result {
        f.debug_struct("FrameStream")
            .field("frames", &self.frames)
            .field("limit", &self.limit)
            .field("ended", &self.is_ended)
            .finish()
    }
}
