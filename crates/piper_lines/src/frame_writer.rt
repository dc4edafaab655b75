//! A frame that is written whole.
ghost use Rattle.std.specs.Prelude.{◌≡◌, ◌↔◌, ◌^◌, ◌<◌, ◌≤◌, [], length, true, Ok, IfOk, IsOk};
ghost use Rattle.futures.specs.Task.{Covers, Keeps};
ghost use Rattle.futures.specs.Poll.{OnPending};
ghost use Rattle.piper_lines.specs.Frame.{frame_bytes};
ghost use Rattle.piper_lines.specs.Header.{usual_header, CanEncode};
ghost use Rattle.piper_lines.specs.Shown.{shown_of};
ghost use Rattle.piper.specs.Polls.{IfReadyErr};
ghost use Rattle.piper_lines.specs.Sends.{Sends};
ghost use Rattle.piper_lines.specs.Stays.{WriterStays};

use crate::header::FrameHeader;
use crate::length_bytes::LengthBytes;
use crate::write_all::{Written, poll_write_both};
use futures::task::{Context, Poll};
use piper::PipeError;
use piper::io::AsyncWrite;
use std::fmt::{self, Debug, Formatter};
use thiserror::Error;

/// The body has more bytes than the header of its frame can report.
#[derive(Clone, Copy, Debug, PartialEq, Eq, Error)]
#[error("a body of more bytes than the header of its frame can encode")]
pub struct BodyTooLong;

/// A frame that is being written: what is left of its length, and of its body.
///
/// In clauses, `left_of` are the bytes that are left.
#[derive(Drop)]
pub struct WriteFrame<'a> {
    header: LengthBytes,
    header_written: usize,
    body: &'a [u8],
    body_written: usize,
    ghost within_header: { header_written ≤ length (shown_of header) },
    ghost within: { body_written ≤ length body.now },
}

impl<'a> WriteFrame<'a> {
    ghost use Rattle.piper_lines.specs.FrameWriter.{left_of};

    /// The frame with this body, none of which is written yet. Its length is four bytes, the most
    /// significant first.
    ///
    /// Requires: the body has fewer than 2^32 bytes.
    pub fn new(body: &'a [u8]) -> WriteFrame<'a>
        requires { length body.now < 2 ^ 32 }
        ensures { left_of result ≡ frame_bytes usual_header body.now }
    {
        WriteFrame::begin(FrameHeader::default(), body)
    }

    /// The frame with this body, whose length is reported in this way.
    ///
    /// Errors: `BodyTooLong` if the header can't report the length.
    pub fn with_header(format: FrameHeader, body: &'a [u8]) -> Result<WriteFrame<'a>, BodyTooLong>
        ensures fits { IsOk result ↔ CanEncode format (length body.now) }
        ensures whole { IfOk result (λ frame. left_of frame ≡ frame_bytes format body.now) }
    {
        if format.can_encode(body.len()) {
            Ok(WriteFrame::begin(format, body))
        } else {
            Err(BodyTooLong)
        }
    }

    fn begin(format: FrameHeader, body: &'a [u8]) -> WriteFrame<'a>
        requires { CanEncode format (length body.now) }
        ensures { left_of result ≡ frame_bytes format body.now }
    {
        WriteFrame {
            header: format.encode(body.len()),
            header_written: 0,
            body,
            body_written: 0,
        }
    }

    /// Writes what is left of the frame, as `poll_write_all` does.
    ///
    /// Returns: whether all of it was counted, or the pipe is closed with some left.
    /// Pending: bytes are left, and the writer's call is pending.
    /// Errors: the writer's own.
    /// Cancel safety: the next poll goes on from where this one ended.
    pub fn poll<W: AsyncWrite>(
        &mut self,
        cx: &mut Context<'_>,
        writer: &mut W,
    ) -> Poll<Result<Written, PipeError>>
        ensures sends { Sends (left_of self.old) (left_of self.new)
            (W.sent writer.old) (W.sent writer.new) (W.saw writer.old) (W.saw writer.new) }
        ensures whole { result ≡ Poll.Ready (Ok Written.Whole) → left_of self.new ≡ [] }
        ensures closed { result ≡ Poll.Ready (Ok Written.Closed) →
            (W.saw writer.new ≡ true) × (0 < length (left_of self.new)) }
        ensures stays { WriterStays W.saw W.woken writer.old writer.new }
        ensures error { IfReadyErr result (W.fails writer.new cx.new) }
        ensures pending { OnPending result (Covers cx.new (W.needs writer.new)
            × W.waits writer.new cx.new × ¬ (W.saw writer.old ≡ true)
            × (0 < length (left_of self.new))) }
        ensures kept { Keeps cx.old cx.new }
    {
        poll_write_both(
            writer,
            cx,
            self.header.as_slice(),
            &mut self.header_written,
            self.body,
            &mut self.body_written,
        )
    }
}

impl Debug for WriteFrame<'_> {
    fn fmt<O: fmt::Write>(&self, f: &mut Formatter<O>) -> fmt::Result {
        f.debug_struct("WriteFrame")
            .field("written", &self.body_written)
            .field("of", &self.body.len())
            .finish()
    }
}
