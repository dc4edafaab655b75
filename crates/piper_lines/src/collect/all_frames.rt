//! All frames of a reader.
ghost use Rattle.std.specs.Prelude.{◌≤◌, ◌++◌, ◌≡◌, ◌⊎◌, length, vec_capacity, vec_len};
ghost use Rattle.futures.specs.Task.{Covers, Keeps};
ghost use Rattle.futures.specs.Poll.{OnPending};
ghost use Rattle.piper_lines.specs.Split.{joined_frames, Adds};
ghost use Rattle.piper_lines.specs.FrameReader.{reader_of, format_of, kept_of, header_of, body_of, skips_of};
ghost use Rattle.piper_lines.specs.Moves.{PassesMoves};
ghost use Rattle.piper_lines.specs.Collected.{EndsFrames};
ghost use Rattle.piper_lines.specs.Refusals.{IsReported, LacksFrameRoom};
ghost use Rattle.piper_lines.specs.Stays.{Pends, ReaderStays, WentOn};
ghost use Rattle.piper.specs.Polls.{IfReadyErr};

use super::{Collected, push};
use crate::frame_reader::{FrameAnswer, Frames};
use crate::gather::MOST_PIECES;
use futures::task::{Context, Poll};
use piper::PipeError;
use piper::io::AsyncBufRead;

/// Appends the bodies of the reader's frames to `out`, up to the reader's end or to a frame whose
/// body has more than `limit` bytes.
///
/// This call takes nothing of such a body. What an earlier call took of it stays kept. The caller
/// can skip the frame and poll again, or ask again with another limit.
///
/// Returns: why it ended.
/// Pending: the reader knows no byte, and its call is pending; or this poll appended 64 frames, or
/// took at least 64 bytes, and asked for another.
/// Errors: the reader's own; or `Memory`, if `out` lacks a place for one more body, or a vector lacks
/// room for the bytes that are known: none of these is taken. `out` and what is kept have all that
/// was taken, except skipped bytes.
/// Cancel safety: the next poll goes on from where this one ended.
pub fn poll_frames<R: AsyncBufRead>(
    frames: &mut Frames<R>,
    cx: &mut Context<'_>,
    out: &mut Vec<Vec<u8>>,
    limit: usize,
) -> Poll<Result<Collected, PipeError>>
    ensures moved { PassesMoves (R.taken (reader_of frames.old)) (R.taken (reader_of frames.new))
        (skips_of frames.old) (skips_of frames.new)
        (joined_frames (format_of frames.old) out.old.items ++ kept_of frames.old)
        (joined_frames (format_of frames.old) out.new.items) (kept_of frames.new) }
    ensures within { Adds (λ body. length body ≤ limit) out.old.items out.new.items }
    ensures ended { EndsFrames (format_of frames.old) result limit
        (header_of frames.new) (body_of frames.old) (body_of frames.new) (skips_of frames.new)
        (R.known (reader_of frames.new)) (R.saw (reader_of frames.new)) }
    ensures error { IfReadyErr result (λ e. IsReported e (R.fails (reader_of frames.new) cx.new)
        (LacksFrameRoom (format_of frames.old) limit 0 0 (header_of frames.new) (body_of frames.new)
        (R.known (reader_of frames.new)) ⊎ (vec_capacity out.old ≤ vec_len out.new))) }
    ensures pending { OnPending result (Covers cx.new (R.needs (reader_of frames.new))
        × Pends R.known R.knows_end R.waits (reader_of frames.new)
        (WentOn (length out.old.items) (length out.new.items)
        ⊎ WentOn (length (R.taken (reader_of frames.old)))
        (length (R.taken (reader_of frames.new))))
        cx.new) }
    ensures kept { Keeps cx.old cx.new }
    ensures rest { (format_of frames.new ≡ format_of frames.old)
        × ReaderStays R.knows_end R.woken (reader_of frames.old) (reader_of frames.new) }
{
    for _ in 0..MOST_PIECES {
        if let Err(refused) = out.reserve(1) {
            return Poll::Ready(Err(refused.into()));
        }
        let mut frame = Vec::new(*out.allocator());
        match frames.poll_frame(cx, &mut frame, limit) {
            Poll::Pending => return Poll::Pending,
            Poll::Ready(Err(error)) => return Poll::Ready(Err(error)),
            Poll::Ready(Ok(FrameAnswer::TooLong(size))) => {
                return Poll::Ready(Ok(Collected::UntilTooLong(size)));
            }
            Poll::Ready(Ok(FrameAnswer::Truncated)) => {
                return Poll::Ready(Ok(Collected::Truncated));
            }
            Poll::Ready(Ok(FrameAnswer::End)) => return Poll::Ready(Ok(Collected::ToTheEnd)),
            Poll::Ready(Ok(FrameAnswer::Frame)) => push(out, frame),
        }
    }
    cx.yield_now()
}
