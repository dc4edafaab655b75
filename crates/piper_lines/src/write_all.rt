//! Bytes, written whole to a writer that takes as many as it has room for.
ghost use Rattle.std.specs.Prelude.{◌≡◌, ◌<◌, ◌≤◌, ◌++◌, drop, length, true, Ok};
ghost use Rattle.futures.specs.Task.{Covers, Keeps};
ghost use Rattle.futures.specs.Poll.{OnPending};
ghost use Rattle.piper.specs.Polls.{IfReadyErr};
ghost use Rattle.piper_lines.specs.Sends.{Sends};
ghost use Rattle.piper_lines.specs.Stays.{WriterStays};

use futures::task::{Context, Poll};
use piper::PipeError;
use piper::io::AsyncWrite;

/// How a write of bytes ended.
#[derive(Clone, Copy, Debug, PartialEq, Eq)]
pub enum Written {
    /// All of them were counted by the writer.
    Whole,
    /// The writer's pipe is closed, and some of them are left.
    Closed,
}

/// Writes `bytes` from `written` on, and adds to `written` how many the writer counted.
///
/// It asks for no memory of its own. As long as the writer has not seen its pipe closed, all
/// counted bytes are published; in the poll that sees it closed some may be lost, even if the
/// answer is `Whole`.
///
/// Requires: `written` is at most the length of `bytes`.
/// Returns: whether all were counted, or the pipe is closed with some left.
/// Pending: bytes are left, and the writer's call is pending.
/// Errors: the writer's own.
/// Cancel safety: the next poll goes on from `written`.
pub fn poll_write_all<W: AsyncWrite>(
    writer: &mut W,
    cx: &mut Context<'_>,
    bytes: &[u8],
    written: &mut usize,
) -> Poll<Result<Written, PipeError>>
    requires { written.old ≤ length bytes.now }
    ensures within { (written.new ≤ length bytes.now)
        × (result ≡ Poll.Ready (Ok Written.Whole) → written.new ≡ length bytes.now) }
    ensures sends { Sends (drop written.old bytes.now) (drop written.new bytes.now)
        (W.sent writer.old) (W.sent writer.new) (W.saw writer.old) (W.saw writer.new) }
    ensures closed { result ≡ Poll.Ready (Ok Written.Closed) →
        (W.saw writer.new ≡ true) × (written.new < length bytes.now) }
    ensures stays { WriterStays W.saw W.woken writer.old writer.new }
    ensures error { IfReadyErr result (W.fails writer.new cx.new) }
    ensures pending { OnPending result (Covers cx.new (W.needs writer.new)
        × W.waits writer.new cx.new
        × (written.new < length bytes.now) × ¬ (W.saw writer.old ≡ true)) }
    ensures kept { Keeps cx.old cx.new }
{
    while *written < bytes.len() {
        match writer.poll_write(cx, &bytes[*written..]) {
            Poll::Pending => return Poll::Pending,
            Poll::Ready(Err(error)) => return Poll::Ready(Err(error)),
            Poll::Ready(Ok(0)) => return Poll::Ready(Ok(Written::Closed)),
            Poll::Ready(Ok(n)) => *written += n,
        }
    }
    Poll::Ready(Ok(Written::Whole))
}

// Writes what is left of both slices, one after the other, as `poll_write_all` does.
pub(crate) fn poll_write_both<W: AsyncWrite>(
    writer: &mut W,
    cx: &mut Context<'_>,
    front: &[u8],
    front_written: &mut usize,
    back: &[u8],
    back_written: &mut usize,
) -> Poll<Result<Written, PipeError>>
    requires front { front_written.old ≤ length front.now }
    requires back { back_written.old ≤ length back.now }
    ensures within_front { front_written.new ≤ length front.now }
    ensures within_back { back_written.new ≤ length back.now }
    ensures sends { Sends (drop front_written.old front.now ++ drop back_written.old back.now)
        (drop front_written.new front.now ++ drop back_written.new back.now)
        (W.sent writer.old) (W.sent writer.new) (W.saw writer.old) (W.saw writer.new) }
    ensures whole { result ≡ Poll.Ready (Ok Written.Whole) →
        (front_written.new ≡ length front.now) × (back_written.new ≡ length back.now) }
    ensures closed { result ≡ Poll.Ready (Ok Written.Closed) → (W.saw writer.new ≡ true)
        × (0 < length (drop front_written.new front.now ++ drop back_written.new back.now)) }
    ensures stays { WriterStays W.saw W.woken writer.old writer.new }
    ensures error { IfReadyErr result (W.fails writer.new cx.new) }
    ensures pending { OnPending result (Covers cx.new (W.needs writer.new)
        × W.waits writer.new cx.new × ¬ (W.saw writer.old ≡ true)
        × (0 < length (drop front_written.new front.now ++ drop back_written.new back.now))) }
    ensures kept { Keeps cx.old cx.new }
{
    match poll_write_all(writer, cx, front, front_written) {
        Poll::Ready(Ok(Written::Whole)) => poll_write_all(writer, cx, back, back_written),
        unfinished => unfinished,
    }
}
