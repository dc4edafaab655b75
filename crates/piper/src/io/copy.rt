//! A copy from any reader that lends to any writer.
ghost use Rattle.std.specs.Prelude.{◌≡◌, ◌⊎◌, [], true, Ok};
ghost use Rattle.futures.specs.Task.{Covers, Keeps};
ghost use Rattle.futures.specs.Poll.{OnPending};
ghost use Rattle.piper.specs.Polls.{Carries, CopyPends, IfReadyErr};

use super::{AsyncBufRead, AsyncWrite};
use crate::error::PipeResult;
use futures::task::{Context, Poll};

/// How many pieces a poll carries at most, so that other tasks get their turn.
const MOST_PIECES: u32 = 64;

/// Why a copy ended.
#[derive(Clone, Copy, Debug, PartialEq, Eq)]
pub enum Copied {
    /// All that the reader gave was taken.
    ToTheEnd,
    /// The writer's pipe is closed. The reader may have more.
    UntilClosed,
}

/// Copies bytes from the reader to the writer, in order.
///
/// It polls the reader first, and the writer only if the reader lends a byte (not proved). As long
/// as no byte comes, it doesn't see that the writer's pipe is closed. The copy holds no bytes of its
/// own: the next poll goes on from where this one ended.
///
/// Returns: `ToTheEnd` only at the reader's end; `UntilClosed` only if the writer saw its pipe
/// closed. All bytes that were taken are published, unless the writer saw its pipe closed in this
/// poll. If it did, the last bytes that were taken may be lost, whatever the poll returns. Once the
/// writer saw its pipe closed, a poll takes no byte, and returns `UntilClosed` as soon as the reader
/// lends one (the answer is not proved). The copy neither flushes nor closes the writer (not proved).
/// Pending: a call of the reader or of the writer is pending: the task is registered there, or that
/// call has asked for another poll. Or this poll copied at least 64 bytes, and asked for another. If
/// the reader was told of the end and the copy is pending, the writer wakes its task, or the copy
/// has asked for another poll.
/// Errors: that of the reader or of the writer.
pub fn poll_copy<R: AsyncBufRead, W: AsyncWrite>(
    cx: &mut Context<'_>,
    reader: &mut R,
    writer: &mut W,
) -> Poll<PipeResult<Copied>>
    ensures carried { Carries (R.taken reader.old) (R.taken reader.new)
        (W.sent writer.old) (W.sent writer.new) (W.saw writer.new) }
    ensures over { W.saw writer.old ≡ true →
        (R.taken reader.new ≡ R.taken reader.old) × (W.sent writer.new ≡ W.sent writer.old) }
    ensures stays { (W.saw writer.old ≡ true → W.saw writer.new ≡ true)
        × (R.knows_end reader.new ≡ R.knows_end reader.old)
        × (R.woken reader.old → R.woken reader.new)
        × (W.woken writer.old → W.woken writer.new) }
    ensures ends { (result ≡ Poll.Ready (Ok Copied.ToTheEnd) →
        (R.known reader.new ≡ []) × (R.saw reader.new ≡ true) × R.ended reader.new)
        × (result ≡ Poll.Ready (Ok Copied.UntilClosed) → W.saw writer.new ≡ true) }
    ensures error { IfReadyErr result (λ e.
        R.fails reader.new cx.new e ⊎ W.fails writer.new cx.new e) }
    ensures pending { OnPending result (
        (R.knows_end reader.new ≡ true → Covers cx.new (W.needs writer.new))
        × (Covers cx.new (R.needs reader.new) ⊎ Covers cx.new (W.needs writer.new))
        × CopyPends (R.waits reader.new cx.new) (W.waits writer.new cx.new)
        (R.taken reader.old) (R.taken reader.new) cx.new) }
    ensures kept { Keeps cx.old cx.new }
{
    for _ in 0..MOST_PIECES {
        let piece = match reader.poll_fill_buf(cx) {
            Poll::Pending => return Poll::Pending,
            Poll::Ready(Err(error)) => return Poll::Ready(Err(error)),
            Poll::Ready(Ok(piece)) => piece,
        };
        if piece.is_empty() {
            return Poll::Ready(Ok(Copied::ToTheEnd));
        }
        match writer.poll_write(cx, piece) {
            Poll::Pending => return Poll::Pending,
            Poll::Ready(Err(error)) => return Poll::Ready(Err(error)),
            Poll::Ready(Ok(0)) => return Poll::Ready(Ok(Copied::UntilClosed)),
            Poll::Ready(Ok(n)) => reader.consume(n),
        }
    }
    cx.yield_now()
}
