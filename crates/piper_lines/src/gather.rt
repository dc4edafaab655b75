//! Bytes, gathered from a reader up to a number of them, and bytes that are passed over.
ghost use Rattle.std.specs.Prelude.{◌≡◌, ◌<◌, ◌≤◌, length, true, false, Ok, vec_capacity};
ghost use Rattle.futures.specs.Task.{Covers, Keeps};
ghost use Rattle.futures.specs.Poll.{OnPending};
ghost use Rattle.piper_lines.specs.AtEnd.{AtEnd};
ghost use Rattle.piper_lines.specs.Moves.{Grows, Passes};
ghost use Rattle.piper_lines.specs.Refusals.{IsReported, LacksRoom};
ghost use Rattle.piper_lines.specs.Stays.{Pends, ReaderStays, WaitsForBytes, WentOn};
ghost use Rattle.piper.specs.Polls.{IfReadyErr};

use futures::task::{Context, Poll};
use piper::PipeError;
use piper::io::AsyncBufRead;

/// How many pieces a poll takes at most, before other tasks get their turn. A piece is what a
/// reader lends at once, or a line, or a frame.
pub const MOST_PIECES: u32 = 64;

/// Takes bytes from the reader to the end of `gathered`, until that has `size` bytes.
///
/// Requires: `gathered` has at most `size` bytes.
/// Returns: `true` once there are `size` bytes; `false` at the reader's end, with fewer.
/// Pending: there are fewer than `size` bytes, the reader knows none, and its call is pending.
/// Errors: the reader's own; or `Memory`, before the bytes are taken that lack room.
/// Cancel safety: what was taken is in `gathered`, and the next poll goes on from there.
pub fn fill_up<R: AsyncBufRead>(
    reader: &mut R,
    cx: &mut Context<'_>,
    gathered: &mut Vec<u8>,
    size: usize,
) -> Poll<Result<bool, PipeError>>
    requires { length gathered.old.items ≤ size }
    ensures grown { Grows (R.taken reader.old) (R.taken reader.new)
        gathered.old.items gathered.new.items }
    ensures within { (length gathered.new.items ≤ size)
        × (result ≡ Poll.Ready (Ok true) → length gathered.new.items ≡ size) }
    ensures ended { result ≡ Poll.Ready (Ok false) → (length gathered.new.items < size)
        × AtEnd (R.known reader.new) (R.saw reader.new) × R.ended reader.new }
    ensures after { R.ended reader.old → R.ended reader.new
        × (gathered.new.items ≡ gathered.old.items) × OnPending result ⊥ }
    ensures error { IfReadyErr result (λ e. IsReported e (R.fails reader.new cx.new)
        (LacksRoom size (vec_capacity gathered.old) gathered.new.items (R.known reader.new))) }
    ensures pending { OnPending result (Covers cx.new (R.needs reader.new)
        × WaitsForBytes R.known R.knows_end R.waits reader.new cx.new
        × (length gathered.new.items < size)) }
    ensures rest { Keeps cx.old cx.new × ReaderStays R.knows_end R.woken reader.old reader.new
        × (vec_capacity gathered.old ≤ vec_capacity gathered.new) }
{
    while gathered.len() < size {
        let lent = match reader.poll_fill_buf(cx) {
            Poll::Pending => return Poll::Pending,
            Poll::Ready(Err(error)) => return Poll::Ready(Err(error)),
            Poll::Ready(Ok(lent)) => lent,
        };
        if lent.is_empty() {
            return Poll::Ready(Ok(false));
        }
        let count = lent.len().min(size - gathered.len());
        if let Err(refused) = gathered.extend_from_slice(&lent[..count]) {
            return Poll::Ready(Err(refused.into()));
        }
        reader.consume(count);
    }
    Poll::Ready(Ok(true))
}

// Takes `left` bytes from the reader and drops them; false at the end of the reader. After many
// pieces it asks for another poll.
pub(crate) fn pass_over<R: AsyncBufRead>(
    reader: &mut R,
    cx: &mut Context<'_>,
    left: &mut usize,
) -> Poll<Result<bool, PipeError>>
    ensures passed { Passes (R.taken reader.old) (R.taken reader.new) left.old left.new }
    ensures done { result ≡ Poll.Ready (Ok true) → left.new ≡ 0 }
    ensures ended { result ≡ Poll.Ready (Ok false) →
        (0 < left.new) × AtEnd (R.known reader.new) (R.saw reader.new) }
    ensures ends { result ≡ Poll.Ready (Ok false) → R.ended reader.new }
    ensures none { left.old ≡ 0 →
        (reader.new ≡ reader.old) × (result ≡ Poll.Ready (Ok true)) }
    ensures error { IfReadyErr result (R.fails reader.new cx.new) }
    ensures stays { ReaderStays R.knows_end R.woken reader.old reader.new }
    ensures pends { OnPending result (Pends R.known R.knows_end R.waits reader.new
        (WentOn (length (R.taken reader.old)) (length (R.taken reader.new))) cx.new) }
    ensures covered { OnPending result (Covers cx.new (R.needs reader.new)) }
    ensures kept { Keeps cx.old cx.new }
{
    for _ in 0..MOST_PIECES {
        if *left == 0 {
            return Poll::Ready(Ok(true));
        }
        let lent = match reader.poll_fill_buf(cx) {
            Poll::Pending => return Poll::Pending,
            Poll::Ready(Err(error)) => return Poll::Ready(Err(error)),
            Poll::Ready(Ok(lent)) => lent,
        };
        if lent.is_empty() {
            return Poll::Ready(Ok(false));
        }
        let count = lent.len().min(*left);
        reader.consume(count);
        *left -= count;
    }
    cx.yield_now()
}
