//! All bytes of a reader.
ghost use Rattle.std.specs.Prelude.{◌≡◌, ◌≤◌, length, vec_capacity, Ok, IsSome};
ghost use Rattle.futures.specs.Task.{Covers, Keeps};
ghost use Rattle.futures.specs.Poll.{IfReady, OnPending};
ghost use Rattle.piper.specs.Polls.{IfReadyErr};
ghost use Rattle.piper_lines.specs.AtEnd.{AtEnd};
ghost use Rattle.piper_lines.specs.Moves.{Grows};
ghost use Rattle.piper_lines.specs.Refusals.{IsReported};
ghost use Rattle.piper_lines.specs.Stays.{Pends, ReaderStays, WentOn};
ghost use Rattle.piper_futures.specs.Polling.{Needs, WaitsOrTook};
ghost use Rattle.piper_futures.specs.Reading.{GivesAll, LacksSpace, StartsReadingAll, all_ends};

use crate::debug::gathering;
use crate::failed::Failed;
use futures::Future;
use futures::task::{Context, Poll};
use piper::PipeError;
use piper::io::AsyncBufRead;
use piper_lines::MOST_PIECES;
use std::fmt::{self, Debug, Formatter};

/// The future of [`read_to_end`].
#[derive(Drop)]
pub struct ReadToEnd<R> {
    state: Option<(R, Vec<u8>)>,
}

/// Appends all bytes of the reader to `bytes`, up to its end.
///
/// Returns: a future of the reader and `bytes`.
/// Pending: the reader knows no byte, and its call is pending; or this poll
/// took at least 64 bytes, and asked for another.
/// Errors: the reader's own; or `Memory`, before the bytes are taken that lack room. `left` has the
/// reader, and `bytes` with all that was taken.
/// Cancel safety: a dropped future drops `bytes`, with all that was taken.
pub fn read_to_end<R: AsyncBufRead + Drop>(reader: R, bytes: Vec<u8>) -> ReadToEnd<R>
    ensures { StartsReadingAll result reader bytes }
{
    ReadToEnd {
        state: Some((reader, bytes)),
    }
}

impl<R: AsyncBufRead + Drop> Future for ReadToEnd<R> {
    type Output = Result<(R, Vec<u8>), Failed<(R, Vec<u8>)>>;

    ghost can_poll = { λ future. IsSome (all_ends future) };

    ghost needs = { λ future. Needs R.needs (all_ends future) };

    ghost gives = { GivesAll R.taken R.known R.saw R.knows_end R.woken R.fails };

    fn poll(&mut self, cx: &mut Context<'_>) -> Poll<Self::Output>
        requires { IsSome (all_ends self.old) }
        ensures value { IfReady result
            (GivesAll R.taken R.known R.saw R.knows_end R.woken R.fails self.old) }
        ensures again { OnPending result (IsSome (all_ends self.new)) }
        ensures same { OnPending result ((x : _) →
            GivesAll R.taken R.known R.saw R.knows_end R.woken R.fails self.new x
            → GivesAll R.taken R.known R.saw R.knows_end R.woken R.fails self.old x) }
        ensures registered { OnPending result (Covers cx.new (Needs R.needs (all_ends self.new))) }
        ensures waits { OnPending result (WaitsOrTook R.taken R.known R.knows_end R.waits
            (all_ends self.old) (all_ends self.new) cx.new) }
        ensures kept { Keeps cx.old cx.new }
    {
        let Some((reader, bytes)) = &mut self.state else {
            unreachable!()
        };
        match poll_read_to_end(reader, cx, bytes) {
            Poll::Pending => Poll::Pending,
            Poll::Ready(Ok(())) => Poll::Ready(Ok(self.state.take().unwrap())),
            Poll::Ready(Err(error)) => {
                let left = self.state.take().unwrap();
                Poll::Ready(Err(Failed { left, error }))
            }
        }
    }
}

/// Appends the bytes of the reader to `bytes`, up to its end.
///
/// Returns: `Ok(())` at the reader's end.
/// Pending: the reader knows no byte, and its call is pending; or this poll
/// took at least 64 bytes, and asked for another.
/// Errors: the reader's own; or `Memory`, before the bytes are taken that lack room.
/// Cancel safety: what was taken is in `bytes`, and the next poll goes on from there.
pub fn poll_read_to_end<R: AsyncBufRead>(
    reader: &mut R,
    cx: &mut Context<'_>,
    bytes: &mut Vec<u8>,
) -> Poll<Result<(), PipeError>>
    ensures grown { Grows (R.taken reader.old) (R.taken reader.new)
        bytes.old.items bytes.new.items }
    ensures room { vec_capacity bytes.old ≤ vec_capacity bytes.new }
    ensures ended { result ≡ Poll.Ready (Ok (record {})) →
        AtEnd (R.known reader.new) (R.saw reader.new) × R.ended reader.new }
    ensures error { IfReadyErr result (λ e. IsReported e (R.fails reader.new cx.new)
        (LacksSpace (vec_capacity bytes.old) bytes.new.items (R.known reader.new))) }
    ensures stays { ReaderStays R.knows_end R.woken reader.old reader.new }
    ensures pending { OnPending result (Covers cx.new (R.needs reader.new)
        × Pends R.known R.knows_end R.waits reader.new
        (WentOn (length (R.taken reader.old)) (length (R.taken reader.new))) cx.new) }
    ensures kept { Keeps cx.old cx.new }
{
    for _ in 0..MOST_PIECES {
        let piece = match reader.poll_fill_buf(cx) {
            Poll::Pending => return Poll::Pending,
            Poll::Ready(Err(error)) => return Poll::Ready(Err(error)),
            Poll::Ready(Ok(piece)) => piece,
        };
        if piece.is_empty() {
            return Poll::Ready(Ok(()));
        }
        if let Err(refused) = bytes.extend_from_slice(piece) {
            return Poll::Ready(Err(refused.into()));
        }
        let count = piece.len();
        reader.consume(count);
    }
    cx.yield_now()
}

impl<R: Debug> Debug for ReadToEnd<R> {
    fn fmt<O: fmt::Write>(&self, f: &mut Formatter<O>) -> fmt::Result {
        gathering(f, "ReadToEnd", &self.state)
    }
}
