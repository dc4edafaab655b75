//! Bytes through a delimiter.
ghost use Rattle.std.specs.Prelude.{◌≡◌, ◌<◌, ◌≤◌, length, take, vec_capacity, Ok, true, false, IsSome, MatchBool};
ghost use Rattle.futures.specs.Task.{Covers, Keeps};
ghost use Rattle.futures.specs.Poll.{IfReady, OnPending};
ghost use Rattle.piper.specs.Polls.{IfReadyErr};
ghost use Rattle.piper_lines.specs.Refusals.{IsReported};
ghost use Rattle.piper_lines.specs.Stays.{Pends, ReaderStays, WentOn};
ghost use Rattle.piper_futures.specs.Polling.{Needs, WaitsOrTook};
ghost use Rattle.piper_futures.specs.Reading.{LacksSpace};
ghost use Rattle.piper_futures.specs.Until.{GivesThrough, IsThrough, Lacks, Reaches, StartsReadingThrough, until_ends};

use crate::debug::gathering;
use crate::failed::Failed;
use futures::Future;
use futures::task::{Context, Poll};
use memchr::memchr;
use piper::PipeError;
use piper::io::AsyncBufRead;
use piper_lines::MOST_PIECES;
use std::fmt::{self, Debug, Formatter};

/// The future of [`read_until`].
#[derive(Drop)]
pub struct ReadUntil<R> {
    state: Option<(R, Vec<u8>)>,
    byte: u8,
}

/// Appends bytes of the reader to `bytes`, through the first that is `byte`, or up to the reader's
/// end.
///
/// Nothing bounds how many bytes come: the lines of `piper_lines` have a limit.
///
/// Returns: a future of the reader and `bytes`.
/// Pending: the reader knows no byte, and its call is pending; or this poll
/// took at least 64 bytes, and asked for another.
/// Errors: the reader's own; or `Memory`, before the bytes are taken that lack room. `left` has the
/// reader, and `bytes` with all that was taken.
/// Cancel safety: a dropped future drops `bytes`, with all that was taken.
pub fn read_until<R: AsyncBufRead + Drop>(reader: R, byte: u8, bytes: Vec<u8>) -> ReadUntil<R>
    ensures { StartsReadingThrough result reader byte bytes }
{
    ReadUntil {
        state: Some((reader, bytes)),
        byte,
    }
}

impl<R: AsyncBufRead + Drop> Future for ReadUntil<R> {
    type Output = Result<(R, Vec<u8>), Failed<(R, Vec<u8>)>>;

    ghost can_poll = { λ future. IsSome (until_ends future) };

    ghost needs = { λ future. Needs R.needs (until_ends future) };

    ghost gives = { GivesThrough R.taken R.known R.saw R.knows_end R.woken R.fails };

    fn poll(&mut self, cx: &mut Context<'_>) -> Poll<Self::Output>
        requires { IsSome (until_ends self.old) }
        ensures value { IfReady result
            (GivesThrough R.taken R.known R.saw R.knows_end R.woken R.fails self.old) }
        ensures again { OnPending result (IsSome (until_ends self.new)) }
        ensures same { OnPending result ((x : _) →
            GivesThrough R.taken R.known R.saw R.knows_end R.woken R.fails self.new x
            → GivesThrough R.taken R.known R.saw R.knows_end R.woken R.fails self.old x) }
        ensures registered { OnPending result (Covers cx.new (Needs R.needs (until_ends self.new))) }
        ensures waits { OnPending result (WaitsOrTook R.taken R.known R.knows_end R.waits
            (until_ends self.old) (until_ends self.new) cx.new) }
        ensures kept { Keeps cx.old cx.new }
    {
        let Some((reader, bytes)) = &mut self.state else {
            unreachable!()
        };
        match poll_read_until(reader, cx, self.byte, bytes) {
            Poll::Pending => Poll::Pending,
            Poll::Ready(Ok(_)) => Poll::Ready(Ok(self.state.take().unwrap())),
            Poll::Ready(Err(error)) => {
                let left = self.state.take().unwrap();
                Poll::Ready(Err(Failed { left, error }))
            }
        }
    }
}

/// Appends bytes of the reader to `bytes`, through the first that is `byte`, or up to the reader's
/// end.
///
/// Returns: `true` after a `byte`, `false` at the reader's end.
/// Pending: the reader knows no byte, and its call is pending; or this poll
/// took at least 64 bytes, and asked for another.
/// Errors: the reader's own; or `Memory`, before the bytes are taken that lack room.
/// Cancel safety: what was taken is in `bytes`, and the next poll goes on from there.
pub fn poll_read_until<R: AsyncBufRead>(
    reader: &mut R,
    cx: &mut Context<'_>,
    byte: u8,
    bytes: &mut Vec<u8>,
) -> Poll<Result<bool, PipeError>>
    ensures reaches { Reaches result byte (R.taken reader.old) (R.taken reader.new)
        bytes.old.items bytes.new.items (R.known reader.new) (R.saw reader.new) }
    ensures ends { result ≡ Poll.Ready (Ok false) → R.ended reader.new }
    ensures room { vec_capacity bytes.old ≤ vec_capacity bytes.new }
    ensures error { IfReadyErr result (λ e. IsReported e (R.fails reader.new cx.new)
        (LacksSpace (vec_capacity bytes.old) bytes.new.items (R.known reader.new))) }
    ensures stays { ReaderStays R.knows_end R.woken reader.old reader.new }
    ensures pending { OnPending result (Covers cx.new (R.needs reader.new)
        × Pends R.known R.knows_end R.waits reader.new
        (WentOn (length (R.taken reader.old)) (length (R.taken reader.new))) cx.new) }
    ensures kept { Keeps cx.old cx.new }
{
    for _ in 0..MOST_PIECES {
        let piece = match reader.poll_fill_buf(cx) {
            Poll::Pending => return Poll::Pending,
            Poll::Ready(Err(error)) => return Poll::Ready(Err(error)),
            Poll::Ready(Ok(piece)) => piece,
        };
        if piece.is_empty() {
            return Poll::Ready(Ok(false));
        }
        let (count, is_found) = through(byte, piece);
        if let Err(refused) = bytes.extend_from_slice(&piece[..count]) {
            return Poll::Ready(Err(refused.into()));
        }
        reader.consume(count);
        if is_found {
            return Poll::Ready(Ok(true));
        }
    }
    cx.yield_now()
}

// How many bytes there are through the first that is `byte` and that there is one, or all of them.
fn through(byte: u8, bytes: &[u8]) -> (usize, bool)
    ensures within { result.0 ≤ length bytes.now }
    ensures some { 0 < length bytes.now → 0 < result.0 }
    ensures through { MatchBool result.1 (IsThrough byte (take result.0 bytes.now))
        (Lacks byte (take result.0 bytes.now)) }
{
    match memchr(byte, bytes) {
        Some(before) => (before + 1, true),
        None => (bytes.len(), false),
    }
}

impl<R: Debug> Debug for ReadUntil<R> {
    fn fmt<O: fmt::Write>(&self, f: &mut Formatter<O>) -> fmt::Result {
        gathering(f, "ReadUntil", &self.state)
    }
}
