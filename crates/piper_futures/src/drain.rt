//! All bytes of a reader, moved into a writer of std.
ghost use Rattle.std.specs.Prelude.{◌≡◌, ◌<◌, ◌⊎◌, length, IsSome, Ok};
ghost use Rattle.futures.specs.Task.{Covers, Keeps};
ghost use Rattle.futures.specs.Poll.{IfReady, OnPending};
ghost use Rattle.piper.specs.Polls.{IfReadyErr};
ghost use Rattle.piper_lines.specs.AtEnd.{AtEnd};
ghost use Rattle.piper_lines.specs.Stays.{Pends, ReaderStays, WentOn};
ghost use Rattle.piper_futures.specs.Draining.{DrainsOn, GivesDrained, StartsDraining, drain_ends};
ghost use Rattle.piper_futures.specs.Moving.{IsOfWrite};
ghost use Rattle.piper_futures.specs.Polling.{Needs, WaitsOrTook};

use crate::debug::moving;
use crate::failed::Failed;
use futures::Future;
use futures::task::{Context, Poll};
use piper::PipeError;
use piper::io::AsyncBufRead;
use piper::like::StdWriter;
use piper_lines::MOST_PIECES;
use std::fmt::{self, Debug, Formatter};
use std::io::{self, Write};

/// The future of [`drain_into`].
#[derive(Drop)]
pub struct Draining<R, D> {
    state: Option<(R, D)>,
}

/// Moves all bytes of the reader into a writer of std, up to the reader's end.
///
/// Each write blocks the thread. `dest` is not flushed (tested, not proved).
///
/// Returns: a future of the reader and `dest`.
/// Pending: the reader knows no byte, and its call is pending; or this poll
/// moved at least 64 bytes, and asked for another.
/// Errors: the reader's own; that of `dest`; or one of the kind `WriteZero`, if `dest` takes none
/// of some bytes. `left` has the reader and `dest`.
/// Cancel safety: a byte is taken only once it was written: a dropped future loses none.
pub fn drain_into<R: AsyncBufRead + Drop, D: Write + Drop>(reader: R, dest: D) -> Draining<R, D>
    ensures { StartsDraining result reader dest }
{
    Draining {
        state: Some((reader, dest)),
    }
}

impl<R: AsyncBufRead + Drop, D: Write + Drop> Future for Draining<R, D> {
    type Output = Result<(R, D), Failed<(R, D)>>;

    ghost can_poll = { λ future. IsSome (drain_ends future) };

    ghost needs = { λ future. Needs R.needs (drain_ends future) };

    ghost gives = { GivesDrained R.taken R.known R.saw R.knows_end R.woken R.fails D.contents };

    fn poll(&mut self, cx: &mut Context<'_>) -> Poll<Self::Output>
        requires { IsSome (drain_ends self.old) }
        ensures value { IfReady result
            (GivesDrained R.taken R.known R.saw R.knows_end R.woken R.fails D.contents self.old) }
        ensures again { OnPending result (IsSome (drain_ends self.new)) }
        ensures same { OnPending result ((x : _) →
            GivesDrained R.taken R.known R.saw R.knows_end R.woken R.fails D.contents self.new x
            → GivesDrained R.taken R.known R.saw R.knows_end R.woken R.fails D.contents self.old x) }
        ensures registered { OnPending result (Covers cx.new (Needs R.needs (drain_ends self.new))) }
        ensures waits { OnPending result (WaitsOrTook R.taken R.known R.knows_end R.waits
            (drain_ends self.old) (drain_ends self.new) cx.new) }
        ensures kept { Keeps cx.old cx.new }
    {
        let Some((reader, dest)) = &mut self.state else {
            unreachable!()
        };
        match poll_drain_into(reader, cx, dest) {
            Poll::Pending => Poll::Pending,
            Poll::Ready(Ok(())) => Poll::Ready(Ok(self.state.take().unwrap())),
            Poll::Ready(Err(error)) => {
                let left = self.state.take().unwrap();
                Poll::Ready(Err(Failed { left, error }))
            }
        }
    }
}

/// Moves the bytes of the reader into a writer of std, up to the reader's end.
///
/// Returns: `Ok(())` at the reader's end. `dest` is not flushed (tested, not proved).
/// Pending: the reader knows no byte, and its call is pending; or this poll
/// moved at least 64 bytes, and asked for another.
/// Errors: the reader's own; that of `dest`; or one of the kind `WriteZero`, if `dest` takes none
/// of some bytes.
/// Cancel safety: a byte is taken only once it was written, and the next poll goes on from there.
pub fn poll_drain_into<R: AsyncBufRead, D: Write>(
    reader: &mut R,
    cx: &mut Context<'_>,
    dest: &mut D,
) -> Poll<Result<(), PipeError>>
    ensures drains { DrainsOn (R.taken reader.old) (R.taken reader.new)
        (D.contents dest.old) (D.contents dest.new) }
    ensures ended { result ≡ Poll.Ready (Ok (record {})) →
        AtEnd (R.known reader.new) (R.saw reader.new) × R.ended reader.new }
    ensures error { IfReadyErr result (λ e. R.fails reader.new cx.new e
        ⊎ (IsOfWrite e × (0 < length (R.known reader.new)))) }
    ensures stays { ReaderStays R.knows_end R.woken reader.old reader.new }
    ensures pending { OnPending result (Covers cx.new (R.needs reader.new)
        × Pends R.known R.knows_end R.waits reader.new
        (WentOn (length (R.taken reader.old)) (length (R.taken reader.new))) cx.new) }
    ensures kept { Keeps cx.old cx.new }
{
    for _ in 0..MOST_PIECES {
        let piece = match reader.poll_fill_buf(cx) {
            Poll::Pending => return Poll::Pending,
            Poll::Ready(Err(error)) => return Poll::Ready(Err(error)),
            Poll::Ready(Ok(piece)) => piece,
        };
        if piece.is_empty() {
            return Poll::Ready(Ok(()));
        }
        match dest.write_once(piece) {
            Err(error) => return Poll::Ready(Err(PipeError::Io(error))),
            Ok(0) => return Poll::Ready(Err(PipeError::Io(io::ErrorKind::WriteZero.into()))),
            Ok(count) => reader.consume(count),
        }
    }
    cx.yield_now()
}

impl<R: Debug, D> Debug for Draining<R, D> {
    fn fmt<O: fmt::Write>(&self, f: &mut Formatter<O>) -> fmt::Result {
        moving(f, "Draining", &self.state)
    }
}
