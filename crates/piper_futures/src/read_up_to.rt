//! A number of bytes.
ghost use Rattle.std.specs.Prelude.{◌≤◌, length};
ghost use Rattle.futures.specs.Poll.{IfReady, OnPending};
ghost use Rattle.futures.specs.Task.{Covers, Keeps};
ghost use Rattle.piper_futures.specs.Polling.{Needs, Waits};
ghost use Rattle.piper_futures.specs.Reading.{GivesExact, LacksSome, StartsReadingUpTo, WantsMore, exact_ends};

use crate::debug::gathering;
use crate::failed::Failed;
use futures::Future;
use futures::task::{Context, Poll};
use piper::io::AsyncBufRead;
use piper_lines::fill_up;
use std::fmt::{self, Debug, Formatter};

/// The future of [`read_exact`].
#[derive(Drop)]
pub struct ReadExact<R> {
    state: Option<(R, Vec<u8>)>,
    size: usize,
}

/// Appends bytes of the reader to `bytes`, until `bytes` has `size` bytes, with those that it had
/// before.
///
/// Requires: `bytes` has at most `size` bytes.
/// Returns: a future of the reader and `bytes`, which has fewer than `size` only at the reader's
/// end.
/// Pending: the reader's call is pending.
/// Errors: the reader's own; or `Memory`, before the bytes are taken that lack room. `left` has the
/// reader, and `bytes` with all that was taken.
/// Cancel safety: a dropped future drops `bytes`, with all that was taken.
pub fn read_exact<R: AsyncBufRead + Drop>(reader: R, bytes: Vec<u8>, size: usize) -> ReadExact<R>
    requires { length bytes.items ≤ size }
    ensures { StartsReadingUpTo result reader bytes size }
{
    ReadExact {
        state: Some((reader, bytes)),
        size,
    }
}

impl<R: AsyncBufRead + Drop> Future for ReadExact<R> {
    type Output = Result<(R, Vec<u8>), Failed<(R, Vec<u8>)>>;

    ghost can_poll = { WantsMore };

    ghost needs = { λ future. Needs R.needs (exact_ends future) };

    ghost gives = { GivesExact R.taken R.known R.saw R.knows_end R.woken R.fails };

    fn poll(&mut self, cx: &mut Context<'_>) -> Poll<Self::Output>
        requires { WantsMore self.old }
        ensures value { IfReady result
            (GivesExact R.taken R.known R.saw R.knows_end R.woken R.fails self.old) }
        ensures again { OnPending result (WantsMore self.new) }
        ensures same { OnPending result ((x : _) →
            GivesExact R.taken R.known R.saw R.knows_end R.woken R.fails self.new x
            → GivesExact R.taken R.known R.saw R.knows_end R.woken R.fails self.old x) }
        ensures registered { OnPending result (Covers cx.new (Needs R.needs (exact_ends self.new))) }
        ensures waits { OnPending result (Waits R.waits (exact_ends self.new) cx.new
            × LacksSome self.new) }
        ensures kept { Keeps cx.old cx.new }
    {
        let Some((reader, bytes)) = &mut self.state else {
            unreachable!()
        };
        match fill_up(reader, cx, bytes, self.size) {
            Poll::Pending => Poll::Pending,
            Poll::Ready(Ok(_)) => Poll::Ready(Ok(self.state.take().unwrap())),
            Poll::Ready(Err(error)) => {
                let left = self.state.take().unwrap();
                Poll::Ready(Err(Failed { left, error }))
            }
        }
    }
}

impl<R: Debug> Debug for ReadExact<R> {
    fn fmt<O: fmt::Write>(&self, f: &mut Formatter<O>) -> fmt::Result {
        gathering(f, "ReadExact", &self.state)
    }
}
