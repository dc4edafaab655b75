//! What a reader has now.
ghost use Rattle.std.specs.Prelude.{IsSome};
ghost use Rattle.futures.specs.Poll.{IfReady, OnPending};
ghost use Rattle.futures.specs.Task.{Covers, Keeps};
ghost use Rattle.piper_futures.specs.Polling.{Needs, Waits};
ghost use Rattle.piper_futures.specs.Reading.{GivesOnce, StartsReading, once_ends};

use crate::debug::gathering;
use crate::failed::Failed;
use futures::Future;
use futures::task::{Context, Poll};
use piper::io::AsyncRead;
use std::fmt::{self, Debug, Formatter};

/// The future of [`read`].
#[derive(Drop)]
pub struct ReadOnce<R> {
    state: Option<(R, Vec<u8>)>,
}

/// Waits for a byte, and puts what came at the front of `places`.
///
/// Returns: a future of the reader, `places`, and how many bytes came. If there are places, 0 says
/// that the reader saw the end. It is not proved that `places` stays as long as it was, nor that a
/// pipe's reader waits for a byte even if there are no places.
/// Pending: the reader's call is pending.
/// Errors: the reader's own. `left` has the reader, and `places` as they were.
/// Cancel safety: a dropped future has taken no byte.
pub fn read<R: AsyncRead + Drop>(reader: R, places: Vec<u8>) -> ReadOnce<R>
    ensures { StartsReading result reader places }
{
    ReadOnce {
        state: Some((reader, places)),
    }
}

impl<R: AsyncRead + Drop> Future for ReadOnce<R> {
    type Output = Result<(R, Vec<u8>, usize), Failed<(R, Vec<u8>)>>;

    ghost can_poll = { λ future. IsSome (once_ends future) };

    ghost needs = { λ future. Needs R.needs (once_ends future) };

    ghost gives = { GivesOnce R.taken R.saw R.knows_end R.woken R.fails };

    fn poll(&mut self, cx: &mut Context<'_>) -> Poll<Self::Output>
        requires { IsSome (once_ends self.old) }
        ensures value { IfReady result
            (GivesOnce R.taken R.saw R.knows_end R.woken R.fails self.old) }
        ensures again { OnPending result (IsSome (once_ends self.new)) }
        ensures same { OnPending result ((x : _) →
            GivesOnce R.taken R.saw R.knows_end R.woken R.fails self.new x
            → GivesOnce R.taken R.saw R.knows_end R.woken R.fails self.old x) }
        ensures registered { OnPending result (Covers cx.new (Needs R.needs (once_ends self.new))) }
        ensures waits { OnPending result (Waits R.waits (once_ends self.new) cx.new) }
        ensures kept { Keeps cx.old cx.new }
    {
        let Some((reader, places)) = &mut self.state else {
            unreachable!()
        };
        match reader.poll_read(cx, places.as_mut_slice()) {
            Poll::Pending => Poll::Pending,
            Poll::Ready(Ok(count)) => {
                let (reader, places) = self.state.take().unwrap();
                Poll::Ready(Ok((reader, places, count)))
            }
            Poll::Ready(Err(error)) => {
                let left = self.state.take().unwrap();
                Poll::Ready(Err(Failed { left, error }))
            }
        }
    }
}

impl<R: Debug> Debug for ReadOnce<R> {
    fn fmt<O: fmt::Write>(&self, f: &mut Formatter<O>) -> fmt::Result {
        gathering(f, "ReadOnce", &self.state)
    }
}
