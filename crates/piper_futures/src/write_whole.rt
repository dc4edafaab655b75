//! Bytes, written whole.
ghost use Rattle.std.specs.Prelude.{IsSomeAnd};
ghost use Rattle.futures.specs.Poll.{IfReady, OnPending};
ghost use Rattle.futures.specs.Task.{Covers, Keeps};
ghost use Rattle.piper_futures.specs.Writing.{GivesWritten, HasLeft, StartsWriting, WritesWithin, write_end};

use crate::failed::Failed;
use futures::Future;
use futures::task::{Context, Poll};
use piper::io::AsyncWrite;
use piper_lines::poll_write_all;
use std::fmt::{self, Debug, Formatter};

/// The future of [`write_all`].
#[derive(Drop)]
pub struct WriteAll<'a, W> {
    writer: Option<W>,
    bytes: &'a [u8],
    written: usize,
}

/// Writes all bytes, in order.
///
/// It asks for no memory of its own. As long as the writer has not seen its pipe closed, all
/// counted bytes are published; in the poll that sees it closed some may be lost.
///
/// Returns: a future of the writer and how many bytes it counted: fewer than all only if its pipe
/// is closed.
/// Pending: the writer's call is pending.
/// Errors: the writer's own. `left` has the writer and how many bytes it counted.
/// Cancel safety: a dropped future has written a front of `bytes`, and doesn't say how many.
pub fn write_all<'a, W: AsyncWrite + Drop>(writer: W, bytes: &'a [u8]) -> WriteAll<'a, W>
    ensures { StartsWriting result writer bytes.now }
{
    WriteAll {
        writer: Some(writer),
        bytes,
        written: 0,
    }
}

impl<W: AsyncWrite + Drop> Future for WriteAll<'_, W> {
    type Output = Result<(W, usize), Failed<(W, usize)>>;

    ghost can_poll = { WritesWithin };

    ghost needs = { λ future s. IsSomeAnd (write_end future) (λ writer. W.needs writer s) };

    ghost gives = { GivesWritten W.sent W.saw W.woken W.fails };

    fn poll(&mut self, cx: &mut Context<'_>) -> Poll<Self::Output>
        requires { WritesWithin self.old }
        ensures value { IfReady result
            (GivesWritten W.sent W.saw W.woken W.fails self.old) }
        ensures again { OnPending result (WritesWithin self.new) }
        ensures left { OnPending result (HasLeft self.new) }
        ensures same { OnPending result ((x : _) →
            GivesWritten W.sent W.saw W.woken W.fails self.new x
            → GivesWritten W.sent W.saw W.woken W.fails self.old x) }
        ensures registered { OnPending result (Covers cx.new (λ s. IsSomeAnd (write_end self.new)
            (λ writer. W.needs writer s))) }
        ensures waits { OnPending result (IsSomeAnd (write_end self.new)
            (λ writer. W.waits writer cx.new)) }
        ensures kept { Keeps cx.old cx.new }
    {
        let Some(writer) = &mut self.writer else {
            unreachable!()
        };
        match poll_write_all(writer, cx, self.bytes, &mut self.written) {
            Poll::Pending => Poll::Pending,
            Poll::Ready(Ok(_)) => {
                let writer = self.writer.take().unwrap();
                Poll::Ready(Ok((writer, self.written)))
            }
            Poll::Ready(Err(error)) => {
                let writer = self.writer.take().unwrap();
                let left = (writer, self.written);
                Poll::Ready(Err(Failed { left, error }))
            }
        }
    }
}

impl<E: Debug> Debug for WriteAll<'_, E> {
    fn fmt<O: fmt::Write>(&self, f: &mut Formatter<O>) -> fmt::Result {
        match &self.writer {
            Some(writer) => f
                .debug_tuple("WriteAll")
                .field(writer)
                .field(&self.written)
                .finish(),
            None => f.write_str("WriteAll"),
        }
    }
}
