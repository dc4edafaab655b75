//! A writer's flush and its close.
ghost use Rattle.std.specs.Prelude.{IsSome, IsSomeAnd};
ghost use Rattle.futures.specs.Poll.{IfReady, OnPending};
ghost use Rattle.futures.specs.Task.{Covers, Keeps};
ghost use Rattle.piper_futures.specs.Writing.{GivesClosed, GivesFlushed, StartsClosing, StartsFlushing, close_end, flush_end};

use crate::failed::Failed;
use futures::Future;
use futures::task::{Context, Poll};
use piper::io::AsyncWrite;

/// The future of [`flush`].
#[derive(Debug, Drop)]
pub struct Flushing<W> {
    writer: Option<W>,
}

/// The future of [`close`].
#[derive(Debug, Drop)]
pub struct Closing<W> {
    writer: Option<W>,
}

/// Waits until what was written is on its way.
///
/// Returns: a future of the writer.
/// Pending: the writer's flush is.
/// Errors: the writer's own. `left` is the writer.
pub fn flush<W: AsyncWrite + Drop>(writer: W) -> Flushing<W>
    ensures { StartsFlushing result writer }
{
    Flushing {
        writer: Some(writer),
    }
}

/// Closes the writer's pipe for good.
///
/// Returns: a future of the writer.
/// Pending: the writer's close is.
/// Errors: the writer's own. `left` is the writer.
/// Cancel safety: a dropped future may not have closed the pipe; the writer's drop does.
pub fn close<W: AsyncWrite + Drop>(writer: W) -> Closing<W>
    ensures { StartsClosing result writer }
{
    Closing {
        writer: Some(writer),
    }
}

impl<W: AsyncWrite + Drop> Future for Flushing<W> {
    type Output = Result<W, Failed<W>>;

    ghost can_poll = { λ future. IsSome (flush_end future) };

    ghost needs = { λ future s. IsSomeAnd (flush_end future) (λ writer. W.needs writer s) };

    ghost gives = { GivesFlushed W.sent W.saw W.woken W.fails W.flushed };

    fn poll(&mut self, cx: &mut Context<'_>) -> Poll<Self::Output>
        requires { IsSome (flush_end self.old) }
        ensures value { IfReady result
            (GivesFlushed W.sent W.saw W.woken W.fails W.flushed self.old) }
        ensures again { OnPending result (IsSome (flush_end self.new)) }
        ensures same { OnPending result ((x : _) →
            GivesFlushed W.sent W.saw W.woken W.fails W.flushed self.new x
            → GivesFlushed W.sent W.saw W.woken W.fails W.flushed self.old x) }
        ensures registered { OnPending result (Covers cx.new (λ s. IsSomeAnd (flush_end self.new)
            (λ writer. W.needs writer s))) }
        ensures waits { OnPending result (IsSomeAnd (flush_end self.new)
            (λ writer. W.waits writer cx.new)) }
        ensures kept { Keeps cx.old cx.new }
    {
        let Some(writer) = &mut self.writer else {
            unreachable!()
        };
        match writer.poll_flush(cx) {
            Poll::Pending => Poll::Pending,
            Poll::Ready(Ok(())) => Poll::Ready(Ok(self.writer.take().unwrap())),
            Poll::Ready(Err(error)) => {
                let left = self.writer.take().unwrap();
                Poll::Ready(Err(Failed { left, error }))
            }
        }
    }
}

impl<W: AsyncWrite + Drop> Future for Closing<W> {
    type Output = Result<W, Failed<W>>;

    ghost can_poll = { λ future. IsSome (close_end future) };

    ghost needs = { λ future s. IsSomeAnd (close_end future) (λ writer. W.needs writer s) };

    ghost gives = { GivesClosed W.sent W.saw W.woken W.fails W.flushed };

    fn poll(&mut self, cx: &mut Context<'_>) -> Poll<Self::Output>
        requires { IsSome (close_end self.old) }
        ensures value { IfReady result
            (GivesClosed W.sent W.saw W.woken W.fails W.flushed self.old) }
        ensures again { OnPending result (IsSome (close_end self.new)) }
        ensures same { OnPending result ((x : _) →
            GivesClosed W.sent W.saw W.woken W.fails W.flushed self.new x
            → GivesClosed W.sent W.saw W.woken W.fails W.flushed self.old x) }
        ensures registered { OnPending result (Covers cx.new (λ s. IsSomeAnd (close_end self.new)
            (λ writer. W.needs writer s))) }
        ensures waits { OnPending result (IsSomeAnd (close_end self.new)
            (λ writer. W.waits writer cx.new)) }
        ensures kept { Keeps cx.old cx.new }
    {
        let Some(writer) = &mut self.writer else {
            unreachable!()
        };
        match writer.poll_close(cx) {
            Poll::Pending => Poll::Pending,
            Poll::Ready(Ok(())) => Poll::Ready(Ok(self.writer.take().unwrap())),
            Poll::Ready(Err(error)) => {
                let left = self.writer.take().unwrap();
                Poll::Ready(Err(Failed { left, error }))
            }
        }
    }
}
