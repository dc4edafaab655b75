//! Bytes, written whole to a writer that is then closed and dropped.
ghost use Rattle.std.specs.Prelude.{◌≡◌, ◌≤◌, None, Ok, length, IsSomeAnd};
ghost use Rattle.futures.specs.Poll.{IfReady, OnPending};
ghost use Rattle.futures.specs.Task.{Covers, Keeps};
ghost use Rattle.piper.specs.Polls.{IfReadyErr, OnReadyOk};
ghost use Rattle.piper_futures.specs.Writing.{GivesWrittenAndClosed, StartsWritingToClose, WritesOn, WritesToClose, WroteAndClosed, closing_writer};

use crate::failed::Failed;
use futures::Future;
use futures::task::{Context, Poll};
use piper::PipeError;
use piper::io::AsyncWrite;
use piper_lines::poll_write_all;
use std::fmt::{self, Debug, Formatter};

/// The future of [`write_all_and_close`].
#[derive(Drop)]
pub struct WriteAllAndClose<'a, W> {
    writer: Option<W>,
    bytes: &'a [u8],
    written: usize,
}

/// Writes all bytes, in order, and closes the writer's pipe.
///
/// Once it is ready it has dropped the writer, even if a write or the close failed. If the writer is
/// owned, its pipe is closed then (not proved), and the other side gets its end while a `join` still
/// holds what this future gave. If the writer is a `&mut` and the future fails, its pipe may still
/// be open.
///
/// It asks for no memory of its own. If the writer has not seen its pipe closed before it closes
/// it, all counted bytes are published; in the poll that sees it closed some may be lost.
///
/// Returns: a future of how many bytes the writer counted: fewer than all only if it had seen its
/// pipe closed before (that this future had not closed it is tested, not proved).
/// Pending: the writer's call is pending.
/// Errors: the writer's own. `left` says how many bytes it counted.
/// Cancel safety: a dropped future has written a front of `bytes`, and drops the writer.
pub fn write_all_and_close<'a, W: AsyncWrite + Drop>(
    writer: W,
    bytes: &'a [u8],
) -> WriteAllAndClose<'a, W>
    ensures { StartsWritingToClose result writer bytes.now }
{
    WriteAllAndClose {
        writer: Some(writer),
        bytes,
        written: 0,
    }
}

// Writes what is left of the bytes, and closes the writer after the last one.
fn poll_write_and_close<W: AsyncWrite>(
    writer: &mut W,
    cx: &mut Context<'_>,
    bytes: &[u8],
    written: &mut usize,
) -> Poll<Result<(), PipeError>>
    requires { written.old ≤ length bytes.now }
    ensures writes { WritesOn W.sent W.saw W.woken bytes.now
        writer.old written.old writer.new written.new }
    ensures closed { OnReadyOk result (WroteAndClosed W.sent W.saw W.woken W.fails W.flushed
        bytes.now writer.old written.old (Ok written.new)) }
    ensures error { IfReadyErr result (W.fails writer.new cx.new) }
    ensures pending { OnPending result (Covers cx.new (W.needs writer.new)
        × W.waits writer.new cx.new) }
    ensures kept { Keeps cx.old cx.new }
{
    match poll_write_all(writer, cx, bytes, written) {
        Poll::Pending => Poll::Pending,
        Poll::Ready(Err(error)) => Poll::Ready(Err(error)),
        Poll::Ready(Ok(_)) => writer.poll_close(cx),
    }
}

impl<W: AsyncWrite + Drop> Future for WriteAllAndClose<'_, W> {
    type Output = Result<usize, Failed<usize>>;

    ghost can_poll = { WritesToClose };

    ghost needs = { λ future s. IsSomeAnd (closing_writer future) (λ writer. W.needs writer s) };

    ghost gives = { GivesWrittenAndClosed W.sent W.saw W.woken W.fails W.flushed };

    fn poll(&mut self, cx: &mut Context<'_>) -> Poll<Self::Output>
        requires { WritesToClose self.old }
        ensures value { IfReady result
            (GivesWrittenAndClosed W.sent W.saw W.woken W.fails W.flushed self.old) }
        ensures dropped { IfReady result (λ _. closing_writer self.new ≡ None) }
        ensures again { OnPending result (WritesToClose self.new) }
        ensures same { OnPending result ((x : _) →
            GivesWrittenAndClosed W.sent W.saw W.woken W.fails W.flushed self.new x
            → GivesWrittenAndClosed W.sent W.saw W.woken W.fails W.flushed self.old x) }
        ensures registered { OnPending result (Covers cx.new (λ s. IsSomeAnd (closing_writer self.new)
            (λ writer. W.needs writer s))) }
        ensures waits { OnPending result (IsSomeAnd (closing_writer self.new)
            (λ writer. W.waits writer cx.new)) }
        ensures kept { Keeps cx.old cx.new }
    {
        let Some(writer) = &mut self.writer else {
            unreachable!()
        };
        let Poll::Ready(ended) = poll_write_and_close(writer, cx, self.bytes, &mut self.written)
        else {
            return Poll::Pending;
        };
        // The pipe is closed also where its writer has failed.
        self.writer = None;
        let left = self.written;
        Poll::Ready(match ended {
            Ok(()) => Ok(left),
            Err(error) => Err(Failed { left, error }),
        })
    }
}

impl<E: Debug> Debug for WriteAllAndClose<'_, E> {
    fn fmt<O: fmt::Write>(&self, f: &mut Formatter<O>) -> fmt::Result {
        match &self.writer {
            Some(writer) => f
                .debug_tuple("WriteAllAndClose")
                .field(writer)
                .field(&self.written)
                .finish(),
            None => f.write_str("WriteAllAndClose"),
        }
    }
}
