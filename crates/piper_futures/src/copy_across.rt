//! All bytes of a reader, copied to a writer.
ghost use Rattle.std.specs.Prelude.{IsSome};
ghost use Rattle.futures.specs.Poll.{IfReady, OnPending};
ghost use Rattle.futures.specs.Task.{IsArmed, Keeps};
ghost use Rattle.piper_futures.specs.Carrying.{CopyWaits, GivesCopied, StartsCopy, copy_ends};

use crate::failed::Failed;
use futures::Future;
use futures::task::{Context, Poll};
use piper::io::{AsyncBufRead, AsyncWrite, Copied, poll_copy};
use std::fmt::{self, Debug, Formatter};

/// The future of [`copy`].
#[derive(Drop)]
pub struct Copying<R, W> {
    state: Option<(R, W)>,
}

/// Copies all bytes from the reader to the writer, in order, up to the reader's end or the close of
/// the writer's pipe.
///
/// As `poll_copy`, it sees the close only once a byte is known.
///
/// Returns: a future of the reader, the writer, and why it ended.
/// Pending: a call of the reader or of the writer is pending; or this poll
/// copied at least 64 bytes, and asked for another.
/// Errors: that of the reader or of the writer. `left` has both.
/// Cancel safety: as long as the writer has not seen its pipe closed, all that was taken is
/// published: a dropped future loses none.
pub fn copy<R: AsyncBufRead + Drop, W: AsyncWrite + Drop>(reader: R, writer: W) -> Copying<R, W>
    ensures { StartsCopy result reader writer }
{
    Copying {
        state: Some((reader, writer)),
    }
}

// It waits for the one or the other, so it names no source.
impl<R: AsyncBufRead + Drop, W: AsyncWrite + Drop> Future for Copying<R, W> {
    type Output = Result<(R, W, Copied), Failed<(R, W)>>;

    ghost can_poll = { λ future. IsSome (copy_ends future) };

    ghost gives = { GivesCopied R.taken R.known R.saw R.knows_end R.woken R.fails
        W.sent W.saw W.woken W.fails };

    fn poll(&mut self, cx: &mut Context<'_>) -> Poll<Self::Output>
        requires { IsSome (copy_ends self.old) }
        ensures value { IfReady result (GivesCopied R.taken R.known R.saw R.knows_end R.woken R.fails
            W.sent W.saw W.woken W.fails self.old) }
        ensures again { OnPending result (IsSome (copy_ends self.new)) }
        ensures same { OnPending result ((x : _) →
            GivesCopied R.taken R.known R.saw R.knows_end R.woken R.fails
            W.sent W.saw W.woken W.fails self.new x
            → GivesCopied R.taken R.known R.saw R.knows_end R.woken R.fails
            W.sent W.saw W.woken W.fails self.old x) }
        ensures registered { OnPending result (IsArmed cx.new) }
        ensures waits { OnPending result (CopyWaits R.taken R.waits W.waits
            (copy_ends self.old) (copy_ends self.new) cx.new) }
        ensures kept { Keeps cx.old cx.new }
    {
        let Some((reader, writer)) = &mut self.state else {
            unreachable!()
        };
        match poll_copy(cx, reader, writer) {
            Poll::Pending => Poll::Pending,
            Poll::Ready(Ok(copied)) => {
                let (reader, writer) = self.state.take().unwrap();
                Poll::Ready(Ok((reader, writer, copied)))
            }
            Poll::Ready(Err(error)) => {
                let left = self.state.take().unwrap();
                Poll::Ready(Err(Failed { left, error }))
            }
        }
    }
}

impl<R: Debug, W: Debug> Debug for Copying<R, W> {
    fn fmt<O: fmt::Write>(&self, f: &mut Formatter<O>) -> fmt::Result {
        match &self.state {
            Some((reader, writer)) => f
                .debug_tuple("Copying")
                .field(reader)
                .field(writer)
                .finish(),
            None => f.write_str("Copying"),
        }
    }
}
