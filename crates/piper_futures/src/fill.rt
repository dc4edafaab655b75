//! All that a reader of std gives, moved into a pipe.
ghost use Rattle.std.specs.Prelude.{◌≡◌, ◌⊎◌, [], IsSome, IsSomeAnd, true, false, Ok};
ghost use Rattle.std.specs.Io.KnownBytes.{IsAtEnd};
ghost use Rattle.futures.specs.Task.{Covers, Keeps};
ghost use Rattle.futures.specs.Poll.{IfReady, OnPending};
ghost use Rattle.piper.specs.Contexts.{WantsWaker};
ghost use Rattle.piper.specs.Handles.{NotifiesReader, write_source};
ghost use Rattle.piper.specs.OfWriter.{lent, saw, sent};
ghost use Rattle.piper.specs.Polls.{IfReadyErr};
ghost use Rattle.piper.specs.Waits.{WriterIsWaiting};
ghost use Rattle.piper.specs.WriterCalls.{SameWriterButMoved};
ghost use Rattle.piper_futures.specs.Filling.{FillsHandle, FillsOn, FillWaits, GivesFilled, StartsFilling, fill_ends};
ghost use Rattle.piper_futures.specs.Moving.{IsIo};
ghost use Rattle.piper_futures.specs.Polling.{Needs};

use crate::debug::moving;
use crate::failed::Failed;
use futures::Future;
use futures::task::{Context, Poll};
use piper::io::{AsyncWrite, Copied};
use piper::{PipeError, Writer};
use std::fmt::{self, Debug, Formatter};
use std::io::Read;

/// A writer that readers of std can read into, with no bytes held in between.
pub trait AsyncFill: AsyncWrite {
    /// Publishes what a reader of std gives, up to its end or the close of the pipe.
    ///
    /// As long as the writer has not seen its pipe closed, all that `source` gave is published. The
    /// poll in which it sees the close may have lost bytes that `source` gave, with any answer.
    ///
    /// Returns: `ToTheEnd` or `UntilClosed`; if both hold it may be either.
    /// Pending: the writer's call is pending; or bytes were published, or the pipe was seen closed,
    /// and this poll asked for another. A pipe that was seen closed before is not waited for.
    /// Errors: the writer's own, which is `Memory` for a pipe; or the error of `source` as it came
    /// (proved is that a call of std failed so).
    /// Cancel safety: the next poll goes on from where this one ended.
    fn poll_fill_from<S: Read>(
        &mut self,
        cx: &mut Context<'_>,
        source: &mut S,
    ) -> Poll<Result<Copied, PipeError>>
        ensures fills { FillsOn (S.remaining source.old) (S.remaining source.new)
            (Self.sent self.old) (Self.sent self.new) (Self.saw self.old) (Self.saw self.new) }
        ensures ended { (result ≡ Poll.Ready (Ok Copied.ToTheEnd) →
            IsAtEnd (S.remaining source.new))
            × (result ≡ Poll.Ready (Ok Copied.UntilClosed) → Self.saw self.new ≡ true) }
        ensures error { IfReadyErr result (λ e. Self.fails self.new cx.new e ⊎ IsIo e) }
        ensures pending { OnPending result (Covers cx.new (Self.needs self.new)
            × FillWaits Self.sent Self.saw Self.waits self.old self.new cx.new) }
        ensures woken { Self.woken self.old → Self.woken self.new }
        ensures kept { Keeps cx.old cx.new };
}

impl AsyncFill for Writer {
    fn poll_fill_from<S: Read>(
        &mut self,
        cx: &mut Context<'_>,
        source: &mut S,
    ) -> Poll<Result<Copied, PipeError>>
        ensures fills { FillsOn (S.remaining source.old) (S.remaining source.new)
            (sent self.old) (sent self.new) (saw self.old) (saw self.new) }
        ensures ended { (result ≡ Poll.Ready (Ok Copied.ToTheEnd) →
            IsAtEnd (S.remaining source.new))
            × (result ≡ Poll.Ready (Ok Copied.UntilClosed) → saw self.new ≡ true) }
        ensures error { IfReadyErr result (λ e. WantsWaker cx.new e ⊎ IsIo e) }
        ensures pending { OnPending result (Covers cx.new (λ s. s ≡ write_source self.new)
            × FillWaits sent saw WriterIsWaiting self.old self.new cx.new) }
        ensures handle { FillsHandle result self.old self.new cx.old cx.new }
        ensures woken { NotifiesReader self.old → NotifiesReader self.new }
        ensures kept { Keeps cx.old cx.new }
    {
        match self.poll_fill(cx, source) {
            Poll::Pending => Poll::Pending,
            Poll::Ready(Err(error)) => Poll::Ready(Err(error)),
            Poll::Ready(Ok(0)) => Poll::Ready(Ok(why_none(self, cx))),
            Poll::Ready(Ok(_)) => cx.yield_now(),
        }
    }
}

// Why a fill moved nothing: the pipe is closed, or else its source gave none. A pipe that is closed
// is so for good, so the poll does not wait.
fn why_none(writer: &mut Writer, cx: &mut Context<'_>) -> Copied
    requires { lent writer.old ≡ [] }
    ensures ended { result ≡ Copied.ToTheEnd → saw writer.old ≡ false }
    ensures closed { result ≡ Copied.UntilClosed → saw writer.new ≡ true }
    ensures sent { sent writer.new ≡ sent writer.old }
    ensures stays { saw writer.old ≡ true → saw writer.new ≡ true }
    ensures same { SameWriterButMoved writer.old writer.new }
    ensures woken { NotifiesReader writer.old → NotifiesReader writer.new }
    ensures kept { Keeps cx.old cx.new }
{
    if !writer.is_closed() {
        return Copied::ToTheEnd;
    }
    match writer.poll(cx) {
        Poll::Ready(Ok(false)) => Copied::UntilClosed,
        _ => Copied::ToTheEnd,
    }
}

impl<W: AsyncFill> AsyncFill for &mut W {
    fn poll_fill_from<S: Read>(
        &mut self,
        cx: &mut Context<'_>,
        source: &mut S,
    ) -> Poll<Result<Copied, PipeError>> {
        (**self).poll_fill_from(cx, source)
    }
}

/// The future of [`fill_from`].
#[derive(Drop)]
pub struct Filling<W, S> {
    state: Option<(W, S)>,
}

/// Moves all that a reader of std gives into the writer's pipe, up to the reader's end or the close
/// of the pipe.
///
/// Each read blocks the thread: give it a thread of its own.
///
/// Returns: a future of the writer, `source`, and why it ended.
/// Pending: the writer's call is pending; or bytes were published, or the pipe was seen closed, and
/// this poll asked for another.
/// Errors: the writer's own, which is `Memory` for a pipe; or the error of `source` (proved is that
/// a call of std failed so). `left` has the writer and `source`.
/// Cancel safety: as long as the writer has not seen its pipe closed, all that was read is
/// published: a dropped future loses none.
pub fn fill_from<W: AsyncFill + Drop, S: Read + Drop>(writer: W, source: S) -> Filling<W, S>
    ensures { StartsFilling result writer source }
{
    Filling {
        state: Some((writer, source)),
    }
}

impl<W: AsyncFill + Drop, S: Read + Drop> Future for Filling<W, S> {
    type Output = Result<(W, S, Copied), Failed<(W, S)>>;

    ghost can_poll = { λ future. IsSome (fill_ends future) };

    ghost needs = { λ future. Needs W.needs (fill_ends future) };

    ghost gives = { GivesFilled W.sent W.saw W.woken W.fails S.remaining };

    fn poll(&mut self, cx: &mut Context<'_>) -> Poll<Self::Output>
        requires { IsSome (fill_ends self.old) }
        ensures value { IfReady result
            (GivesFilled W.sent W.saw W.woken W.fails S.remaining self.old) }
        ensures again { OnPending result (IsSome (fill_ends self.new)) }
        ensures same { OnPending result ((x : _) →
            GivesFilled W.sent W.saw W.woken W.fails S.remaining self.new x
            → GivesFilled W.sent W.saw W.woken W.fails S.remaining self.old x) }
        ensures registered { OnPending result (Covers cx.new (Needs W.needs (fill_ends self.new))) }
        ensures waits { OnPending result (IsSomeAnd (fill_ends self.old) (λ a.
            IsSomeAnd (fill_ends self.new) (λ b. FillWaits W.sent W.saw W.waits a.0 b.0 cx.new))) }
        ensures kept { Keeps cx.old cx.new }
    {
        let Some((writer, source)) = &mut self.state else {
            unreachable!()
        };
        match writer.poll_fill_from(cx, source) {
            Poll::Pending => Poll::Pending,
            Poll::Ready(Ok(copied)) => {
                let (writer, source) = self.state.take().unwrap();
                Poll::Ready(Ok((writer, source, copied)))
            }
            Poll::Ready(Err(error)) => {
                let left = self.state.take().unwrap();
                Poll::Ready(Err(Failed { left, error }))
            }
        }
    }
}

impl<W: Debug, S> Debug for Filling<W, S> {
    fn fmt<O: fmt::Write>(&self, f: &mut Formatter<O>) -> fmt::Result {
        moving(f, "Filling", &self.state)
    }
}
