//! Reads and writes that may be pending, and a copy over them.
ghost use Rattle.std.specs.Prelude.{◌≡◌, ◌<◌, ◌≤◌, ◌++◌, ℕ, List, length, take, drop, Bool, true, false, Ok, ⊤};
ghost use Rattle.std.specs.Borrow.{sem};
ghost use Rattle.std.specs.Io.{StartsWith};
ghost use Rattle.std.specs.Io.BufRead.{Rests};
ghost use Rattle.futures.specs.Task.{Covers, Keeps};
ghost use Rattle.futures.specs.Poll.{OnPending};
ghost use Rattle.piper.specs.Contexts.{AsksAgain};
ghost use Rattle.piper.specs.Polls.{After, Count, Done, Lends, Piece, Reads, TakesNone, Writes, OnReadyOk, IfReadyOk, IfReadyErr};

mod by_ref;
mod copy;

use crate::error::PipeResult;
pub use copy::{Copied, poll_copy};
use futures::task::{Context, Poll};

/// A reader that puts what it takes into a slice.
pub trait AsyncRead {
    ghost use Rattle.futures.specs.declared.task.context.Context.{Context};
    ghost use Rattle.piper.specs.declared.error.PipeError.{PipeError};

    // all bytes that were taken
    ghost taken: { Self → List ℕ };

    // whether a call of its own saw the end
    ghost saw: { Self → Bool };

    // whether it was told of the end
    ghost knows_end: { Self → Bool } = { λ _. false };

    // a call of its own has reported the end: it took all that ever comes
    ghost ended: { Self → Type 0 };

    // holds of each source that a pending read waits for
    ghost needs: { Self → ℕ → Type 0 };

    // a call with this context was pending, and left it so
    ghost waits: { Self → Context → Type 0 } = { λ _ _. ⊤ };

    // a call with this context has failed with this error, and left it so
    ghost fails: { Self → Context → PipeError → Type 0 } = { λ _ _ _. ⊤ };

    // the other side was woken after all that this side stored
    ghost woken: { Self → Type 0 } = { λ _. ⊤ };

    // what a read says besides, of the reader before and after it, the answer, and the slice and the
    // context before and after: how many bytes it takes, for one
    ghost says: { Self → Self → Count → List ℕ → List ℕ → Context → Context → Type 0 } = { λ _ _ _ _ _ _ _. ⊤ };

    /// Takes bytes, and puts them at the front of `dest`.
    ///
    /// Returns: how many bytes. 0 is the end if `dest` has room: after it no byte comes, and no
    /// call is pending.
    /// Pending: nothing was taken, and `dest` stays as it was. If the reader was told of the end, a
    /// pending call has asked for another poll.
    /// Errors: those of the type. Nothing was taken, and `dest` stays as it was.
    fn poll_read(&mut self, cx: &mut Context<'_>, dest: &mut [u8]) -> Poll<PipeResult<usize>>
        ensures read { Reads result dest.old dest.new
            (taken self.old) (taken self.new) (saw self.new) }
        ensures end { (result ≡ Poll.Ready (Ok 0) → 0 < length dest.old → ended self.new)
            × (ended self.old →
            TakesNone result (ended self.new) (taken self.old) (taken self.new)) }
        ensures says { says self.old self.new result dest.old dest.new cx.old cx.new }
        ensures stays { (knows_end self.new ≡ knows_end self.old)
            × (saw self.old ≡ true → saw self.new ≡ true) × (woken self.old → woken self.new) }
        ensures pending { OnPending result (Covers cx.new (needs self.new)
            × (knows_end self.old ≡ true → AsksAgain cx.new) × waits self.new cx.new) }
        ensures error { IfReadyErr result (fails self.new cx.new) }
        ensures kept { Keeps cx.old cx.new };
}

/// A reader that lends the bytes that it knows.
pub trait AsyncBufRead {
    ghost use Rattle.futures.specs.declared.task.context.Context.{Context};
    ghost use Rattle.piper.specs.declared.error.PipeError.{PipeError};

    // the bytes that it knows, the next one first
    ghost known: { Self → List ℕ };

    // how many of the first of them are contiguous
    ghost piece: { Self → ℕ };

    // all bytes that were taken
    ghost taken: { Self → List ℕ };

    // whether a call of its own saw the end
    ghost saw: { Self → Bool };

    // whether it was told of the end
    ghost knows_end: { Self → Bool } = { λ _. false };

    // a call of its own has reported the end: it took all that ever comes
    ghost ended: { Self → Type 0 };

    // holds of each source that a pending call waits for
    ghost needs: { Self → ℕ → Type 0 };

    // a call with this context was pending, and left it so
    ghost waits: { Self → Context → Type 0 } = { λ _ _. ⊤ };

    // a call with this context has failed with this error, and left it so
    ghost fails: { Self → Context → PipeError → Type 0 } = { λ _ _ _. ⊤ };

    // the other side was woken after all that this side stored
    ghost woken: { Self → Type 0 } = { λ _. ⊤ };

    // what a poll says besides, of the reader before it and once the slice is given back, the
    // answer, and the context before and after
    ghost lends: { Self → Self → Piece → Context → Context → Type 0 } = { λ _ _ _ _ _. ⊤ };

    // what a consume says besides, of the reader before and after it, and of how many bytes
    ghost consumes: { Self → Self → ℕ → Type 0 } = { λ _ _ _. ⊤ };

    /// Lends the first piece of the bytes that it knows.
    ///
    /// Returns: an empty slice only at the end: after it no byte comes, and no call is pending.
    /// Pending: no byte is known. A reader that was told of the end is not pending.
    /// Errors: those of the type. Bytes that were known stay known, and none is taken.
    fn poll_fill_buf(&mut self, cx: &mut Context<'_>) -> Poll<PipeResult<&[u8]>>
        // said of the reader as it is once the slice is given back
        ensures* lent { sem 𝓛 (Rests Self.row self.entry (λ new.
            Lends result (known new) (piece new) (saw new)
            × IfReadyOk result (λ lent. length lent.now ≡ 0 → ended new)
            × (ended self.old → After result (ended new) (known new))
            × StartsWith (known new) (known self.old)
            × (taken new ≡ taken self.old)
            × (saw self.old ≡ true → saw new ≡ true)
            × IfReadyErr result (fails new cx.new)
            × (knows_end new ≡ knows_end self.old)
            × OnPending result ((knows_end new ≡ false) × waits new cx.new)
            × OnPending result (Covers cx.new (needs new))
            × (woken self.old → woken new)
            × lends self.old new result cx.old cx.new)) }
        ensures kept { Keeps cx.old cx.new };

    /// Takes the first `amt` bytes of the piece.
    ///
    /// Requires: `amt` is at most the length of the piece.
    fn consume(&mut self, amt: usize)
        requires { amt ≤ piece self.old }
        ensures known { known self.new ≡ drop amt (known self.old) }
        ensures taken { taken self.new ≡ taken self.old ++ take amt (known self.old) }
        ensures stays { (saw self.new ≡ saw self.old) × (knows_end self.new ≡ knows_end self.old) }
        ensures end { ended self.old → ended self.new }
        ensures woken { woken self.old → woken self.new }
        ensures consumes { consumes self.old self.new amt };
}

/// A writer that may be pending.
pub trait AsyncWrite {
    ghost use Rattle.futures.specs.declared.task.context.Context.{Context};
    ghost use Rattle.piper.specs.declared.error.PipeError.{PipeError};

    // all bytes that were published
    ghost sent: { Self → List ℕ };

    // whether a call of its own saw the pipe closed
    ghost saw: { Self → Bool };

    // holds of each source that a pending call waits for
    ghost needs: { Self → ℕ → Type 0 };

    // a call with this context was pending, and left it so
    ghost waits: { Self → Context → Type 0 } = { λ _ _. ⊤ };

    // a call with this context has failed with this error, and left it so
    ghost fails: { Self → Context → PipeError → Type 0 } = { λ _ _ _. ⊤ };

    // the other side was woken after all that this side stored
    ghost woken: { Self → Type 0 } = { λ _. ⊤ };

    // all that was written is on its way: a flush, or a close, left the writer so
    ghost flushed: { Self → Type 0 } = { λ _. ⊤ };

    // what a write says besides, of the writer before and after it, the answer, the slice, and the
    // context before and after: how many bytes it publishes, for one
    ghost says: { Self → Self → Count → List ℕ → Context → Context → Type 0 } = { λ _ _ _ _ _ _. ⊤ };

    // what a flush says besides, of the writer before and after it, the answer, and the context
    // before and after
    ghost flushes: { Self → Self → Done → Context → Context → Type 0 } = { λ _ _ _ _ _. ⊤ };

    // what a close says besides, as of a flush
    ghost closes: { Self → Self → Done → Context → Context → Type 0 } = { λ _ _ _ _ _. ⊤ };

    /// Publishes bytes from the front of `source`.
    ///
    /// Returns: how many bytes it counts. If `source` is not empty, 0 says that the pipe is closed.
    /// Once a call saw the pipe closed, each later call is ready with 0. In the call that sees it
    /// closed at most 131,072 of the counted bytes are lost.
    /// Pending: nothing was published.
    /// Errors: those of the type. Nothing was published.
    fn poll_write(&mut self, cx: &mut Context<'_>, source: &[u8]) -> Poll<PipeResult<usize>>
        ensures written { Writes result source.now (sent self.old) (sent self.new) (saw self.new) }
        ensures says { says self.old self.new result source.now cx.old cx.new }
        ensures error { IfReadyErr result (fails self.new cx.new) }
        ensures over { saw self.old ≡ true → (result ≡ Poll.Ready (Ok 0)) × (saw self.new ≡ true) }
        ensures pending { OnPending result
            (Covers cx.new (needs self.new) × waits self.new cx.new) }
        ensures woken { woken self.old → woken self.new }
        ensures kept { Keeps cx.old cx.new };

    /// Waits until what was written is on its way.
    ///
    /// Returns: `Ok(())` once all of it is.
    /// Pending: for a reason of the type. No byte is published by this call, whatever it answers.
    /// Errors: those of the type.
    fn poll_flush(&mut self, cx: &mut Context<'_>) -> Poll<PipeResult<()>>
        ensures flushed { OnReadyOk result (flushed self.new)
            × flushes self.old self.new result cx.old cx.new }
        ensures error { IfReadyErr result (fails self.new cx.new) }
        ensures sent { sent self.new ≡ sent self.old }
        ensures saw { saw self.new ≡ saw self.old }
        ensures pending { OnPending result
            (Covers cx.new (needs self.new) × waits self.new cx.new) }
        ensures woken { woken self.old → woken self.new }
        ensures kept { Keeps cx.old cx.new };

    /// Closes the pipe for good, with what was written on its way.
    ///
    /// Returns: `Ok(())` once all of it is, and this writer saw the pipe closed.
    /// Pending: for a reason of the type. No byte is published by this call, whatever it answers.
    /// Errors: those of the type.
    fn poll_close(&mut self, cx: &mut Context<'_>) -> Poll<PipeResult<()>>
        ensures closed { OnReadyOk result ((saw self.new ≡ true) × flushed self.new)
            × closes self.old self.new result cx.old cx.new }
        ensures error { IfReadyErr result (fails self.new cx.new) }
        ensures sent { sent self.new ≡ sent self.old }
        ensures stays { saw self.old ≡ true → saw self.new ≡ true }
        ensures pending { OnPending result
            (Covers cx.new (needs self.new) × waits self.new cx.new) }
        ensures woken { woken self.old → woken self.new }
        ensures kept { Keeps cx.old cx.new };
}
