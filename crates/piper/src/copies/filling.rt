//! Copies into the pipe.
ghost use Rattle.std.specs.Prelude.{◌≡◌, ◌<◌, ◌≤◌, ◌⊎◌, length, IfOk, IfErr, Ok, false};
ghost use Rattle.futures.specs.Poll.{OnPending};
ghost use Rattle.piper_protocol.specs.Table.{ends, goes_on};
ghost use Rattle.piper_ring.specs.Log.{Comes, found_of, made, next, now};
ghost use Rattle.piper_ring.specs.Looks.{HasRoom};
ghost use Rattle.piper_ring.specs.SlotsView.{IsWriterAtRest, WaitsAsBefore};
ghost use Rattle.piper.specs.Called.{CallsTaken};
ghost use Rattle.piper.specs.CopyAnswers.{OnMemory, CountsFailure, IsAtOnce, of_std, of_bytes};
ghost use Rattle.piper.specs.Fills.{FillRounds, Fills, FoundRoom, OnNoCount, most_of_round};
ghost use Rattle.piper.specs.Like.{Counts, passed};
ghost use Rattle.piper.specs.Runs.{FillRan, WriterRan, copy_answer, writer_looks};

use super::{as_slice_copy, as_std_copy};
use crate::error::{CopyError, PipeResult};
use crate::handles::Writer;
use crate::handles::draws::{WAITING, draw_yield};
use crate::handles::waiting::wake_other;
use crate::like::{ReadBytes, ReadLike, StdRead, StdReader};
use futures::task::{Context, Poll, Waker};
use piper_protocol::answer::Answer;
use piper_protocol::table::{
    Action, AfterWrite, Form, Found, MOST_A_ROUND, Point, Purpose, WritePoint,
};
use piper_ring::{Look, OutOfMemory, WriteSide};

impl Writer {
    ghost use Rattle.piper.specs.Handles.{SameWriter};
    ghost use Rattle.piper.specs.WriterCalls.{FillRest, FillsAtOnce, FillsEnd, FillsLike, FillsSlice, FillsStd, FillsWaiting, WakesReader, WriterTried};

    /// Publishes bytes that a reader of std gives.
    ///
    /// Returns: how many bytes `source` gave. All of them are published, unless this call saw the pipe
    /// closed: then those of its last round are not. 0 says that the pipe is closed, for good, or that
    /// `source` gave none.
    /// Pending: there is no room, and the pipe was not seen closed; or the call yields. `source`
    /// stays as it was.
    /// Errors: `Memory`, for the reason for which `poll` fails; no byte is published. `Io`, with
    /// the error of `source`. The round that failed gave no byte. The bytes of earlier rounds stay
    /// published; the error doesn't say how many.
    /// Wakes: the reader, if it waits and a byte was published.
    pub fn poll_fill<R: StdReader>(
        &mut self,
        cx: &mut Context<'_>,
        source: &mut R,
    ) -> Poll<PipeResult<usize>>
        ensures ran { FillRan (Form.Polling false) (of_std result) self.old self.new }
        ensures filled { FillsStd R.remaining R.fails (of_std result)
            self.old self.new source.old source.new }
        ensures waiting { FillsWaiting (of_std result) self.old self.new cx.old cx.new }
        ensures rest { FillRest (of_std result) self.old self.new }
    {
        let mut source = StdRead::new(source);
        as_std_copy(self.poll_fill_with(cx, &mut source))
    }

    /// Publishes bytes from the front of `bytes`, as many as there is known room for.
    ///
    /// Returns: how many bytes it took. All of them are published, unless this call saw the pipe
    /// closed: then those of its last round are not. 0 says that the pipe is closed, for good, if
    /// there are `bytes`. A count of fewer than all doesn't say that the pipe is full.
    /// Pending: there is no room and the pipe was not seen closed, even if there are no `bytes`; or
    /// the call yields.
    /// Errors: `OutOfMemory`, for the reason for which `poll` fails. No byte is published.
    /// Wakes: the reader, if it waits and a byte was published.
    pub fn poll_fill_bytes(
        &mut self,
        cx: &mut Context<'_>,
        bytes: &[u8],
    ) -> Poll<Result<usize, OutOfMemory>>
        ensures ran { FillRan (Form.Polling false) (of_bytes result) self.old self.new }
        ensures filled { FillsSlice result self.old self.new bytes.now }
        ensures waiting { FillsWaiting (of_bytes result) self.old self.new cx.old cx.new }
        ensures rest { FillRest (of_bytes result) self.old self.new }
    {
        let mut source = ReadBytes { rest: bytes };
        as_slice_copy(self.poll_fill_with(cx, &mut source))
    }

    /// Publishes bytes from the front of `bytes`, as many as there is known room for, and doesn't
    /// wait.
    ///
    /// Returns: how many bytes it took. All of them are published, unless this call saw the pipe
    /// closed: then those of its last round are not. 0 says that there is no room, that there are
    /// no `bytes`, or that the pipe is closed. To tell the close, call `try_fill_with` with bytes:
    /// it is pending if there is no room, and 0 if the pipe is closed.
    /// Wakes: the reader, if it waits and a byte was published.
    pub fn try_fill(&mut self, bytes: &[u8]) -> usize
        ensures ran { WriterRan (writer_looks (Purpose.Copy Form.Try)) (Answer.Count result)
            self.old self.new }
        ensures tried { WriterTried result self.old self.new bytes.now }
    {
        let mut source = ReadBytes { rest: bytes };
        match self.try_fill_with(&mut source) {
            Poll::Ready(Ok(count)) => count,
            Poll::Ready(Err(CopyError::Like(never))) => match never {},
            Poll::Ready(Err(CopyError::Memory)) => unreachable!(),
            Poll::Pending => 0,
        }
    }

    /// Publishes bytes that any source gives, as `poll_fill` does those of a reader of std.
    ///
    /// Returns: how many bytes `source` gave. All of them are published, unless this call saw the pipe
    /// closed: then those of its last round are not. 0 says that the pipe is closed, for good, or that
    /// `source` gave none.
    /// Pending: as `poll_fill`.
    /// Errors: `Memory`, as `poll_fill`. `Like`, with the error of `source`: as `Io` of
    /// `poll_fill`.
    /// Wakes: the reader, if it waits and a byte was published.
    #[inline(always)]
    pub fn poll_fill_with<R: ReadLike>(
        &mut self,
        cx: &mut Context<'_>,
        source: &mut R,
    ) -> Poll<Result<usize, CopyError<R::Error>>>
        ensures ran { FillRan (Form.Polling false) result self.old self.new }
        ensures filled { FillsLike R.gives R.is_dry R.fails R.failures result
            self.old self.new source.old source.new }
        ensures waiting { FillsWaiting result self.old self.new cx.old cx.new }
        ensures rest { FillRest result self.old self.new }
    {
        let outcome = self.fill_waiting(cx, source);
        self.side.unlend();
        outcome
    }

    /// Publishes bytes that any source gives, and doesn't wait: it registers no task and never
    /// yields.
    ///
    /// Returns: how many bytes `source` gave. All of them are published, unless this call saw the pipe
    /// closed: then those of its last round are not. 0 says that the pipe is closed, for good, or that
    /// `source` gave none.
    /// Pending: there is no room, and the pipe was not seen closed. The call registers no task; one
    /// that was registered before stays so.
    /// Errors: `Like`, with the error of `source`: as `Io` of `poll_fill`.
    /// Wakes: the reader, if it waits and a byte was published.
    #[inline(always)]
    pub fn try_fill_with<R: ReadLike>(
        &mut self,
        source: &mut R,
    ) -> Poll<Result<usize, CopyError<R::Error>>>
        ensures ran { FillRan Form.Try result self.old self.new }
        ensures filled { FillsLike R.gives R.is_dry R.fails R.failures result
            self.old self.new source.old source.new }
        ensures at_once { FillsAtOnce result self.old self.new }
        ensures rest { FillRest result self.old self.new }
    {
        let outcome = self.fill_at_once(source);
        self.side.unlend();
        outcome
    }

    // The fill with a context: the look, the draw, and the rounds.
    #[inline(always)]
    fn fill_waiting<R: ReadLike>(
        &mut self,
        cx: &mut Context<'_>,
        source: &mut R,
    ) -> Poll<Result<usize, CopyError<R::Error>>>
        ensures ran { FillRan (Form.Polling false) result self.old self.new }
        ensures filled { Fills R.gives R.is_dry R.fails result
            self.old.side.end self.new.side.end source.old source.new }
        ensures failures { CountsFailure result (R.failures source.old) (R.failures source.new) }
        ensures end { FillsEnd result self.old self.new }
        ensures waiting { FillsWaiting result self.old self.new cx.old cx.new }
        ensures woken { WakesReader self.old self.new }
        ensures same { (self.new.side.cells ≡ self.old.side.cells)
            × (self.new.source ≡ self.old.source) }
    {
        match self.side.look_first(Purpose::Copy(WAITING)) {
            Look::Ready => {}
            Look::Closed => return Poll::Ready(Ok(0)),
            Look::NotReady => match Writer::look_waiting(
                &mut self.side,
                &self.source,
                Purpose::Copy(WAITING),
                cx,
            ) {
                Ok(Look::Ready) => {}
                Ok(Look::Closed) => return Poll::Ready(Ok(0)),
                Ok(Look::NotReady) => return Poll::Pending,
                Err(OutOfMemory) => return Poll::Ready(Err(CopyError::Memory)),
            },
        }
        if draw_yield(&mut self.side, &mut self.rng, cx) {
            return Poll::Pending;
        }
        fill_rounds(&mut self.side, WAITING, source)
    }

    // The fill without a context: the look, and the rounds.
    #[inline(always)]
    fn fill_at_once<R: ReadLike>(
        &mut self,
        source: &mut R,
    ) -> Poll<Result<usize, CopyError<R::Error>>>
        ensures ran { FillRan Form.Try result self.old self.new }
        ensures filled { Fills R.gives R.is_dry R.fails result
            self.old.side.end self.new.side.end source.old source.new }
        ensures failures { CountsFailure result (R.failures source.old) (R.failures source.new) }
        ensures end { FillsEnd result self.old self.new }
        ensures waits { OnPending result (self.new.side.end.room ≡ 0) }
        ensures granted { OnMemory result ⊥ }
        ensures rest { WakesReader self.old self.new
            × SameWriter WaitsAsBefore self.old self.new }
    {
        match self.side.look_now(Purpose::Copy(Form::Try)) {
            Look::Ready => fill_rounds(&mut self.side, Form::Try, source),
            Look::Closed => Poll::Ready(Ok(0)),
            Look::NotReady => Poll::Pending,
        }
    }
}

// Publishes what the source gives in rounds, each in one piece, until there is no room, it
// gives none, or the pipe is seen closed.
#[inline(always)]
fn fill_rounds<R: ReadLike>(
    side: &mut WriteSide<Waker>,
    form: Form,
    source: &mut R,
) -> Poll<Result<usize, CopyError<R::Error>>>
    requires at { now side.old.log ≡ goes_on (Point.Writer (WritePoint.CallSource form 0)) }
    requires is_open { (side.old.end.shut ≡ false) × (side.old.end.saw ≡ false) }
    requires some { HasRoom side.old.end }
    ensures ran { Comes (ends (Point.Writer WritePoint.Idle) (copy_answer form result))
        side.old.log side.new.log }
    ensures filled { FillRounds R.gives R.is_dry R.fails result
        side.old.end side.new.end source.old source.new }
    ensures failures { CountsFailure result (R.failures source.old) (R.failures source.new) }
    ensures open { OnNoCount result (side.new.end.saw ≡ false) }
    ensures found { FoundRoom result side.new.end }
    ensures ready { IsAtOnce result }
    ensures called { CallsTaken side.old.slots side.new.slots }
    ensures notifies { IsWriterAtRest side.old.end side.old.slots →
        IsWriterAtRest side.new.end side.new.slots }
    ensures rest { WaitsAsBefore side.old.slots side.new.slots
        × (side.new.cells ≡ side.old.cells) }
{
    let mut moved = 0;
    'rounds: loop {
        let asks = source.asks();
        if asks == 0 {
            side.note(Action::CallSource, Found::Moved(0));
            return Poll::Ready(Ok(moved));
        }
        let n = match fill_round(side, asks, source) {
            Ok(n) => n,
            Err(error) => return Poll::Ready(Err(CopyError::Like(error))),
        };
        if n == 0 {
            return Poll::Ready(Ok(moved));
        }
        moved += n;
        if side.load_closed() {
            return Poll::Ready(Ok(moved));
        }
        side.store_tail(n);
        wake_other(side);
    }
}

// One call of the source, on room that is lent to it in one piece, no more than it asks for.
#[inline(always)]
fn fill_round<R: ReadLike>(
    side: &mut WriteSide<Waker>,
    asks: usize,
    source: &mut R,
) -> Result<usize, R::Error>
    requires turn { next side.old.log ≡ Action.CallSource }
    requires is_open { side.old.end.shut ≡ false }
    requires some { 0 < asks }
    ensures log { side.new.log ≡ made (found_of result) side.old.log }
    ensures bound { IfOk result (λ n. n ≤ length side.new.end.lent) }
    ensures most { IfOk result (λ n. n ≤ most_of_round side.new.end) }
    ensures bytes { R.gives source.old (passed result side.new.end.lent) source.new }
    ensures dry { result ≡ Ok 0 → (side.new.end.room ≡ 0) ⊎ R.is_dry source.new }
    ensures error { IfErr result (λ e. R.fails source.old e source.new) }
    ensures failures { Counts result (R.failures source.old) (R.failures source.new) }
    ensures end { side.new.end
        ≡ record side.old.end { lent = side.new.end.lent } }
    ensures rest { (side.new.slots ≡ side.old.slots) × (side.new.cells ≡ side.old.cells) }
{
    let moved = source.read(side.write_buf(asks.min(MOST_A_ROUND)));
    side.note_given(&moved);
    moved
}
