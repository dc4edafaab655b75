//! The side that reads the input into the pipe.
ghost use Rattle.std.specs.Prelude.{◌≡◌, ◌<◌, Ok, OnOk, IfErr, IfSome, IfNone, false, true};
ghost use Rattle.std.specs.Io.KnownBytes.{IsAtEnd};
ghost use Rattle.futures.specs.Task.{IsArmed};
ghost use Rattle.futures.specs.Poll.{IfReady, OnPending};
ghost use Rattle.piper_transfer.specs.Transfer.{Fed, IsLeft, IsOfSource, IsOpen, IsToldBy, StopsClosed, StopsSource};

use crate::ends::Source;
use crate::error::{Stop, TransferError};
use crate::meter::{Meter, OfInput, Side};
use crate::patience::read_patiently;
use crate::piece::Piece;
use crate::shared::{Hears, Shared};
use crate::start::Start;
use crate::turns::Turns;
use futures::task::{Context, Poll};
use piper::Writer;
use std::sync::Wait;
use std::time::Clock;

/// Fills the pipe as `fill_in_turns` does, once it has told the other side that it begins. Where
/// that one has given it up it does nothing. Then, or where it was told to end, it returns `None`.
pub(crate) fn fill_from<R, S>(
    rt: &R,
    start: &Start,
    turns: &mut Turns,
    source: &mut S,
    writer: &mut Writer,
    chunk: usize,
    meter: &Meter,
) -> Option<Result<(), TransferError>>
where
    R: Wait + Clock,
    S: Source,
    requires chunk { 0 < chunk }
    requires is_open { IsOpen writer.old.side.end }
    ensures fed { Fed (S.remaining source.old) (S.remaining source.new)
        writer.old.side.end writer.new.side.end }
    ensures ended { IfSome result (λ r. OnOk r (IsAtEnd (S.remaining source.new))) }
    ensures reported { IfSome result (λ r. IfErr r (IsOfSource (S.fails source.new))) }
    ensures closed { IfSome result (λ _. writer.new.side.end.shut ≡ true) }
    ensures left { IfNone result (writer.new.side.end.shut ≡ false) }
{
    if !start.begin(rt) {
        return None;
    }
    match fill_in_turns(
        rt,
        turns,
        source,
        writer,
        chunk,
        &meter.input,
        &start.shared,
    ) {
        Ok(()) => Some(Ok(())),
        Err(Stop::Failed(error)) => Some(Err(error)),
        Err(Stop::Told) => None,
    }
}

// Reads the input into the pipe, at most `chunk` bytes at a time, up to its end, and closes the
// pipe. If it is told to end, it leaves it open.
fn fill_in_turns<R, S>(
    rt: &R,
    turns: &Turns,
    source: &mut S,
    writer: &mut Writer,
    chunk: usize,
    meter: &Side<OfInput>,
    shared: &Shared,
) -> Result<(), Stop>
where
    R: Wait + Clock,
    S: Source,
    requires chunk { 0 < chunk }
    requires is_open { IsOpen writer.old.side.end }
    ensures fed { Fed (S.remaining source.old) (S.remaining source.new)
        writer.old.side.end writer.new.side.end }
    ensures ended { OnOk result (IsAtEnd (S.remaining source.new)) }
    ensures stopped { IfErr result
        (StopsSource (S.fails source.new) (IsLeft writer.new.side.end)) }
    ensures closed { StopsClosed result writer.new.side.end }
{
    for _ in rt.forever() {
        meter.begin_wait(rt);
        shared.wait_for_room(rt, writer);
        meter.end_wait(rt);
        let mut cx = turns.begin();
        let turn = fill_turn(rt, &mut cx, source, writer, chunk, meter, shared);
        cx.end(&turn);
        if let Poll::Ready(ended) = turn {
            return ended;
        }
    }
    unreachable!()
}

// Goes on until there is no room, or the side has ended. Then the pipe is closed, unless the side
// was told to end: the other one waits for no byte any more.
fn fill_turn<R, S, H>(
    rt: &R,
    cx: &mut Context<'_>,
    source: &mut S,
    writer: &mut Writer,
    chunk: usize,
    meter: &Side<OfInput>,
    over: &H,
) -> Poll<Result<(), Stop>>
where
    R: Wait + Clock,
    S: Source,
    H: Hears,
    requires chunk { 0 < chunk }
    requires is_open { IsOpen writer.old.side.end }
    ensures fed { Fed (S.remaining source.old) (S.remaining source.new)
        writer.old.side.end writer.new.side.end }
    ensures ended { IfReady result (λ r. OnOk r (IsAtEnd (S.remaining source.new))) }
    ensures stopped { IfReady result (λ r. IfErr r
        (StopsSource (S.fails source.new) (IsLeft writer.new.side.end))) }
    ensures told { IfReady result (λ r. IfErr r (IsToldBy H.may_end writer.new.side.end)) }
    ensures closed { IfReady result (λ r. StopsClosed r writer.new.side.end) }
    ensures is_open { OnPending result (IsOpen writer.new.side.end) }
    ensures armed { OnPending result (IsArmed cx.new) }
{
    let mut piece = Piece::first(chunk);
    for _ in rt.forever() {
        if over.is_over() {
            return Poll::Ready(Err(Stop::Told));
        }
        let looked = match writer.poll(cx) {
            Poll::Pending => return Poll::Pending,
            Poll::Ready(looked) => looked,
        };
        match looked {
            Ok(true) => {}
            Ok(false) => return Poll::Ready(Err(Stop::Told)),
            Err(_) => {
                let error = Stop::Failed(TransferError::Memory);
                return close(cx, writer, over, Err(error));
            }
        }
        match read_chunk(rt, source, writer, piece.len(), meter, over) {
            Ok(0) => return close(cx, writer, over, Ok(())),
            Ok(count) => piece = piece.after(count),
            Err(Stop::Told) => return Poll::Ready(Err(Stop::Told)),
            Err(Stop::Failed(error)) => {
                return close(cx, writer, over, Err(Stop::Failed(error)));
            }
        }
    }
    unreachable!()
}

/// Publishes what one read gives, of at most so many bytes, and returns how many they are; 0 is the
/// input's end.
pub(crate) fn read_chunk<R, S, H>(
    rt: &R,
    source: &mut S,
    writer: &mut Writer,
    most: usize,
    meter: &Side<OfInput>,
    over: &H,
) -> Result<usize, Stop>
where
    R: Wait + Clock,
    S: Source,
    H: Hears,
    requires most { 0 < most }
    requires room { 0 < writer.old.side.end.room }
    requires is_open { IsOpen writer.old.side.end }
    ensures fed { Fed (S.remaining source.old) (S.remaining source.new)
        writer.old.side.end writer.new.side.end }
    ensures ended { result ≡ Ok 0 → IsAtEnd (S.remaining source.new) }
    ensures stopped { IfErr result (StopsSource (S.fails source.new) H.may_end) }
    ensures is_open { IsOpen writer.new.side.end }
{
    let count = read_patiently(rt, source, writer.write_buf(most), over)?;
    writer.produced(count);
    over.tell();
    meter.add_bytes(count);
    Ok(count)
}

// Closes the pipe, so that the other side ends once it has taken what was published.
fn close<H: Hears>(
    cx: &mut Context<'_>,
    writer: &mut Writer,
    over: &H,
    ended: Result<(), Stop>,
) -> Poll<Result<(), Stop>>
    ensures answer { result ≡ Poll.Ready ended }
    ensures sent { writer.new.side.end.sent ≡ writer.old.side.end.sent }
    ensures ring { writer.new.side.end.ring ≡ writer.old.side.end.ring }
    ensures shut { writer.new.side.end.shut ≡ true }
{
    let _closed = writer.poll_close(cx);
    over.tell_closed(writer);
    Poll::Ready(ended)
}
