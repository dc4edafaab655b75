//! The side that writes the pipe's bytes to the output.
ghost use Rattle.std.specs.Prelude.{◌≡◌, ◌<◌, ◌-◌, length, Ok, OnOk, IfErr, IfOk, IfSome, IfNone};
ghost use Rattle.futures.specs.Task.{IsArmed};
ghost use Rattle.futures.specs.Poll.{IfReady, OnPending};
ghost use Rattle.piper.specs.Drains.{StaysKnown};
ghost use Rattle.piper.specs.Looks.{IsEnded};
ghost use Rattle.piper_transfer.specs.Transfer.{IsLasting, IsOfDestination, PouredAll};

use crate::ends::Destination;
use crate::error::TransferError;
use crate::level::Reached;
use crate::meter::{Meter, OfOutput, Side};
use crate::patience::write_patiently;
use crate::shared::Shared;
use crate::start::Start;
use crate::turns::Output;
use futures::task::{Context, Poll};
use piper::Reader;
use std::io;
use std::sync::Wait;
use std::time::Clock;

/// Empties the pipe as `drain_output` does, once the other side has begun. If that one has not,
/// it is given up; then the answer is `None` and nothing was done. If the output fails, the other
/// side is told to end: bytes that it publishes until then stay in the pipe.
pub(crate) fn drain_from<R, D>(
    rt: &R,
    start: &Start,
    output: &mut Output,
    dest: &mut D,
    chunk: usize,
    meter: &Meter,
) -> Option<Result<(), TransferError>>
where
    R: Wait + Clock,
    D: Destination,
    requires chunk { 0 < chunk }
    ensures poured { PouredAll D.contents D.took dest.old dest.new
        output.old.reader.side.end output.new.reader.side.end }
    ensures ended { IfSome result (λ r. OnOk r (IsEnded output.new.reader.side.end)) }
    ensures reported { IfSome result (λ r. IfErr r
        (IsOfDestination (D.fails dest.new) (D.full dest.new))) }
    ensures given_up { IfNone result
        ((output.new ≡ output.old) × (dest.new ≡ dest.old)) }
{
    if !start.wait(rt) {
        return None;
    }
    let ended = drain_output(rt, output, dest, chunk, &start.shared, &meter.output);
    if ended.is_err() {
        start.shared.end_output();
    }
    Some(ended)
}

/// Writes the pipe's bytes to the output, at most `chunk` at a time, up to the pipe's end or the
/// first failure.
pub(crate) fn drain_output<R, D>(
    rt: &R,
    output: &mut Output,
    dest: &mut D,
    chunk: usize,
    shared: &Shared,
    meter: &Side<OfOutput>,
) -> Result<(), TransferError>
where
    R: Wait + Clock,
    D: Destination,
    requires chunk { 0 < chunk }
    ensures poured { PouredAll D.contents D.took dest.old dest.new
        output.old.reader.side.end output.new.reader.side.end }
    ensures ended { OnOk result (IsEnded output.new.reader.side.end) }
    ensures reported { IfErr result (IsOfDestination (D.fails dest.new) (D.full dest.new)) }
{
    for _ in rt.forever() {
        meter.begin_wait(rt);
        let reached = output.level.wait(rt, &output.reader, shared);
        meter.end_wait(rt);
        let mut cx = output.turns.begin();
        let reader = &mut output.reader;
        let turn = drain_turn(rt, &mut cx, reader, reached, dest, chunk, shared, meter);
        cx.end(&turn);
        if let Poll::Ready(ended) = turn {
            return ended;
        }
    }
    unreachable!()
}

// Goes on until no byte is known, or the side has ended.
fn drain_turn<R, D>(
    rt: &R,
    cx: &mut Context<'_>,
    reader: &mut Reader,
    _reached: Reached,
    dest: &mut D,
    chunk: usize,
    shared: &Shared,
    meter: &Side<OfOutput>,
) -> Poll<Result<(), TransferError>>
where
    R: Wait + Clock,
    D: Destination,
    requires chunk { 0 < chunk }
    ensures poured { PouredAll D.contents D.took dest.old dest.new
        reader.old.side.end reader.new.side.end }
    ensures ended { IfReady result (λ r. OnOk r (IsEnded reader.new.side.end)) }
    ensures reported { IfReady result (λ r. IfErr r
        (IsOfDestination (D.fails dest.new) (D.full dest.new))) }
    ensures armed { OnPending result (IsArmed cx.new) }
{
    for _ in rt.forever() {
        let looked = match reader.poll(cx) {
            Poll::Pending => return Poll::Pending,
            Poll::Ready(looked) => looked,
        };
        match looked {
            Ok(true) => {}
            Ok(false) => return Poll::Ready(Ok(())),
            Err(_) => return Poll::Ready(Err(TransferError::Memory)),
        }
        if let Err(error) = write_some(rt, reader, dest, chunk, meter) {
            return Poll::Ready(Err(error));
        }
        shared.tell_room();
    }
    unreachable!()
}

/// Takes as many bytes out of the pipe as one write takes.
pub(crate) fn write_some<R, D>(
    rt: &R,
    reader: &mut Reader,
    dest: &mut D,
    chunk: usize,
    meter: &Side<OfOutput>,
) -> Result<(), TransferError>
where
    R: Wait + Clock,
    D: Destination,
    requires chunk { 0 < chunk }
    requires some { 0 < length reader.old.side.end.known }
    ensures poured { PouredAll D.contents D.took dest.old dest.new
        reader.old.side.end reader.new.side.end }
    ensures known { StaysKnown reader.old.side.end reader.new.side.end }
    ensures reported { IfErr result (IsOfDestination (D.fails dest.new) (D.full dest.new)) }
{
    match write_chunk(rt, reader, dest, chunk) {
        Ok(0) => Err(TransferError::Full),
        Ok(count) => {
            meter.add_bytes(count);
            Ok(())
        }
        Err(error) => Err(TransferError::Write(error)),
    }
}

// Takes as many bytes out of the pipe as one write takes, and returns how many.
fn write_chunk<R, D>(rt: &R, reader: &mut Reader, dest: &mut D, chunk: usize) -> io::Result<usize>
where
    R: Wait + Clock,
    D: Destination,
    requires chunk { 0 < chunk }
    requires some { 0 < length reader.old.side.end.known }
    ensures poured { PouredAll D.contents D.took dest.old dest.new
        reader.old.side.end reader.new.side.end }
    ensures known { StaysKnown reader.old.side.end reader.new.side.end }
    ensures count { IfOk result (λ n.
        n ≡ length reader.new.side.end.taken - length reader.old.side.end.taken) }
    ensures full { result ≡ Ok 0 → D.full dest.new }
    ensures error { IfErr result (D.fails dest.new) }
    ensures lasting { IfErr result IsLasting }
{
    let piece = reader.peek_buf();
    let count = write_patiently(rt, dest, &piece[..piece.len().min(chunk)])?;
    reader.consume(count);
    Ok(count)
}
