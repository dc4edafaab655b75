//! A transfer: both sides, each on a thread.
ghost use Rattle.std.specs.Prelude.{◌≡◌, ◌<◌, ◌≤◌, ◌*◌, ◌^◌, IfOk, IfErr, OnOk, IfSome, IfNone, true, false};
ghost use Rattle.std.specs.Io.KnownBytes.{IsAtEnd, Keeps};
ghost use Rattle.piper.specs.Looks.{IsEnded};
ghost use Rattle.piper.specs.Opened.{FreshReadEnd, FreshWriteEnd};
ghost use Rattle.piper_transfer.specs.Taken.{StaysTaken};
ghost use Rattle.piper_transfer.specs.Transfer.{Fed, IsDrained, IsOfDestination, IsOfMemory, IsOfSide, IsOfSource};
ghost use Rattle.piper_transfer.specs.Transfer.{IsOpen, IsReady, PouredAll, Transfers, WritesAll};

use crate::draining::{drain_from, drain_output};
use crate::ends::{Destination, Source};
use crate::error::TransferError;
use crate::filling::fill_from;
use crate::level::Level;
use crate::meter::Meter;
use crate::one_thread::{resume, take_turns};
use crate::patience::flush_patiently;
use crate::shared::Shared;
use crate::sizes::Sizes;
use crate::start::{Start, grants_thread};
use crate::turns::{Input, Output, Turns};
use piper::{Writer, pipe};
use std::alloc::AllocGlobal;
use std::marker::Send;
use std::random::RandomSource;
use std::sync::Wait;
use std::thread::{Threads, join_mut};
use std::time::Clock;

/// A transfer that has its memory, and has not begun.
#[derive(Drop)]
pub struct Ready {
    sizes: Sizes,
    input: Input,
    output: Output,
}

/// Moves all bytes from the reader to the writer, through a pipe: one thread reads while the other
/// writes. If a second thread is refused, or is late, both sides take turns on this one.
///
/// It ends at the input's end, once all of it is written, or at the first failure of either side. A
/// read or a write is made again if it is interrupted, and after a sleep of 1 to 10 milliseconds if
/// it would block (not proved). `meter` is kept up to date meanwhile (tested, not proved).
///
/// Returns: `Ok(())`: all that the input gave is written, and the output is flushed.
/// Errors: `Read`: all that the input gave before is written, and the output is flushed. `Write`: a
/// write or a flush failed; the output has a front of what the input gave. If a read fails and then
/// the flush fails, `Write` is reported. `Full`: a write took none of some bytes; else as `Write`.
/// `Memory`: memory was refused, for the pipe or for a waker. `Turns`: a thread could not be made to
/// wait. In all cases the output was given a front of what the input gave, in order.
pub fn transfer<R, S, D>(
    rt: &R,
    source: &mut S,
    dest: &mut D,
    sizes: Sizes,
    meter: &Meter,
) -> Result<(), TransferError>
where
    R: Wait + Threads + Clock + RandomSource + AllocGlobal + Clone + Drop + Send + Sync,
    S: Source + Send,
    D: Destination,
    ensures moved { Transfers result (S.remaining source.old) (S.remaining source.new)
        D.contents D.took dest.old dest.new }
    ensures flushed { WritesAll result → D.flushed dest.new }
    ensures reported { IfErr result
        (IsOfSide (S.fails source.new) (D.fails dest.new) (D.full dest.new)) }
{
    let ready = Ready::new(rt, sizes)?;
    ready.transfer(rt, source, dest, meter)
}

impl Ready {
    /// Asks for the memory.
    ///
    /// Errors: `Memory`: memory was refused for the pipe. `Turns`: a thread can't be made to wait.
    pub fn new<R>(rt: &R, sizes: Sizes) -> Result<Ready, TransferError>
    where
        R: Wait + RandomSource + AllocGlobal + Clone + Drop,
        ensures refused { IfErr result IsOfMemory }
        ensures ready { IfOk result IsReady }
    {
        let (input, output) = open(rt, sizes)?;
        Ok(Ready {
            sizes,
            input,
            output,
        })
    }

    /// Moves all bytes, as `transfer` does.
    ///
    /// Requires: nothing was moved yet.
    pub fn transfer<R, S, D>(
        self,
        rt: &R,
        source: &mut S,
        dest: &mut D,
        meter: &Meter,
    ) -> Result<(), TransferError>
    where
        R: Wait + Threads + Clock + RandomSource + AllocGlobal + Clone + Drop + Send + Sync,
        S: Source + Send,
        D: Destination,
        requires ready { IsReady self }
        ensures moved { Transfers result (S.remaining source.old) (S.remaining source.new)
            D.contents D.took dest.old dest.new }
        ensures flushed { WritesAll result → D.flushed dest.new }
        ensures reported { IfErr result
            (IsOfSide (S.fails source.new) (D.fails dest.new) (D.full dest.new)) }
    {
        let Ready {
            sizes,
            mut input,
            mut output,
        } = self;
        let chunk = sizes.chunk.min(sizes.capacity);
        let both = run_sides(rt, source, &mut input, &mut output, dest, chunk, meter);
        // Now that both handles are held by one thread, what is left where the output failed is
        // known; else nothing is.
        output.reader.meet(&mut input.writer);
        let filled = both?;
        flush(rt, dest).and(filled)
    }
}

// A pipe, and turns for each of its ends.
fn open<R>(rt: &R, sizes: Sizes) -> Result<(Input, Output), TransferError>
where
    R: Wait + RandomSource + AllocGlobal + Clone + Drop,
    ensures refused { IfErr result IsOfMemory }
    ensures ring { IfOk result (λ (input, output).
        input.writer.side.end.ring ≡ output.reader.side.end.ring) }
    ensures input { IfOk result (λ (input, _). FreshWriteEnd sizes.capacity input.writer.side.end) }
    ensures output { IfOk result (λ (_, output).
        FreshReadEnd sizes.capacity output.reader.side.end) }
{
    let input_turns = Turns::new(rt).map_err(TransferError::Turns)?;
    let output_turns = Turns::new(rt).map_err(TransferError::Turns)?;
    let (reader, writer) = match pipe(rt.alloc(), sizes.capacity) {
        Ok(handles) => handles,
        Err(_) => return Err(TransferError::Memory),
    };
    let input = Input {
        turns: input_turns,
        writer,
    };
    let output = Output {
        turns: output_turns,
        reader,
        level: Level::of(sizes),
    };
    Ok((input, output))
}

// Flushes the output, which has all.
fn flush<R, D>(rt: &R, dest: &mut D) -> Result<(), TransferError>
where
    R: Wait + Clock,
    D: Destination,
    ensures kept { Keeps (D.contents dest.old) (D.contents dest.new) }
    ensures taken { StaysTaken D.took dest.old dest.new }
    ensures flushed { OnOk result (D.flushed dest.new) }
    ensures reported { IfErr result (IsOfDestination (D.fails dest.new) (D.full dest.new)) }
{
    flush_patiently(rt, dest).map_err(TransferError::Write)
}

// Runs both sides to their end: on a thread each, or in turn where a second one is refused. Returns
// how the input ended, or how the output failed.
fn run_sides<R, S, D>(
    rt: &R,
    source: &mut S,
    input: &mut Input,
    output: &mut Output,
    dest: &mut D,
    chunk: usize,
    meter: &Meter,
) -> Result<Result<(), TransferError>, TransferError>
where
    R: Wait + Threads + Clock + Clone + Drop + Send + Sync,
    S: Source + Send,
    D: Destination,
    requires chunk { 0 < chunk }
    requires is_open { IsOpen input.old.writer.side.end }
    requires pair { input.old.writer.side.end.ring ≡ output.old.reader.side.end.ring }
    requires some { 0 < output.old.reader.side.end.capacity }
    ensures fed { Fed (S.remaining source.old) (S.remaining source.new)
        input.old.writer.side.end input.new.writer.side.end }
    ensures input_ended { IfOk result (λ filled. OnOk filled (IsAtEnd (S.remaining source.new))) }
    ensures poured { PouredAll D.contents D.took dest.old dest.new
        output.old.reader.side.end output.new.reader.side.end }
    ensures drained { OnOk result (IsDrained output.new.reader.side.end input.new.writer.side.end) }
    ensures input_told { IfOk result (λ filled. IfErr filled (IsOfSource (S.fails source.new))) }
    ensures reported { IfErr result (IsOfDestination (D.fails dest.new) (D.full dest.new)) }
{
    if !grants_thread(rt) {
        let (writer, reader) = (&mut input.writer, &mut output.reader);
        let level = output.level.bytes();
        return take_turns(rt, source, writer, reader, dest, chunk, level, meter);
    }
    let (turns, writer) = (&mut input.turns, &mut input.writer);
    match on_two_threads(rt, source, turns, writer, output, dest, chunk, meter) {
        (Some(filled), Some(drained)) => drained.and(Ok(filled)),
        (Some(filled), None) => {
            drain_output(rt, output, dest, chunk, &Shared::new(), &meter.output).and(Ok(filled))
        }
        (None, Some(Err(error))) => Err(error),
        // Nothing has failed, so the input is read all the same.
        (None, _) => {
            let (writer, reader) = (&mut input.writer, &mut output.reader);
            let level = output.level.bytes();
            resume(rt, source, writer, reader, dest, chunk, level, meter)
        }
    }
}

// Runs both sides to their end, if the second thread begins. A side that was given up returns
// `None`, and so does the one that reads where it was told to end.
fn on_two_threads<R, S, D>(
    rt: &R,
    source: &mut S,
    turns: &mut Turns,
    writer: &mut Writer,
    output: &mut Output,
    dest: &mut D,
    chunk: usize,
    meter: &Meter,
) -> (
    Option<Result<(), TransferError>>,
    Option<Result<(), TransferError>>,
)
where
    R: Wait + Threads + Clock + Clone + Drop + Send + Sync,
    S: Source + Send,
    D: Destination,
    requires chunk { 0 < chunk }
    requires is_open { IsOpen writer.old.side.end }
    ensures fed { Fed (S.remaining source.old) (S.remaining source.new)
        writer.old.side.end writer.new.side.end }
    ensures input_ended { IfSome result.0 (λ r. OnOk r (IsAtEnd (S.remaining source.new))) }
    ensures fill_left { IfNone result.0 (writer.new.side.end.shut ≡ false) }
    ensures poured { PouredAll D.contents D.took dest.old dest.new
        output.old.reader.side.end output.new.reader.side.end }
    ensures drained { IfSome result.1 (λ r. OnOk r (IsEnded output.new.reader.side.end)) }
    ensures input_told { IfSome result.0 (λ r. IfErr r (IsOfSource (S.fails source.new))) }
    ensures reported { IfSome result.1 (λ r. IfErr r
        (IsOfDestination (D.fails dest.new) (D.full dest.new))) }
    ensures drain_given_up { IfNone result.1
        ((output.new ≡ output.old) × (dest.new ≡ dest.old)) }
    ensures input_closed { IfSome result.0 (λ _. writer.new.side.end.shut ≡ true) }
{
    let start = &Start::new();
    join_mut(
        rt,
        &mut || fill_from(rt, start, turns, source, writer, chunk, meter),
        &mut || drain_from(rt, start, output, dest, chunk, meter),
    )
}
