//! Both sides in turn on one thread, for where a second one is refused.
ghost use Rattle.std.specs.Prelude.{◌≡◌, ◌<◌, [], OnOk, IfOk, IfErr, false};
ghost use Rattle.std.specs.Io.KnownBytes.{IsAtEnd};
ghost use Rattle.piper.specs.Drains.{StaysKnown};
ghost use Rattle.piper_transfer.specs.Transfer.{Fed, IsOfDestination, IsOfSource, IsOpen, PouredAll};

use crate::draining::write_some;
use crate::ends::{Destination, Source};
use crate::error::{Stop, TransferError};
use crate::filling::read_chunk;
use crate::meter::{Meter, OfOutput, Side};
use crate::piece::Piece;
use crate::shared::Nobody;
use piper::{Reader, Writer};
use std::sync::Wait;
use std::time::Clock;

/// Reads the input to its end, and writes what the pipe holds each time that it holds `level` bytes
/// or is full; of a `level` of 0 that is what each read gave, before the next one is made. It
/// returns how the input ended, or how the output failed.
pub(crate) fn take_turns<R, S, D>(
    rt: &R,
    source: &mut S,
    writer: &mut Writer,
    reader: &mut Reader,
    dest: &mut D,
    chunk: usize,
    level: usize,
    meter: &Meter,
) -> Result<Result<(), TransferError>, TransferError>
where
    R: Wait + Clock,
    S: Source,
    D: Destination,
    requires chunk { 0 < chunk }
    requires is_open { IsOpen writer.old.side.end }
    requires pair { writer.old.side.end.ring ≡ reader.old.side.end.ring }
    requires some { 0 < reader.old.side.end.capacity }
    ensures fed { Fed (S.remaining source.old) (S.remaining source.new)
        writer.old.side.end writer.new.side.end }
    ensures input_ended { IfOk result (λ filled. OnOk filled (IsAtEnd (S.remaining source.new))) }
    ensures poured { PouredAll D.contents D.took dest.old dest.new
        reader.old.side.end reader.new.side.end }
    ensures all { OnOk result (reader.new.side.end.taken ≡ writer.new.side.end.sent) }
    ensures input_told { IfOk result (λ filled. IfErr filled (IsOfSource (S.fails source.new))) }
    ensures reported { IfErr result (IsOfDestination (D.fails dest.new) (D.full dest.new)) }
{
    let (input, output) = (&meter.input, &meter.output);
    let mut piece = Piece::first(chunk);
    for _ in rt.forever() {
        pass_on_from(rt, writer, reader, dest, chunk, level, output)?;
        match read_chunk(rt, source, writer, piece.len(), input, &Nobody) {
            Ok(0) => {
                pass_on(rt, writer, reader, dest, chunk, output)?;
                return Ok(Ok(()));
            }
            Ok(count) => piece = piece.after(count),
            Err(Stop::Failed(error)) => {
                pass_on(rt, writer, reader, dest, chunk, output)?;
                return Ok(Err(error));
            }
            Err(Stop::Told) => unreachable!(),
        }
    }
    unreachable!()
}

/// Goes on as `take_turns` does, where the side that reads the input has left the pipe open.
pub(crate) fn resume<R, S, D>(
    rt: &R,
    source: &mut S,
    writer: &mut Writer,
    reader: &mut Reader,
    dest: &mut D,
    chunk: usize,
    level: usize,
    meter: &Meter,
) -> Result<Result<(), TransferError>, TransferError>
where
    R: Wait + Clock,
    S: Source,
    D: Destination,
    requires chunk { 0 < chunk }
    requires left { writer.old.side.end.shut ≡ false }
    requires pair { writer.old.side.end.ring ≡ reader.old.side.end.ring }
    requires some { 0 < reader.old.side.end.capacity }
    ensures fed { Fed (S.remaining source.old) (S.remaining source.new)
        writer.old.side.end writer.new.side.end }
    ensures input_ended { IfOk result (λ filled. OnOk filled (IsAtEnd (S.remaining source.new))) }
    ensures poured { PouredAll D.contents D.took dest.old dest.new
        reader.old.side.end reader.new.side.end }
    ensures all { OnOk result (reader.new.side.end.taken ≡ writer.new.side.end.sent) }
    ensures input_told { IfOk result (λ filled. IfErr filled (IsOfSource (S.fails source.new))) }
    ensures reported { IfErr result (IsOfDestination (D.fails dest.new) (D.full dest.new)) }
{
    // Both handles, met, say that nobody but this writer closes the pipe.
    reader.meet(writer);
    take_turns(rt, source, writer, reader, dest, chunk, level, meter)
}

// Writes all that was published, if that is at least so many bytes or leaves no room.
fn pass_on_from<R, D>(
    rt: &R,
    writer: &mut Writer,
    reader: &mut Reader,
    dest: &mut D,
    chunk: usize,
    level: usize,
    meter: &Side<OfOutput>,
) -> Result<(), TransferError>
where
    R: Wait + Clock,
    D: Destination,
    requires chunk { 0 < chunk }
    requires pair { writer.old.side.end.ring ≡ reader.old.side.end.ring }
    requires some { 0 < reader.old.side.end.capacity }
    ensures writer { writer.new.side.end
        ≡ record writer.old.side.end { room = writer.new.side.end.room } }
    ensures poured { PouredAll D.contents D.took dest.old dest.new
        reader.old.side.end reader.new.side.end }
    ensures room { OnOk result (0 < writer.new.side.end.room) }
    ensures reported { IfErr result (IsOfDestination (D.fails dest.new) (D.full dest.new)) }
{
    reader.meet(writer);
    if reader.len() < level.min(reader.capacity()) {
        return Ok(());
    }
    pass_on(rt, writer, reader, dest, chunk, meter)
}

// Writes all that was published; then the whole pipe is room.
fn pass_on<R, D>(
    rt: &R,
    writer: &mut Writer,
    reader: &mut Reader,
    dest: &mut D,
    chunk: usize,
    meter: &Side<OfOutput>,
) -> Result<(), TransferError>
where
    R: Wait + Clock,
    D: Destination,
    requires chunk { 0 < chunk }
    requires pair { writer.old.side.end.ring ≡ reader.old.side.end.ring }
    requires some { 0 < reader.old.side.end.capacity }
    ensures writer { writer.new.side.end
        ≡ record writer.old.side.end { room = writer.new.side.end.room } }
    ensures poured { PouredAll D.contents D.took dest.old dest.new
        reader.old.side.end reader.new.side.end }
    ensures all { OnOk result (reader.new.side.end.taken ≡ writer.new.side.end.sent) }
    ensures room { OnOk result (0 < writer.new.side.end.room) }
    ensures reported { IfErr result (IsOfDestination (D.fails dest.new) (D.full dest.new)) }
{
    reader.meet(writer);
    drain_known(rt, reader, dest, chunk, meter)?;
    reader.meet(writer);
    Ok(())
}

// Writes the bytes that the reader knows of to the output.
fn drain_known<R, D>(
    rt: &R,
    reader: &mut Reader,
    dest: &mut D,
    chunk: usize,
    meter: &Side<OfOutput>,
) -> Result<(), TransferError>
where
    R: Wait + Clock,
    D: Destination,
    requires chunk { 0 < chunk }
    ensures poured { PouredAll D.contents D.took dest.old dest.new
        reader.old.side.end reader.new.side.end }
    ensures known { StaysKnown reader.old.side.end reader.new.side.end }
    ensures all { OnOk result (reader.new.side.end.known ≡ []) }
    ensures reported { IfErr result (IsOfDestination (D.fails dest.new) (D.full dest.new)) }
{
    for _ in rt.forever() {
        if reader.peek_buf().is_empty() {
            return Ok(());
        }
        write_some(rt, reader, dest, chunk, meter)?;
    }
    unreachable!()
}
