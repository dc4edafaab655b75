//! The client of an echo: it sends text line by line, and prints what comes back.
ghost use Rattle.std.specs.Prelude.{◌≡◌, ◌+◌, ℕ, List, [], length, true, false};
ghost use Rattle.std.specs.Prelude.{OnOk, IfErr};
ghost use Rattle.std.specs.Io.{ReadsAtMost};
ghost use Rattle.std.specs.Io.KnownBytes.{IsAtEnd, ReadConsumes};
ghost use Rattle.piper_lines.specs.Sends.{Sends};
ghost use Rattle.piper_duplex.specs.Client.{Prints, SendsOn};
ghost use Rattle.piper_duplex.specs.Failures.{CannotRead, HasFailedAt, PrintFails, TalkFails, WriteHasFailed};

use crate::engine::line::Line;
use crate::engine::session::Ended;
use piper::io::{AsyncBufRead, AsyncWrite};
use piper::like::{StdReader, StdWriter};
use std::alloc::AllocGlobal;
use std::io::ErrorKind;
use std::random::RandomSource;
use std::sync::Wait;

/// How many bytes of the input are read at once.
const MOST_OF_A_READ: usize = 4_096;

/// Sends the input line by line, and prints each line that was sent whole once it comes back. The
/// answer is how many bytes of a last line without LF were sent, which are still to come back.
pub(crate) fn talk<R, A, B, I, O>(
    rt: &R,
    reader: &mut A,
    writer: &mut B,
    input: &mut I,
    output: &mut O,
) -> Result<usize, Ended>
where
    R: Wait + RandomSource + AllocGlobal,
    A: AsyncBufRead,
    B: AsyncWrite,
    I: StdReader,
    O: StdWriter,
    requires { O.flushed output.old }
    ensures sent { SendsOn result (I.remaining input.old) (I.remaining input.new)
        (B.sent writer.old) (B.sent writer.new) (B.saw writer.old) (B.saw writer.new)
        (A.taken reader.old) (A.taken reader.new) }
    ensures ended { OnOk result (IsAtEnd (I.remaining input.new)) }
    ensures printed { Prints (A.taken reader.old) (A.taken reader.new)
        (O.contents output.old) (O.contents output.new) }
    ensures flushed { OnOk result (O.flushed output.new) }
    ensures failed { IfErr result (TalkFails (HasFailedAt I.fails input.new)
        (WriteHasFailed O.fails O.full output.new)) }
{
    let mut place = [0; MOST_OF_A_READ];
    let mut line = Line::new();
    for _ in rt.forever() {
        let count = read_some(rt, input, &mut place)?;
        if count == 0 {
            return Ok(line.sent());
        }
        send_lines(rt, reader, writer, &place[..count], &mut line, output)?;
    }
    unreachable!()
}

// Reads once; none is the end. A read that was interrupted is made again.
fn read_some<R: Wait, I: StdReader>(rt: &R, input: &mut I, place: &mut [u8]) -> Result<usize, Ended>
    ensures bound { ReadsAtMost result place.new }
    ensures read { ReadConsumes (I.remaining input.old) (I.remaining input.new) result place.new }
    ensures failed { IfErr result (CannotRead (HasFailedAt I.fails input.new)) }
{
    for _ in rt.forever() {
        match input.read_once(place) {
            Ok(count) => return Ok(count),
            Err(error) if error.kind() == ErrorKind::Interrupted => {}
            Err(_) => return Err(Ended::READ_FAILED),
        }
    }
    unreachable!()
}

// Sends what was read, and prints each line once it was sent whole and came back.
fn send_lines<R, A, B, O>(
    rt: &R,
    reader: &mut A,
    writer: &mut B,
    bytes: &[u8],
    line: &mut Line,
    output: &mut O,
) -> Result<(), Ended>
where
    R: Wait + RandomSource + AllocGlobal,
    A: AsyncBufRead,
    B: AsyncWrite,
    O: StdWriter,
    requires next { line.old.is_whole ≡ false }
    requires flushed { O.flushed output.old }
    ensures sent { (left : List ℕ) × OnOk result (left ≡ []) × Sends bytes.now left
        (B.sent writer.old) (B.sent writer.new) (B.saw writer.old) (B.saw writer.new) }
    ensures stays { B.saw writer.old ≡ true → B.saw writer.new ≡ true }
    ensures printed { Prints (A.taken reader.old) (A.taken reader.new)
        (O.contents output.old) (O.contents output.new) }
    ensures all { OnOk result (length (A.taken reader.old) + line.old.sent + length bytes.now
        ≡ length (A.taken reader.new) + line.new.sent) }
    ensures next { OnOk result (line.new.is_whole ≡ false) }
    ensures flushed { OnOk result (O.flushed output.new) }
    ensures failed { IfErr result (PrintFails (WriteHasFailed O.fails O.full output.new)) }
{
    let mut at = 0;
    while at < bytes.len() {
        line.send(rt, writer, bytes, &mut at, output)?;
        if line.is_whole() {
            line.print(rt, reader, output)?;
        }
    }
    Ok(())
}
