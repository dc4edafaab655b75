//! What comes back from an echo is printed.
ghost use Rattle.std.specs.Prelude.{◌≡◌, ◌+◌, ◌<◌, ◌≤◌, length, Ok, OnOk, IfOk, IfErr};
ghost use Rattle.std.specs.Io.KnownBytes.{WriteAppends};
ghost use Rattle.futures.specs.Task.{IsArmed};
ghost use Rattle.futures.specs.Poll.{OnPending};
ghost use Rattle.piper.specs.Polls.{IfReadyErr};
ghost use Rattle.piper_duplex.specs.Client.{PrintPends, Prints, WasInterrupted};
ghost use Rattle.piper_duplex.specs.Failures.{CannotWrite, PrintFails, WriteHasFailed};

use crate::engine::lost::{read_refused, unanswered};
use crate::engine::session::Ended;
use crate::engine::waiting::{Still, Turns, end_printing};
use futures::task::{Context, Poll};
use piper::io::AsyncBufRead;
use piper::like::StdWriter;
use std::alloc::AllocGlobal;
use std::io::ErrorKind;
use std::random::RandomSource;
use std::sync::Wait;

/// How many writes a poll makes at most before it asks for another one, which it also does where
/// one is interrupted.
const MOST_WRITES: u32 = 64;

/// Prints and flushes so many bytes, once they come back.
pub(crate) fn print_line<R, A, O>(
    rt: &R,
    reader: &mut A,
    size: usize,
    output: &mut O,
) -> Result<(), Ended>
where
    R: Wait + RandomSource + AllocGlobal,
    A: AsyncBufRead,
    O: StdWriter,
    ensures printed { Prints (A.taken reader.old) (A.taken reader.new)
        (O.contents output.old) (O.contents output.new) }
    ensures whole { OnOk result
        (length (A.taken reader.new) ≡ length (A.taken reader.old) + size) }
    ensures flushed { OnOk result (O.flushed output.new) }
    ensures failed { IfErr result (PrintFails (WriteHasFailed O.fails O.full output.new)) }
{
    let (turns, mut still) = Turns::new(rt)?;
    let mut count = 0;
    for _ in rt.forever() {
        let cx = turns.next(rt, still)?;
        let (turn, next) = print_in_turn(reader, cx, size, &mut count, output);
        match turn {
            Poll::Pending => still = next,
            Poll::Ready(Ok(())) => return output.flush_once().map_err(|_| Ended::WRITE_FAILED),
            Poll::Ready(Err(ended)) => return Err(ended),
        }
    }
    unreachable!()
}

// Prints what comes, as `poll_print` does, and ends the turn. It has no way to wait, so it ends.
fn print_in_turn<A, O>(
    reader: &mut A,
    mut cx: Context<'_>,
    size: usize,
    count: &mut usize,
    output: &mut O,
) -> (Poll<Result<(), Ended>>, Still)
where
    A: AsyncBufRead,
    O: StdWriter,
    requires { count.old ≤ size }
    ensures printed { Prints (A.taken reader.old) (A.taken reader.new)
        (O.contents output.old) (O.contents output.new) }
    ensures within { count.new ≤ size }
    ensures counted { length (A.taken reader.new) + count.old
        ≡ length (A.taken reader.old) + count.new }
    ensures whole { result.0 ≡ Poll.Ready (Ok (record {})) → count.new ≡ size }
    ensures failed { IfReadyErr result.0 (PrintFails (WriteHasFailed O.fails O.full output.new)) }
{
    let before = *count;
    let turn = poll_print(reader, &mut cx, size, count, output);
    let still = end_printing(cx, &turn, reader, output, *count - before);
    (turn, still)
}

// Prints what comes until there are `size` bytes, and adds how many that were to `count`. Bytes are
// taken once they are printed.
fn poll_print<A, O>(
    reader: &mut A,
    cx: &mut Context<'_>,
    size: usize,
    count: &mut usize,
    output: &mut O,
) -> Poll<Result<(), Ended>>
where
    A: AsyncBufRead,
    O: StdWriter,
    requires { count.old ≤ size }
    ensures printed { Prints (A.taken reader.old) (A.taken reader.new)
        (O.contents output.old) (O.contents output.new) }
    ensures within { count.new ≤ size }
    ensures counted { length (A.taken reader.new) + count.old
        ≡ length (A.taken reader.old) + count.new }
    ensures whole { result ≡ Poll.Ready (Ok (record {})) → count.new ≡ size }
    ensures armed { OnPending result (IsArmed cx.new) }
    ensures pends { OnPending result (PrintPends (A.waits reader.new cx.new)
        (WasInterrupted O.fails output.new) count.old count.new cx.new) }
    ensures failed { IfReadyErr result (PrintFails (WriteHasFailed O.fails O.full output.new)) }
{
    for _ in 0..MOST_WRITES {
        if *count == size {
            return Poll::Ready(Ok(()));
        }
        let bytes = match reader.poll_fill_buf(cx) {
            Poll::Pending => return Poll::Pending,
            Poll::Ready(Err(error)) => return Poll::Ready(Err(read_refused(reader, cx, error))),
            Poll::Ready(Ok(bytes)) => bytes,
        };
        if bytes.is_empty() {
            return Poll::Ready(Err(unanswered(reader)));
        }
        let room = bytes.len().min(size - *count);
        match write_some(output, &bytes[..room]) {
            Ok(0) => return cx.yield_now(),
            Ok(written) => {
                reader.consume(written);
                *count += written;
            }
            Err(ended) => return Poll::Ready(Err(ended)),
        }
    }
    cx.yield_now()
}

// Writes once. A write that was interrupted has written none.
fn write_some<O: StdWriter>(output: &mut O, bytes: &[u8]) -> Result<usize, Ended>
    ensures bound { IfOk result (λ n. n ≤ length bytes.now) }
    ensures written { WriteAppends (O.contents output.old) (O.contents output.new)
        result bytes.now }
    ensures interrupted { result ≡ Ok 0 → WasInterrupted O.fails output.new }
    ensures failed { 0 < length bytes.now →
        IfErr result (CannotWrite (WriteHasFailed O.fails O.full output.new)) }
{
    match output.write_once(bytes) {
        Ok(0) => Err(Ended::WRITE_FAILED),
        Ok(count) => Ok(count),
        Err(error) if error.kind() == ErrorKind::Interrupted => Ok(0),
        Err(_) => Err(Ended::WRITE_FAILED),
    }
}
