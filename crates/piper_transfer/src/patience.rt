//! Calls of an input or an output that are made again: at once where they were interrupted, and
//! after a short sleep where they would block.
ghost use Rattle.std.specs.Prelude.{◌≡◌, ◌<◌, ◌≤◌, ◌↔◌, IsTrue, length, false, Ok, OnOk, IfErr};
ghost use Rattle.std.specs.Io.{ReadsAtMost, WritesAtMost};
ghost use Rattle.std.specs.Io.KnownBytes.{Keeps, ReadConsumes, WriteAppends};
ghost use Rattle.piper_transfer.specs.Taken.{StaysTaken, WriteTakes};
ghost use Rattle.piper_transfer.specs.Transfer.{IsLasting, StopsSource};

use crate::ends::{Destination, Source};
use crate::error::{Stop, TransferError};
use crate::shared::Hears;
use std::io::ErrorKind;
use std::sync::Wait;
use std::time::{Clock, Duration};
use std::{io, thread};

/// How many milliseconds the first sleep takes. Each later one takes twice as long as the one
/// before.
const SHORTEST: u64 = 1;

/// How many milliseconds a sleep takes at most.
const LONGEST: u64 = 10;

/// How long the next sleep takes, before a call is made again that would block.
#[derive(Clone, Copy)]
pub struct Patience {
    milliseconds: u64,
    ghost bounds: { (1 ≤ milliseconds) × (milliseconds ≤ 10) },
}

impl Patience {
    /// The first one is short.
    pub fn new() -> Patience {
        Patience {
            milliseconds: SHORTEST,
        }
    }

    /// Whether a call that failed so is to be made again. If it would block, this sleeps before that
    /// (tested, not proved).
    pub fn outlasts(&mut self, clock: &impl Clock, error: &io::Error) -> bool
        ensures lasting { result ≡ false → IsLasting error.now }
    {
        match error.kind() {
            ErrorKind::Interrupted => true,
            ErrorKind::WouldBlock => {
                thread::sleep(clock, Duration::from_millis(self.milliseconds));
                self.milliseconds = self.milliseconds.saturating_mul(2).min(LONGEST);
                true
            }
            _ => false,
        }
    }
}

/// Whether a call that failed with this error is not made again: it was not interrupted, and would
/// not block.
pub fn is_lasting(error: &io::Error) -> bool
    ensures { IsTrue result ↔ IsLasting error.now }
{
    !matches!(error.kind(), ErrorKind::Interrupted | ErrorKind::WouldBlock)
}

/// Reads once. A read that gave nothing for now is made again, unless the output has ended
/// meanwhile.
pub(crate) fn read_patiently<R, S, H>(
    rt: &R,
    source: &mut S,
    buf: &mut [u8],
    over: &H,
) -> Result<usize, Stop>
where
    R: Wait + Clock,
    S: Source,
    H: Hears,
    ensures bound { ReadsAtMost result buf.new }
    ensures bytes { ReadConsumes (S.remaining source.old) (S.remaining source.new) result buf.new }
    ensures stopped { IfErr result (StopsSource (S.fails source.new) H.may_end) }
{
    let mut patience = Patience::new();
    for _ in rt.forever() {
        match source.read(buf) {
            Ok(count) => return Ok(count),
            Err(error) if !patience.outlasts(rt, &error) => {
                return Err(Stop::Failed(TransferError::Read(error)));
            }
            Err(_) if over.is_over() => return Err(Stop::Told),
            Err(_) => {}
        }
    }
    unreachable!()
}

/// Writes once. A write that took nothing for now is made again.
pub fn write_patiently<R, D>(rt: &R, dest: &mut D, buf: &[u8]) -> io::Result<usize>
where
    R: Wait + Clock,
    D: Destination,
    ensures bound { WritesAtMost result buf.now }
    ensures bytes { WriteAppends (D.contents dest.old) (D.contents dest.new) result buf.now }
    ensures taken { WriteTakes D.took dest.old dest.new result buf.now }
    ensures full { result ≡ Ok 0 → 0 < length buf.now → D.full dest.new }
    ensures error { IfErr result (D.fails dest.new) }
    ensures lasting { IfErr result IsLasting }
{
    let mut patience = Patience::new();
    for _ in rt.forever() {
        match dest.write(buf) {
            Err(error) if patience.outlasts(rt, &error) => {}
            written => return written,
        }
    }
    unreachable!()
}

/// Flushes the output. A flush is made again if it is interrupted, and after a sleep of 1 to 10
/// milliseconds if it would block.
///
/// Errors: that of the output; it is of another kind than these two.
pub fn flush_patiently<R, D>(rt: &R, dest: &mut D) -> io::Result<()>
where
    R: Wait + Clock,
    D: Destination,
    ensures bytes { Keeps (D.contents dest.old) (D.contents dest.new) }
    ensures taken { StaysTaken D.took dest.old dest.new }
    ensures done { OnOk result (D.flushed dest.new) }
    ensures error { IfErr result (D.fails dest.new) }
    ensures lasting { IfErr result IsLasting }
{
    let mut patience = Patience::new();
    for _ in rt.forever() {
        match dest.flush() {
            Err(error) if patience.outlasts(rt, &error) => {}
            flushed => return flushed,
        }
    }
    unreachable!()
}
