//! What is read: the part of the input that is asked for.
use crate::ended::Ended;
use crate::found::{Found, Kind};
use piper_transfer::{Patience, TransferError};
use std::alloc::{AllocGlobal, Global};
use std::fs::{self, File, Files};
use std::io;
use std::io::{BufRead, BufReader, Read, Seek, SeekFrom, Stdin, Take};
use std::sync::Wait;
use std::time::Clock;

/// What a read gets room for at least: what a pipe's packet holds at most. A read of less would cut
/// it, and the rest of it would be lost.
const PIPE_PACKET: usize = 4_096;

/// The same, of what a socket's packet holds, a record of a device, or a file of the system, which may
/// give bytes to its first read alone.
const RECORD: usize = 1_048_576;

/// The input.
#[derive(Drop)]
pub enum Inlet {
    Standard(Stdin),
    File(File),
}

impl Read for Inlet {
    fn read(&mut self, buf: &mut [u8]) -> io::Result<usize> {
        match self {
            Inlet::Standard(standard) => standard.read(buf),
            Inlet::File(file) => file.read(buf),
        }
    }
}

/// A part of the input, of which each read has room for a packet.
pub type Part = BufReader<Take<Inlet>>;

/// The part that has what is left out and, after that, so many bytes at most.
pub fn part_of(
    alloc: Global,
    inlet: Inlet,
    found: &Found,
    skip: u64,
    most: Option<u64>,
) -> Result<Part, Ended> {
    let room = match found.kind {
        Kind::Fifo | Kind::BlockDevice => PIPE_PACKET,
        Kind::Regular if 0 < found.len => PIPE_PACKET,
        _ => RECORD,
    };
    let limit = match most {
        Some(most) => skip.saturating_add(most),
        None => u64::MAX,
    };
    BufReader::with_capacity(alloc, room, inlet.take(limit)).map_err(|_| Ended::Memory)
}

/// Passes over what is left out, and makes the first read of what comes after that. Then the input
/// can be read, and files that are written may be opened.
pub fn begin<R: Wait + Clock>(rt: &R, part: &mut Part, skip: u64) -> Result<(), TransferError> {
    let mut patience = Patience::new();
    let mut skip = skip;
    for _ in rt.forever() {
        match part.fill_buf() {
            Ok(bytes) if bytes.is_empty() => {
                // No other read waits for an end that would be typed once more at a terminal.
                part.get_mut().set_limit(0);
                return Ok(());
            }
            Ok(_) if skip == 0 => return Ok(()),
            Ok(bytes) => {
                let count = (bytes.len() as u64).min(skip);
                part.consume(count as usize);
                skip -= count;
            }
            Err(error) if patience.outlasts(rt, &error) => {}
            Err(error) => return Err(TransferError::Read(error)),
        }
    }
    unreachable!()
}

/// Passes over what is left out of a regular file without reading it, if it says how long it is. Returns
/// what is still to be passed over.
pub fn seek_past(inlet: &mut Inlet, found: &Found, skip: u64) -> u64 {
    match inlet {
        Inlet::File(file) if found.kind == Kind::Regular && 0 < found.len => {
            match file.seek(SeekFrom::Start(skip)) {
                Ok(_) => 0,
                Err(_) => skip,
            }
        }
        _ => skip,
    }
}

/// How many bytes of the input are handed on: all but the first `skip`, and `most` at most. If the
/// input's size is not known, it is `most`.
pub fn size_of_part<R>(
    rt: &R,
    inlet: &Inlet,
    found: &Found,
    skip: u64,
    most: Option<u64>,
) -> Option<u64>
where
    R: Files + AllocGlobal,
{
    if found.kind != Kind::Regular {
        return most;
    }
    let before = match inlet {
        Inlet::File(_) => 0,
        Inlet::Standard(_) => position(rt).unwrap_or(0),
    };
    let size = found.len.saturating_sub(before).saturating_sub(skip);
    Some(size.min(most.unwrap_or(u64::MAX)))
}

// How many bytes of standard input were read before, as the system reports in its first line:
// `pos:` and a number.
fn position<R: Files + AllocGlobal>(rt: &R) -> Option<u64> {
    let reported = fs::read_to_string(rt, "/proc/self/fdinfo/0").ok()?;
    let line = reported.as_str().lines().next()?;
    line.strip_prefix("pos:")?.trim().parse::<u64>().ok()
}
