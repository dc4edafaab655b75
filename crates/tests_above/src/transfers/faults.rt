//! Transfers between ends of which one call goes wrong.
use crate::compare::same;
use crate::transfers::faulty::{Fault, Input, Output};
use piper_transfer::{Meter, Plain, Sizes, TransferError, transfer};
use std::alloc::AllocGlobal;
use std::io::ErrorKind;
use std::marker::{Send, Sync};
use std::process::Abort;
use std::random::RandomSource;
use std::sync::Wait;
use std::thread::Threads;
use std::time::Clock;

/// No call has this number.
const NEVER: Fault = Fault {
    call: u32::MAX,
    kind: ErrorKind::Other,
};

/// How many bytes the inputs have.
const TOTAL: usize = 10_000;

/// How a transfer ended, without its error's text.
#[derive(Clone, Copy, Debug, PartialEq, Eq)]
enum Ended {
    Moved,
    InputFailed,
    OutputFailed,
    OutputFull,
    Other,
}

/// What was seen of a transfer.
#[derive(Clone, Copy)]
struct Seen {
    ended: Ended,
    given: u64,
    taken: u64,
    reads: u32,
    writes: u32,
    metered: (u64, u64),
}

fn how_it_ended(moved: Result<(), TransferError>) -> Ended {
    match moved {
        Ok(()) => Ended::Moved,
        Err(TransferError::Read(_)) => Ended::InputFailed,
        Err(TransferError::Write(_)) => Ended::OutputFailed,
        Err(TransferError::Full) => Ended::OutputFull,
        Err(_) => Ended::Other,
    }
}

/// A transfer of `TOTAL` bytes between ends of which one call or none goes wrong. The answer is how
/// it ended, and how many calls were made of either end.
fn transfers<R>(rt: &R, read: Fault, write: Fault) -> Seen
where
    R: Abort + Wait + Threads + Clock + RandomSource + AllocGlobal + Clone + Drop + Send + Sync,
{
    transfers_to(rt, read, Output::new(write))
}

/// The same, to this output.
fn transfers_to<R>(rt: &R, read: Fault, output: Output) -> Seen
where
    R: Abort + Wait + Threads + Clock + RandomSource + AllocGlobal + Clone + Drop + Send + Sync,
{
    let sizes = Sizes {
        capacity: 256,
        chunk: 64,
        level: 0,
    };
    let mut input = Plain(Input::new(TOTAL, read));
    let mut output = Plain(output);
    let meter = Meter::new();
    let ended = how_it_ended(transfer(rt, &mut input, &mut output, sizes, &meter));
    let (input, output) = (input.0, output.0);
    same(rt, output.is_right, true);
    Seen {
        ended,
        given: input.given,
        taken: output.taken,
        reads: input.calls,
        writes: output.calls,
        metered: (meter.input.bytes(), meter.output.bytes()),
    }
}

#[test]
fn all_bytes_go_through_in_order(rt: HostRuntime) {
    let seen = transfers(&rt, NEVER, NEVER);
    let total = TOTAL as u64;
    same(&rt, seen.ended, Ended::Moved);
    same(&rt, seen.taken, total);
    same(&rt, seen.metered, (total, total));
    // A call moves a chunk of 64 bytes, where there are so many.
    same(&rt, (seen.reads < 1_000, seen.writes < 1_000), (true, true));
}

#[test]
fn what_came_before_a_failed_read_goes_out(rt: HostRuntime) {
    for call in [0, 1, 2, 7, 50] {
        let kind = ErrorKind::Other;
        let seen = transfers(&rt, Fault { call, kind }, NEVER);
        same(&rt, (call, seen.ended), (call, Ended::InputFailed));
        same(&rt, seen.reads, call + 1);
        same(&rt, seen.taken, seen.given);
        same(&rt, seen.metered.0, seen.given);
    }
}

#[test]
fn a_failed_write_ends_the_transfer(rt: HostRuntime) {
    for call in [0, 1, 2, 7, 50] {
        let kind = ErrorKind::BrokenPipe;
        let seen = transfers(&rt, NEVER, Fault { call, kind });
        same(&rt, (call, seen.ended), (call, Ended::OutputFailed));
        same(&rt, seen.writes, call + 1);
        same(&rt, seen.metered.1, seen.taken);
        same(&rt, seen.taken <= seen.given, true);
        same(&rt, seen.given < TOTAL as u64, true);
    }
}

#[test]
fn a_meter_serves_the_next_transfer(rt: HostRuntime) {
    let sizes = Sizes {
        capacity: 256,
        chunk: 64,
        level: 0,
    };
    let meter = Meter::new();
    for (call, wanted) in [(0, Ended::OutputFailed), (u32::MAX, Ended::Moved)] {
        let kind = ErrorKind::BrokenPipe;
        let mut input = Plain(Input::new(TOTAL, NEVER));
        let mut output = Plain(Output::new(Fault { call, kind }));
        let moved = transfer(&rt, &mut input, &mut output, sizes, &meter);
        same(&rt, how_it_ended(moved), wanted);
    }
}

#[test]
fn a_call_that_is_interrupted_or_would_block_is_made_again(rt: HostRuntime) {
    for kind in [ErrorKind::Interrupted, ErrorKind::WouldBlock] {
        for call in [0, 1, 2, 7, 50] {
            let fault = Fault { call, kind };
            let seen = transfers(&rt, fault, fault);
            same(&rt, (call, seen.ended), (call, Ended::Moved));
            same(&rt, seen.taken, TOTAL as u64);
        }
    }
}

#[test]
fn an_output_that_takes_none_ends_the_transfer(rt: HostRuntime) {
    for call in [0, 1, 2, 7, 50] {
        let mut output = Output::new(NEVER);
        output.takes_none = call;
        let seen = transfers_to(&rt, NEVER, output);
        same(&rt, (call, seen.ended), (call, Ended::OutputFull));
        same(&rt, seen.writes, call + 1);
    }
}
