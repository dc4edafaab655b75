//! Replays whose input or output fails, and wrong arguments.

use crate::broken::{Broken, Full, Interrupted};
use crate::compare::same_bytes;
use crate::replays::expected::{LINES, expect_end, joined, words};
use piper_script::replay::replay;
use std::alloc::Global;
use std::process::Abort;
use std::test::Fail;

/// What the lines print that lie whole in the first `count` bytes of the script.
fn printed_before(alloc: Global, count: usize) -> Result<Vec<u8>, Fail> {
    let mut printed = Vec::new(alloc);
    let mut left = count;
    for (line, reply) in LINES {
        if left < line.len() {
            break;
        }
        left -= line.len();
        printed.extend_from_slice(reply.as_bytes())?;
    }
    Ok(printed)
}

/// A script of steps, and what it prints.
const STEPS: &[u8] = b"pipe 2\nbegin lend 2\nput 0 5\nbegin produced 1\ngo w 2\n";

const STEPS_PRINT: &[u8] =
    b"w began\nw answer=lent:2\nw began\nw published=5\nw answer=ok\nunread 5\n";

/// Replays the beginning of a script, after which the input fails, and compares what is printed.
fn expect_broken(
    rt: &(impl Abort + Alloc<A = Global>),
    arguments: &str,
    script: &[u8],
    good: usize,
    printed: &[u8],
) -> Result<(), Fail> {
    let words = words(rt.alloc(), arguments)?;
    let mut input = Broken { rest: script, good };
    let mut output = Vec::new(rt.alloc());
    let ended = replay(rt.alloc(), &words, &mut input, &mut output);
    same_bytes(rt, &output, printed);
    expect_end(rt, ended, 2, "read failed");
    Ok(())
}

/// Replays a script into an output that takes so many bytes, and compares what it took.
fn expect_full(
    rt: &(impl Abort + Alloc<A = Global>),
    arguments: &str,
    script: &[u8],
    printed: &[u8],
) -> Result<(), Fail> {
    let words = words(rt.alloc(), arguments)?;
    let mut input = script;
    let mut output = Full {
        written: Vec::new(rt.alloc()),
        good: printed.len(),
    };
    let ended = replay(rt.alloc(), &words, &mut input, &mut output);
    same_bytes(rt, &output.written, printed);
    expect_end(rt, ended, 2, "write failed");
    Ok(())
}

/// Replays with wrong arguments. Nothing is read, since a read would fail, and nothing is written.
fn expect_usage(rt: &(impl Abort + Alloc<A = Global>), words: &[String]) {
    let mut input = Broken { rest: b"", good: 0 };
    let mut output = Vec::new(rt.alloc());
    let ended = replay(rt.alloc(), words, &mut input, &mut output);
    same_bytes(rt, &output, b"");
    expect_end(rt, ended, 1, "usage: piper_replay [run|all]");
}

#[test]
fn wrong_arguments(rt: HostRuntime) -> Result<(), Fail> {
    for arguments in ["play", "All", "Run", "run run", "run all"] {
        expect_usage(&rt, &words(rt.alloc(), arguments)?);
    }
    // One argument without a letter.
    let mut empty = Vec::new(rt.alloc());
    empty.push(String::new(rt.alloc()))?;
    expect_usage(&rt, &empty);
    Ok(())
}

#[test]
fn reads_that_fail(rt: HostRuntime) -> Result<(), Fail> {
    let (script, _) = joined(rt.alloc())?;
    for good in 0..=script.len() {
        let printed = printed_before(rt.alloc(), good)?;
        expect_broken(&rt, "", &script, good, &printed)?;
    }
    Ok(())
}

#[test]
fn a_read_that_was_interrupted_is_made_again(rt: HostRuntime) -> Result<(), Fail> {
    let (script, printed) = joined(rt.alloc())?;
    let mut input = Interrupted {
        rest: &script,
        was_interrupted: false,
    };
    let mut output = Vec::new(rt.alloc());
    let ended = replay(rt.alloc(), &[], &mut input, &mut output);
    same_bytes(&rt, &output, &printed);
    expect_end(&rt, ended, 0, "");
    Ok(())
}

#[test]
fn writes_that_fail(rt: HostRuntime) -> Result<(), Fail> {
    let (script, printed) = joined(rt.alloc())?;
    for good in 0..printed.len() {
        expect_full(&rt, "", &script, &printed[..good])?;
    }
    Ok(())
}

#[test]
fn nothing_is_written_before_a_script_of_steps_was_read(rt: HostRuntime) -> Result<(), Fail> {
    for good in 0..=STEPS.len() {
        expect_broken(&rt, "run", STEPS, good, b"")?;
    }
    Ok(())
}

#[test]
fn what_a_script_of_steps_wrote_is_a_beginning(rt: HostRuntime) -> Result<(), Fail> {
    for good in 0..STEPS_PRINT.len() {
        expect_full(&rt, "run", STEPS, &STEPS_PRINT[..good])?;
    }
    Ok(())
}
