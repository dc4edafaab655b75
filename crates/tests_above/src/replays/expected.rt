//! What a replay is expected to print, and how it is expected to end.

use crate::compare::{same, same_bytes};
use piper_script::replay::{Ended, replay};
use std::alloc::Global;
use std::process::Abort;
use std::test::Fail;

/// The lines of a script, each with what it prints.
pub const LINES: [(&str, &str); 5] = [
    ("pipe 4\n", "ok\n"),
    ("fill 1,2\n", "2\n"),
    ("# a comment\n", ""),
    ("drain 4\n", "2 1,2\n"),
    ("len w\n", "0\n"),
];

/// All of these lines, and all that they print.
pub fn joined(alloc: Global) -> Result<(Vec<u8>, Vec<u8>), Fail> {
    let mut script = Vec::new(alloc);
    let mut printed = Vec::new(alloc);
    for (line, reply) in LINES {
        script.extend_from_slice(line.as_bytes())?;
        printed.extend_from_slice(reply.as_bytes())?;
    }
    Ok((script, printed))
}

/// The arguments of a command line, with spaces between them.
pub fn words(alloc: Global, line: &str) -> Result<Vec<String>, Fail> {
    let mut words = Vec::new(alloc);
    for word in line.split_whitespace() {
        words.push(String::from_str(alloc, word)?)?;
    }
    Ok(words)
}

/// Compares how a replay ended.
pub fn expect_end(rt: &impl Abort, ended: Ended, status: u8, text: &'static str) {
    same(rt, ended, Ended { status, text });
}

/// Runs the script in the mode that the arguments say, and compares what it prints and how it ends.
pub fn expect_script(
    rt: &(impl Abort + Alloc<A = Global>),
    arguments: &str,
    script: &[u8],
    printed: &[u8],
    status: u8,
) -> Result<(), Fail> {
    let words = words(rt.alloc(), arguments)?;
    let mut output = Vec::new(rt.alloc());
    let mut input = script;
    let ended = replay(rt.alloc(), &words, &mut input, &mut output);
    same_bytes(rt, &output, printed);
    expect_end(rt, ended, status, "");
    Ok(())
}
