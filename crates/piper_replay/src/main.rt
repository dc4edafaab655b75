//! Replays a script of pipe calls on the pure machine.
#![tactic(auto)]

use piper_script::replay::{Ended, replay};
use std::env;
use std::io::ErrorKind;
use std::process::ExitCode;

/// The arguments after the program's name.
fn words(rt: &HostRuntime) -> Result<Vec<String>, Ended> {
    match env::args(rt) {
        Ok(words) => words
            .skip(1)
            .collect(rt.alloc())
            .map_err(|_| Ended::OUT_OF_MEMORY),
        // An argument that is no text is a wrong one.
        Err(error) if error.kind() == ErrorKind::InvalidData => Err(Ended::WRONG_ARGUMENTS),
        Err(_) => Err(Ended::OUT_OF_MEMORY),
    }
}

fn main(rt: HostRuntime) -> ExitCode {
    let ended = match words(&rt) {
        Ok(words) => replay(rt.alloc(), &words, &mut rt.stdin(), &mut rt.stdout()),
        Err(ended) => ended,
    };
    if !ended.text.is_empty() {
        let _ = eprintln!(rt; "{}", ended.text);
    }
    ExitCode::from(ended.status)
}
