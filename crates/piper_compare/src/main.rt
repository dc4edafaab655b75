//! Compares the handles of a pipe, the pure machine and stored answers.
#![tactic(auto)]

mod calls;
mod draws;
mod ends;
mod halt;
mod hands;
mod mode;
mod pair;
mod playing;
mod random;
mod stored;
mod tasks;
mod twin;
mod vector;

use crate::mode::{Mode, mode_of};
use crate::playing::{play_drawn_on_both, play_on_both, play_on_handles};
use crate::stored::{Reported, compare};
use piper_script::replay::Ended;
use std::env;
use std::io::ErrorKind;
use std::process::ExitCode;

const USAGE: &str = "usage: piper_compare vectors|handles|twin [SEED COUNT]|--help|--version";

const HELP: &str = "usage: piper_compare vectors
       piper_compare handles
       piper_compare twin [SEED COUNT]
       piper_compare --help
       piper_compare --version
The first plays the stored scripts, whose files are in the current folder, on the machine and on the handles, and compares what they print with what is stored.
The second plays a script from standard input on the handles.
The third plays a script from standard input on the handles and on the machine, and prints the first line in which they differ; or COUNT scripts that are drawn from SEED.
Exit status:
  0  all is alike, or the help or the version was printed
  1  something differs, or a line of the script was refused
  2  the words are not these, a stored file is missing or broken, memory was refused, or a read or write failed";

const VERSION: &str = "piper_compare 0.2.5";

/// The arguments after the program's name.
fn words(rt: &HostRuntime) -> Result<Vec<String>, Ended> {
    match env::args(rt) {
        Ok(words) => words
            .skip(1)
            .collect(rt.alloc())
            .map_err(|_| Ended::OUT_OF_MEMORY),
        Err(error) if error.kind() == ErrorKind::InvalidData => Err(WRONG_ARGUMENTS),
        Err(_) => Err(Ended::OUT_OF_MEMORY),
    }
}

/// The words are none of those that the program knows.
const WRONG_ARGUMENTS: Ended = Ended {
    status: 2,
    text: USAGE,
};

/// What went wrong was written to standard error already.
const REPORTED: Ended = Ended {
    status: 2,
    text: "",
};

fn print(rt: &HostRuntime, text: &str) -> Ended {
    match println!(rt; "{text}") {
        Ok(()) => Ended::DONE,
        Err(_) => Ended::WRITE_FAILED,
    }
}

/// Does what the words ask for.
fn run(rt: &HostRuntime) -> Result<Ended, Ended> {
    let words = words(rt)?;
    Ok(match mode_of(&words).ok_or(WRONG_ARGUMENTS)? {
        Mode::Help => print(rt, HELP),
        Mode::Version => print(rt, VERSION),
        Mode::Vectors => match compare(rt) {
            Ok(true) => Ended::DONE,
            Ok(false) => Ended::REFUSED,
            Err(Reported) => REPORTED,
        },
        Mode::Handles => play_on_handles(rt, &mut rt.stdin(), &mut rt.stdout()),
        Mode::Twin => play_on_both(rt, &mut rt.stdin(), &mut rt.stdout()),
        Mode::Drawn(seeds) => play_drawn_on_both(rt, seeds.first, seeds.count, &mut rt.stdout()),
    })
}

fn main(rt: HostRuntime) -> ExitCode {
    let ended = match run(&rt) {
        Ok(ended) | Err(ended) => ended,
    };
    if !ended.text.is_empty() {
        let _ = eprintln!(rt; "{}", ended.text);
    }
    ExitCode::from(ended.status)
}
