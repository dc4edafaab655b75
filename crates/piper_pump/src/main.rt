//! A buffer between two programs: one thread reads standard input into a pipe, and another writes
//! it to standard output.
#![tactic(auto)]

mod arguments;
mod ended;
mod files;
mod found;
mod front;
mod input;
mod lines;
mod names;
mod numbers;
mod outcome;
mod outlet;
mod pace;
mod progress;
mod run;
mod sinks;
mod streams;
mod sums;
mod tees;

use crate::ended::{EndNames, Ended};
use crate::outcome::Outcome;
use crate::run::{Nothing, STACK, run_and_report};
use crate::streams::{Streams, is_open};
use std::alloc::AllocGlobal;
use std::env::{self, Env};
use std::io::{ErrorKind, IsTerminal};
use std::process::ExitCode;
use std::thread::Builder;

fn main(rt: HostRuntime) -> ExitCode {
    let streams = Streams {
        has_input: is_open(&rt.stdin()),
        has_output: is_open(&rt.stdout()),
        has_error: is_open(&rt.stderr()),
        redraws: rt.stderr().is_terminal(),
    };
    let _fillers = match streams.fill(&rt) {
        Ok(fillers) => fillers,
        Err(ended) => return ended.report(&rt, &EndNames::none()),
    };
    let words = match words_of(&rt) {
        Ok(words) => words,
        Err(ended) => return ended.report(&rt, &EndNames::none()),
    };
    let (outcome, theirs) = match Outcome::for_two(rt.alloc()) {
        Ok(outcomes) => outcomes,
        Err(ended) => return ended.report(&rt, &EndNames::none()),
    };
    let (stdin, stdout) = (rt.stdin(), rt.stdout());
    let started = Builder::new()
        .stack_size(STACK)
        .spawn_with(&rt, Nothing, move || {
            run_and_report(rt, words, stdin, stdout, streams, theirs)
        });
    if let Err(refused) = started {
        (refused.value)();
    }
    outcome.report(&rt)
}

// The words on the command line, of which the first is the program's name.
fn words_of<R: Env + AllocGlobal>(rt: &R) -> Result<Vec<String>, Ended> {
    match env::args(rt) {
        Ok(args) => args.collect(rt.alloc()).map_err(|_| Ended::Memory),
        Err(error) if error.kind() == ErrorKind::InvalidData => Err(Ended::NotText),
        Err(_) => Err(Ended::Memory),
    }
}
