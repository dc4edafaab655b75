//! The whole run, from the words on the command line to how it ends, on a thread of its own, for
//! whose end the first thread waits.
ghost use Rattle.std.specs.Prelude.{⊤};

use crate::arguments::{Arguments, Texts, read_words};
use crate::ended::{EndNames, Ended};
use crate::files::{Ends, find_all, open_all};
use crate::found::Stream;
use crate::front::Front;
use crate::input::{Part, begin, part_of, seek_past, size_of_part};
use crate::numbers::{Numbers, named, numbers_of, refuse_dashes};
use crate::outcome::Outcome;
use crate::outlet::{Outlet, pass};
use crate::pace::Pace;
use crate::progress::{Watched, begin_watch};
use crate::sinks::Target;
use crate::streams::Streams;
use clap::error::ErrorKind;
use piper_transfer::{Plain, Ready};
use sha2::{Digest, Sha256};
use std::alloc::{AllocGlobal, Global};
use std::fs::{File, Files};
use std::io;
use std::io::{Stdin, Stdout};
use std::marker::Send;
use std::random::RandomSource;
use std::sync::{Arc, Wait};
use std::thread::{Promise, Threads};
use std::time::{Clock, Instant};

/// How many bytes the stack of the run's thread has, however small the system makes those of
/// others.
pub const STACK: usize = 262_144;

/// What is promised of the result of the run's thread, which has none.
#[derive(Clone, Copy)]
pub struct Nothing;

impl Promise<()> for Nothing {
    ghost kept_by = { λ _ _. ⊤ };
}

/// Does what the words ask for between these streams, and reports `outcome` how that ended; and
/// before, at once, where the output fails.
///
/// It is for a thread of its own, that is not joined. So the program can end where its output has
/// failed, though a read is under way that no byte comes for.
pub fn run_and_report<R>(
    rt: R,
    words: Vec<String>,
    stdin: Stdin,
    stdout: Stdout,
    streams: Streams,
    outcome: Arc<Outcome, Global>,
)
where
    R: Wait + Threads + Clock + RandomSource + AllocGlobal + Files<File = File>,
    R: Eprint + Clone + Drop + Send + Sync + 'static,
{
    let ended = match run(&rt, words.as_slice(), stdin, stdout, streams, &outcome) {
        Ok(ended) => ended,
        Err(ended) => ended,
    };
    outcome.end(&rt, ended);
}

// Does what the words ask for. What is refused without a look at a file comes first.
fn run<R>(
    rt: &R,
    words: &[String],
    stdin: Stdin,
    stdout: Stdout,
    streams: Streams,
    outcome: &Arc<Outcome, Global>,
) -> Result<Ended, Ended>
where
    R: Wait + Threads + Clock + RandomSource + AllocGlobal + Files<File = File>,
    R: Eprint + Clone + Drop + Send + Sync + 'static,
{
    let alloc = rt.alloc();
    let arguments = read_words(alloc, words).map_err(refused_words)?;
    let numbers = numbers_of(arguments.texts).map_err(|word| Ended::refused(alloc, word))?;
    refuse_dashes(arguments.tees.as_slice()).map_err(|word| Ended::refused(alloc, word))?;
    refuse_closed(alloc, arguments.texts, streams)?;
    let ends = find_all(rt, &arguments, stdin, stdout)?;
    outcome.name(rt, names_of(alloc, arguments.texts));
    move_all(rt, &arguments, numbers, streams, ends, outcome)
}

// Moves all bytes. The memory is granted and the input's first read made before a file is opened that
// is written.
fn move_all<R>(
    rt: &R,
    arguments: &Arguments<'_>,
    numbers: Numbers,
    streams: Streams,
    ends: Ends,
    outcome: &Arc<Outcome, Global>,
) -> Result<Ended, Ended>
where
    R: Wait + Threads + Clock + RandomSource + AllocGlobal + Files<File = File>,
    R: Eprint + Clone + Drop + Send + Sync + 'static,
{
    let Ends {
        mut inlet,
        input,
        drain,
        tees,
    } = ends;
    let total = numbers.total.or(size_of_part(rt, &inlet, &input, numbers.skip, numbers.most));
    let skip = seek_past(&mut inlet, &input, numbers.skip);
    let mut part = Plain(part_of(rt.alloc(), inlet, &input, skip, numbers.most)?);
    let ready = match Ready::new(rt, numbers.sizes) {
        Ok(ready) => ready,
        Err(error) => return Err(Ended::of(Err(error), false)),
    };
    let front = Front::new(rt, streams.redraws);
    let mut outlet = Outlet::new(rt, drain, tees, outcome, front);
    outlet.pace = numbers.rate.map(Pace::new);
    if arguments.shows_sum {
        outlet.sum = Some(Sha256::new());
    }
    if arguments.reports_progress() {
        let watched = Watched {
            capacity: numbers.sizes.capacity,
            total,
            redraws: streams.redraws,
            tells_number: arguments.tells_number,
            pause: numbers.pause,
            begun: Instant::now(rt).ok(),
        };
        let front = Front::new(rt, streams.redraws);
        outlet.progress = begin_watch(rt, outcome, watched, front);
    }
    if let Err(ended) = begin_all(rt, &mut part.0, skip, &mut outlet) {
        outlet.report_last();
        return Err(ended);
    }
    let name = named(arguments.texts.output).unwrap_or("-");
    Ok(pass(ready, &mut part, &mut outlet, name))
}

// Makes the input's first read, for which the output waits, and opens the files that are written.
fn begin_all<R>(
    rt: &R,
    part: &mut Part,
    skip: u64,
    outlet: &mut Outlet<'_, R, Target>,
) -> Result<(), Ended>
where
    R: Wait + Clock + Eprint + AllocGlobal + Files<File = File>,
{
    let waits = &outlet.outcome.meter.output;
    waits.begin_wait(rt);
    let begun = begin(rt, part, skip);
    waits.end_wait(rt);
    begun.map_err(|error| Ended::of(Err(error), false))?;
    open_all(rt, &mut outlet.drain, outlet.tees.as_mut_slice())
}

// How words end the program that are refused, or that memory was refused for.
fn refused_words(error: clap::Error) -> Ended {
    if error.kind() == ErrorKind::OutOfMemory {
        return Ended::Memory;
    }
    Ended::Words(error)
}

// Refuses a standard stream that was closed, where no file is named in its place.
fn refuse_closed(alloc: Global, texts: Texts<'_>, streams: Streams) -> Result<(), Ended> {
    let closed = io::Error::other("it is closed");
    if named(texts.input).is_none() && !streams.has_input {
        return Err(Ended::no_input(alloc, Stream::Input.said(), closed));
    }
    if named(texts.output).is_none() && !streams.has_output {
        return Err(Ended::no_output(alloc, Stream::Output.said(), closed));
    }
    Ok(())
}

// The names that are said, where memory is granted for them.
fn names_of(alloc: Global, texts: Texts<'_>) -> EndNames {
    EndNames {
        input: copy_of(alloc, named(texts.input)),
        output: copy_of(alloc, named(texts.output)),
        progress: copy_of(alloc, texts.name),
    }
}

fn copy_of(alloc: Global, name: Option<&str>) -> Option<String> {
    String::from_str(alloc, name?).ok()
}
