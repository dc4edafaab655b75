//! The files that the words name. Those that may not be written are refused, before one of them is
//! opened.
use crate::arguments::Arguments;
use crate::ended::Ended;
use crate::found::{FileId, Found, Kind, Stream, look, look_at_stream};
use crate::input::Inlet;
use crate::numbers::named;
use crate::sinks::{ANOTHER, FOLDER, Sink, Step, Target, Way};
use crate::tees::Tee;
use std::alloc::{AllocGlobal, Global};
use std::fs::{File, Files, OpenOptions};
use std::io;
use std::io::{Stdin, Stdout};

/// What is said of a file that is named twice.
const SHARED: &str = "it is also the input, another output or standard error";

/// What is said of a standard stream whose file the system does not tell.
const UNTOLD: &str = "it can't be told from the other files without /proc";

/// What is read, and what is written.
#[derive(Drop)]
pub struct Ends {
    pub inlet: Inlet,
    /// What was found of the input.
    pub input: Found,
    pub drain: Target,
    pub tees: Vec<Tee<Target>>,
}

/// Opens the input that is named, and looks at the files that are to be written. These are refused:
/// a file that is also the input, standard error or another output; one that holds bytes, unless
/// such files are taken; and files that can't be told from one another.
pub fn find_all<R>(
    rt: &R,
    arguments: &Arguments<'_>,
    stdin: Stdin,
    stdout: Stdout,
) -> Result<Ends, Ended>
where
    R: Files<File = File> + AllocGlobal,
{
    let alloc = rt.alloc();
    let source = named(arguments.texts.input);
    let input = match source {
        Some(name) => look_at_input(rt, name)?,
        None => look_at_stream(rt, Stream::Input),
    };
    let way = arguments.way();
    let drain = match named(arguments.texts.output) {
        Some(name) => Target::File(look_at_sink(rt, name, way)?),
        None => Target::standard(stdout).map_err(|error| Ended::no_output(
            alloc,
            Stream::Output.said(),
            error,
        ))?,
    };
    let mut tees = Vec::new(alloc);
    for name in arguments.tees.as_slice() {
        let sink = look_at_sink(rt, *name, way)?;
        let name = String::from_str(alloc, *name).map_err(|_| Ended::Memory)?;
        let tee = Tee::new(name, Target::File(sink));
        tees.push(tee).map_err(|_| Ended::Memory)?;
    }
    refuse_shared(rt, arguments, input, &drain, tees.as_slice())?;
    refuse_held(alloc, &drain)?;
    for tee in tees.as_slice() {
        refuse_held(alloc, &tee.dest)?;
    }
    let inlet = match source {
        Some(name) => Inlet::File(open_input(rt, name, &input)?),
        None => Inlet::Standard(stdin),
    };
    Ok(Ends {
        inlet,
        input,
        drain,
        tees,
    })
}

fn look_at_input<R: Files + AllocGlobal>(rt: &R, name: &str) -> Result<Found, Ended> {
    match look(rt, name) {
        Ok(found) if found.kind == Kind::Folder => {
            Err(Ended::no_input(rt.alloc(), name, io::Error::other(FOLDER)))
        }
        Ok(found) => Ok(found),
        Err(error) => Err(Ended::no_input(rt.alloc(), name, error)),
    }
}

// Opens the input, which is to be the file that was looked at.
fn open_input<R>(rt: &R, name: &str, seen: &Found) -> Result<File, Ended>
where
    R: Files<File = File> + AllocGlobal,
{
    let failed = match OpenOptions::new().read(true).open(rt, name) {
        Ok(file) => match file.metadata() {
            Ok(metadata) if Found::of(&metadata).id == seen.id => return Ok(file),
            Ok(_) => io::Error::other(ANOTHER),
            Err(error) => error,
        },
        Err(error) => error,
    };
    Err(Ended::no_input(rt.alloc(), name, failed))
}

fn look_at_sink<R: Files + AllocGlobal>(rt: &R, name: &str, way: Way) -> Result<Sink, Ended> {
    match Sink::look(rt, rt.alloc(), name, way) {
        Ok(sink) => Ok(sink),
        Err(error) => Err(Ended::no_output(rt.alloc(), name, error)),
    }
}

// Refuses a file that may not be written as is asked for.
fn refuse_held(alloc: Global, target: &Target) -> Result<(), Ended> {
    let Target::File(sink) = target else {
        return Ok(());
    };
    match sink.check() {
        Ok(()) => Ok(()),
        Err(error) => Err(Ended::no_output(alloc, sink.name.as_str(), error)),
    }
}

// Refuses a file that is also the input or another output, or that reports go into, and files that
// can't be told from one another; but not the standard streams alone, which nobody opens or cuts.
fn refuse_shared<R: Files + AllocGlobal>(
    rt: &R,
    arguments: &Arguments<'_>,
    input: Found,
    drain: &Target,
    tees: &[Tee<Target>],
) -> Result<(), Ended> {
    let mut known = Vec::new(rt.alloc());
    add(&mut known, "the input", input.id)?;
    if arguments.may_report() {
        add(&mut known, Stream::Error.said(), id_of_reports(rt))?;
    }
    let (name, id) = match drain {
        Target::Standard(_, _) => (Stream::Output.said(), look_at_stream(rt, Stream::Output).id),
        Target::File(sink) => (sink.name.as_str(), sink.id()),
    };
    if id == Some(FileId::Untold) && id == input.id && tees.is_empty() {
        return Ok(());
    }
    add(&mut known, name, id)?;
    for tee in tees {
        if let Target::File(sink) = &tee.dest {
            add(&mut known, sink.name.as_str(), sink.id())?;
        }
    }
    if 1 < known.len() && known.as_slice().contains(&FileId::Untold) {
        let error = io::Error::other(UNTOLD);
        return Err(Ended::no_output(rt.alloc(), "a standard stream", error));
    }
    Ok(())
}

// Which file standard error is. A pipe is not told from others there: what is reported may go where
// the bytes go, if that is one.
fn id_of_reports(files: &impl Files) -> Option<FileId> {
    let found = look_at_stream(files, Stream::Error);
    match found.kind {
        Kind::Fifo => None,
        _ => found.id,
    }
}

// Adds a file to those that are known, unless it is one of them.
fn add(known: &mut Vec<FileId>, name: &str, id: Option<FileId>) -> Result<(), Ended> {
    let Some(id) = id else {
        return Ok(());
    };
    if known.as_slice().contains(&id) {
        let error = io::Error::other(if id == FileId::Untold { UNTOLD } else { SHARED });
        return Err(Ended::no_output(*known.allocator(), name, error));
    }
    known.push(id).map_err(|_| Ended::Memory)
}

/// Opens the files that are written: first those that are there, which keep what they hold, then the
/// others are made, and then what is not appended to is cut off, the output last. If one can't be
/// opened, made or cut off, those that were made are removed again.
pub fn open_all<R>(rt: &R, drain: &mut Target, tees: &mut [Tee<Target>]) -> Result<(), Ended>
where
    R: Files<File = File> + AllocGlobal,
{
    for step in [Step::Open, Step::Make, Step::Cut] {
        if let Err(ended) = take_all(rt, step, drain, tees) {
            unmake_all(rt, drain, tees);
            return Err(ended);
        }
    }
    Ok(())
}

// Takes a step for each file; the output is the last that is cut off.
fn take_all<R>(
    rt: &R,
    step: Step,
    drain: &mut Target,
    tees: &mut [Tee<Target>],
) -> Result<(), Ended>
where
    R: Files<File = File> + AllocGlobal,
{
    let is_last = matches!(step, Step::Cut);
    if !is_last {
        take(rt, step, drain)?;
    }
    for tee in tees.iter_mut() {
        take(rt, step, &mut tee.dest)?;
    }
    if is_last {
        take(rt, step, drain)?;
    }
    Ok(())
}

fn take<R>(rt: &R, step: Step, target: &mut Target) -> Result<(), Ended>
where
    R: Files<File = File> + AllocGlobal,
{
    let Target::File(sink) = target else {
        return Ok(());
    };
    match sink.take(rt, step) {
        Ok(()) => Ok(()),
        Err(error) => Err(Ended::no_output(rt.alloc(), sink.name.as_str(), error)),
    }
}

// Takes those away again that were made.
fn unmake_all(files: &impl Files, drain: &Target, tees: &[Tee<Target>]) {
    if let Target::File(sink) = drain {
        sink.unmake(files);
    }
    for tee in tees {
        if let Target::File(sink) = &tee.dest {
            sink.unmake(files);
        }
    }
}
