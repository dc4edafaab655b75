//! What the words on the command line ask for.
use crate::numbers::named;
use crate::sinks::Way;
use clap::error::ErrorKind;
use clap::{Arg, ArgAction, ArgMatches, Command, Error};
use std::alloc::{AllocError, Global};

/// What the exit statuses mean, for the help.
const STATUSES: &str = "Exit status:
  0  all bytes were moved, or the help or the version was printed
  2  the words on the command line are refused
  3  the input failed, is closed or can't be opened; what came before was written
  4  the output failed, is closed or full; or a file can't be written or is refused
  6  memory was refused
  7  all bytes were moved, but a file of --tee did not get them, or the sum could not be told
  141  the program that reads the output has ended, which is not told

A signal that ends it loses what it holds: at most its capacity";

/// What is told of an input that is named twice.
const TWO_INPUTS: &str = "the argument '[FILE]' cannot be used with '--input <FILE>'";

/// What the program is asked to do.
#[derive(Drop)]
pub struct Arguments<'a> {
    pub shows_progress: bool,
    /// Whether progress is told as a number, which also asks for it.
    pub tells_number: bool,
    pub is_quiet: bool,
    pub shows_sum: bool,
    /// Whether the bytes that files hold are overwritten.
    pub overwrites: bool,
    /// Whether what is written follows the bytes that files hold.
    pub appends: bool,
    /// Whether files are on their devices before the program ends.
    pub syncs: bool,
    pub texts: Texts<'a>,
    /// The files that also get what passes.
    pub tees: Vec<&'a str>,
}

/// What follows the options that may be left out, as it is written.
#[derive(Clone, Copy)]
pub struct Texts<'a> {
    pub capacity: Option<&'a str>,
    pub chunk: Option<&'a str>,
    pub rate: Option<&'a str>,
    pub size: Option<&'a str>,
    pub start_at: Option<&'a str>,
    pub input: Option<&'a str>,
    pub output: Option<&'a str>,
    pub skip: Option<&'a str>,
    pub stop_after: Option<&'a str>,
    pub name: Option<&'a str>,
    pub interval: Option<&'a str>,
}

impl Arguments<'_> {
    /// How files are written.
    pub fn way(&self) -> Way {
        Way {
            overwrites: self.overwrites,
            appends: self.appends,
            syncs: self.syncs,
        }
    }

    /// Whether progress is reported.
    pub fn reports_progress(&self) -> bool {
        (self.shows_progress || self.tells_number) && !self.is_quiet
    }

    /// Whether standard error may get more than why the run failed, or a file is cut off which it may
    /// be.
    pub fn may_report(&self) -> bool {
        let cuts = named(self.texts.output).is_some() && !self.appends;
        cuts || self.reports_progress() || self.shows_sum || !self.tees.is_empty()
    }
}

/// What the words ask for. Those that ask for something are refused only for want of memory.
pub fn read_words<'a>(alloc: Global, words: &'a [String]) -> Result<Arguments<'a>, Error> {
    let mut command = command(alloc)?;
    let matches = command.try_get_matches_from_mut(words)?;
    refuse_two_inputs(&mut command, &matches)?;
    let tees = tees(alloc, &matches)?;
    Ok(Arguments {
        shows_progress: matches.get_flag("progress"),
        is_quiet: matches.get_flag("quiet"),
        shows_sum: matches.get_flag("sha256"),
        overwrites: matches.get_flag("force"),
        syncs: matches.get_flag("fsync"),
        appends: matches.get_flag("append"),
        tells_number: matches.get_flag("numeric"),
        texts: texts_of(&matches),
        tees,
    })
}

fn texts_of<'a>(matches: &ArgMatches<'a>) -> Texts<'a> {
    Texts {
        capacity: matches.get_str("capacity"),
        chunk: matches.get_str("chunk"),
        rate: matches.get_str("rate"),
        size: matches.get_str("size"),
        start_at: matches.get_str("start-at"),
        input: matches.get_str("input").or(matches.get_str("file")),
        output: matches.get_str("output"),
        skip: matches.get_str("skip"),
        stop_after: matches.get_str("stop-after"),
        name: matches.get_str("name"),
        interval: matches.get_str("interval"),
    }
}

// Refuses an input that is named with and without its option.
fn refuse_two_inputs<'a>(command: &mut Command<'a>, matches: &ArgMatches<'a>) -> Result<(), Error> {
    match (matches.get_str("input"), matches.get_str("file")) {
        (Some(_), Some(_)) => Err(command.error(ErrorKind::ArgumentConflict, TWO_INPUTS)?),
        _ => Ok(()),
    }
}

fn tees<'a>(alloc: Global, matches: &ArgMatches<'a>) -> Result<Vec<&'a str>, Error> {
    let mut tees = Vec::new(alloc);
    if let Some(texts) = matches.get_strs("tee") {
        tees.extend_from_slice(texts)?;
    }
    Ok(tees)
}

// What the program takes.
fn command<'a>(alloc: Global) -> Result<Command<'a>, Error> {
    let about = "A buffer between two programs: copies standard input to standard output. A size \
        is a number of bytes, as 4096, 64K, 16m or 2GiB";
    let command = Command::new(alloc, "piper_pump")
        .version("0.2.5")
        .about(about)
        .after_help(STATUSES)
        .arg(flag(
            alloc,
            "progress",
            "Tells on standard error how far it is, four times a second or as --interval says",
        ))?
        .arg(flag(
            alloc,
            "quiet",
            "Tells nothing but errors and the sum, also where progress is asked for",
        ))?
        .arg(flag(
            alloc,
            "sha256",
            "Tells the SHA-256 of what passed, on standard error at the end, as sha256sum does",
        ))?;
    let command = with_files(alloc, with_sizes(alloc, command)?)?
        .arg(option(alloc, "skip", "How many bytes of the input it leaves out"))?
        .arg(option(
            alloc,
            "stop-after",
            "How many bytes it reads at most, after those that it leaves out",
        ))?
        .arg(flag(
            alloc,
            "append",
            "Writes after the bytes that files hold, also with --force",
        ))?;
    Ok(with_progress(alloc, command)?)
}

// The command takes how progress is told.
fn with_progress<'a>(alloc: Global, command: Command<'a>) -> Result<Command<'a>, AllocError> {
    command
        .arg(named_option(
            alloc,
            "name",
            'N',
            "NAME",
            "What begins each line of progress",
        ))?
        .arg(short_flag(
            alloc,
            "numeric",
            'n',
            "Tells progress as a number: percent of the size, or bytes if none is known",
        ))?
        .arg(option(
            alloc,
            "interval",
            "How many seconds it is from one line of progress to the next",
        ))
}

// The command takes the sizes of the pipe and of the transfer.
fn with_sizes<'a>(alloc: Global, command: Command<'a>) -> Result<Command<'a>, AllocError> {
    command
        .arg(option(alloc, "capacity", "How many bytes it holds; 1M if left out"))?
        .arg(option(
            alloc,
            "chunk",
            "How many bytes it moves at a time at most; 64K if left out",
        ))?
        .arg(option(
            alloc,
            "rate",
            "How many bytes it writes in a second at most",
        ))?
        .arg(option(
            alloc,
            "size",
            "How many bytes come, for the progress; of a file that is known",
        ))?
        .arg(option(
            alloc,
            "start-at",
            "How full it is, in percent, before it writes, also once it ran dry",
        ))
}

// The command takes the names of files, and how they are written.
fn with_files<'a>(alloc: Global, command: Command<'a>) -> Result<Command<'a>, AllocError> {
    command
        .arg(named_option(
            alloc,
            "input",
            'i',
            "FILE",
            "Reads this file; - is standard input",
        ))?
        .arg(named_option(
            alloc,
            "output",
            'o',
            "FILE",
            "Writes this file; - is standard output",
        ))?
        .arg(tee_option(alloc))?
        .arg(flag(alloc, "force", "Overwrites files that hold bytes"))?
        .arg(flag(
            alloc,
            "fsync",
            "Ends once the files that are named are on their devices",
        ))?
        .arg(lone_file(alloc))
}

fn flag<'a>(alloc: Global, name: &'a str, help: &'a str) -> Arg<'a> {
    Arg::new(alloc, name)
        .long(name)
        .help(help)
        .action(ArgAction::SetTrue)
}

fn option<'a>(alloc: Global, name: &'a str, help: &'a str) -> Arg<'a> {
    Arg::new(alloc, name)
        .long(name)
        .value_name("N")
        .help(help)
        .action(ArgAction::Set)
}

fn short_flag<'a>(alloc: Global, name: &'a str, letter: char, help: &'a str) -> Arg<'a> {
    Arg::new(alloc, name)
        .long(name)
        .short(letter)
        .help(help)
        .action(ArgAction::SetTrue)
}

fn named_option<'a>(
    alloc: Global,
    name: &'a str,
    letter: char,
    value: &'a str,
    help: &'a str,
) -> Arg<'a> {
    Arg::new(alloc, name)
        .long(name)
        .short(letter)
        .value_name(value)
        .help(help)
        .action(ArgAction::Set)
}

// The file that is read, without an option.
fn lone_file<'a>(alloc: Global) -> Arg<'a> {
    Arg::new(alloc, "file")
        .value_name("FILE")
        .help("Reads this file, as --input does")
        .action(ArgAction::Set)
}

fn tee_option<'a>(alloc: Global) -> Arg<'a> {
    Arg::new(alloc, "tee")
        .long("tee")
        .value_name("FILE")
        .help("Also writes what passes to this file; it may be given more than once")
        .action(ArgAction::Append)
}
