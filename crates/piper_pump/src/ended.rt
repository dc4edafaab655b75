//! How the program ends: what it says, and its exit status.
ghost use Rattle.std.specs.Prelude.{◌≡◌, IfErr, IfOk};
ghost use Rattle.std.specs.Process.{exit_status};
ghost use Rattle.piper_pump.specs.Ended.{EndsAs, HasStatus, IsShown};

use crate::names::{Shown, Tamed};
use crate::numbers::Untaken;
use piper_transfer::TransferError;
use std::alloc::{AllocGlobal, Global};
use std::fmt::{Display, Formatter};
use std::io::ErrorKind;
use std::process::ExitCode;
use std::{fmt, io};

/// A file that can't be opened, and why.
#[derive(Drop)]
pub struct Unopened {
    pub name: String,
    pub error: io::Error,
}

impl Unopened {
    /// The name of the file, and why it can't be opened.
    pub fn new(alloc: Global, name: &str, error: io::Error) -> Result<Unopened, Ended> {
        let name = String::from_str(alloc, name).map_err(|_| Ended::Memory)?;
        Ok(Unopened { name, error })
    }
}

/// A word after an option that is no number which the option takes.
#[derive(Drop)]
pub struct NotTaken {
    pub option: &'static str,
    pub text: String,
    /// Which numbers it takes.
    pub range: &'static str,
}

/// How the program ends.
#[derive(Drop)]
pub enum Ended {
    /// All bytes were moved.
    Moved,
    /// The words on the command line are none that it takes, or ask for its help.
    Words(clap::Error),
    /// A word on the command line is no text.
    NotText,
    /// The word after this option is no number that it takes.
    Value(NotTaken),
    /// The file that is to be read can't be opened.
    NoInput(Unopened),
    /// A file that is to be written can't be opened.
    NoOutput(Unopened),
    /// The input failed. What came before was written.
    Input(TransferError),
    /// The output failed.
    Output(TransferError),
    /// The program that reads the output has ended. Nothing is said, as where the system's signal ends
    /// a program for that.
    Closed,
    /// All bytes were moved, and a file did not get its copy, which was reported; or their sum could
    /// not be reported.
    Copies,
    /// Memory was refused.
    Memory,
}

impl Ended {
    /// How a run ends whose transfer ended so, and which may have failed to make a copy, or to report
    /// the sum.
    pub fn of(moved: Result<(), TransferError>, lacks_some: bool) -> Ended
        ensures { EndsAs moved lacks_some result }
    {
        match moved {
            Ok(()) if lacks_some => Ended::Copies,
            Ok(()) => Ended::Moved,
            Err(TransferError::Read(error)) => Ended::Input(TransferError::Read(error)),
            Err(TransferError::Write(error)) if error.kind() == ErrorKind::BrokenPipe => {
                Ended::Closed
            }
            Err(TransferError::Write(error)) => Ended::Output(TransferError::Write(error)),
            Err(TransferError::Full) => Ended::Output(TransferError::Full),
            Err(TransferError::Memory) | Err(TransferError::Turns(_)) => Ended::Memory,
        }
    }

    /// The option does not take this word.
    pub fn refused(alloc: Global, word: Untaken<'_>) -> Ended {
        match String::from_str(alloc, word.text) {
            Ok(text) => Ended::Value(NotTaken {
                option: word.option,
                text,
                range: word.range,
            }),
            Err(_) => Ended::Memory,
        }
    }

    /// The file of this name can't be read.
    pub fn no_input(alloc: Global, name: &str, error: io::Error) -> Ended {
        match Unopened::new(alloc, name, error) {
            Ok(file) => Ended::NoInput(file),
            Err(ended) => ended,
        }
    }

    /// The file of this name can't be written.
    pub fn no_output(alloc: Global, name: &str, error: io::Error) -> Ended {
        match Unopened::new(alloc, name, error) {
            Ok(file) => Ended::NoOutput(file),
            Err(ended) => ended,
        }
    }

    /// Says why it ended early, if it did, and returns the status.
    pub fn report(&self, rt: &(impl Print + Eprint + AllocGlobal), names: &EndNames) -> ExitCode
        ensures { HasStatus self.now (exit_status result) }
    {
        match self {
            Ended::Moved => ExitCode::from(0),
            Ended::Copies => ExitCode::from(7),
            Ended::Words(error) => ExitCode::from(report_words(rt, error)),
            Ended::NotText | Ended::Value(_) => self.say_why(rt, names, 2),
            Ended::NoInput(_) | Ended::Input(_) => self.say_why(rt, names, 3),
            Ended::NoOutput(_) | Ended::Output(_) => self.say_why(rt, names, 4),
            Ended::Closed => ExitCode::from(141),
            Ended::Memory => self.say_why(rt, names, 6),
        }
    }

    // It is not inlined, nor is `report_words`: the first thread, whose stack may be small, ends well
    // without the space for their texts. If standard error is closed, there is nowhere left to say so.
    #[inline(never)]
    fn say_why(&self, rt: &impl Eprint, names: &EndNames, status: u8) -> ExitCode
        ensures { exit_status result ≡ status }
    {
        let _ = rt.eprintln(Why { ended: self, names });
        ExitCode::from(status)
    }
}

/// The names of the files that are read and written in place of the standard streams, where memory
/// was granted for them.
#[derive(Drop)]
pub struct EndNames {
    pub input: Option<String>,
    pub output: Option<String>,
    /// What begins each line of progress.
    pub progress: Option<String>,
}

impl EndNames {
    /// No file is known by its name.
    pub fn none() -> EndNames {
        EndNames {
            input: None,
            output: None,
            progress: None,
        }
    }
}

/// Why the program ended, after its name. An option is refused in the words that others are refused in.
#[derive(Clone, Copy)]
struct Why<'a> {
    ended: &'a Ended,
    names: &'a EndNames,
}

/// What comes before an error of a file, or before a line of progress: a name.
#[derive(Clone, Copy)]
pub struct Prefix<'a>(pub Option<&'a str>);

impl Display for Prefix<'_> {
    fn fmt<W: fmt::Write>(&self, f: &mut Formatter<W>) -> fmt::Result {
        match self.0 {
            Some(name) => write!(f, "{}: ", Shown(name)),
            None => Ok(()),
        }
    }
}

/// The name, if there is one.
pub fn name_in(name: &Option<String>) -> Option<&str> {
    name.as_ref().map(|name| name.as_str())
}

// Whether a text is shown as it is: it has printable characters of ASCII alone, and no quote.
fn is_plain(text: &str) -> bool {
    text.as_bytes()
        .iter()
        .all(|byte| 32 <= *byte && *byte < 127 && *byte != b'\'')
}

impl Display for Why<'_> {
    fn fmt<W: fmt::Write>(&self, f: &mut Formatter<W>) -> fmt::Result {
        match self.ended {
            Ended::Moved | Ended::Copies | Ended::Closed | Ended::Words(_) => Ok(()),
            Ended::NotText => f.write_str("piper_pump: an argument is not UTF-8"),
            Ended::Value(word) if is_plain(word.text.as_str()) => write!(
                f,
                "piper_pump: invalid value '{}' for '{}': {}\n\nFor more information, try '--help'.",
                word.text, word.option, word.range
            ),
            Ended::Value(word) => write!(
                f,
                "piper_pump: invalid value {} for '{}': {}\n\nFor more information, try '--help'.",
                Shown(word.text.as_str()),
                word.option,
                word.range
            ),
            Ended::NoInput(file) | Ended::NoOutput(file) => write!(
                f,
                "piper_pump: {}: {}",
                Shown(file.name.as_str()),
                file.error
            ),
            Ended::Input(error) => {
                write!(
                    f,
                    "piper_pump: {}{error}",
                    Prefix(name_in(&self.names.input))
                )
            }
            Ended::Output(error) => {
                write!(
                    f,
                    "piper_pump: {}{error}",
                    Prefix(name_in(&self.names.output))
                )
            }
            Ended::Memory => f.write_str("piper_pump: out of memory"),
        }
    }
}

// Prints the help or the version, or why the words are refused. A help that can't be printed is an
// output that failed, or whose reader has ended.
#[inline(never)]
fn report_words<R: Print + Eprint + AllocGlobal>(rt: &R, error: &clap::Error) -> u8
    ensures { ¬ IsShown error.now → result ≡ 2 }
{
    let status = error.exit_code() as u8;
    if status != 0 {
        // There is nowhere left to say that standard error is closed.
        let _ = print_refused(rt, error);
        return status;
    }
    match error.print(rt) {
        Ok(()) => status,
        Err(failed) if failed.kind() == ErrorKind::BrokenPipe => 141,
        Err(failed) => {
            let _ = eprintln!(rt; "piper_pump: writing the output failed: {failed}");
            4
        }
    }
}

// Prints why the words are refused, after the program's name, as all that it tells.
fn print_refused<R>(rt: &R, error: &clap::Error) -> io::Result<()>
where
    R: Print + Eprint + AllocGlobal,
{
    let Ok(text) = format!(in rt.alloc(); "{error}") else {
        return error.print(rt);
    };
    let text = text.as_str();
    eprint!(rt;
        "piper_pump: {}",
        Tamed(text.strip_prefix("error: ").unwrap_or(text))
    )
}
