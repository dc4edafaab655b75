//! The words on the command line.
use std::process::ExitCode;
use std::{env, io};

const USAGE: &str = "usage: example_order
       example_order --help
       example_order --version
Sends texts through pipes, and prints what came.
Exit status:
  0  that was done, or the help or the version was printed
  1  memory or a thread was refused, or standard output can't be written
  2  the words are not these";

/// What is done where there are words after the program's name: the help or the version is printed,
/// or they are refused. The answer is the exit status; `None` where there is no word.
pub fn answer_words(rt: &HostRuntime) -> io::Result<Option<ExitCode>> {
    let mut words = env::args(rt)?.skip(1);
    let Some(word) = words.next() else {
        return Ok(None);
    };
    match word.as_str() {
        "--help" if words.next().is_none() => println!(rt; "{USAGE}")?,
        "--version" if words.next().is_none() => println!(rt; "example_order 0.2.5")?,
        _ => {
            eprintln!(rt; "{USAGE}")?;
            return Ok(Some(ExitCode::from(2)));
        }
    }
    Ok(Some(ExitCode::SUCCESS))
}
