//! Sends standard input line by line through a duplex stream to a thread that writes it back, and
//! prints what comes back.
#![tactic(auto)]

use piper_duplex::{Ended, echo};
use std::env;
use std::io::ErrorKind;
use std::process::ExitCode;

const HELP: &str = "usage: duplex_echo
       duplex_echo --help
       duplex_echo --version
Sends standard input line by line through a duplex stream to a thread that writes it back, and prints what comes back, each line before the next one is read. Each way holds 64 bytes.
Exit status:
  0  all came back and was printed, or the help or the version was
  1  the words are not these, of which nothing is reported
  2  memory or a thread was refused, or the input or the output failed: a line on standard error says which";

/// The arguments after the program's name.
fn words(rt: &HostRuntime) -> Result<Vec<String>, Ended> {
    match env::args(rt) {
        Ok(words) => words
            .skip(1)
            .collect(rt.alloc())
            .map_err(|_| Ended::OUT_OF_MEMORY),
        // An argument that is no text is one too many as well.
        Err(error) if error.kind() == ErrorKind::InvalidData => Err(Ended::WRONG_ARGUMENTS),
        Err(_) => Err(Ended::OUT_OF_MEMORY),
    }
}

/// The text that the words ask for in place of an echo, if they do.
fn text_for(words: &[String]) -> Option<&'static str> {
    match words {
        [word] if word.as_str() == "--help" => Some(HELP),
        [word] if word.as_str() == "--version" => Some("duplex_echo 0.2.5"),
        _ => None,
    }
}

/// Prints a text, and reports how that ended.
fn print_text(rt: &HostRuntime, text: &str) -> Ended {
    match println!(rt; "{text}") {
        Ok(()) => Ended::DONE,
        Err(_) => Ended::WRITE_FAILED,
    }
}

fn main(rt: HostRuntime) -> ExitCode {
    let ended = match words(&rt) {
        Ok(words) => match text_for(words.as_slice()) {
            Some(text) => print_text(&rt, text),
            None => echo(
                &rt,
                rt.alloc(),
                words.as_slice(),
                &mut rt.stdin(),
                &mut rt.stdout(),
            ),
        },
        Err(ended) => ended,
    };
    if !ended.text.is_empty() {
        let _ = eprintln!(rt; "{}", ended.text);
    }
    ExitCode::from(ended.status)
}
