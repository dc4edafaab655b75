//! What the program is asked to compare.

ghost use Rattle.std.specs.Prelude.{IfSome};
ghost use Rattle.piper_compare.specs.Words.{AsksFor};

use piper_script::command::MOST;
use piper_script::number::number;

/// Scripts that are drawn at random.
#[derive(Clone, Copy)]
pub(crate) struct Seeds {
    pub(crate) first: u64,
    pub(crate) count: u64,
}

/// What the program does.
#[derive(Clone, Copy)]
pub(crate) enum Mode {
    /// It prints how it is used.
    Help,
    /// It prints its version.
    Version,
    /// The stored scripts are played on the machine and on the handles, and compared with their
    /// answers.
    Vectors,
    /// A script from standard input is played on the handles.
    Handles,
    /// A script from standard input is played on the handles and on the machine.
    Twin,
    /// Drawn scripts are played on the handles and on the machine.
    Drawn(Seeds),
}

/// The mode that the words of the command line ask for, if they ask for one.
pub(crate) fn mode_of(words: &[String]) -> Option<Mode>
    ensures asked { IfSome result (AsksFor words.now) }
{
    let (word, rest) = words.split_first()?;
    let Some((seed, rest)) = rest.split_first() else {
        return match word.as_str() {
            "--help" => Some(Mode::Help),
            "--version" => Some(Mode::Version),
            "vectors" => Some(Mode::Vectors),
            "handles" => Some(Mode::Handles),
            "twin" => Some(Mode::Twin),
            _ => None,
        };
    };
    let (count, rest) = rest.split_first()?;
    if word.as_str() != "twin" || !rest.is_empty() {
        return None;
    }
    drawn(seed.as_str(), count.as_str()).map(Mode::Drawn)
}

// As many scripts as the second text says, from the seed on that the first one says.
fn drawn(seed: &str, count: &str) -> Option<Seeds> {
    let first = number(seed, 0, MOST).ok()?;
    let count = number(count, 0, MOST).ok()?;
    Some(Seeds {
        first: first as u64,
        count: count as u64,
    })
}
