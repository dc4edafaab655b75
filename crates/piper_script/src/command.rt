//! What a line of a script says.

use piper_machine::Side;
use piper_machine::calls::{Call, Step};
use std::fmt;

/// The most that a number of a script may be, and the most bytes that the lists of one line hold.
pub const MOST: usize = 1_048_576;

/// A command of a script.
#[derive(Drop)]
pub enum Command {
    /// Puts a new machine of this capacity in place of the old one.
    Pipe(usize),
    /// Shows the known bytes that are contiguous.
    Peek,
    /// A call, made whole.
    Whole(Call),
    /// Opens a call, or writes a byte into what is lent.
    Step(Step),
    /// Makes steps of the side's open call.
    Go(Side, Steps),
}

/// How many steps are made.
#[derive(Clone, Copy)]
pub enum Steps {
    Count(usize),
    /// At least one, until the call returns.
    ToAnswer,
}

/// Why a line was not run.
#[derive(Clone, Copy)]
pub enum Refusal {
    /// The line is not of the script language.
    Syntax,
    /// The line, a number or the lists are too long or too great, or a number is too small.
    Limit,
    /// No machine was made yet.
    NoPipe,
    /// The side has an open call.
    Busy,
    /// The side has no open call.
    Idle,
    /// The side was dropped.
    Dropped,
    /// A draw of 100 or more.
    BadDraw,
    /// More than what is left of the slice last lent.
    PastLent,
    /// More than the peeked slice.
    PastPeek,
}

impl fmt::Display for Refusal {
    fn fmt<W: fmt::Write>(&self, f: &mut fmt::Formatter<W>) -> fmt::Result {
        f.write_str(match self {
            Refusal::Syntax => "Syntax",
            Refusal::Limit => "Limit",
            Refusal::NoPipe => "NoPipe",
            Refusal::Busy => "Busy",
            Refusal::Idle => "Idle",
            Refusal::Dropped => "Dropped",
            Refusal::BadDraw => "BadDraw",
            Refusal::PastLent => "PastLent",
            Refusal::PastPeek => "PastPeek",
        })
    }
}
