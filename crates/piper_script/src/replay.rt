//! The engine: a script in, its output out.

ghost use Rattle.std.specs.Prelude.{codes, IfErr, IsOk, OnOk};
ghost use Rattle.piper_script.specs.Ended.{EndsWith, IsEndOf};
ghost use Rattle.piper_script.specs.Played.{PlaysLine};

use crate::orders::run_all;
use crate::parser::{Draws, parse};
use crate::player::Player;
use crate::reply::Reply;
use crate::runner::run;
use crate::stop::Stop;
use crate::stream::{Lines, write_reply};
use std::alloc::Global;
use std::io::{Read, Write};

/// How a replay ended.
#[derive(Clone, Copy, Debug, PartialEq, Eq)]
pub struct Ended {
    /// The exit status.
    pub status: u8,
    /// The line for standard error, without its LF; empty if there is none.
    pub text: &'static str,
}

impl Ended {
    pub const DONE: Ended = Ended {
        status: 0,
        text: "",
    };

    pub const REFUSED: Ended = Ended {
        status: 1,
        text: "",
    };

    pub const WRONG_ARGUMENTS: Ended = Ended {
        status: 1,
        text: "usage: piper_replay [run|all]",
    };

    pub const OUT_OF_MEMORY: Ended = Ended {
        status: 2,
        text: "memory",
    };

    pub const READ_FAILED: Ended = Ended {
        status: 2,
        text: "read failed",
    };

    pub const WRITE_FAILED: Ended = Ended {
        status: 2,
        text: "write failed",
    };
}

impl From<Stop> for Ended {
    ghost use Rattle.piper_script.specs.Ended.{IsEndOf};

    ghost from_gives = { IsEndOf };

    fn from(stop: Stop) -> Ended {
        match stop {
            Stop::Refused(_) => Ended::REFUSED,
            Stop::Memory => Ended::OUT_OF_MEMORY,
            Stop::Read => Ended::READ_FAILED,
            Stop::Write => Ended::WRITE_FAILED,
        }
    }
}

/// Runs the script that `input` gives, and writes what it prints to `output`. `words` are the
/// arguments of the command line: none, or one of the words `run` and `all`.
///
/// Without an argument the output of a line is written and flushed before the script is read on.
/// With `run` or `all` nothing is written before the whole script was read.
pub fn replay<I: Read, O: Write>(
    alloc: Global,
    words: &[String],
    input: &mut I,
    output: &mut O,
) -> Ended {
    let word = words.first().map_or("", |word| word.as_str());
    end_of(match (words.len(), word) {
        (0, _) => play(alloc, input, output),
        (1, "run") => run(alloc, input, output),
        (1, "all") => run_all(alloc, input, output),
        _ => return Ended::WRONG_ARGUMENTS,
    })
}

// How a replay ended that was made, or stopped.
fn end_of(played: Result<(), Stop>) -> Ended
    ensures done { IsOk played → EndsWith result 0 (codes "") }
    ensures stopped { IfErr played (λ stop. IsEndOf stop result) }
{
    match played {
        Ok(()) => Ended::DONE,
        Err(stop) => Ended::from(stop),
    }
}

// Plays each line before the next one is read.
fn play<I: Read, O: Write>(alloc: Global, input: &mut I, output: &mut O) -> Result<(), Stop> {
    let mut lines = Lines::new(alloc, input)?;
    let mut player = Player::new(alloc);
    let mut reply = Reply::new(alloc);
    for number in 1..u64::MAX {
        if !lines.next()? {
            break;
        }
        reply.clear();
        let played = play_line(alloc, &mut player, lines.line(), &mut reply);
        if let Err(Stop::Refused(refusal)) = played {
            reply.clear();
            reply.write_refusal(number, refusal)?;
        }
        write_reply(&reply, output)?;
        played?;
    }
    Ok(())
}

// Plays a line, and writes what it prints.
fn play_line(alloc: Global, player: &mut Player, line: &[u8], reply: &mut Reply) -> Result<(), Stop>
    ensures { OnOk result (PlaysLine player.old player.new) }
{
    if let Some(command) = parse(alloc, line, Draws::ONES)? {
        player.play(&command, reply)?;
        reply.write("\n")?;
    }
    Ok(())
}
