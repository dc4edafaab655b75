//! The mode `all`: two open calls, and every order of their steps.

ghost use Rattle.std.specs.Prelude.{All};
ghost use Rattle.piper_script.specs.Played.{IsInLimits};

use crate::command::{Command, Refusal};
use crate::parser::{Draws, MOST_OF_A_LINE, begins_for, is_silent, parse};
use crate::player::Player;
use crate::stop::Stop;
use crate::stream::{Lines, stopped};
use crate::trial::{Length, Move, Trial, other, turn_to_next};
use piper_machine::Side;
use piper_machine::events::Log;
use std::alloc::Global;
use std::collections::BTreeSet;
use std::io::{BufWriter, Read, Write};

/// A `begin` line: the side whose call it opens, and its number.
#[derive(Clone, Copy)]
struct Opening {
    side: Side,
    line: u64,
}

/// A script of whole calls and of one call of each side that is opened.
#[derive(Drop)]
struct CallsToOrder {
    alloc: Global,
    commands: Vec<Command>,
    first: Option<Opening>,
    second: Option<Opening>,
    /// The number of the line that was read last.
    line: u64,
    ghost in_limits: { All IsInLimits commands.items },
}

impl CallsToOrder {
    fn new(alloc: Global) -> CallsToOrder {
        CallsToOrder {
            alloc,
            commands: Vec::new(alloc),
            first: None,
            second: None,
            line: 0,
        }
    }

    // Reads a script to its end. Its commands are made as they are read, so that they are refused
    // in the order of lines.
    fn read<I: Read>(&mut self, input: &mut I) -> Result<(), Stop> {
        let mut lines = Lines::new(self.alloc, input)?;
        let mut player = Player::new(self.alloc);
        let mut log = Log::new(self.alloc);
        for number in 1..u64::MAX {
            if !lines.next()? {
                break;
            }
            self.line = number;
            self.add_line(lines.line(), &mut player, &mut log)?;
        }
        Ok(())
    }

    // Makes the line read last, and keeps it.
    fn add_line(&mut self, line: &[u8], player: &mut Player, log: &mut Log) -> Result<(), Stop> {
        if line.len() <= MOST_OF_A_LINE && !self.takes(line) {
            return Err(Stop::Refused(Refusal::Syntax));
        }
        let Some(command) = parse(self.alloc, line, Draws::ONES)? else {
            return Ok(());
        };
        player.make(&command, log)?;
        self.commands.push(command).map_err(|_| Stop::Memory)?;
        if let Some(side) = begins_for(line) {
            let opening = Some(Opening {
                side,
                line: self.line,
            });
            match self.first {
                None => self.first = opening,
                Some(_) => self.second = opening,
            }
        }
        Ok(())
    }

    // Whether a command of this name is allowed here, whatever its numbers.
    fn takes(&self, line: &[u8]) -> bool {
        if is_silent(line) {
            return true;
        }
        match (self.first, self.second) {
            (None, _) if self.commands.is_empty() => line.starts_with(b"pipe "),
            (None, _) => !line.starts_with(b"pipe ") && !line.starts_with(b"go "),
            (Some(first), None) => begins_for(line) == Some(other(first.side)),
            (Some(_), Some(_)) => false,
        }
    }

    // A new machine on which all commands were made.
    fn set_up(&self) -> Result<Trial, Stop> {
        let mut player = Player::new(self.alloc);
        let mut log = Log::new(self.alloc);
        for command in self.commands.iter() {
            player.make(command, &mut log)?;
        }
        match player.into_machine() {
            Some(machine) => Ok(Trial::new(machine, log)),
            None => Err(Stop::Refused(Refusal::NoPipe)),
        }
    }
}

/// What came of the orders so far.
#[derive(Drop)]
struct Outcomes {
    /// A summary of each outcome.
    known: BTreeSet<Vec<u8>>,
    /// The outcomes, each once, in the order of their bytes.
    lines: BTreeSet<Vec<u8>>,
}

impl Outcomes {
    fn new(alloc: Global) -> Outcomes {
        Outcomes {
            known: BTreeSet::new(alloc),
            lines: BTreeSet::new(alloc),
        }
    }

    // Adds the outcome of an order, unless it is there. What is unread may be long, and is written
    // only once.
    fn add(&mut self, alloc: Global, trial: &Trial) -> Result<(), Stop> {
        let summary = trial.summary(alloc)?.as_bytes().to_vec(alloc)?;
        if self.known.insert(summary).map_err(|_| Stop::Memory)? {
            let line = trial.outcome(alloc)?.as_bytes().to_vec(alloc)?;
            self.lines.insert(line).map_err(|_| Stop::Memory)?;
        }
        Ok(())
    }
}

/// What came of all orders.
#[derive(Drop)]
enum Explored {
    Outcomes(Outcomes),
    /// The call that this line opens makes too many steps in some order.
    PastLimit(u64),
}

// Makes the steps in one order, from the start. Its outcome is kept, unless a call makes too many
// steps.
fn make_order(
    script: &CallsToOrder,
    first: Side,
    moves: &mut Vec<Move>,
    outcomes: &mut Outcomes,
) -> Result<Length, Stop> {
    let mut trial = script.set_up()?;
    let length = trial.play(moves, first)?;
    if let Length::Within = length {
        outcomes.add(script.alloc, &trial)?;
    }
    Ok(length)
}

// Makes the steps of both calls in every order, each from the start.
fn explore(script: &CallsToOrder, first: Opening, second: Opening) -> Result<Explored, Stop> {
    let mut outcomes = Outcomes::new(script.alloc);
    let mut moves = Vec::new(script.alloc);
    let mut is_second_long = false;
    for _ in 0..u64::MAX {
        match make_order(script, first.side, &mut moves, &mut outcomes)? {
            Length::Within => {}
            Length::FirstIsLong => return Ok(Explored::PastLimit(first.line)),
            // The first may still be too long in another order, which is reported before.
            Length::SecondIsLong => is_second_long = true,
        }
        if !turn_to_next(&mut moves) {
            break;
        }
    }
    if is_second_long {
        return Ok(Explored::PastLimit(second.line));
    }
    Ok(Explored::Outcomes(outcomes))
}

/// Reads the script that `input` gives to its end, makes the steps of its two calls in every order,
/// and writes each distinct outcome to `output`.
pub fn run_all<I: Read, O: Write>(
    alloc: Global,
    input: &mut I,
    output: &mut O,
) -> Result<(), Stop> {
    let mut script = CallsToOrder::new(alloc);
    if let Err(stop) = script.read(input) {
        return stopped(alloc, script.line, stop, output);
    }
    let (Some(first), Some(second)) = (script.first, script.second) else {
        return Ok(());
    };
    match explore(&script, first, second)? {
        Explored::Outcomes(outcomes) => print(alloc, &outcomes, output),
        Explored::PastLimit(line) => { stopped(alloc, line, Stop::Refused(Refusal::Limit), output) }
    }
}

// Prints the outcomes, each on a line of its own.
fn print<O: Write>(alloc: Global, outcomes: &Outcomes, output: &mut O) -> Result<(), Stop> {
    let mut output = BufWriter::new(alloc, output).map_err(|_| Stop::Memory)?;
    for outcome in outcomes.lines.iter() {
        output
            .write_all(outcome.as_slice())
            .map_err(|_| Stop::Write)?;
    }
    output.flush().map_err(|_| Stop::Write)
}
