//! The mode `run`: a script of steps is read whole, and then run on a new machine.

ghost use Rattle.std.specs.Option.{ForSome};
ghost use Rattle.piper_protocol.specs.Index.{IsCapacity};

use crate::command::{Command, Refusal, Steps};
use crate::parser::{Draws, MOST_OF_A_LINE, is_silent, parse};
use crate::reply::Reply;
use crate::stop::Stop;
use crate::stream::{Lines, stopped, write_reply};
use piper_machine::calls::Step;
use piper_machine::machine;
use piper_machine::refusals::RunRefusal;
use std::alloc::Global;
use std::io::{Read, Write};

/// The most steps of a script.
const MOST_STEPS: usize = 1_048_576;

/// The steps that a script says, and the lines that say them.
#[derive(Drop)]
struct StepsToRun {
    alloc: Global,
    /// The capacity of the pipe, once its line was read.
    capacity: Option<usize>,
    steps: Vec<Step>,
    /// The number of each line that says steps, and how many steps there are up to its end.
    lines: Vec<(u64, usize)>,
    /// The number of the line that was read last.
    line: u64,
    ghost capacity_in_limits: { ForSome capacity IsCapacity },
}

impl StepsToRun {
    fn new(alloc: Global) -> StepsToRun {
        StepsToRun {
            alloc,
            capacity: None,
            steps: Vec::new(alloc),
            lines: Vec::new(alloc),
            line: 0,
        }
    }

    // Reads a script to its end.
    fn read<I: Read>(&mut self, input: &mut I) -> Result<(), Stop> {
        let mut lines = Lines::new(self.alloc, input)?;
        for number in 1..u64::MAX {
            if !lines.next()? {
                break;
            }
            self.line = number;
            self.add_line(lines.line())?;
        }
        Ok(())
    }

    fn add_line(&mut self, line: &[u8]) -> Result<(), Stop> {
        if line.len() <= MOST_OF_A_LINE && !self.takes(line) {
            return Err(Stop::Refused(Refusal::Syntax));
        }
        match parse(self.alloc, line, Draws::ONES)? {
            None => {}
            Some(Command::Pipe(capacity)) => self.capacity = Some(capacity),
            Some(Command::Step(step)) => {
                self.add_end(1)?;
                self.steps.push(step).map_err(|_| Stop::Memory)?;
            }
            Some(Command::Go(side, Steps::Count(count))) => {
                self.add_end(count)?;
                for _ in 0..count {
                    self.steps.push(Step::Go(side)).map_err(|_| Stop::Memory)?;
                }
            }
            Some(_) => return Err(Stop::Refused(Refusal::Syntax)),
        }
        Ok(())
    }

    // Whether a command of this name is allowed here, whatever its numbers.
    fn takes(&self, line: &[u8]) -> bool {
        is_silent(line)
            || match self.capacity {
                None => line.starts_with(b"pipe "),
                Some(_) => line.starts_with(b"begin ")
                    || line.starts_with(b"go ")
                    || line.starts_with(b"put "),
            }
    }

    // Adds the line read last, which says so many steps, unless there are too many.
    fn add_end(&mut self, count: usize) -> Result<(), Stop> {
        let end = self.steps.len().saturating_add(count);
        if end > MOST_STEPS {
            return Err(Stop::Refused(Refusal::Limit));
        }
        self.lines.push((self.line, end)).map_err(|_| Stop::Memory)
    }

    // The number of the line that says the step of this index.
    fn line_of(&self, index: usize) -> u64 {
        match self.lines.iter().find(|(_, end)| index < *end) {
            Some((number, _)) => *number,
            None => self.line,
        }
    }
}

/// Reads the script that `input` gives to its end, runs its steps on a new machine, and writes what
/// happened to `output`.
pub fn run<I: Read, O: Write>(alloc: Global, input: &mut I, output: &mut O) -> Result<(), Stop> {
    let mut script = StepsToRun::new(alloc);
    if let Err(stop) = script.read(input) {
        return stopped(alloc, script.line, stop, output);
    }
    let Some(capacity) = script.capacity else {
        return Ok(());
    };
    match machine::run(alloc, capacity, script.steps.as_slice()) {
        Ok((machine, log)) => {
            let mut reply = Reply::new(alloc);
            for event in log.events() {
                reply.write_event_line(event)?;
            }
            reply.write("unread ")?;
            reply.write_list(machine.unread()?.as_slice())?;
            reply.write("\n")?;
            write_reply(&reply, output)
        }
        Err(RunRefusal::NoMachine) => Err(Stop::Memory),
        Err(RunRefusal::At(index, refusal)) => {
            stopped(alloc, script.line_of(index), refusal.into(), output)
        }
    }
}
