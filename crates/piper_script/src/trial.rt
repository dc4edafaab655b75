//! One order of the steps of two open calls.

use crate::reply::Reply;
use crate::stop::Stop;
use piper_machine::calls::{SideState, Step};
use piper_machine::events::{Event, Log};
use piper_machine::machine::Machine;
use piper_machine::{Answer, Side};
use std::alloc::{AllocError, Global};
use std::fmt::Write;

/// The most steps of a call.
const MOST_STEPS: usize = 8;

/// A step of an order.
#[derive(Clone, Copy)]
pub struct Move {
    side: Side,
    /// Whether the writer can make a step in place of the reader here.
    has_other: bool,
}

/// How long an order was.
#[derive(Clone, Copy)]
pub enum Length {
    /// Neither call made too many steps.
    Within,
    /// The call that was opened first did.
    FirstIsLong,
    /// Only the other one did.
    SecondIsLong,
}

/// A machine with two open calls, and what they did.
#[derive(Drop)]
pub struct Trial {
    machine: Machine,
    log: Log,
    reader_steps: usize,
    writer_steps: usize,
}

impl Trial {
    pub fn new(machine: Machine, log: Log) -> Trial {
        Trial {
            machine,
            log,
            reader_steps: 0,
            writer_steps: 0,
        }
    }

    /// Makes the steps that `moves` says, and then those that are left, which are added to `moves`:
    /// the reader's before the writer's. A call that makes too many steps is then made to its end,
    /// if it is not the one opened first.
    pub fn play(&mut self, moves: &mut Vec<Move>, first: Side) -> Result<Length, Stop> {
        for turn in 0..usize::MAX {
            let next = match moves.get(turn) {
                Some(next) => *next,
                None => {
                    let Some(next) = self.choice(first) else {
                        break;
                    };
                    moves.push(next).map_err(|_| Stop::Memory)?;
                    next
                }
            };
            self.go(next.side)?;
            if self.is_long(first) {
                return Ok(Length::FirstIsLong);
            }
        }
        Ok(if self.is_long(other(first)) {
            Length::SecondIsLong
        } else {
            Length::Within
        })
    }

    // The step that comes next if no order says another one.
    fn choice(&self, first: Side) -> Option<Move> {
        let is_reading = self.machine.r_state() == SideState::Busy;
        let is_writing = self.machine.w_state() == SideState::Busy;
        match (is_reading, is_writing) {
            (false, false) => None,
            (true, false) => Some(alone(Side::Reader)),
            (false, true) => Some(alone(Side::Writer)),
            (true, true) if self.is_long(other(first)) => Some(alone(other(first))),
            (true, true) => Some(Move {
                side: Side::Reader,
                has_other: true,
            }),
        }
    }

    fn go(&mut self, side: Side) -> Result<(), Stop> {
        self.machine.step(&Step::Go(side), &mut self.log)?;
        match side {
            Side::Reader => self.reader_steps = self.reader_steps.saturating_add(1),
            Side::Writer => self.writer_steps = self.writer_steps.saturating_add(1),
        }
        Ok(())
    }

    // Whether the side's call has made too many steps.
    fn is_long(&self, side: Side) -> bool {
        match side {
            Side::Reader => self.reader_steps > MOST_STEPS,
            Side::Writer => self.writer_steps > MOST_STEPS,
        }
    }

    /// What happened, in a few words: what both calls returned, whom they woke, and how many bytes
    /// they moved. Orders of one script that agree in it also leave the same bytes unread.
    pub fn summary(&self, alloc: Global) -> Result<Reply, Stop> {
        let mut reply = Reply::new(alloc);
        self.write_answers(alloc, &mut reply)?;
        let (mut published, mut consumed) = (0usize, 0usize);
        for event in self.log.events() {
            match event {
                Event::Published(bytes) => {
                    published = published.saturating_add(bytes.as_slice().len());
                }
                Event::Consumed(bytes) => {
                    consumed = consumed.saturating_add(bytes.as_slice().len());
                }
                _ => {}
            }
        }
        write!(reply.text, " {published} {consumed}")?;
        Ok(reply)
    }

    /// The line that reports what both calls returned, whom they woke, and what is left unread.
    pub fn outcome(&self, alloc: Global) -> Result<Reply, Stop> {
        let mut reply = Reply::new(alloc);
        self.write_answers(alloc, &mut reply)?;
        reply.write(" unread=")?;
        reply.write_list(self.machine.unread()?.as_slice())?;
        reply.write("\n")?;
        Ok(reply)
    }

    // Writes what both calls returned, and whom they woke.
    fn write_answers(&self, alloc: Global, reply: &mut Reply) -> Result<(), AllocError> {
        reply.write("r=")?;
        reply.write_answer_word(self.answer_of(Side::Reader))?;
        reply.write(" w=")?;
        reply.write_answer_word(self.answer_of(Side::Writer))?;
        reply.write(" woken=")?;
        reply.write_list(self.woken(alloc)?.as_slice())
    }

    // What the side's call returned.
    fn answer_of(&self, side: Side) -> Answer {
        let mut answered = Answer::Done;
        for event in self.log.events() {
            match event {
                Event::Answered(of, answer) if *of == side => answered = *answer,
                _ => {}
            }
        }
        answered
    }

    // The wakers that were called, oldest first.
    fn woken(&self, alloc: Global) -> Result<Vec<u32>, AllocError> {
        let mut names = Vec::new(alloc);
        for event in self.log.events() {
            if let Event::Woken(name) = event {
                names.push(*name)?;
            }
        }
        Ok(names)
    }
}

// A step of the side, if the other one can make none.
fn alone(side: Side) -> Move {
    Move {
        side,
        has_other: false,
    }
}

/// The side that is not this one.
pub fn other(side: Side) -> Side {
    match side {
        Side::Reader => Side::Writer,
        Side::Writer => Side::Reader,
    }
}

/// Turns the moves of an order into the beginning of the next one, if there is one: at the last
/// step that the writer can make in place of the reader, the writer makes it.
pub fn turn_to_next(moves: &mut Vec<Move>) -> bool {
    for _ in 0..moves.len() {
        match moves.last_mut() {
            Some(last) if last.has_other => {
                *last = alone(Side::Writer);
                return true;
            }
            _ => {}
        }
        moves.pop();
    }
    false
}
