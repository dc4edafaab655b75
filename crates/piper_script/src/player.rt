//! Plays commands on a machine.

ghost use Rattle.std.specs.Prelude.{◌≡◌, [], length, None, IfOk, IfErr, OnErr, OnOk};
ghost use Rattle.piper_machine.specs.Log.{events};
ghost use Rattle.piper_script.specs.Played.{IsInLimits, IsOneMove, MakesWhole, NeedsPipe, OnPipe, Plays, PlaysUnlogged};
ghost use Rattle.piper_script.specs.Refused.{IsRefused, RefusesLine, RefusesStep};

use crate::command::{Command, Refusal};
use crate::reply::Reply;
use crate::steps::make_steps;
use crate::stop::Stop;
use crate::whole::{answer, drained, room_for};
use piper_machine::Answer;
use piper_machine::calls::{Call, Step};
use piper_machine::events::Log;
use piper_machine::machine::Machine;
use std::alloc::{AllocError, Global};
use std::marker::Model;

/// The machine that a script made last, and the room in which bytes come from it. In clauses it is
/// the machine's pipe, if there is one.
#[derive(Drop)]
pub struct Player {
    alloc: Global,
    machine: Option<Machine>,
    dest: Vec<u8>,
}

impl Model for Player {
    ghost use Rattle.std.specs.Prelude.{Option};
    ghost use Rattle.piper_machine.specs.Pipe.{Pipe};

    ghost Value = { Option Pipe };

    ghost view = { λ player. player.machine };
}

impl Player {
    pub fn new(alloc: Global) -> Player
        ensures { result ≡ None }
    {
        Player {
            alloc,
            machine: None,
            dest: Vec::new(alloc),
        }
    }

    /// Runs the command as [`Player::make`] does, and writes what it prints.
    pub fn play(&mut self, command: &Command, reply: &mut Reply) -> Result<(), Stop>
        requires { IsInLimits command.now }
        ensures plays { OnOk result (PlaysUnlogged command.now self.old self.new) }
        ensures no_pipe { NeedsPipe command.now → self.old ≡ None →
            result ≡ Err (Stop.Refused Refusal.NoPipe) }
        ensures refused { IfErr result (λ stop.
            IsRefused stop → RefusesLine command.now self.old self.new stop) }
        ensures same { IfErr result (λ stop.
            IsRefused stop → IsOneMove command.now → self.new ≡ self.old) }
    {
        let mut log = Log::new(self.alloc);
        let answer = self.make(command, &mut log)?;
        self.show(command, answer, &log, reply)?;
        Ok(())
    }

    /// Makes what the command says, adds to the log what happens in open calls, and returns what a
    /// whole call does. If the pipe refuses a step of it, it is refused for the same reason.
    pub fn make(&mut self, command: &Command, log: &mut Log) -> Result<Option<Answer>, Stop>
        requires { IsInLimits command.now }
        ensures plays { IfOk result (λ answer. Plays command.now answer
            self.old self.new (events log.old) (events log.new)) }
        ensures no_pipe { NeedsPipe command.now → self.old ≡ None →
            result ≡ Err (Stop.Refused Refusal.NoPipe) }
        ensures refused { IfErr result (λ stop.
            IsRefused stop → RefusesLine command.now self.old self.new stop) }
        ensures same { IfErr result (λ stop.
            IsRefused stop → IsOneMove command.now → self.new ≡ self.old) }
    {
        if let Command::Pipe(capacity) = command {
            self.machine = Some(Machine::new(self.alloc, *capacity)?);
            return Ok(None);
        }
        let machine = self.machine.as_mut().ok_or(Refusal::NoPipe)?;
        match command {
            Command::Whole(call) => return Ok(Some(make_whole(machine, call, &mut self.dest)?)),
            Command::Step(step) => machine.step(step, log)?,
            Command::Go(side, steps) => make_steps(machine, *side, *steps, log)?,
            Command::Pipe(_) | Command::Peek => {}
        }
        Ok(None)
    }

    // Writes what a command prints that was made.
    fn show(
        &self,
        command: &Command,
        answer: Option<Answer>,
        log: &Log,
        reply: &mut Reply,
    ) -> Result<(), AllocError> {
        match (command, answer, &self.machine) {
            (Command::Peek, _, Some(machine)) => reply.write_list_with_length(machine.r_peek()),
            (Command::Whole(call), Some(answer), Some(machine)) => {
                write_made(call, answer, &self.dest, machine.woken(), reply)
            }
            (Command::Step(Step::Begin(_)) | Command::Go(..), _, _) => {
                reply.write_events(log.events())
            }
            _ => reply.write("ok"),
        }
    }

    /// The machine, if one was made.
    pub fn into_machine(self) -> Option<Machine>
        ensures { result ≡ self }
    {
        self.machine
    }
}

// Makes a call whole, if it may be made. Bytes that it moves out of the pipe come to the front of
// the room.
fn make_whole(machine: &mut Machine, call: &Call, room: &mut Vec<u8>) -> Result<Answer, Stop>
    ensures made { IfOk result (λ answer. MakesWhole call.now machine.old answer machine.new) }
    ensures refused { IfErr result (λ stop. IsRefused stop →
        RefusesStep (Step.Begin call.now) machine.old stop) }
    ensures same { OnErr result (machine.new ≡ machine.old) }
{
    match machine.call_refusal(call) {
        Some(refusal) => return Err(refusal.into()),
        None => {}
    }
    let dest = room_of(room_for(call), room)?;
    Ok(answer(machine, call, dest))
}

/// So many places, after making the room longer if it is too short.
pub fn room_of(most: usize, room: &mut Vec<u8>) -> Result<&mut [u8], AllocError>
    ensures { IfOk result (λ places. length places.now ≡ most) }
{
    if room.len() < most {
        room.resize(most, 0)?;
    }
    Ok(&mut room[..most])
}

/// Writes what a call returned that was made whole, the bytes that it moved out of the pipe, which
/// are in front in `dest`, and whom it woke.
pub fn write_made(
    call: &Call,
    answer: Answer,
    dest: &[u8],
    woken: &[u32],
    reply: &mut Reply,
) -> Result<(), AllocError> {
    reply.write_answer(answer)?;
    if let Some(count) = drained(call, answer) {
        reply.write(" ")?;
        reply.write_list(&dest[..count.min(dest.len())])?;
    }
    reply.write_woken(woken)
}
