//! Plays commands on the handles of a pipe.
use crate::halt::Halt;
use crate::pair::Pair;
use piper_machine::calls::{Call, Step};
use piper_protocol::table::Side;
use piper_script::command::{Command, Refusal};
use piper_script::parser::Draws;
use piper_script::player::{room_of, write_made};
use piper_script::reply::Reply;
use piper_script::whole::room_for;
use std::alloc::{AllocGlobal, Global};
use std::random::RandomSource;

/// A lend of at most so many places has one length.
pub const MOST_OF_ONE_LENGTH: usize = 4096;

/// The handles that a script made last, and the room in which bytes come from them.
#[derive(Drop)]
pub struct Hands<H: Drop> {
    rt: H,
    seed: u64,
    pair: Option<Pair>,
    dest: Vec<u8>,
}

impl<H: RandomSource + AllocGlobal + Drop> Hands<H> {
    /// No handles yet. Those that are made draw as generators do that begin at the seed.
    pub fn new(rt: H, seed: u64) -> Hands<H> {
        let dest = Vec::new(rt.alloc());
        Hands {
            rt,
            seed,
            pair: None,
            dest,
        }
    }

    pub fn alloc(&self) -> Global {
        self.rt.alloc()
    }

    /// The numbers that copies will draw, if their lines name none.
    pub fn next_draws(&self) -> Draws {
        match &self.pair {
            Some(pair) => Draws {
                reader: pair.next_draw(Side::Reader),
                writer: pair.next_draw(Side::Writer),
            },
            None => Draws::ONES,
        }
    }

    /// Whether only the machine plays it: single steps, a waker that cannot be made, and a look at
    /// the bytes of a reader that is gone.
    pub fn is_only_machine(&self, command: &Command) -> bool {
        match command {
            Command::Step(Step::Begin(_)) | Command::Go(..) => true,
            Command::Peek => match &self.pair {
                Some(pair) => pair.is_dropped(Side::Reader),
                None => false,
            },
            Command::Whole(call) => is_unlucky(call),
            Command::Pipe(_) | Command::Step(_) => false,
        }
    }

    /// Runs the command and writes what it prints. A lend whose length the contracts leave open is
    /// for the machine alone, as what a script prints is to be the same on both.
    pub fn play(&mut self, command: &Command, reply: &mut Reply) -> Result<(), Halt> {
        if is_open_lend(command) {
            return Err(Halt::OnlyMachine);
        }
        self.play_any(command, reply)
    }

    /// Runs the command, even such a lend, and writes what it prints.
    pub fn play_any(&mut self, command: &Command, reply: &mut Reply) -> Result<(), Halt> {
        if self.is_only_machine(command) {
            return Err(Halt::OnlyMachine);
        }
        if let Command::Pipe(capacity) = command {
            self.pair = Some(Pair::new(&self.rt, *capacity, self.seed)?);
            reply.write("ok")?;
            return Ok(());
        }
        let pair = self.pair.as_mut().ok_or(Refusal::NoPipe)?;
        match command {
            Command::Peek => reply.write_list_with_length(pair.peek()?)?,
            Command::Step(Step::Put(offset, byte)) => {
                pair.put(*offset, *byte)?;
                reply.write("ok")?;
            }
            Command::Whole(call) => {
                let dest = room_of(room_for(call), &mut self.dest)?;
                let mut woken = Vec::new(self.rt.alloc());
                let answer = pair.make(&self.rt, call, dest, &mut woken)?;
                write_made(call, answer, dest, &woken, reply)?;
            }
            _ => return Err(Halt::OnlyMachine),
        }
        Ok(())
    }
}

/// Whether the command is a lend whose length the contracts leave open.
pub fn is_open_lend(command: &Command) -> bool {
    match command {
        Command::Whole(Call::WriteBuf(most)) => *most > MOST_OF_ONE_LENGTH,
        _ => false,
    }
}

// Whether the line says that no waker can be made.
fn is_unlucky(call: &Call) -> bool {
    match call.context() {
        Some(context) => !context.luck.register_granted || !context.luck.yield_granted,
        None => false,
    }
}
