//! The turns of the two threads of a transfer.
use crate::level::Level;
use futures::task::{Context, Doorbell, Solo};
use piper::{Reader, Writer};
use std::alloc::AllocGlobal;
use std::io;
use std::random::RandomSource;

/// The turns of one thread. Between two of them it waits for a bell, and not at the doorbell of a
/// queue: who waits there yields a few times first, and on a busy machine each yield lasts until all
/// other threads had their turn.
#[derive(Drop)]
pub(crate) struct Turns {
    task: Solo,
}

impl Turns {
    pub(crate) fn new(rt: &(impl RandomSource + AllocGlobal)) -> io::Result<Turns> {
        let task = Solo::new(rt, Doorbell::spinning())?;
        Ok(Turns { task })
    }

    /// Begins a turn.
    pub(crate) fn begin(&self) -> Context<'_> {
        self.task.begin()
    }
}

/// What the thread has that reads the input.
#[derive(Drop)]
pub(crate) struct Input {
    pub(crate) turns: Turns,
    pub(crate) writer: Writer,
}

/// What the thread has that writes the output.
#[derive(Drop)]
pub(crate) struct Output {
    pub(crate) turns: Turns,
    pub(crate) reader: Reader,
    /// How many bytes the pipe is to hold before one is written, and again once it ran dry.
    pub(crate) level: Level,
}
