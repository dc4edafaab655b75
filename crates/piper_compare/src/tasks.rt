//! Tasks by which it is seen whom a call wakes.

use futures::test::MockTask;
use piper_script::stop::Stop;
use std::alloc::{AllocError, AllocGlobal, Global};
use std::random::RandomSource;

/// A task, and the name of the waker that represents it.
#[derive(Drop)]
struct Named {
    name: u32,
    task: MockTask,
}

/// The tasks of one side: one for each name of a waker.
#[derive(Drop)]
pub struct Tasks {
    named: Vec<Named>,
    /// Whose waker is in the side's slot.
    waiting: Option<u32>,
}

impl Tasks {
    pub fn new(alloc: Global) -> Tasks {
        Tasks {
            named: Vec::new(alloc),
            waiting: None,
        }
    }

    /// The task of this name, which is made where there is none yet.
    pub fn of<R: RandomSource + AllocGlobal>(
        &mut self,
        rt: &R,
        name: u32,
    ) -> Result<&MockTask, Stop> {
        let place = match self.named.iter().position(|named| named.name == name) {
            Some(place) => place,
            None => {
                let task = MockTask::new(rt).map_err(|_| Stop::Memory)?;
                rest(&task);
                self.named
                    .push(Named { name, task })
                    .map_err(|_| Stop::Memory)?;
                self.named.len() - 1
            }
        };
        Ok(&self.named[place].task)
    }

    /// The waker of this name is in the slot now. Returns another's that it replaced.
    pub fn register(&mut self, name: u32) -> Option<u32> {
        self.waiting.replace(name).filter(|other| *other != name)
    }

    /// The slot is empty now. Returns whose waker was in it.
    pub fn unregister(&mut self) -> Option<u32> {
        self.waiting.take()
    }

    /// Adds the names of the tasks that were woken, which then are asleep again.
    pub fn take_woken(&self, names: &mut Vec<u32>) -> Result<(), AllocError> {
        for named in &self.named {
            if named.task.is_woken() {
                rest(&named.task);
                names.push(named.name)?;
            }
        }
        Ok(())
    }

    /// The same after a call of the other side. If that called the waker in the slot, the slot is
    /// empty now.
    pub fn take_called(&mut self, names: &mut Vec<u32>) -> Result<(), AllocError> {
        let waiting = self.waiting;
        if self.named.iter().any(|named| Some(named.name) == waiting && named.task.is_woken()) {
            self.waiting = None;
        }
        self.take_woken(names)
    }
}

/// One poll that does nothing: the task is not woken any more.
fn rest(task: &MockTask) {
    task.enter(|_cx| ());
}
