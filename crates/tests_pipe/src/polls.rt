//! How the tests poll, and what they begin with. Where memory is refused, it is asked for again: so the
//! tests pass whichever allocation fails.
ghost use Rattle.std.specs.Prelude.{◌<◌, ◌*◌, ◌^◌};
ghost use Rattle.piper.specs.Handles.{ArePair};

use futures::test::MockTask;
use piper::{OutOfMemory, Reader, Writer, pipe};
use std::alloc::AllocGlobal;
use std::process::Abort;
use std::random::RandomSource;

/// A pipe.
pub(crate) fn pipe_at_last(rt: &(impl Abort + AllocGlobal), capacity: usize) -> (Reader, Writer)
    requires { (0 < capacity) × (2 * capacity < 2 ^ 64) }
    ensures { ArePair result.0 result.1 }
{
    match pipe(rt.alloc(), capacity) {
        Ok(handles) => handles,
        Err(OutOfMemory) => pipe(rt.alloc(), capacity).expect(rt, "a pipe"),
    }
}

/// A task.
pub(crate) fn task_at_last(rt: &(impl Abort + RandomSource + AllocGlobal)) -> MockTask {
    match MockTask::new(rt) {
        Ok(task) => task,
        Err(_) => MockTask::new(rt).expect(rt, "a task"),
    }
}
