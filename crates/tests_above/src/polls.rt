//! Tasks of tests. A test gets its task by a call: a `?` at each would cost the prover as much as a part
//! of the test.
use futures::task::Queue;
use futures::test::MockTask;
use std::alloc::AllocGlobal;
use std::process::Abort;
use std::random::RandomSource;
use std::sync::Wait;

/// A new task.
pub(crate) fn new_task(rt: &(impl Abort + RandomSource + AllocGlobal)) -> MockTask {
    MockTask::new(rt).expect(rt, "memory")
}

/// The task of the queue that is woken next.
pub(crate) fn next_woken(rt: &(impl Abort + Wait), queue: &Queue) -> usize {
    let cx = queue.next(rt).expect(rt, "a task");
    let task = cx.task();
    cx.cancel();
    task
}
