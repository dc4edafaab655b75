//! An end of a duplex stream for `tokio`, dropped while two tasks wait at the other end.
use crate::compare::confirm;
use crate::polls::{new_task, next_woken};
use futures::task::{Doorbell, Queue};
use piper_duplex::duplex;
use piper_tokio::CompatEnd;
use std::alloc::AllocGlobal;
use std::process::Abort;
use std::random::RandomSource;
use std::sync::Wait;
use tokio::io::{AsyncRead, AsyncWrite};

/// Fills the pipe that this end writes into.
fn fill<H>(rt: &H, end: &mut CompatEnd)
where
    H: Abort + RandomSource + AllocGlobal,
{
    let task = new_task(rt);
    let written = task.enter(|cx| end.poll_write(cx, b"full"));
    confirm(rt, written.is_ready());
}

/// A queue of two tasks: task 0 waits to read from this end, and task 1 to write to it.
fn two_waiting<H>(rt: &H, end: &mut CompatEnd) -> Queue
where
    H: Abort + Wait + RandomSource + AllocGlobal,
{
    fill(rt, end);
    let queue = Queue::new(rt, Doorbell::parking()).expect(rt, "memory");
    queue.add().expect(rt, "memory").schedule();
    queue.add().expect(rt, "memory").schedule();
    let mut place = [0; 4];
    let mut cx = queue.next(rt).expect(rt, "a task");
    let read = end.poll_read(&mut cx, &mut place);
    cx.end(&read);
    let mut cx = queue.next(rt).expect(rt, "a task");
    let written = end.poll_write(&mut cx, b"more");
    cx.end(&written);
    confirm(rt, read.is_pending() && written.is_pending());
    queue
}

#[test]
fn a_dropped_end_closes_first_what_it_writes_into(rt: HostRuntime) {
    let (near, far) = duplex(rt.alloc(), 4, 4).expect(&rt, "memory");
    let near = CompatEnd::new(near);
    let mut far = CompatEnd::new(far);
    let queue = two_waiting(&rt, &mut far);
    drop(near);
    confirm(&rt, next_woken(&rt, &queue) == 0);
    confirm(&rt, next_woken(&rt, &queue) == 1);
}
