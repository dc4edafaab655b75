//! An end of a duplex stream, dropped while two tasks wait at the other end.
use crate::compare::{confirm, same};
use crate::polls::{new_task, next_woken};
use futures::task::{Doorbell, Queue};
use piper::io::{AsyncRead, AsyncWrite};
use piper_duplex::{End, duplex};
use std::alloc::AllocGlobal;
use std::process::Abort;
use std::random::RandomSource;
use std::sync::Wait;

/// Fills the pipe that this end writes into.
fn fill<H>(rt: &H, end: &mut End)
where
    H: Abort + RandomSource + AllocGlobal,
{
    let task = new_task(rt);
    let written = task.enter(|cx| end.poll_write(cx, b"full"));
    confirm(rt, written.is_ready());
}

/// A queue of two tasks: task 0 waits to read from this end, and task 1 to write to it.
fn two_waiting<H>(rt: &H, end: &mut End) -> Queue
where
    H: Abort + Wait + RandomSource + AllocGlobal,
{
    fill(rt, end);
    let queue = Queue::new(rt, Doorbell::parking()).expect(rt, "memory");
    queue.add().expect(rt, "memory").schedule();
    queue.add().expect(rt, "memory").schedule();
    let mut place = [0; 4];
    let mut cx = queue.next(rt).expect(rt, "a task");
    let read = end.poll_read(&mut cx, &mut place);
    cx.end(&read);
    let mut cx = queue.next(rt).expect(rt, "a task");
    let written = end.poll_write(&mut cx, b"more");
    cx.end(&written);
    confirm(rt, read.is_pending() && written.is_pending());
    queue
}

/// Who reads was woken first, and then who writes.
fn reader_was_first(rt: &(impl Abort + Wait), queue: &Queue) {
    let first = next_woken(rt, queue);
    same(rt, (first, next_woken(rt, queue)), (0, 1));
}

#[test]
fn a_dropped_end_closes_first_what_it_writes_into(rt: HostRuntime) {
    let (first, mut other) = duplex(rt.alloc(), 4, 4).expect(&rt, "memory");
    let queue = two_waiting(&rt, &mut other);
    drop(first);
    reader_was_first(&rt, &queue);
    let (first, mut other) = duplex(rt.alloc(), 4, 4).expect(&rt, "memory");
    let queue = two_waiting(&rt, &mut other);
    first.finish();
    reader_was_first(&rt, &queue);
}
