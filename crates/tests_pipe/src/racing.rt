//! A side that polls over and over, while the other, on a thread of its own, does what it waits for.
//! So its waker comes out of its slot at any moment, by either side, and is called or dropped. In the
//! toolchain both wake its task: one that was left pending and not woken tells of a waker that leaked,
//! or that nobody found.
use crate::compare::same_of as same;
use crate::polls::{pipe_at_last, task_at_last};
use futures::task::{Context, Poll};
use futures::test::MockTask;
use piper::io::{AsyncBufRead, AsyncRead, AsyncWrite};
use piper::{Reader, Writer};
use std::alloc::AllocGlobal;
use std::marker::{Send, Sync};
use std::process::Abort;
use std::random::RandomSource;
use std::sync::Wait;
use std::thread;
use std::thread::Threads;

const ROUNDS: usize = 500;

/// By which call a side waits.
#[derive(Clone, Copy, Debug)]
enum By {
    Poll,
    /// A copy over a slice.
    Copy,
    /// A copy by the traits.
    Trait,
    /// A poll by the traits.
    Piece,
}

/// Two tasks, which poll in turn.
#[derive(Drop)]
struct Tasks {
    first: MockTask,
    second: MockTask,
    is_first: bool,
}

impl Tasks {
    fn new(rt: &(impl Abort + RandomSource + AllocGlobal)) -> Tasks {
        Tasks {
            first: task_at_last(rt),
            second: task_at_last(rt),
            is_first: true,
        }
    }

    /// The task whose turn it is.
    fn next(&mut self) -> &MockTask {
        self.is_first = !self.is_first;
        if self.is_first {
            &self.first
        } else {
            &self.second
        }
    }

    /// Whether the task was woken that polled before the one that polled last.
    fn is_woken(&self) -> bool {
        if self.is_first {
            self.second.is_woken()
        } else {
            self.first.is_woken()
        }
    }
}

/// Whether a call of the reader is no longer pending.
fn reads(reader: &mut Reader, by: By, cx: &mut Context<'_>) -> bool {
    let mut place = [0; 1];
    match by {
        By::Poll => matches!(reader.poll(cx), Poll::Ready(_)),
        By::Copy => matches!(reader.poll_drain_bytes(cx, &mut place), Poll::Ready(_)),
        By::Trait => matches!(reader.poll_read(cx, &mut place), Poll::Ready(_)),
        By::Piece => matches!(reader.poll_fill_buf(cx), Poll::Ready(_)),
    }
}

/// Whether a call of the writer is no longer pending.
fn writes(writer: &mut Writer, by: By, cx: &mut Context<'_>) -> bool {
    match by {
        By::Poll | By::Piece => matches!(writer.poll(cx), Poll::Ready(_)),
        By::Copy => matches!(writer.poll_fill_bytes(cx, b"b"), Poll::Ready(_)),
        By::Trait => matches!(writer.poll_write(cx, b"b"), Poll::Ready(_)),
    }
}

/// Polls the reader until it is ready. Tells whether it was pending before.
fn reads_on(rt: &impl Wait, reader: &mut Reader, tasks: &mut Tasks, by: By) -> bool {
    let mut has_waited = false;
    for _ in rt.forever() {
        if tasks.next().enter(|cx| reads(reader, by, cx)) {
            return has_waited;
        }
        has_waited = true;
    }
    unreachable!()
}

/// Polls the writer until it is ready. Tells whether it was pending before.
fn writes_on(rt: &impl Wait, writer: &mut Writer, tasks: &mut Tasks, by: By) -> bool {
    let mut has_waited = false;
    for _ in rt.forever() {
        if tasks.next().enter(|cx| writes(writer, by, cx)) {
            return has_waited;
        }
        has_waited = true;
    }
    unreachable!()
}

/// What the other side does, while one waits.
#[derive(Clone, Copy, Debug)]
enum Meanwhile {
    Moves,
    IsDropped,
}

fn reader_waits<H>(rt: &H, by: By, meanwhile: Meanwhile)
where
    H: Abort + Threads + Wait + RandomSource + AllocGlobal + Send + Sync,
{
    let (mut reader, writer) = pipe_at_last(rt, 1);
    let mut writer = Some(writer);
    let mut tasks = Tasks::new(rt);
    let (_, has_waited) = thread::join(
        rt,
        || match meanwhile {
            Meanwhile::IsDropped => writer = None,
            Meanwhile::Moves => {
                if let Some(writer) = &mut writer {
                    writer.try_fill(b"a");
                }
            }
        },
        || reads_on(rt, &mut reader, &mut tasks, by),
    );
    if has_waited {
        same(rt, &(by, meanwhile), tasks.is_woken(), true);
    }
}

fn writer_waits<H>(rt: &H, by: By, meanwhile: Meanwhile)
where
    H: Abort + Threads + Wait + RandomSource + AllocGlobal + Send + Sync,
{
    let (reader, mut writer) = pipe_at_last(rt, 1);
    let mut reader = Some(reader);
    writer.try_fill(b"a");
    let mut tasks = Tasks::new(rt);
    let (_, has_waited) = thread::join(
        rt,
        || match meanwhile {
            Meanwhile::IsDropped => reader = None,
            Meanwhile::Moves => {
                if let Some(reader) = &mut reader {
                    reader.try_drain(&mut [0; 1]);
                }
            }
        },
        || writes_on(rt, &mut writer, &mut tasks, by),
    );
    if has_waited {
        same(rt, &(by, meanwhile), tasks.is_woken(), true);
    }
}

fn waits<H>(rt: &H, meanwhile: Meanwhile)
where
    H: Abort + Threads + Wait + RandomSource + AllocGlobal + Send + Sync,
{
    for by in [By::Poll, By::Copy, By::Trait, By::Piece] {
        for _ in 0..ROUNDS {
            reader_waits(rt, by, meanwhile);
            writer_waits(rt, by, meanwhile);
        }
    }
}

#[test]
fn no_waker_leaks_where_bytes_or_room_come(rt: HostRuntime) {
    waits(&rt, Meanwhile::Moves);
}

#[test]
fn whoever_registers_while_a_handle_is_dropped_is_woken(rt: HostRuntime) {
    waits(&rt, Meanwhile::IsDropped);
}
