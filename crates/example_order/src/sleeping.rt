//! Two threads share a pipe, and each polls its side by hand. It sleeps where there is nothing to
//! do, until a call of the other side wakes it.
ghost use Rattle.std.specs.Prelude.{◌≡◌};
ghost use Rattle.futures.specs.Task.{IsArmed};
ghost use Rattle.futures.specs.Poll.{OnPending};

use futures::task::{Context, Doorbell, Poll, Queue};
use piper::{Reader, Writer, pipe};
use std::alloc::AllocGlobal;
use std::marker::{Send, Sync};
use std::random::RandomSource;
use std::sync::Wait;
use std::thread::Threads;
use std::{io, thread};

/// How many bytes are sent.
const BYTES: u64 = 100_000;

/// Sends as many bytes as there is room for, until all are sent or the pipe is closed.
fn send<H: Wait>(
    rt: &H,
    writer: &mut Writer,
    cx: &mut Context<'_>,
    left: &mut u64,
) -> Poll<io::Result<()>>
    ensures armed { OnPending result (IsArmed cx.new) }
{
    for _ in rt.forever() {
        if *left == 0 {
            return Poll::Ready(Ok(()));
        }
        match writer.poll(cx) {
            Poll::Pending => return Poll::Pending,
            Poll::Ready(Err(refused)) => return Poll::Ready(Err(refused.into())),
            Poll::Ready(Ok(false)) => return Poll::Ready(Ok(())),
            Poll::Ready(Ok(true)) => {
                writer.try_fill(b"a");
                *left -= 1;
            }
        }
    }
    unreachable!()
}

/// Takes what is there, until the pipe's end.
fn count<H: Wait>(
    rt: &H,
    reader: &mut Reader,
    cx: &mut Context<'_>,
    came: &mut u64,
) -> Poll<io::Result<()>>
    ensures armed { OnPending result (IsArmed cx.new) }
{
    for _ in rt.forever() {
        match reader.poll(cx) {
            Poll::Pending => return Poll::Pending,
            Poll::Ready(Err(refused)) => return Poll::Ready(Err(refused.into())),
            Poll::Ready(Ok(false)) => return Poll::Ready(Ok(())),
            Poll::Ready(Ok(true)) => {
                let known = reader.peek_buf().len();
                reader.consume(known);
                *came = came.wrapping_add(known as u64);
            }
        }
    }
    unreachable!()
}

fn send_all<H>(rt: &H, mut writer: Writer) -> io::Result<()>
where
    H: Wait + RandomSource + AllocGlobal,
{
    let queue = Queue::new(rt, Doorbell::parking())?;
    queue.add()?.schedule();
    let mut left = BYTES;
    for _ in rt.forever() {
        let Some(mut cx) = queue.next(rt) else {
            return Err(io::ErrorKind::OutOfMemory.into());
        };
        let turn = send(rt, &mut writer, &mut cx, &mut left);
        cx.end(&turn);
        if let Poll::Ready(sent) = turn {
            return sent;
        }
    }
    unreachable!()
}

fn count_all<H>(rt: &H, mut reader: Reader) -> io::Result<u64>
where
    H: Wait + RandomSource + AllocGlobal,
{
    let queue = Queue::new(rt, Doorbell::parking())?;
    queue.add()?.schedule();
    let mut came = 0;
    for _ in rt.forever() {
        let Some(mut cx) = queue.next(rt) else {
            return Err(io::ErrorKind::OutOfMemory.into());
        };
        let turn = count(rt, &mut reader, &mut cx, &mut came);
        cx.end(&turn);
        if let Poll::Ready(ended) = turn {
            return ended.map(|()| came);
        }
    }
    unreachable!()
}

/// Sends all bytes from one thread to another, and returns how many came.
pub(crate) fn send_and_count<H>(rt: &H) -> io::Result<u64>
where
    H: Threads + Wait + RandomSource + AllocGlobal + Clone + Drop + Send + Sync + 'static,
{
    let theirs = rt.clone()?;
    let (reader, writer) = pipe(rt.alloc(), 64)?;
    let spawned = thread::spawn(rt, move || send_all(&theirs, writer));
    let child = spawned.map_err(|_| io::Error::other("a second thread is refused"))?;
    let came = count_all(rt, reader);
    child.join(rt)?;
    came
}
