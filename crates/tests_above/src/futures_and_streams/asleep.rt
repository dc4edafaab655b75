//! A future or a stream that has nothing to do sleeps: its poll is pending, and its task is not
//! woken by the poll itself.
use crate::compare::same;
use crate::futures_and_streams::running::kept;
use futures::test::MockTask;
use futures::{Future, StreamExt};
use piper::pipe;
use piper_futures::{AsyncBufReadExt, AsyncReadExt, AsyncWriteExt, FrameStream, copy};
use std::alloc::AllocGlobal;
use std::process::Abort;
use std::random::RandomSource;

/// Polls a future once, which then sleeps.
fn sleeps<R, F>(rt: &R, what: &str, future: F)
where
    R: Abort + RandomSource + AllocGlobal,
    F: Future + Drop,
    F::Output: Drop,
    requires { F.can_poll future }
{
    let mut future = future;
    let task = MockTask::new(rt).expect(rt, "a task");
    let is_pending = task.enter(|cx| future.poll(cx).is_pending());
    same(rt, (what, is_pending, task.is_woken()), (what, true, false));
}

fn reads_sleep<R>(rt: &R)
where
    R: Abort + RandomSource + AllocGlobal,
{
    let (mut reader, _writer) = pipe(rt.alloc(), 8).expect(rt, "memory");
    sleeps(rt, "read", (&mut reader).read(kept(rt, rt.alloc(), b"..")));
    sleeps(
        rt,
        "read_exact",
        (&mut reader).read_exact(Vec::new(rt.alloc()), 2),
    );
    sleeps(
        rt,
        "read_to_end",
        (&mut reader).read_to_end(Vec::new(rt.alloc())),
    );
    sleeps(
        rt,
        "read_until",
        (&mut reader).read_until(b'\n', Vec::new(rt.alloc())),
    );
}

fn streams_sleep<R>(rt: &R)
where
    R: Abort + RandomSource + AllocGlobal,
{
    let (mut reader, _writer) = pipe(rt.alloc(), 8).expect(rt, "memory");
    sleeps(rt, "lines", (&mut reader).lines(rt.alloc(), 8).next());
    sleeps(
        rt,
        "frames",
        FrameStream::new(rt.alloc(), &mut reader, 8).next(),
    );
}

fn copies_sleep<R>(rt: &R)
where
    R: Abort + RandomSource + AllocGlobal,
{
    let (mut reader, _writer) = pipe(rt.alloc(), 8).expect(rt, "memory");
    let (_drained, mut full) = pipe(rt.alloc(), 1).expect(rt, "memory");
    full.try_fill(b".");
    sleeps(
        rt,
        "drain_into",
        (&mut reader).drain_into(Vec::new(rt.alloc())),
    );
    sleeps(rt, "copy", copy(&mut reader, &mut full));
}

#[test]
fn a_reader_with_nothing_to_read_sleeps(rt: HostRuntime) {
    reads_sleep(&rt);
    streams_sleep(&rt);
    copies_sleep(&rt);
}

#[test]
fn a_writer_with_no_room_sleeps(rt: HostRuntime) {
    let (_reader, mut writer) = pipe(rt.alloc(), 1).expect(&rt, "memory");
    writer.try_fill(b".");
    let source: &[u8] = b"more";
    sleeps(&rt, "write_all", (&mut writer).write_all(b"more"));
    sleeps(&rt, "fill_from", (&mut writer).fill_from(source));
}
