//! What both handles of a pipe do. Each
//! example leaves the pipe empty.
use crate::compare::{confirm, ready, same, same_bytes};
use futures::task::Context;
use futures::test::MockTask;
use piper::like::{ReadBytes, ReadLike, WriteBytes, WriteLike};
use piper::{Reader, Writer, pipe};
use std::process::Abort;
use std::test::Fail;

/// Bytes move as far as there is room, and as many as there are.
fn try_fill_and_try_drain(rt: &impl Abort, reader: &mut Reader, writer: &mut Writer) {
    same(rt, writer.try_fill(b"hello"), 4);
    let mut place = [0; 3];
    same(rt, reader.try_drain(&mut place), 3);
    same_bytes(rt, &place, b"hel");
    same(rt, reader.try_drain(&mut place), 1);
}

/// Both sides can ask the state of the pipe.
fn len_and_capacity(rt: &impl Abort, reader: &mut Reader, writer: &mut Writer) {
    writer.try_fill(b"abcd");
    same(rt, [writer.len(), reader.len()], [4, 4]);
    same(rt, [writer.is_full(), reader.is_full()], [true, true]);
    same(rt, [writer.is_empty(), reader.is_empty()], [false, false]);
    same(rt, [writer.capacity(), reader.capacity()], [4, 4]);
    same(rt, [writer.is_closed(), reader.is_closed()], [false, false]);
    reader.try_drain(&mut [0; 4]);
}

/// Bytes are written and read where they lie.
fn write_buf_and_peek_buf(
    rt: &impl Abort,
    cx: &mut Context<'_>,
    reader: &mut Reader,
    writer: &mut Writer,
) {
    let _has_room = writer.poll(cx);
    let lent = writer.write_buf(1);
    let count = lent.len();
    lent.fill(7);
    writer.produced(count);
    let _has_bytes = reader.poll(cx);
    let known = reader.peek_buf().len();
    confirm(rt, count > 0);
    same(rt, known, count);
    reader.consume(known);
}

/// A poll waits for a byte or for room, and leaves the task's waker where it is pending.
fn poll(rt: &impl Abort, cx: &mut Context<'_>, reader: &mut Reader, writer: &mut Writer) {
    confirm(rt, reader.poll(cx).is_pending());
    writer.try_fill(b"abcd");
    confirm(rt, writer.poll(cx).is_pending());
    ready(rt, reader.poll(cx), true);
    reader.try_drain(&mut [0; 4]);
    ready(rt, writer.poll(cx), true);
}

/// Slices move by polls: a count of 0 would be the end.
fn poll_fill_bytes_and_poll_drain_bytes(
    rt: &impl Abort,
    cx: &mut Context<'_>,
    reader: &mut Reader,
    writer: &mut Writer,
) {
    let mut place = [0; 4];
    ready(rt, writer.poll_fill_bytes(cx, b"ab"), 2);
    ready(rt, reader.poll_drain_bytes(cx, &mut place), 2);
    same_bytes(rt, &place, b"ab\0\0");
}

/// Bytes come from a reader of std, and go to a writer of std, with no buffer between.
fn poll_fill_and_poll_drain(
    rt: &impl Abort,
    cx: &mut Context<'_>,
    reader: &mut Reader,
    writer: &mut Writer,
) {
    let mut source = b"ab".as_slice();
    let mut place = [0; 4];
    let mut dest = place.as_mut_slice();
    ready(rt, writer.poll_fill(cx, &mut source), 2);
    ready(rt, reader.poll_drain(cx, &mut dest), 2);
    same_bytes(rt, &place, b"ab\0\0");
}

/// The same over any source and destination, as a task and without one.
fn fill_with_and_drain_with(
    rt: &impl Abort,
    cx: &mut Context<'_>,
    reader: &mut Reader,
    writer: &mut Writer,
) {
    let mut source = ReadBytes::new(b"ab");
    let mut place = [0; 3];
    let mut dest = WriteBytes::new(&mut place);
    same(rt, source.asks(), 2);
    same(rt, dest.asks(), 3);
    ready(rt, writer.poll_fill_with(cx, &mut source), 2);
    ready(rt, reader.poll_drain_with(cx, &mut dest), 2);
    ready(rt, writer.try_fill_with(&mut ReadBytes::new(b"c")), 1);
    ready(rt, reader.try_drain_with(&mut dest), 1);
    same_bytes(rt, &place, b"abc");
}

/// A source and a destination of slices, called by hand.
fn read_and_write(rt: &impl Abort) {
    let (mut from, mut to) = ([0; 2], [0; 2]);
    confirm(rt, matches!(ReadBytes::new(b"abc").read(&mut from), Ok(2)));
    confirm(rt, matches!(WriteBytes::new(&mut to).write(&from), Ok(2)));
    same_bytes(rt, &to, b"ab");
}

#[test]
fn what_both_handles_do(rt: HostRuntime) -> Result<(), Fail> {
    let (mut reader, mut writer) = pipe(rt.alloc(), 4)?;
    let (reader, writer) = (&mut reader, &mut writer);
    let task = MockTask::new(&rt)?;
    task.enter(|cx| poll(&rt, cx, reader, writer));
    try_fill_and_try_drain(&rt, reader, writer);
    len_and_capacity(&rt, reader, writer);
    task.enter(|cx| {
        fill_with_and_drain_with(&rt, cx, reader, writer);
        write_buf_and_peek_buf(&rt, cx, reader, writer);
        poll_fill_bytes_and_poll_drain_bytes(&rt, cx, reader, writer);
        poll_fill_and_poll_drain(&rt, cx, reader, writer);
    });
    read_and_write(&rt);
    Ok(())
}
