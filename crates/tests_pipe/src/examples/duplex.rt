//! A duplex stream, and an echo of lines over one.
use crate::compare::{confirm, ready, same, same_bytes};
use futures::test::MockTask;
use piper::io::AsyncRead;
use piper::{Reader, Writer, pipe};
use piper_duplex::{Echoed, End, Ended, LineEcho, duplex, duplex_with_seed, echo};
use piper_lines::Lines;
use std::alloc::AllocGlobal;
use std::process::Abort;
use std::random::RandomSource;
use std::test::Fail;

/// What the one end writes the other reads.
fn halves(rt: &impl Abort, mut reader: Reader, mut writer: Writer) {
    let mut place = [0; 4];
    writer.try_fill(b"ab");
    same(rt, reader.try_drain(&mut place), 2);
    same_bytes(rt, &place, b"ab\0\0");
}

#[test]
fn bytes_go_both_ways(rt: HostRuntime) -> Result<(), Fail> {
    let alloc = rt.alloc();
    let (mut near, mut far) = duplex_with_seed(alloc, 8, 8, 1)?;
    same(&rt, near.reader().len(), 0);
    same(&rt, near.writer().capacity(), 8);
    near.meet(&mut far);
    let (reader, back) = far.into_halves();
    let (answers, writer) = near.into_halves();
    halves(&rt, reader, writer);
    let (near, mut far) = duplex(alloc, 8, 8)?;
    near.finish();
    same(&rt, far.writer().is_closed(), true);
    Ok(())
}

/// An end that was dropped closes both ways.
fn closes_both_ways(rt: &impl Abort, near: End, far: End) {
    drop(near);
    confirm(rt, far.reader().is_closed());
    confirm(rt, far.writer().is_closed());
}

/// An end goes into a closure, and what it wrote can be read after it was dropped.
fn sends_and_goes(rt: &impl Abort, task: &MockTask, near: End, mut far: End) {
    let send = move || {
        let (_, mut writer) = near.into_halves();
        writer.try_fill(b"ab")
    };
    same(rt, send(), 2);
    let mut place = [0; 4];
    let read = task.enter(|cx| far.poll_read(cx, &mut place));
    ready(rt, read, 2);
    same_bytes(rt, &place, b"ab\0\0");
}

#[test]
fn an_end_moves_and_closes_where_it_is_dropped(rt: HostRuntime) -> Result<(), Fail> {
    let (near, far) = duplex(rt.alloc(), 8, 8)?;
    closes_both_ways(&rt, near, far);
    let task = MockTask::new(&rt)?;
    let (near, far) = duplex(rt.alloc(), 8, 8)?;
    sends_and_goes(&rt, &task, near, far);
    Ok(())
}

/// Each line of the reader goes to the writer as it came.
fn echo_lines<H>(rt: &H, reader: Reader, mut writer: Writer) -> Result<(), Fail>
where
    H: Abort + RandomSource + AllocGlobal,
{
    let task = MockTask::new(rt)?;
    let mut lines = Lines::new(rt.alloc(), reader);
    let mut by_line = LineEcho::new(rt.alloc());
    let echoed = task.enter(|cx| by_line.poll(cx, &mut lines, &mut writer, 100));
    ready(rt, echoed, Echoed::ToTheEnd);
    Ok(())
}

#[test]
fn lines_go_back_as_they_came(rt: HostRuntime) -> Result<(), Fail> {
    let (reader, mut writer) = pipe(rt.alloc(), 8)?;
    let (mut last, second) = pipe(rt.alloc(), 8)?;
    writer.try_fill(b"a\nb");
    drop(writer);
    echo_lines(&rt, reader, second)?;
    same(&rt, last.try_drain(&mut [0; 8]), 3);
    Ok(())
}

#[test]
fn text_comes_back(rt: HostRuntime) {
    let mut input: &[u8] = b"a\nb\n";
    let mut output = Vec::new(rt.alloc());
    let ended = echo(&rt, rt.alloc(), &[], &mut input, &mut output);
    same(&rt, ended, Ended::DONE);
    same_bytes(&rt, &output, b"a\nb\n");
}
