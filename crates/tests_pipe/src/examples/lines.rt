//! Lines, read and written whole.
use crate::compare::{confirm, ready, same, same_bytes};
use futures::task::{Context, Poll};
use futures::test::MockTask;
use piper::io::{AsyncBufRead, AsyncWrite};
use piper::pipe;
use piper_lines::{
    LineAnswer, Lines, WriteLine, Written, fill_up, into_line_text, is_one_line, lacks, line_text,
    poll_lines, poll_write_all,
};
use std::process::Abort;
use std::test::Fail;

/// A text is written with what ends its line.
fn write_line<W: AsyncWrite>(rt: &impl Abort, cx: &mut Context<'_>, writer: &mut W) {
    let (text, list) = (b"one".as_slice(), b"two, three".as_slice());
    if is_one_line(text) && lacks(list, b';') {
        let mut line = WriteLine::new(text);
        ready(rt, line.poll(cx, writer), Written::Whole);
        let mut line = WriteLine::ended_by(list, b';');
        ready(rt, line.poll(cx, writer), Written::Whole);
    }
}

/// A line is read with its end. The reader below stays at hand.
fn poll_line<R: AsyncBufRead>(
    rt: &impl Abort,
    cx: &mut Context<'_>,
    lines: &mut Lines<R>,
    line: &mut Vec<u8>,
) {
    let answer = lines.poll_line(cx, line, 100);
    confirm(
        rt,
        matches!(&answer, Poll::Ready(Ok(told)) if !told.is_end()),
    );
    ready(rt, answer, LineAnswer::Line);
    same_bytes(rt, line_text(line), b"one");
    confirm(rt, lines.reader_mut().poll_fill_buf(cx).is_ready());
}

/// So many bytes are gathered, and so many are written.
fn fill_up_and_write_all<R, W>(
    rt: &impl Abort,
    cx: &mut Context<'_>,
    (reader, writer): (&mut R, &mut W),
    gathered: &mut Vec<u8>,
)
where
    R: AsyncBufRead,
    W: AsyncWrite,
{
    let mut written = 0;
    let answer = poll_write_all(writer, cx, b"abcdef", &mut written);
    ready(rt, answer, Written::Whole);
    gathered.clear();
    ready(rt, fill_up(reader, cx, gathered, 5), true);
    same_bytes(rt, gathered, b"abcde");
}

#[test]
fn lines_are_written_and_read(rt: HostRuntime) -> Result<(), Fail> {
    let alloc = rt.alloc();
    let task = MockTask::new(&rt)?;
    let (reader, mut writer) = pipe(rt.alloc(), 32)?;
    let mut line = Vec::new(alloc);
    task.enter(|cx| write_line(&rt, cx, &mut writer));
    let mut lines = Lines::new(alloc, reader);
    task.enter(|cx| poll_line(&rt, cx, &mut lines, &mut line));
    same_bytes(&rt, &into_line_text(line), b"one");
    let mut lists = Lines::split(alloc, lines.into_reader(), b';');
    let mut found = Vec::new(alloc);
    let rest = task.enter(|cx| poll_lines(&mut lists, cx, &mut found, 100));
    confirm(&rt, rest.is_pending());
    same(&rt, found.len(), 1);
    let mut reader = lists.into_reader();
    let mut gathered = Vec::new(alloc);
    task.enter(|cx| { fill_up_and_write_all(&rt, cx, (&mut reader, &mut writer), &mut gathered) });
    Ok(())
}
