//! The traits of readers and writers that may be pending, and the copy between two of them.
use crate::compare::{confirm, ready, same, same_bytes};
use futures::task::{Context, Poll};
use futures::test::MockTask;
use piper::io::{AsyncBufRead, AsyncRead, AsyncWrite, Copied, poll_copy};
use piper::like::{ReadLike, StdRead, StdWrite, WriteLike};
use piper::pipe;
use std::process::Abort;
use std::test::Fail;

/// Any writer and any reader of these traits, at the two sides of one pipe.
fn poll_write_and_poll_read<R, W>(
    rt: &impl Abort,
    cx: &mut Context<'_>,
    reader: &mut R,
    writer: &mut W,
)
where
    R: AsyncRead,
    W: AsyncWrite,
{
    let mut place = [0; 4];
    ready(rt, writer.poll_write(cx, b"ab"), 2);
    ready(rt, writer.poll_flush(cx), ());
    ready(rt, reader.poll_read(cx, &mut place), 2);
    same_bytes(rt, &place, b"ab\0\0");
}

/// A reader that lends shows what it has, and takes what was used.
fn poll_fill_buf<R, W>(rt: &impl Abort, cx: &mut Context<'_>, reader: &mut R, writer: &mut W)
where
    R: AsyncBufRead,
    W: AsyncWrite,
{
    confirm(rt, writer.poll_write(cx, b"ab").is_ready());
    let lent = match reader.poll_fill_buf(cx) {
        Poll::Ready(Ok(lent)) => lent,
        _ => return,
    };
    same_bytes(rt, lent, b"ab");
    let count = lent.len().min(1);
    reader.consume(count);
}

/// All bytes of a reader go to a writer, up to the end of the one or the close of the other.
fn poll_copies<R, W>(rt: &impl Abort, cx: &mut Context<'_>, reader: &mut R, writer: &mut W)
where
    R: AsyncBufRead,
    W: AsyncWrite,
{
    ready(rt, poll_copy(cx, reader, writer), Copied::ToTheEnd);
    ready(rt, writer.poll_close(cx), ());
}

/// Readers and writers of std as sources and destinations of copies.
fn of_std(rt: &impl Abort) {
    let mut source = b"abc".as_slice();
    let mut place = [0; 2];
    let read = StdRead::new(&mut source).read(&mut place);
    confirm(rt, matches!(read, Ok(2)));
    let mut kept = [0; 2];
    let mut dest = kept.as_mut_slice();
    let written = StdWrite::new(&mut dest).write(&place);
    confirm(rt, matches!(written, Ok(2)));
    same_bytes(rt, &kept, b"ab");
}

#[test]
fn what_readers_and_writers_do(rt: HostRuntime) -> Result<(), Fail> {
    let (mut reader, mut writer) = pipe(rt.alloc(), 128)?;
    let (mut last, mut second) = pipe(rt.alloc(), 128)?;
    let task = MockTask::new(&rt)?;
    task.enter(|cx| {
        poll_write_and_poll_read(&rt, cx, &mut reader, &mut writer);
        poll_fill_buf(&rt, cx, &mut reader, &mut writer);
    });
    // A poll that copied piece by piece of one byte would ask for another one before all have come.
    same(&rt, writer.try_fill(&[b'c'; 100]), 100);
    drop(writer);
    task.enter(|cx| poll_copies(&rt, cx, &mut reader, &mut second));
    let mut place = [0; 128];
    same(&rt, last.try_drain(&mut place), 101);
    same_bytes(&rt, &place[..3], b"bcc");
    of_std(&rt);
    Ok(())
}
