//! How a pipe begins and ends, and what its sides can prove to each other.
ghost use Rattle.piper.specs.Handles.{ArePair};

use crate::compare::{confirm, same};
use futures::task::Context;
use futures::test::MockTask;
use piper::{Reader, Writer, pipe, pipe_with_seed};
use std::process::Abort;
use std::test::Fail;

/// The writer closes the pipe; what is unread can still be read.
fn poll_close(rt: &impl Abort, cx: &mut Context<'_>, reader: &mut Reader, writer: &mut Writer) {
    writer.try_fill(b"ab");
    confirm(rt, writer.poll_close(cx).is_ready());
    confirm(rt, reader.is_closed());
    same(rt, reader.try_drain(&mut [0; 4]), 2);
}

/// What a side did, the other observes; held by one thread both meet.
fn mark_and_meet(rt: &impl Abort, mut reader: Reader, mut writer: Writer)
    requires { ArePair reader writer }
{
    reader.meet(&mut writer);
    writer.try_fill(b"abc");
    reader.try_drain(&mut [0; 1]);
    let (consumed, published) = (reader.mark(), writer.mark());
    writer.observe(&consumed);
    reader.observe(&published);
    same(rt, reader.end().known_len(), 2);
    same(rt, writer.end().capacity(), 4);
    let last = reader.finish();
    writer.observe_last(&last.mark);
    confirm(rt, writer.is_closed());
}

#[test]
fn how_pipes_begin_and_end(rt: HostRuntime) -> Result<(), Fail> {
    let alloc = rt.alloc();
    let task = MockTask::new(&rt)?;
    let (mut reader, mut writer) = pipe(alloc, 4)?;
    task.enter(|cx| poll_close(&rt, cx, &mut reader, &mut writer));
    drop(reader);
    confirm(&rt, writer.is_closed());
    let (reader, writer) = pipe_with_seed(alloc, 4, 1)?;
    mark_and_meet(&rt, reader, writer);
    Ok(())
}
