//! Last marks: what a handle that was dropped reports the other one.
ghost use Rattle.piper.specs.Handles.{ArePair};

use crate::compare::same_of as same;
use crate::polls::{pipe_at_last, task_at_last};
use futures::task::Context;
use piper::{Reader, Writer};
use std::process::Abort;

/// A reader that waits, and then meets what is left of its writer.
fn reader_is_taken(rt: &impl Abort, cx: &mut Context<'_>, mut reader: Reader, mut writer: Writer)
    requires { ArePair reader writer }
{
    same(rt, &"waits", reader.poll(cx).is_pending(), true);
    same(rt, &"taken", writer.try_fill(b"ab"), 2);
    let mut left = writer.finish();
    reader.meet_finished(&mut left);
    same(rt, &"to come", reader.len(), 2);
}

#[test]
fn a_reader_that_waits_meets_what_is_left_of_its_writer(rt: HostRuntime) {
    let task = task_at_last(&rt);
    let (reader, writer) = pipe_at_last(&rt, 8);
    task.enter(|cx| reader_is_taken(&rt, cx, reader, writer));
    same(&rt, &"woken", task.is_woken(), true);
}

/// A writer of a full pipe that waits, and then meets what is left of its reader.
fn writer_is_taken(rt: &impl Abort, cx: &mut Context<'_>, reader: Reader, mut writer: Writer)
    requires { ArePair reader writer }
{
    same(rt, &"taken", writer.try_fill(b"ab"), 2);
    same(rt, &"waits", writer.poll(cx).is_pending(), true);
    let mut left = reader.finish();
    writer.meet_finished(&mut left);
    same(rt, &"closed", writer.is_closed(), true);
}

#[test]
fn a_writer_that_waits_meets_what_is_left_of_its_reader(rt: HostRuntime) {
    let task = task_at_last(&rt);
    let (reader, writer) = pipe_at_last(&rt, 2);
    task.enter(|cx| writer_is_taken(&rt, cx, reader, writer));
    same(&rt, &"woken", task.is_woken(), true);
}
