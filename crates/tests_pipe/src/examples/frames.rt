//! Frames, read and written whole, with a header of any kind.
use crate::compare::{confirm, ready, same, same_bytes};
use futures::task::{Context, Poll};
use futures::test::MockTask;
use piper::io::{AsyncBufRead, AsyncWrite};
use piper::pipe;
use piper_lines::{
    BodyTooLong, ByteOrder, Collected, FrameAnswer, FrameHeader, Frames, WriteFrame, Written,
    poll_frames,
};
use std::process::Abort;
use std::test::Fail;

const TWO_BYTES: FrameHeader = FrameHeader::TwoBytes(ByteOrder::LittleEndian);

/// A body is written after its length.
fn write_frame<W: AsyncWrite>(rt: &impl Abort, cx: &mut Context<'_>, writer: &mut W) {
    let mut frame = WriteFrame::new(b"one");
    ready(rt, frame.poll(cx, writer), Written::Whole);
    let long = [0; 256];
    let refused = WriteFrame::with_header(FrameHeader::OneByte, &long);
    confirm(rt, matches!(refused, Err(BodyTooLong)));
}

/// The bytes of a length, to be written by hand.
fn encode(rt: &impl Abort) {
    assert!(rt; TWO_BYTES.can_encode(258));
    same_bytes(rt, TWO_BYTES.encode(258).as_slice(), &[2, 1]);
}

/// A frame past the limit is skipped, or taken with another limit. The reader below stays at hand.
fn poll_frame<R: AsyncBufRead>(
    rt: &impl Abort,
    cx: &mut Context<'_>,
    frames: &mut Frames<R>,
    frame: &mut Vec<u8>,
) {
    let answer = frames.poll_frame(cx, frame, 2);
    ready(rt, answer, FrameAnswer::TooLong(3));
    let answer = frames.poll_frame(cx, frame, 3);
    ready(rt, answer, FrameAnswer::Frame);
    same_bytes(rt, frame, b"one");
    confirm(rt, frames.reader_mut().poll_fill_buf(cx).is_pending());
}

/// All frames up to the end; one that is too long is skipped.
fn poll_all<R: AsyncBufRead>(
    rt: &impl Abort,
    cx: &mut Context<'_>,
    frames: &mut Frames<R>,
    bodies: &mut Vec<Vec<u8>>,
) {
    match poll_frames(frames, cx, bodies, 2) {
        Poll::Ready(Ok(Collected::UntilTooLong(_))) => frames.skip(),
        _ => {}
    }
    let ended = poll_frames(frames, cx, bodies, 2);
    ready(rt, ended, Collected::ToTheEnd);
    same(rt, bodies.len(), 1);
}

#[test]
fn frames_are_written_and_read(rt: HostRuntime) -> Result<(), Fail> {
    let alloc = rt.alloc();
    let task = MockTask::new(&rt)?;
    let (reader, mut writer) = pipe(rt.alloc(), 32)?;
    encode(&rt);
    task.enter(|cx| write_frame(&rt, cx, &mut writer));
    let mut frames = Frames::new(alloc, reader);
    let mut frame = Vec::new(alloc);
    task.enter(|cx| poll_frame(&rt, cx, &mut frames, &mut frame));
    let mut frames = Frames::with_header(alloc, frames.into_reader(), TWO_BYTES);
    writer.try_fill(&[3, 0, 1, 2, 3, 2, 0, 8, 9]);
    drop(writer);
    let mut bodies = Vec::new(alloc);
    task.enter(|cx| poll_all(&rt, cx, &mut frames, &mut bodies));
    Ok(())
}
