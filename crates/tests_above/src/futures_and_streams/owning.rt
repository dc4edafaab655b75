//! Futures, streams and sinks own their ends and give them back.
ghost use Rattle.std.specs.Prelude.{◌<◌, ◌*◌, ◌^◌};
ghost use Rattle.piper.specs.Handles.{ArePair};

use crate::compare::{confirm, same, same_bytes};
use crate::futures_and_streams::running::{come, ends, kept, next_of, sends};
use futures::StreamExt;
use futures::executor::block_on;
use futures::task::Poll;
use futures::test::MockTask;
use piper::{PipeError, Reader, Writer, pipe};
use piper_futures::{
    AsyncBufReadExt, FrameSink, FrameStream, LineSink, LineStream, WriteSink, close, drain_into,
    read_to_end, write_all,
};
use piper_lines::{ByteOrder, FrameAnswer, FrameHeader, Frames, into_line_text};
use std::alloc::AllocGlobal;
use std::io::{self, ErrorKind};
use std::process::Abort;
use std::random::RandomSource;
use std::sync::Wait;

/// A new pipe of so many bytes, with these in it.
fn holding<H>(rt: &H, capacity: usize, bytes: &[u8]) -> (Reader, Writer)
where
    H: Abort + Wait + AllocGlobal,
    requires { (0 < capacity) × (2 * capacity < 2 ^ 64) }
    ensures { ArePair result.0 result.1 }
{
    let (reader, mut writer) = pipe(rt.alloc(), capacity).expect(rt, "a pipe");
    same(rt, writer.try_fill(bytes), bytes.len());
    (reader, writer)
}

#[test]
fn a_close_is_the_end_of_what_was_written(rt: HostRuntime) {
    let (reader, writer) = holding(&rt, 64, b"");
    let (writer, count) = ends(&rt, write_all(writer, b"hello world"));
    let writer = ends(&rt, close(writer));
    let (reader, bytes) = ends(&rt, read_to_end(reader, Vec::new(rt.alloc())));
    let seen = (count, writer.is_closed(), reader.len());
    same(&rt, seen, (11, true, 0));
    same_bytes(&rt, &bytes, b"hello world");
}

#[test]
fn lines_of_a_sink_come_out_of_a_stream_in_order(rt: HostRuntime) {
    let (reader, writer) = holding(&rt, 64, b"");
    let sink = sends(&rt, LineSink::new(rt.alloc(), writer), &[b"one", b"two"]);
    let sink = WriteSink::new(rt.alloc(), sink.into_writer());
    drop(sends(&rt, sink, &[b"three"]));
    let mut lines = LineStream::new(rt.alloc(), reader, 10);
    come(&rt, &mut lines, &[b"one\n", b"two\n", b"three"]);
    confirm(&rt, next_of(&rt, &mut lines).is_none());
}

/// The kind of the error that a stream gave, if it gave one that is no want of memory.
fn kind_of(item: Option<Result<Vec<u8>, PipeError>>) -> Option<ErrorKind> {
    match item {
        Some(Err(PipeError::Io(error))) => Some(error.kind()),
        _ => None,
    }
}

/// The frame that was too long is kept, and comes where its bytes are within the limit.
fn takes_with_another_limit<H>(rt: &H, below: Frames<Reader>, wanted: &[u8])
where
    H: Abort + RandomSource + AllocGlobal,
{
    let mut frames = below;
    let mut body = Vec::new(rt.alloc());
    let task = MockTask::new(rt).expect(rt, "a task");
    let answer = task.enter(|cx| frames.poll_frame(cx, &mut body, wanted.len()));
    confirm(rt, matches!(answer, Poll::Ready(Ok(FrameAnswer::Frame))));
    same_bytes(rt, &body, wanted);
}

#[test]
fn frames_of_a_sink_come_out_of_a_stream_up_to_one_too_long(rt: HostRuntime) {
    let (reader, writer) = holding(&rt, 64, b"");
    let sink = FrameSink::new(rt.alloc(), writer);
    let _sink = sends(&rt, sink, &[b"one", b"", b"three"]);
    let mut frames = FrameStream::new(rt.alloc(), reader, 4);
    come(&rt, &mut frames, &[b"one", b""]);
    let long = kind_of(next_of(&rt, &mut frames));
    same(&rt, long, Some(ErrorKind::InvalidData));
    confirm(&rt, next_of(&rt, &mut frames).is_none());
    takes_with_another_limit(&rt, frames.into_frames(), b"three");
}

#[test]
fn a_frame_that_is_cut_off_is_an_error_of_its_own_kind(rt: HostRuntime) {
    let (reader, writer) = holding(&rt, 64, &[0, 0, 0, 2, 7]);
    drop(writer);
    let mut frames = FrameStream::new(rt.alloc(), reader, 4);
    let ended = kind_of(next_of(&rt, &mut frames));
    same(&rt, ended, Some(ErrorKind::UnexpectedEof));
    confirm(&rt, next_of(&rt, &mut frames).is_none());
}

/// A body whose length takes more than one byte, and more than 1,024 bytes.
#[test]
fn a_frame_of_more_than_1024_bytes_passes(rt: HostRuntime) {
    let (reader, writer) = holding(&rt, 2_000, b"");
    let sink = FrameSink::new(rt.alloc(), writer);
    drop(sends(&rt, sink, &[&[7; 300], &[8; 1_500]]));
    let mut frames = FrameStream::new(rt.alloc(), reader, 1_500);
    come(&rt, &mut frames, &[&[7; 300], &[8; 1_500]]);
    confirm(&rt, next_of(&rt, &mut frames).is_none());
}

#[test]
fn texts_come_without_what_ends_their_lines(rt: HostRuntime) {
    let (reader, writer) = holding(&rt, 64, b"one\r\ntwo\n");
    let sink = LineSink::ended_by(rt.alloc(), writer, b';');
    drop(sends(&rt, sink, &[b"three"]));
    let lines = reader.lines(rt.alloc(), 10);
    let mut texts = lines.map(|line| line.map(|line| into_line_text(line)));
    come(&rt, &mut texts, &[b"one", b"two", b"three;"]);
}

#[test]
fn bodies_come_by_the_header_that_both_ends_chose(rt: HostRuntime) {
    let (reader, writer) = holding(&rt, 64, b"");
    let format = FrameHeader::TwoBytes(ByteOrder::LittleEndian);
    let sink = FrameSink::with_header(rt.alloc(), writer, format);
    drop(sends(&rt, sink, &[b"ab"]));
    let mut frames = FrameStream::with_header(rt.alloc(), reader, format, 2);
    come(&rt, &mut frames, &[b"ab"]);
}

#[test]
fn a_failure_leaves_what_was_not_moved(rt: HostRuntime) {
    let (reader, writer) = holding(&rt, 8, b"abcde");
    drop(writer);
    let mut place = [0; 3];
    let drained = block_on(&rt, drain_into(reader, place.as_mut_slice()));
    let Err(failed) = drained.expect(&rt, "an executor") else {
        rt.panic("five bytes are written into three places")
    };
    let is_full = matches!(&failed.error, PipeError::Io(e) if e.kind() == io::ErrorKind::WriteZero);
    confirm(&rt, is_full);
    let (reader, _dest) = failed.left;
    let (_reader, rest) = ends(&rt, read_to_end(reader, Vec::new(rt.alloc())));
    same_bytes(&rt, &place, b"abc");
    same_bytes(&rt, &rest, b"de");
}

#[test]
fn what_is_printed_has_ends_and_counts_and_no_byte(rt: HostRuntime) {
    let alloc = rt.alloc();
    let (reader, writer) = holding(&rt, 8, b"ab");
    let printed = format!(in alloc; "{:?}", read_to_end(reader, kept(&rt, alloc, b"xyz")));
    let wanted = b"ReadToEnd(Reader { capacity: 8, known: 0, closed: false }, 3)";
    same_bytes(&rt, printed.expect(&rt, "memory").as_bytes(), wanted);
    let printed = format!(in alloc; "{:?}", WriteSink::new(alloc, writer));
    let wanted =
        b"PieceSink { writer: Writer { capacity: 8, room: 6, closed: true }, framing: AsItIs, written: 0, of: 0 }";
    same_bytes(&rt, printed.expect(&rt, "memory").as_bytes(), wanted);
}
