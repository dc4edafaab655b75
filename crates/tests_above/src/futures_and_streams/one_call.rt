//! How many calls it takes to move what lies in one piece. No clause tells how often a reader or a
//! writer is called, so that a body which moves a byte a call would be proved.
use crate::compare::same;
use crate::futures_and_streams::running::ends;
use crate::lending::Lending;
use futures::task::{Context, Poll};
use futures::test::MockTask;
use piper::io::{AsyncRead, AsyncWrite};
use piper::{Reader, Writer, pipe};
use piper_futures::{drain_into, fill_from};
use piper_lines::{Frames, Lines, Written, poll_write_all};
use std::alloc::AllocGlobal;
use std::io;
use std::process::Abort;

/// A pipe with room for more than any of these tests sends.
fn wide<R: Abort + AllocGlobal>(rt: &R) -> (Reader, Writer) {
    pipe(rt.alloc(), 1_024).expect(rt, "a pipe")
}

/// A reader or a writer of std that moves all that it can, and counts its calls.
#[derive(Drop)]
struct OfStd {
    left: usize,
    calls: u32,
}

impl io::Read for OfStd {
    fn read(&mut self, place: &mut [u8]) -> io::Result<usize> {
        self.calls = self.calls.saturating_add(1);
        let count = self.left.min(place.len());
        self.left -= count;
        Ok(count)
    }
}

impl io::Write for OfStd {
    fn write(&mut self, bytes: &[u8]) -> io::Result<usize> {
        self.calls = self.calls.saturating_add(1);
        Ok(bytes.len())
    }

    fn flush(&mut self) -> io::Result<()> {
        Ok(())
    }
}

#[test]
fn a_fill_and_a_drain_call_std_once_a_piece(rt: HostRuntime) {
    let (reader, writer) = wide(&rt);
    let source = OfStd {
        left: 100,
        calls: 0,
    };
    let (writer, source, _copied) = ends(&rt, fill_from(writer, source));
    drop(writer);
    let dest = OfStd { left: 0, calls: 0 };
    let (_reader, dest) = ends(&rt, drain_into(reader, dest));
    // One read gives all; one that gives none ends the first poll's rounds, and one the next poll.
    // The destination isn't called for the end.
    same(&rt, (source.calls, dest.calls), (3, 1));
}

/// How many bytes one read takes.
fn read_by<R: AsyncRead + Drop>(task: &MockTask, mut reader: R) -> Option<usize> {
    let mut place = [0; 16];
    match task.enter(|cx| reader.poll_read(cx, &mut place)) {
        Poll::Ready(Ok(count)) => Some(count),
        _ => None,
    }
}

/// How many bytes one write takes.
fn written_by<W: AsyncWrite + Drop>(task: &MockTask, mut writer: W) -> Option<usize> {
    match task.enter(|cx| writer.poll_write(cx, b"eleven more")) {
        Poll::Ready(Ok(count)) => Some(count),
        _ => None,
    }
}

#[test]
fn a_call_by_reference_moves_as_many_as_one_of_its_own(rt: HostRuntime) {
    let (mut reader, mut writer) = wide(&rt);
    let task = MockTask::new(&rt).expect(&rt, "memory");
    let written = written_by(&task, &mut writer);
    same(
        &rt,
        (written, read_by(&task, &mut reader)),
        (Some(11), Some(11)),
    );
}

/// Whether one poll writes all of them. Each write draws whether it yields, one in a hundred: a
/// thousand would not all go on.
fn is_written_at_once<W: AsyncWrite>(writer: &mut W, cx: &mut Context<'_>, bytes: &[u8]) -> bool {
    let mut written = 0;
    let polled = poll_write_all(writer, cx, bytes, &mut written);
    matches!(polled, Poll::Ready(Ok(Written::Whole)))
}

#[test]
fn many_bytes_are_written_by_few_calls(rt: HostRuntime) {
    let (_reader, mut writer) = wide(&rt);
    let task = MockTask::new(&rt).expect(&rt, "memory");
    let text = [b'x'; 1_000];
    let is_written = task.enter(|cx| is_written_at_once(&mut writer, cx, &text));
    same(&rt, is_written, true);
}

#[test]
fn a_line_is_taken_at_once_and_a_frame_after_its_header(rt: HostRuntime) {
    let task = MockTask::new(&rt).expect(&rt, "memory");
    let mut lines = Lines::new(rt.alloc(), Lending::new(b"a line\n"));
    let mut line = Vec::new(rt.alloc());
    let is_ready = task.enter(|cx| lines.poll_line(cx, &mut line, 9).is_ready());
    same(&rt, (is_ready, lines.into_reader().takes()), (true, 1));
    let bytes = [0, 0, 0, 3, 7, 8, 9];
    let mut frames = Frames::new(rt.alloc(), Lending::new(&bytes));
    let mut body = Vec::new(rt.alloc());
    let is_ready = task.enter(|cx| frames.poll_frame(cx, &mut body, 9).is_ready());
    same(&rt, (is_ready, frames.into_reader().takes()), (true, 2));
}
