//! What errors say, and what streams and futures show of themselves.
use crate::compare::same;
use piper::{OutOfMemory, PipeError, pipe};
use piper_futures::{
    Failed, FrameStream, LineStream, copy, drain_into, fill_from, read, read_exact, read_until,
    write_all, write_all_and_close,
};
use piper_lines::BodyTooLong;
use std::alloc::AllocGlobal;
use std::fmt::{Debug, Display};
use std::io::ErrorKind;
use std::process::Abort;

fn says<H, E>(rt: &H, error: &E, wanted: &str)
where
    H: Abort + AllocGlobal,
    E: Debug + Display,
{
    let said = format!(in rt.alloc(); "{error}; {error:?}").expect(rt, "memory");
    same(rt, said.as_str(), wanted);
}

#[test]
fn errors_say_what_went_wrong(rt: HostRuntime) {
    says(&rt, &OutOfMemory, "out of memory; OutOfMemory");
    says(&rt, &PipeError::Memory, "out of memory; Memory");
    let io = PipeError::Io(ErrorKind::BrokenPipe.into());
    says(&rt, &io, "io failed: broken pipe; Io(Kind(BrokenPipe))");
    let (left, error) = ((), io);
    says(
        &rt,
        &Failed { left, error },
        "io failed: broken pipe; Io(Kind(BrokenPipe))",
    );
    let wanted = "a body of more bytes than the header of its frame can encode; BodyTooLong";
    says(&rt, &BodyTooLong, wanted);
}

const READER: &str = "Reader { capacity: 8, known: 0, closed: false }";

const WRITER: &str = "Writer { capacity: 8, room: 8, closed: false }";

/// Compares what `{:?}` prints with these pieces, one after another.
fn shows<H, T>(rt: &H, shown: T, wanted: &[&str])
where
    H: Abort + AllocGlobal,
    T: Debug + Drop,
{
    let said = format!(in rt.alloc(); "{shown:?}").expect(rt, "memory");
    let mut all = String::new(rt.alloc());
    for piece in wanted {
        all.push_str(piece).expect(rt, "memory");
    }
    same(rt, said.as_str(), all.as_str());
}

#[test]
fn streams_and_futures_show_their_ends_and_counts(rt: HostRuntime) {
    let alloc = rt.alloc();
    let (mut reader, mut writer) = pipe(alloc, 8).expect(&rt, "a pipe");
    let (r, w) = (&mut reader, &mut writer);
    let lines = LineStream::new(alloc, &mut *r, 9);
    let wanted = [
        "LineStream { lines: Lines { reader: ",
        READER,
        ", end: 10, kept: 0 }, limit: 9, ended: false }",
    ];
    shows(&rt, lines, &wanted);
    let frames = FrameStream::new(alloc, &mut *r, 9);
    let wanted = [
        "FrameStream { frames: Frames { reader: ",
        READER,
        ", format: FourBytes(BigEndian), header: 0, body: 0, to_skip: 0 }, limit: 9, ended: false }",
    ];
    shows(&rt, frames, &wanted);
    shows(
        &rt,
        copy(&mut *r, &mut *w),
        &["Copying(", READER, ", ", WRITER, ")"],
    );
    shows(
        &rt,
        drain_into(&mut *r, Vec::new(alloc)),
        &["Draining(", READER, ")"],
    );
    shows(
        &rt,
        read(&mut *r, Vec::new(alloc)),
        &["ReadOnce(", READER, ", 0)"],
    );
    let exact = read_exact(&mut *r, Vec::new(alloc), 2);
    shows(&rt, exact, &["ReadExact(", READER, ", 0)"]);
    let until = read_until(&mut *r, b',', Vec::new(alloc));
    shows(&rt, until, &["ReadUntil(", READER, ", 0)"]);
    shows(
        &rt,
        write_all(&mut *w, b"ab"),
        &["WriteAll(", WRITER, ", 0)"],
    );
    let close = write_all_and_close(&mut *w, b"ab");
    shows(&rt, close, &["WriteAllAndClose(", WRITER, ", 0)"]);
    let source: &[u8] = b"ab";
    shows(&rt, fill_from(writer, source), &["Filling(", WRITER, ")"]);
}
