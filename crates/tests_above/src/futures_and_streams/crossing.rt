//! Bytes that cross from one thread to another, each of which sleeps until its waker is called: by
//! fills and drains, by reads and writes, and by a copy from one pipe to another.
ghost use Rattle.std.specs.Prelude.{◌<◌, ◌*◌, ◌^◌};

use crate::compare::same_bytes;
use crate::futures_and_streams::running::{ends, kept};
use piper::io::Copied;
use piper::{Reader, Writer, pipe};
use piper_futures::{
    AsyncReadExt, close, copy, drain_into, fill_from, read_exact, read_until, write_all,
};
use std::alloc::AllocGlobal;
use std::marker::{Send, Sync};
use std::process::Abort;
use std::random::RandomSource;
use std::sync::Wait;
use std::thread;
use std::thread::Threads;

/// How many bytes cross.
const TOTAL: usize = 10_000;

/// What the writer gives, through which call.
#[derive(Clone, Copy)]
enum Give<'a> {
    Fill(&'a [u8]),
    Write(&'a [u8]),
    Close,
}

/// What the reader takes, and what it must be.
#[derive(Clone, Copy)]
enum Take<'a> {
    /// One byte, by a read of one place.
    One(&'a [u8]),
    /// So many bytes as these are.
    Bytes(&'a [u8]),
    /// The same, after which no byte comes.
    Last(&'a [u8]),
    Line(&'a [u8]),
    /// All up to the pipe's end, by drains.
    Drained(&'a [u8]),
}

/// The bytes that cross.
fn bytes_to_cross() -> [u8; TOTAL] {
    let mut bytes = [0; TOTAL];
    for (i, place) in bytes.iter_mut().enumerate() {
        *place = (i % 251) as u8;
    }
    bytes
}

/// Gives all of this, one after another, and lets the writer go.
fn gives<H>(rt: &H, mut writer: Writer, given: &[Give<'_>])
where
    H: Abort + Wait + RandomSource + AllocGlobal,
{
    for give in given {
        writer = match *give {
            Give::Fill(bytes) => ends(rt, fill_from(writer, bytes)).0,
            Give::Write(bytes) => ends(rt, write_all(writer, bytes)).0,
            Give::Close => ends(rt, close(writer)),
        };
    }
}

/// Takes what is wanted, one after another, and lets the reader go.
fn takes<H>(rt: &H, mut reader: Reader, wanted: &[Take<'_>])
where
    H: Abort + Wait + RandomSource + AllocGlobal,
{
    for take in wanted {
        let came = Vec::new(rt.alloc());
        let ((next, bytes), want) = match *take {
            Take::One(want) => {
                let (next, place, _count) = ends(rt, reader.read(kept(rt, rt.alloc(), b".")));
                ((next, place), want)
            }
            Take::Bytes(want) => (ends(rt, read_exact(reader, came, want.len())), want),
            Take::Last(want) => {
                let more = want.len().saturating_add(1);
                (ends(rt, read_exact(reader, came, more)), want)
            }
            Take::Line(want) => (ends(rt, read_until(reader, b'\n', came)), want),
            Take::Drained(want) => (ends(rt, drain_into(reader, came)), want),
        };
        same_bytes(rt, &bytes, want);
        reader = next;
    }
}

/// One thread gives bytes and lets the writer go, while another takes them.
fn crosses<H>(rt: &H, capacity: usize, given: &[Give<'_>], wanted: &[Take<'_>])
where
    H: Abort + Threads + Wait + RandomSource + AllocGlobal + Send + Sync,
    requires { (0 < capacity) × (2 * capacity < 2 ^ 64) }
{
    let (reader, writer) = pipe(rt.alloc(), capacity).expect(rt, "a pipe");
    thread::join(
        rt,
        move || takes(rt, reader, wanted),
        move || gives(rt, writer, given),
    );
}

#[test]
fn bytes_cross_by_fills_and_drains(rt: HostRuntime) {
    let bytes = bytes_to_cross();
    for capacity in [1, 20, 100] {
        let wanted = &[Take::Drained(&bytes)];
        crosses(&rt, capacity, &[Give::Fill(&bytes)], wanted);
    }
}

#[test]
fn bytes_cross_by_reads_and_writes(rt: HostRuntime) {
    let bytes = bytes_to_cross();
    for capacity in [1, 20, 100] {
        let given = &[Give::Write(&bytes), Give::Close];
        let wanted = &[Take::One(&bytes[..1]), Take::Last(&bytes[1..])];
        crosses(&rt, capacity, given, wanted);
    }
}

/// What the Rust crate tests: two reads of what one write gave.
#[test]
fn read(rt: HostRuntime) {
    let wanted = &[Take::Bytes(b"123"), Take::Bytes(b"456")];
    crosses(&rt, 100, &[Give::Write(b"123456")], wanted);
}

/// The same of buffered reads.
#[test]
fn buf_read(rt: HostRuntime) {
    let given = &[Give::Write(b"hello world\nline2\n"), Give::Write(b"line3")];
    let wanted = &[
        Take::Line(b"hello world\n"),
        Take::Line(b"line2\n"),
        Take::Line(b"line3"),
    ];
    crosses(&rt, 8, given, wanted);
}

/// The same of a writer that is dropped.
#[test]
fn dropping_writer_does_not_lose_writes(rt: HostRuntime) {
    let text = b"hello world";
    crosses(&rt, 20, &[Give::Write(text)], &[Take::Drained(text)]);
}

/// Gives all bytes to the first pipe, on a thread beside the one that drains the second.
fn gives_and_drains<H>(rt: &H, first: Writer, last: Reader, bytes: &[u8])
where
    H: Abort + Threads + Wait + RandomSource + AllocGlobal + Send + Sync,
{
    thread::join(
        rt,
        move || gives(rt, first, &[Give::Fill(bytes)]),
        move || takes(rt, last, &[Take::Drained(bytes)]),
    );
}

/// One thread fills the first pipe, one copies to the second, and one drains that.
fn cross_two_pipes<H>(rt: &H, bytes: &[u8])
where
    H: Abort + Threads + Wait + RandomSource + AllocGlobal + Send + Sync,
{
    let (from, first) = pipe(rt.alloc(), 20).expect(rt, "a pipe");
    let (last, to) = pipe(rt.alloc(), 7).expect(rt, "a pipe");
    let (copied, _) = thread::join(
        rt,
        move || ends(rt, copy(from, to)).2,
        move || gives_and_drains(rt, first, last, bytes),
    );
    assert!(rt; copied == Copied::ToTheEnd);
}

#[test]
fn bytes_cross_two_pipes_by_a_copy(rt: HostRuntime) {
    cross_two_pipes(&rt, &bytes_to_cross());
}
