//! Threads that fill a pipe or drain one, and what comes with their join.
use crate::compare::{confirm, same, same_bytes};
use piper::io::Copied;
use piper::{PipeError, pipe};
use piper_futures::{spawn_drain, spawn_fill};
use std::io;
use std::process::Abort;
use std::thread::Threads;

#[test]
fn all_that_a_thread_is_given_comes_out_by_another(rt: HostRuntime) {
    let bytes: &'static [u8] = b"more than fits at once";
    let (reader, writer) = pipe(rt.alloc(), 4).expect(&rt, "memory");
    let filling = spawn_fill(&rt, writer, bytes).expect(&rt, "a thread");
    let draining = spawn_drain(&rt, reader, Vec::new(rt.alloc())).expect(&rt, "a thread");
    let Ok((filled, copied)) = filling.join(&rt) else {
        rt.panic("a slice does not fail")
    };
    confirm(&rt, copied == Copied::ToTheEnd);
    same_bytes(&rt, filled.source, b"");
    let Ok((_reader, came)) = draining.join(&rt) else {
        rt.panic("a vector does not fail")
    };
    same_bytes(&rt, &came, bytes);
}

#[test]
fn a_drop_of_the_reader_ends_the_thread_that_fills(rt: HostRuntime) {
    let bytes: &'static [u8] = b"abcdef";
    let (reader, writer) = pipe(rt.alloc(), 4).expect(&rt, "memory");
    drop(reader);
    let filling = spawn_fill(&rt, writer, bytes).expect(&rt, "a thread");
    let Ok((filled, copied)) = filling.join(&rt) else {
        rt.panic("a slice does not fail")
    };
    confirm(&rt, copied == Copied::UntilClosed);
    same_bytes(&rt, filled.source, bytes);
}

/// Fails at once.
#[derive(Drop)]
struct Broken;

impl io::Read for Broken {
    fn read(&mut self, _place: &mut [u8]) -> io::Result<usize> {
        Err(io::ErrorKind::NotFound.into())
    }
}

impl io::Write for Broken {
    fn write(&mut self, _bytes: &[u8]) -> io::Result<usize> {
        Err(io::ErrorKind::NotFound.into())
    }

    fn flush(&mut self) -> io::Result<()> {
        Ok(())
    }
}

/// Whether it is what `Broken` fails with.
fn is_broken(error: &PipeError) -> bool {
    matches!(error, PipeError::Io(e) if e.kind() == io::ErrorKind::NotFound)
}

#[test]
fn a_failure_in_a_thread_comes_with_its_join_and_closes_the_pipe(rt: HostRuntime) {
    let (reader, writer) = pipe(rt.alloc(), 4).expect(&rt, "memory");
    let filling = spawn_fill(&rt, writer, Broken).expect(&rt, "a thread");
    let Err(failed) = filling.join(&rt) else {
        rt.panic("the source fails")
    };
    confirm(&rt, is_broken(&failed.error) && failed.left.is_some());
    confirm(&rt, reader.is_closed());

    let (reader, mut writer) = pipe(rt.alloc(), 4).expect(&rt, "memory");
    same(&rt, writer.try_fill(b"abc"), 3);
    let draining = spawn_drain(&rt, reader, Broken).expect(&rt, "a thread");
    let Err(failed) = draining.join(&rt) else {
        rt.panic("the writer of std fails")
    };
    confirm(&rt, is_broken(&failed.error) && failed.left.is_some());
    confirm(&rt, writer.is_closed());
}
