//! Copies of `tokio` through pipes of few bytes, whose other side is a thread.
ghost use Rattle.std.specs.Prelude.{◌<◌, ◌*◌, ◌^◌};

use crate::compare::{confirm, same_bytes};
use futures::executor::block_on;
use piper::{Reader, pipe};
use piper_tokio::{CompatReader, CompatWriter};
use std::alloc::AllocGlobal;
use std::marker::Send;
use std::process::Abort;
use std::random::RandomSource;
use std::sync::Wait;
use std::thread::{JoinHandle, Threads};
use std::{io, thread};
use tokio::io::{AsyncRead, AsyncWrite, copy};

const TEXT: &[u8] = b"one\ntwo and three\n\nfour, without an end of line";

/// A pipe of so many bytes, into which a thread copies the input.
fn told<R, I>(rt: &R, capacity: usize, input: I) -> (Reader, JoinHandle<io::Result<u64>>)
where
    R: Abort + Wait + Threads + RandomSource + AllocGlobal + Clone + Drop + Send + Sync + 'static,
    I: AsyncRead + Send + 'static,
    requires { (0 < capacity) × (2 * capacity < 2 ^ 64) }
{
    let (reader, writer) = pipe(rt.alloc(), capacity).expect(rt, "memory");
    let theirs = rt.clone().expect(rt, "memory");
    let copying = copy(rt.alloc(), input, CompatWriter::new(writer)).expect(rt, "memory");
    let child = thread::spawn(rt, move || {
        let (count, _, _) = block_on(&theirs, copying)??;
        Ok(count)
    });
    (reader, child.expect(rt, "a thread"))
}

/// Copies the input into a pipe of so many bytes on a thread of its own, and here out of it into
/// the output. Returns how many bytes that were, and the output.
fn copied<R, I, O>(rt: &R, capacity: usize, input: I, output: O) -> (u64, O)
where
    R: Abort + Wait + Threads + RandomSource + AllocGlobal + Clone + Drop + Send + Sync + 'static,
    I: AsyncRead + Send + 'static,
    O: AsyncWrite,
    requires { (0 < capacity) × (2 * capacity < 2 ^ 64) }
{
    let (reader, child) = told(rt, capacity, input);
    let copying = copy(rt.alloc(), CompatReader::new(reader), output).expect(rt, "memory");
    let (count, _reader, output) = block_on(rt, copying)
        .expect(rt, "runs")
        .expect(rt, "copies");
    let sent = child.join(rt).expect(rt, "copies");
    confirm(rt, sent == count);
    (count, output)
}

#[test]
fn copies_on_both_sides_move_all_bytes_in_order(rt: HostRuntime) {
    let (count, output) = copied(&rt, 7, TEXT, Vec::new(rt.alloc()));
    same_bytes(&rt, &output, TEXT);
    confirm(&rt, count == TEXT.len() as u64);
}
