//! What writes its bytes and closes, joined in one task with what reads to the end.
ghost use Rattle.std.specs.Prelude.{[], false};

use crate::compare::{confirm, same, same_bytes};
use crate::futures_and_streams::running::kept;
use futures::executor::block_on;
use futures::future::join;
use futures::task::{Context, Poll};
use futures::{StreamExt, TryStreamExt, stream};
use piper::io::AsyncWrite;
use piper::{PipeError, Reader, Writer, pipe};
use piper_futures::{FrameSink, FrameStream, read_to_end, write_all_and_close};
use std::alloc::AllocGlobal;
use std::process::Abort;

/// A pipe of 16 bytes.
fn small<R: Abort + AllocGlobal>(rt: &R) -> (Reader, Writer) {
    pipe(rt.alloc(), 16).expect(rt, "a pipe")
}

#[test]
fn a_task_that_sends_and_reads_all_ends(rt: HostRuntime) {
    let bytes = [7; 1_000];
    let (reader, writer) = small(&rt);
    let sending = write_all_and_close(writer, &bytes);
    let reading = read_to_end(reader, Vec::new(rt.alloc()));
    let (sent, came) = block_on(&rt, join(sending, reading)).expect(&rt, "an executor");
    same(&rt, sent.expect(&rt, "no failure"), 1_000);
    let (_reader, came) = came.expect(&rt, "no failure");
    same_bytes(&rt, &came, &bytes);
}

#[test]
fn bytes_that_nobody_reads_are_not_counted(rt: HostRuntime) {
    let (reader, mut writer) = small(&rt);
    drop(reader);
    let sent = block_on(&rt, write_all_and_close(&mut writer, b"abc")).expect(&rt, "an executor");
    same(&rt, sent.expect(&rt, "no failure"), 0);
}

/// A writer that always fails. Its pipe is closed where it is dropped.
#[derive(Drop)]
struct Failing {
    _below: Writer,
}

impl AsyncWrite for Failing {
    ghost sent = { λ _. [] };

    ghost saw = { λ _. false };

    ghost needs = { λ _ _. ⊥ };

    fn poll_write(
        &mut self,
        _cx: &mut Context<'_>,
        _source: &[u8],
    ) -> Poll<Result<usize, PipeError>> {
        Poll::Ready(Err(PipeError::Memory))
    }

    fn poll_flush(&mut self, _cx: &mut Context<'_>) -> Poll<Result<(), PipeError>> {
        Poll::Ready(Err(PipeError::Memory))
    }

    fn poll_close(&mut self, _cx: &mut Context<'_>) -> Poll<Result<(), PipeError>> {
        Poll::Ready(Err(PipeError::Memory))
    }
}

#[test]
fn a_writer_that_fails_is_dropped_and_so_its_reader_ends(rt: HostRuntime) {
    let (reader, writer) = small(&rt);
    let sending = write_all_and_close(Failing { _below: writer }, b"abc");
    let reading = read_to_end(reader, Vec::new(rt.alloc()));
    let (sent, came) = block_on(&rt, join(sending, reading)).expect(&rt, "an executor");
    let failed_after = match sent {
        Err(failed) => Some(failed.left),
        Ok(_) => None,
    };
    same(&rt, failed_after, Some(0));
    let (_reader, came) = came.expect(&rt, "no failure");
    same_bytes(&rt, &came, b"");
}

#[test]
fn a_task_that_forwards_to_a_sink_and_takes_all_ends(rt: HostRuntime) {
    let alloc = rt.alloc();
    let (reader, writer) = small(&rt);
    let mut bodies = Vec::new(alloc);
    for _ in 0..10 {
        bodies
            .push(Ok(kept(&rt, alloc, b"a body")))
            .expect(&rt, "memory");
    }
    let sending = stream::iter(bodies).forward(FrameSink::new(alloc, writer));
    let reading = FrameStream::new(alloc, reader, 16).try_collect(alloc);
    let (sent, came) = block_on(&rt, join(sending, reading)).expect(&rt, "an executor");
    confirm(&rt, sent.is_ok());
    let came: Vec<Vec<u8>> = came.expect(&rt, "no failure");
    same(&rt, came.len(), 10);
}
