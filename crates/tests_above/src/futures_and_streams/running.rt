//! How tests run futures, and what they send to sinks and take from streams.
use crate::compare::same_bytes;
use futures::executor::block_on;
use futures::{Future, Sink, SinkExt, Stream, StreamExt};
use piper::PipeError;
use std::alloc::{AllocGlobal, Global};
use std::fmt::Debug;
use std::process::Abort;
use std::random::RandomSource;
use std::sync::Wait;

/// Runs a future to its end.
pub(crate) fn ends<R, F, T, E>(rt: &R, future: F) -> T
where
    R: Abort + Wait + RandomSource + AllocGlobal,
    F: Future<Output = Result<T, E>>,
    E: Debug + Drop,
    requires { F.can_poll future }
{
    let output = block_on(rt, future).expect(rt, "an executor");
    output.expect(rt, "a future that does not fail")
}

/// These bytes in memory of their own.
pub(crate) fn kept(rt: &impl Abort, alloc: Global, bytes: &[u8]) -> Vec<u8> {
    Vec::from_slice(alloc, bytes).expect(rt, "memory")
}

/// Sends these pieces, one after another.
pub(crate) fn sends<R, S>(rt: &R, sink: S, pieces: &[&[u8]]) -> S
where
    R: Abort + Wait + RandomSource + AllocGlobal,
    S: Sink<Vec<u8>, Error = PipeError>,
    requires { (sink : _) → S.can_poll sink × ((piece : _) → S.takes sink piece) }
{
    let mut sink = sink;
    for piece in pieces {
        sink = ends(rt, sink.send(kept(rt, rt.alloc(), piece)));
    }
    sink
}

/// What a stream gives next, if it isn't at its end.
pub(crate) fn next_of<R, S>(rt: &R, stream: &mut S) -> Option<S::Item>
where
    R: Abort + Wait + RandomSource + AllocGlobal,
    S: Stream,
    requires { S.can_poll stream.old }
{
    block_on(rt, stream.next()).expect(rt, "an executor")
}

/// These pieces come, one after another.
pub(crate) fn come<R, S>(rt: &R, stream: &mut S, pieces: &[&[u8]])
where
    R: Abort + Wait + RandomSource + AllocGlobal,
    S: Stream<Item = Result<Vec<u8>, PipeError>>,
    requires { (stream : _) → S.can_poll stream }
{
    for piece in pieces {
        let came = next_of(rt, stream).expect(rt, "a piece");
        same_bytes(rt, &came.expect(rt, "no failure"), piece);
    }
}
