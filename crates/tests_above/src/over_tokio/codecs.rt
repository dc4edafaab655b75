//! The codecs of `tokio_util` over a duplex stream whose pipes are shorter than a frame.

use crate::compare::{confirm, same_bytes};
use bytes::{Bytes, BytesMut};
use futures::executor::block_on;
use futures::future::join;
use futures::{SinkExt, StreamExt};
use piper::pipe;
use piper_duplex::duplex;
use piper_tokio::{CompatEnd, CompatReader, CompatWriter};
use std::alloc::AllocGlobal;
use std::process::Abort;
use std::random::RandomSource;
use std::sync::Wait;
use std::{io, thread};
use tokio::io::{AsyncRead, AsyncWrite};
use tokio_util::codec::{Framed, FramedRead, FramedWrite, LengthDelimitedCodec, LinesCodec};

/// Sends a line by one task of two, and receives it by the other.
fn pass_line<R, I, O>(rt: &R, input: I, output: O, text: &'static str)
where
    R: Abort + Wait + RandomSource + AllocGlobal,
    I: AsyncRead,
    O: AsyncWrite,
{
    let sink = FramedWrite::new(rt.alloc(), output, LinesCodec::new()).expect(rt, "memory");
    let lines = FramedRead::new(rt.alloc(), input, LinesCodec::new()).expect(rt, "memory");
    let passing = join(sink.send(text), lines.into_future());
    let (sent, (first, _lines)) = block_on(rt, passing).expect(rt, "runs");
    confirm(rt, sent.is_ok());
    let line = first.expect(rt, "a line").expect(rt, "text");
    same_bytes(rt, line.as_bytes(), text.as_bytes());
}

#[test]
fn lines_pass_between_two_tasks(rt: HostRuntime) {
    let (reader, writer) = pipe(rt.alloc(), 5).expect(&rt, "memory");
    let (input, output) = (CompatReader::new(reader), CompatWriter::new(writer));
    pass_line(&rt, input, output, "a line of more than five bytes");
}

/// Sends back the frame that comes.
fn echo<R, I>(rt: &R, io: I) -> io::Result<()>
where
    R: Wait + RandomSource + AllocGlobal,
    I: AsyncRead + AsyncWrite,
{
    let framed = Framed::new(rt.alloc(), io, LengthDelimitedCodec::new())?;
    let (frame, framed) = block_on(rt, framed.into_future())?;
    let frame = frame.ok_or(io::ErrorKind::UnexpectedEof)??;
    let _framed = block_on(rt, framed.send(frame.freeze()?))??;
    Ok(())
}

/// Sends bytes as a frame. Returns the frame that comes back.
fn ask<R, I>(rt: &R, io: I, bytes: &'static [u8]) -> io::Result<BytesMut>
where
    R: Wait + RandomSource + AllocGlobal,
    I: AsyncRead + AsyncWrite,
{
    let framed = Framed::new(rt.alloc(), io, LengthDelimitedCodec::new())?;
    let framed = block_on(rt, framed.send(Bytes::from_static(bytes)))??;
    let (frame, _framed) = block_on(rt, framed.into_future())?;
    frame.ok_or(io::ErrorKind::UnexpectedEof)?
}

#[test]
fn frames_pass_both_ways_between_two_threads(rt: HostRuntime) {
    let (near, far) = duplex(rt.alloc(), 5, 3).expect(&rt, "memory");
    let theirs = rt.clone().expect(&rt, "memory");
    let (near, far) = (CompatEnd::new(near), CompatEnd::new(far));
    let child = thread::spawn(&rt, move || echo(&theirs, far));
    let child = child.expect(&rt, "a thread");
    let frame = ask(&rt, near, b"there and back again");
    same_bytes(
        &rt,
        frame.expect(&rt, "a frame").as_slice(),
        b"there and back again",
    );
    child.join(&rt).expect(&rt, "echoes");
}
