//! The futures, as calls on handles.
use crate::compare::same_bytes;
use crate::futures_and_streams::running::{ends, kept};
use piper::pipe;
use piper_futures::{AsyncBufReadExt, AsyncReadExt, AsyncWriteExt};

#[test]
fn each_future_is_a_call_of_its_handle(rt: HostRuntime) {
    let (mut reader, writer) = pipe(rt.alloc(), 64).expect(&rt, "memory");
    let (writer, _count) = ends(&rt, writer.write_all(b"ab\ncdefgh"));
    let writer = ends(&rt, writer.flush());
    let source: &[u8] = b"ij";
    let (writer, _source, _copied) = ends(&rt, writer.fill_from(source));
    let writer = ends(&rt, writer.close());
    let _count = ends(&rt, writer.write_all_and_close(b"late"));
    // Of a `&mut` they keep none.
    let (_reader, line) = ends(&rt, (&mut reader).read_until(b'\n', Vec::new(rt.alloc())));
    same_bytes(&rt, &line, b"ab\n");
    let (reader, two) = ends(&rt, reader.read_exact(Vec::new(rt.alloc()), 2));
    same_bytes(&rt, &two, b"cd");
    let (reader, places, _count) = ends(&rt, reader.read(kept(&rt, rt.alloc(), b"..")));
    same_bytes(&rt, &places, b"ef");
    let (reader, dest) = ends(&rt, reader.drain_into(Vec::new(rt.alloc())));
    same_bytes(&rt, &dest, b"ghij");
    let (_reader, rest) = ends(&rt, reader.read_to_end(Vec::new(rt.alloc())));
    same_bytes(&rt, &rest, b"");
}
