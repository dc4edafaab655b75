//! What tests do with the ends of a ring.
ghost use Rattle.std.specs.Prelude.{◌≡◌, ◌<◌, ◌≤◌, ◌*◌, ◌^◌, length};

use piper_ring::{Logged, ReadEnd, WriteEnd, open_ring};
use std::alloc::AllocGlobal;
use std::process::Abort;

/// The byte that is sent as the `index`th.
fn byte_at(index: usize) -> u8 {
    (index % 251) as u8
}

/// The ends of a new ring. Ends the test where memory is refused.
pub(crate) fn ring_of(
    rt: &(impl Abort + AllocGlobal),
    capacity: usize,
) -> (Logged<ReadEnd>, Logged<WriteEnd>)
    requires { (0 < capacity) × (2 * capacity < 2 ^ 64) }
    ensures { result.1.end.ring ≡ result.0.end.ring }
{
    open_ring(rt.alloc(), capacity).expect(rt, "a ring")
}

/// Publishes as many of the bytes as there is room for in one piece.
pub(crate) fn send(writer: &mut Logged<WriteEnd>, bytes: &[u8]) -> usize
    ensures count { result ≤ length bytes.now }
    ensures ring { writer.new.end.ring ≡ writer.old.end.ring }
{
    writer.end.load_head_if_full(&mut writer.log);
    let buf = writer.end.write_buf(bytes.len());
    let n = buf.len();
    buf.copy_from_slice(&bytes[..n]);
    writer.end.store_tail(n, &mut writer.log);
    n
}

/// Looks for bytes where none is known.
pub(crate) fn look(reader: &mut Logged<ReadEnd>) {
    reader.end.load_tail_if_empty(&mut reader.log);
}

/// Whether the ring is closed.
pub(crate) fn sees_closed(reader: &mut Logged<ReadEnd>) -> bool {
    reader.end.load_closed(&mut reader.log)
}

/// Publishes the bytes that are due after the first `sent`, at most so many, as there is room in
/// one piece. Returns how many.
pub(crate) fn send_due(writer: &mut Logged<WriteEnd>, sent: usize, most: usize) -> usize
    ensures { writer.new.end.ring ≡ writer.old.end.ring }
{
    writer.end.load_head_if_full(&mut writer.log);
    let buf = writer.end.write_buf(most);
    let n = buf.len();
    for (i, place) in buf.iter_mut().enumerate() {
        *place = byte_at(sent.wrapping_add(i));
    }
    writer.end.store_tail(n, &mut writer.log);
    n
}

/// Consumes the bytes that are contiguous, at most so many. Returns how many, or none where one is
/// not the one that is due after the first `received`.
pub(crate) fn receive_due(
    reader: &mut Logged<ReadEnd>,
    received: usize,
    most: usize,
) -> Option<usize>
    ensures { reader.new.end.ring ≡ reader.old.end.ring }
{
    reader.end.load_tail_if_empty(&mut reader.log);
    let piece = reader.end.peek_buf();
    let n = piece.len().min(most);
    for (i, byte) in piece[..n].iter().enumerate() {
        if *byte != byte_at(received.wrapping_add(i)) {
            return None;
        }
    }
    reader.end.store_head(n, &mut reader.log);
    Some(n)
}
