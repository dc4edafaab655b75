//! With each end on a thread of its own.
ghost use Rattle.std.specs.Prelude.{◌<◌, ◌^◌};

use crate::compare::same_of as same;
use crate::ring::acts::{look, receive_due, ring_of, sees_closed, send, send_due};
use piper_ring::{Logged, ReadEnd, WriteEnd};
use std::sync::Wait;
use std::thread;

/// Publishes `total` bytes in pieces of changing length, and leaves.
fn publish_all(rt: &impl Wait, mut writer: Logged<WriteEnd>, total: usize, most: usize)
    requires { (0 < most) × (most < 2 ^ 32) }
{
    let mut sent = 0usize;
    let mut round = 0usize;
    for _ in rt.forever() {
        round = round.wrapping_add(1);
        let ask = (1 + round % most).min(total.saturating_sub(sent));
        let n = send_due(&mut writer, sent, ask);
        sent = sent.wrapping_add(n);
        if sent == total {
            return;
        }
        if n == 0 {
            thread::yield_now();
        }
    }
}

/// Consumes until the ring is closed and nothing is left, in pieces of changing length, and leaves.
/// The answer is how many bytes came in order.
fn consume_all(rt: &impl Wait, mut reader: Logged<ReadEnd>, most: usize) -> usize
    requires { (0 < most) × (most < 2 ^ 32) }
{
    let mut received = 0usize;
    let mut round = 0usize;
    for _ in rt.forever() {
        round = round.wrapping_add(1);
        let is_closed = sees_closed(&mut reader);
        match receive_due(&mut reader, received, 1 + round % most) {
            None => return received,
            Some(0) if is_closed => return received,
            Some(0) => thread::yield_now(),
            Some(n) => received = received.wrapping_add(n),
        }
    }
    unreachable!()
}

#[test]
fn a_million_bytes_cross_in_order(rt: HostRuntime) {
    for capacity in [1usize, 7, 4_096] {
        let total = 1_000_000;
        let (reader, writer) = ring_of(&rt, capacity);
        let (_, received) = thread::join(
            &rt,
            || publish_all(&rt, writer, total, 1_500),
            || consume_all(&rt, reader, 1_100),
        );
        same(&rt, &"received in order", received, total);
    }
}

#[test]
fn both_ends_leave_at_once(rt: HostRuntime) {
    for left in 0..200 {
        let (reader, mut writer) = ring_of(&rt, 4);
        send(&mut writer, &[1; 4][..left % 5]);
        thread::join(&rt, move || drop(writer), move || drop(reader));
    }
}

#[test]
fn threads_share_both_ends(rt: HostRuntime) {
    let (mut reader, mut writer) = ring_of(&rt, 8);
    send(&mut writer, &[1, 2, 3]);
    look(&mut reader);
    let told = thread::join(
        &rt,
        || (reader.end.peek_buf().len(), writer.end.is_closed()),
        || (reader.end.len(), writer.end.len()),
    );
    same(&rt, &"told on both threads", told, ((3, false), (3, 3)));
}
