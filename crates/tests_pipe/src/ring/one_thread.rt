//! With both ends on one thread.
ghost use Rattle.std.specs.Prelude.{◌<◌, ◌≤◌};

use crate::compare::same_of as same;
use crate::ring::acts::{receive_due, ring_of, send_due};
use std::alloc::AllocGlobal;
use std::process::Abort;

/// Sends pieces of `len` bytes round a ring, and receives them after those that were sent before.
fn goes_round(rt: &(impl Abort + AllocGlobal), capacity: usize, len: usize)
    requires { (0 < capacity) × (capacity ≤ 8) }
{
    let what = (capacity, len);
    let (mut reader, mut writer) = ring_of(rt, capacity);
    let (mut sent, mut received) = (0usize, 0usize);
    for round in 0..7 * capacity {
        let most = if round < 5 * capacity { len } else { 0 };
        sent = sent.wrapping_add(send_due(&mut writer, sent, most));
        let came = receive_due(&mut reader, received, 1 + round % 3);
        same(rt, &what, came.is_some(), true);
        received = received.wrapping_add(came.unwrap_or(0));
    }
    same(rt, &what, received, sent);
    same(rt, &what, (reader.end.len(), writer.end.len()), (0, 0));
}

#[test]
fn bytes_go_round_the_ring(rt: HostRuntime) {
    for capacity in [1usize, 2, 3, 8] {
        for len in 0..=capacity + 1 {
            goes_round(&rt, capacity, len);
        }
    }
}
