//! Indices of a pipe of `cap` places. They run from 0 to below `2 * cap`: within one turn of the
//! buffer a full pipe would look like an empty one.
ghost use Rattle.std.specs.Prelude.{◌≡◌, ◌-◌, ◌*◌, ◌<◌, ◌≤◌};
ghost use Rattle.piper_protocol.specs.Index.{IsCapacity, distance};

pub use piper_protocol::indices::{advance, distance, offset as real};

/// How many places are free if the reader's index is `head` and the writer's `tail`.
///
/// Requires: `cap` is at least 1 and less than 2^63, both indices are below `2 * cap`, and their
/// distance is at most `cap`.
pub fn room(cap: usize, head: usize, tail: usize) -> usize
    requires capacity { IsCapacity cap }
    requires head { head < 2 * cap }
    requires tail { tail < 2 * cap }
    requires within { distance cap head tail ≤ cap }
    ensures { result ≡ cap - distance cap head tail }
{
    cap - distance(cap, head, tail)
}
