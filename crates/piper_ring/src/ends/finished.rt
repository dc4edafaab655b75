//! What is left of a side that has left.
ghost use Rattle.std.specs.Prelude.{◌≡◌, true, false};
ghost use Rattle.piper_protocol.specs.Told.{are_calls, moved_in};
ghost use Rattle.piper_ring.specs.Log.{IsLogOf, is_noted, tells_true};

use crate::ends::cells::LeftWakers;
use crate::ends::slots::reader::ReadRegistrations;
use crate::ends::slots::writer::WriteRegistrations;
use crate::log::Log;
use crate::ring::marks::{LastReadMark, WriteMark};

/// What comes of a side that leaves.
pub struct Finished<S, T> {
    /// What is left of it.
    pub side: S,
    /// The waker that it took out of the other side's slot after its close, if one was registered.
    pub taken: Option<T>,
    /// What lay in the slots, if the other side had left before.
    pub left: LeftWakers<T>,
}

/// What is left of the reader's side: evidence that it closed the pipe, and that after that it took
/// whoever was registered in the writer's slot.
#[derive(Drop)]
pub struct FinishedReader {
    /// All that was ever consumed, and that the reader left.
    pub mark: LastReadMark,
    pub slots: ReadRegistrations,
    /// What the side did.
    pub log: Log,
    ghost of_one_ring: { slots.names ≡ mark.consumed.names },
    ghost own_log: { IsLogOf slots.names true log },
    ghost right: { tells_true log ≡ true },
    ghost calls: { are_calls log.lines ≡ true },
    ghost noted: { is_noted log ≡ true },
    ghost after_its_close: { slots.stored.closed ≡ true },
}

/// What is left of the writer's side: evidence that it closed the pipe, and that after that it took
/// whoever was registered in the reader's slot.
#[derive(Drop)]
pub struct FinishedWriter {
    /// All that was ever published, and that the pipe is closed.
    pub mark: WriteMark,
    pub slots: WriteRegistrations,
    /// What the side did.
    pub log: Log,
    ghost of_one_ring: { slots.names ≡ mark.names },
    ghost own_log: { IsLogOf slots.names false log },
    ghost right: { tells_true log ≡ true },
    ghost calls: { are_calls log.lines ≡ true },
    ghost noted: { is_noted log ≡ true },
    ghost moved: { moved_in log.lines ≡ mark.bytes },
    ghost after_its_close: { (mark.shut ≡ true) × (slots.stored.closed ≡ true) },
}
