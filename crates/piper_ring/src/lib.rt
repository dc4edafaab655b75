//! The ring that two threads share without a lock: the two ends of a bounded pipe of bytes; and its
//! two sides, each an end that can wait for the other and wake it.
#![tactic(auto, unfolding(piper_protocol::specs::Told::are_calls, piper_protocol::specs::Told::are_told, piper_protocol::specs::Told::moved_in, piper_protocol::specs::Told::seen_in, piper_protocol::specs::Told::shut_in, piper_protocol::specs::Told::tickets_in, piper_protocol::specs::Told::waits_in, crate::specs::Log::as_is, crate::specs::Log::is_at_rest, crate::specs::Log::is_noted))]

mod ends;
mod log;
mod ring;

pub use ends::cells::LeftWakers;
pub use ends::finished::{Finished, FinishedReader, FinishedWriter};
pub use ends::logged::Logged;
pub use ends::opening::{open_ring, open_with_slots};
pub use ends::reader::ReadEnd;
pub use ends::slots::looks::Look;
pub use ends::slots::reader::{ReadRegistrations, ReadSide};
pub use ends::slots::side::Side;
pub use ends::slots::writer::{WriteRegistrations, WriteSide};
pub use ends::slots::{Registrations, SlotEnd};
pub use ends::writer::WriteEnd;
pub use log::Log;
pub use piper_protocol::memory::OutOfMemory;
pub use ring::marks::{LastReadMark, ReadMark, WriteMark};
