//! A bounded pipe of bytes between one reader and one writer, as a pure machine.
#![tactic(auto)]

// What calls are handed, do and log.
pub mod bytes;
pub mod calls;
pub mod events;
pub mod polling;
pub mod refusals;
pub mod scripted;

// The two sides: what each knows, and its open call.
pub mod index;
mod read_state;
pub mod slot;
mod woken;
mod write_state;

// The pipe with both.
pub mod destination;
pub mod machine;
mod source;

// Two logs as one run of it.
pub mod one_run;

// Callers of it.
pub mod examples;

pub use piper_protocol::answer::{Answer, Failed, Polled};
pub use piper_protocol::memory::OutOfMemory;
pub use piper_protocol::table::{Query, Side};
