//! Moves bytes from a reader to a writer through a pipe: one thread reads and another writes. A slow
//! read doesn't hold up the writes as long as the pipe has bytes. A slow write doesn't hold up the
//! reads as long as the pipe has room.
#![tactic(auto)]

mod bell;
mod both_sides;
mod draining;
mod ends;
mod error;
mod filling;
mod level;
mod meter;
mod one_thread;
mod patience;
mod piece;
mod shared;
mod sizes;
mod start;
mod turns;

pub use both_sides::{Ready, transfer};
pub use ends::{Destination, Plain, Source};
pub use error::TransferError;
pub use meter::{Meter, OfInput, OfOutput, Side};
pub use patience::{Patience, flush_patiently, is_lasting, write_patiently};
pub use sizes::Sizes;
