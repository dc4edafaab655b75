//! A duplex stream: two pipes of bytes between the same two ends, one for each way; and an echo of
//! lines over one.
#![tactic(auto)]

mod end;
mod engine;

pub use end::{End, duplex, duplex_with_seed};
pub use engine::{Echoed, Ended, LineEcho, echo};
