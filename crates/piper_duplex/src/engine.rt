//! The engine of an echo program: the task that echoes, and the session of a client with it.
mod client;
mod echoing;
mod line;
mod lost;
mod printing;
mod session;
mod waiting;

pub use echoing::{Echoed, LineEcho};
pub use session::{Ended, echo};
