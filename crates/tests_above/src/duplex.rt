//! The duplex stream, and the echo over it.
mod ends;
mod failing;
mod flushed;
