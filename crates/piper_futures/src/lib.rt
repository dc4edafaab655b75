//! Futures, streams and sinks over any reader that lends and any writer, named as in `futures` and
//! `tokio`.
//!
//! Each future owns its ends and gives them back, even if it fails: pass `&mut` to keep one.
//! [`write_all_and_close`] alone drops its writer. If a future is dropped before it is ready, it
//! drops its ends and the bytes that it gathered.
#![tactic(auto)]

mod copy_across;
mod debug;
mod drain;
mod ext;
mod failed;
mod fill;
mod frame_stream;
mod framing;
mod line_stream;
mod piece_sink;
mod read_all;
mod read_some;
mod read_through;
mod read_up_to;
mod threads;
mod write_and_close;
mod write_end;
mod write_whole;

pub use copy_across::{Copying, copy};
pub use drain::{Draining, drain_into, poll_drain_into};
pub use ext::{AsyncBufReadExt, AsyncReadExt, AsyncWriteExt};
pub use failed::Failed;
pub use fill::{AsyncFill, Filling, fill_from};
pub use frame_stream::FrameStream;
pub use framing::{AsItIs, Framing, LineEnd};
pub use line_stream::LineStream;
pub use piece_sink::{FrameSink, LineSink, PieceSink, WriteSink};
pub use read_all::{ReadToEnd, poll_read_to_end, read_to_end};
pub use read_some::{ReadOnce, read};
pub use read_through::{ReadUntil, poll_read_until, read_until};
pub use read_up_to::{ReadExact, read_exact};
pub use threads::{Drained, Drains, Filled, Fills, spawn_drain, spawn_fill};
pub use write_and_close::{WriteAllAndClose, write_all_and_close};
pub use write_end::{Closing, Flushing, close, flush};
pub use write_whole::{WriteAll, write_all};
