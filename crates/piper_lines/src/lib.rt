//! Lines and frames, read from any reader that lends its bytes and written to any writer.
#![tactic(auto)]

mod collect;
mod frame_reader;
mod frame_writer;
mod gather;
mod header;
mod length_bytes;
mod line_reader;
mod line_writer;
mod texts;
mod write_all;

pub use collect::{Collected, poll_frames, poll_lines};
pub use frame_reader::{FrameAnswer, Frames};
pub use frame_writer::{BodyTooLong, WriteFrame};
pub use gather::{MOST_PIECES, fill_up};
pub use header::{ByteOrder, FrameHeader};
pub use length_bytes::LengthBytes;
pub use line_reader::{LineAnswer, Lines};
pub use line_writer::{WriteLine, is_one_line, lacks};
pub use texts::{into_line_text, line_text};
pub use write_all::{Written, poll_write_all};
