//! All lines of a reader, or all frames.
ghost use Rattle.std.specs.Prelude.{◌≡◌, ◌<◌, ◌≤◌, ◌++◌, [], ◌∷◌, vec_len, vec_capacity};

mod all_frames;
mod all_lines;

pub use all_frames::poll_frames;
pub use all_lines::poll_lines;

/// Why a poll for all frames ended.
#[derive(Clone, Copy, Debug, PartialEq, Eq)]
pub enum Collected {
    /// The end of the reader, between frames.
    ToTheEnd,
    /// The end of the reader, with bytes of a frame kept, or of a skipped one still to pass.
    Truncated,
    /// The body of the next frame has this many bytes, which are more than the limit.
    UntilTooLong(usize),
}

// Appends where there is room already.
fn push(out: &mut Vec<Vec<u8>>, piece: Vec<u8>)
    requires { vec_len out.old < vec_capacity out.old }
    ensures items { out.new.items ≡ out.old.items ++ piece ∷ [] }
    ensures capacity { vec_capacity out.old ≤ vec_capacity out.new }
{
    match out.push(piece) {
        Ok(()) => {}
        Err(_) => unreachable!(),
    }
}
