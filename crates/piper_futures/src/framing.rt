//! What a sink writes for each item that it is sent.
ghost use Rattle.std.specs.Prelude.{◌≡◌, ◌≤◌, ◌++◌, ◌∷◌, [], ℕ, List, Vec, vec_capacity, vec_len, IfErr, IfOk, ⊤};
ghost use Rattle.std.specs.declared.alloc.Global.{Global};
ghost use Rattle.piper.specs.declared.error.PipeError.{PipeError};

use piper::PipeError;
use piper_lines::FrameHeader;
use std::alloc::Global;
use std::io::ErrorKind;

/// What a sink writes for an item: the item `AsItIs`, a line that has this `LineEnd`, or a frame
/// that has this `FrameHeader`.
pub trait Framing {
    // The bytes that are written for an item.
    ghost framed: { Self → Vec ℕ Global → List ℕ };

    // Holds of an item that can be written.
    ghost fits: { Self → Vec ℕ Global → Type 0 } = { λ _ _. ⊤ };

    // Holds of an error with which an item may be refused.
    ghost refuses: { Self → Vec ℕ Global → PipeError → Type 0 };

    /// Makes of an item the bytes that are written for it.
    ///
    /// Errors: one with which this item may be refused. The item is dropped.
    fn frame(&self, item: Vec<u8>) -> Result<Vec<u8>, PipeError>
        ensures framed { IfOk result (λ piece. piece.items ≡ framed self.now item) }
        ensures fits { IfOk result (λ _. fits self.now item) }
        ensures error { IfErr result (refuses self.now item) };
}

/// The bytes of each item as they are.
#[derive(Clone, Copy, Debug, PartialEq, Eq)]
pub struct AsItIs;

impl Framing for AsItIs {
    ghost framed = { λ _ item. item.items };

    ghost refuses = { λ _ _ _. ⊥ };

    /// Gives the item back. It doesn't fail.
    fn frame(&self, item: Vec<u8>) -> Result<Vec<u8>, PipeError> {
        Ok(item)
    }
}

/// A line of each item: its bytes, and then this one.
#[derive(Clone, Copy, Debug, PartialEq, Eq)]
pub struct LineEnd {
    pub byte: u8,
}

impl Framing for LineEnd {
    ghost use Rattle.piper.specs.Failed.{WasRefused};
    ghost use Rattle.piper_futures.specs.Sent.{line_of};

    ghost framed = { λ end. line_of end.byte };

    ghost refuses = { λ _ item e. WasRefused e × (vec_capacity item ≤ vec_len item) };

    /// Puts the byte at the end of the text itself.
    ///
    /// Errors: `Memory`, only if the text has no room for it. The text is dropped.
    fn frame(&self, item: Vec<u8>) -> Result<Vec<u8>, PipeError> {
        let mut line = item;
        line.extend_from_slice(&[self.byte])?;
        Ok(line)
    }
}

// A frame of each item: its length, and then its bytes.
impl Framing for FrameHeader {
    ghost use Rattle.piper_lines.specs.Frame.{frame_bytes};
    ghost use Rattle.piper_lines.specs.Header.{CanEncode};
    ghost use Rattle.piper_futures.specs.Sent.{IsRefused};

    ghost framed = { λ format body. frame_bytes format body.items };

    ghost fits = { λ format body. CanEncode format (vec_len body) };

    ghost refuses = { λ format body. IsRefused format (vec_len body) (vec_capacity body) };

    /// Puts the length before the body in the body's own memory.
    ///
    /// Errors: one of the kind `InvalidInput`, if the header can't report the length; or `Memory`,
    /// only if the body has no room for it. The body is dropped.
    fn frame(&self, item: Vec<u8>) -> Result<Vec<u8>, PipeError> {
        if !self.can_encode(item.len()) {
            return Err(PipeError::Io(ErrorKind::InvalidInput.into()));
        }
        let header = self.encode(item.len());
        let mut frame = item;
        frame.extend_from_slice(header.as_slice())?;
        frame.rotate_right(header.as_slice().len());
        Ok(frame)
    }
}
