//! The bytes of a length, on their way.
ghost use Rattle.std.specs.Prelude.{◌≡◌, ◌≤◌};

/// The bytes that report a length.
///
/// In clauses, `shown_of` are these bytes.
#[derive(Debug, Drop)]
pub struct LengthBytes {
    pub(crate) bytes: [u8; 8],
    pub(crate) first: usize,
    pub(crate) end: usize,
    ghost in_order: { first ≤ end },
    ghost within: { end ≤ 8 },
}

impl LengthBytes {
    ghost use Rattle.piper_lines.specs.Shown.{shown_of};

    /// The bytes, as they come before a body.
    pub fn as_slice(&self) -> &[u8]
        ensures { result.now ≡ shown_of self.now }
    {
        &self.bytes[self.first..self.end]
    }
}
