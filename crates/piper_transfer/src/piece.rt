//! How many bytes a read is asked for.
ghost use Rattle.std.specs.Prelude.{◌≡◌, ◌<◌, ◌≤◌, ◌*◌, max, min};

/// How many bytes the first read is asked for at most.
const FIRST: usize = 65_536;

/// How many bytes the next read is asked for. The place for them is zeroed in the pipe, so that is
/// at most twice as many as the last read gave, however long a chunk may be.
#[derive(Clone, Copy)]
pub(crate) struct Piece {
    chunk: usize,
    len: usize,
    ghost within: { (0 < len) × (len ≤ chunk) },
}

impl Piece {
    /// What the first read is asked for.
    pub(crate) fn first(chunk: usize) -> Piece
        requires { 0 < chunk }
        ensures chunk { result.chunk ≡ chunk }
        ensures len { result.len ≡ min chunk 65_536 }
    {
        Piece {
            chunk,
            len: chunk.min(FIRST),
        }
    }

    /// What a read is asked for after one that gave so many bytes: up to a chunk, no less than the
    /// first one, and no less than twice what came; and never more than the greater of both.
    pub(crate) fn after(self, count: usize) -> Piece
        ensures chunk { result.chunk ≡ self.chunk }
        ensures least { min self.chunk 65_536 ≤ result.len }
        ensures grows { min self.chunk (2 * count) ≤ result.len }
        ensures most { result.len ≤ max 65_536 (2 * count) }
    {
        let len = count.saturating_mul(2).max(FIRST).min(self.chunk);
        Piece {
            chunk: self.chunk,
            len,
        }
    }

    /// How many bytes that is.
    pub(crate) fn len(&self) -> usize
        ensures len { result ≡ self.now.len }
        ensures some { 0 < result }
    {
        self.len
    }
}
