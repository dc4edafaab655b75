//! How many bytes a transfer holds and moves at a time.
ghost use Rattle.std.specs.Prelude.{◌<◌, ◌≤◌, ◌*◌, ◌^◌};

/// How many bytes a transfer holds and moves at a time.
///
/// A value of this type keeps to the bounds of its fields: a program is built only if they are
/// proved where the value is made.
#[derive(Clone, Copy, Debug, PartialEq, Eq)]
pub struct Sizes {
    /// How many bytes the pipe can hold: at least 1 and less than 2^63.
    pub capacity: usize,
    /// How many bytes one read or write is asked for at most (not proved): at least 1.
    pub chunk: usize,
    /// How many bytes are to be in the pipe before the first is written, and again once it ran dry:
    /// at most `capacity`.
    pub level: usize,
    ghost fits: { (0 < capacity) × (2 * capacity < 2 ^ 64) × (0 < chunk)
        × (level ≤ capacity) },
}
