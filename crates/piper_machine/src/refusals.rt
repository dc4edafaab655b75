//! Why a step or a run is refused.

/// Why a step is refused. If several reasons hold, the first in the order `Dropped`, `Busy` or
/// `Idle`, `BadDraw`, `PastLent` or `PastPeek`, `Memory` is returned.
#[derive(Clone, Copy, Debug, PartialEq, Eq)]
pub enum StepRefusal {
    /// The side has an open call.
    Busy,
    /// The side has no open call.
    Idle,
    /// The side was dropped.
    Dropped,
    /// More than what is left of the slice last lent.
    PastLent,
    /// More than the peeked slice.
    PastPeek,
    /// A draw of 100 or more.
    BadDraw,
    /// An allocation was refused.
    Memory,
}

/// Why a run is refused.
#[derive(Clone, Copy, Debug, PartialEq, Eq)]
pub enum RunRefusal {
    /// There was no memory for the machine.
    NoMachine,
    /// The step at this place, counted from 0, was refused.
    At(usize, StepRefusal),
}
