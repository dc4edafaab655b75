//! Why a transfer stopped before the input's end.
use std::io;
use thiserror::Error;

/// Why a transfer stopped before the input's end was written.
#[derive(Debug, Drop, Error)]
pub enum TransferError {
    /// Reading the input failed with this error. All that it gave before was written and flushed.
    #[error("reading the input failed: {0}")]
    Read(io::Error),
    /// A write to the output, or its flush, failed with this error.
    #[error("writing the output failed: {0}")]
    Write(io::Error),
    /// A write to the output took none of some bytes.
    #[error("the output takes no more bytes")]
    Full,
    /// Memory was refused: for the pipe, or for a waker.
    #[error("out of memory")]
    Memory,
    /// The system granted no random bytes for a thread's name of its own, or no memory for its
    /// turns.
    #[error("a thread can't be made to wait: {0}")]
    Turns(io::Error),
}

/// Why the side that reads the input stops before the input's end.
#[derive(Drop)]
pub(crate) enum Stop {
    /// It failed.
    Failed(TransferError),
    /// It was told to: nothing that it reads would be written any more.
    Told,
}
