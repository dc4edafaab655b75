//! What a future leaves where it fails.
ghost use Rattle.std.specs.Prelude.{◌≡◌};

use piper::PipeError;
use std::fmt::{Formatter, Write};
use std::{fmt, io};
use thiserror::Error;

/// The error of a future that failed, and what it owned.
///
/// `{}` and `{:?}` print the error alone.
#[derive(Drop, Error)]
#[error("{error}")]
pub struct Failed<T> {
    /// The ends that the future was given, and the bytes that it took.
    pub left: T,
    /// Why it failed.
    pub error: PipeError,
}

impl<T> fmt::Debug for Failed<T> {
    fn fmt<W: Write>(&self, f: &mut Formatter<W>) -> fmt::Result {
        fmt::Debug::fmt(&self.error, f)
    }
}

/// So that `?` passes the error on, and lets the rest go.
impl<T: Drop> From<Failed<T>> for PipeError {
    ghost from_gives = { λ failed error. error ≡ failed.error };

    fn from(failed: Failed<T>) -> PipeError {
        let Failed { left: _, error } = failed;
        error
    }
}

/// So that `?` passes the error on to an `io::Result`, and lets the rest go.
impl<T: Drop> From<Failed<T>> for io::Error {
    ghost use Rattle.piper.specs.Failed.{ReportsFailure};

    ghost from_gives = { λ failed error. ReportsFailure failed.error error };

    fn from(failed: Failed<T>) -> io::Error {
        let Failed { left: _, error } = failed;
        io::Error::from(error)
    }
}
