//! The standard streams, as they were where the program began.

use crate::ended::Ended;
use crate::found::Stream;
use std::alloc::AllocGlobal;
use std::fs::{File, Files, OpenOptions};
use std::os::fd::AsFd;

/// The folder that is opened in place of a stream that is closed. No folder can be read or written.
const ROOT: &str = "/";

/// The system's error where a number is that of no open file.
const NOT_OPEN: i32 = 9;

/// What is known of the standard streams.
#[derive(Clone, Copy)]
pub struct Streams {
    /// Whether standard input was open.
    pub has_input: bool,
    /// Whether standard output was open.
    pub has_output: bool,
    /// Whether standard error was open.
    pub has_error: bool,
    /// Whether standard error is a terminal, where each line is drawn over the one before.
    pub redraws: bool,
}

/// Files with the numbers of the standard streams that were closed.
#[derive(Drop)]
pub struct Fillers {
    _input: Option<File>,
    _output: Option<File>,
    _error: Option<File>,
}

/// Whether this stream is open.
pub fn is_open(stream: &impl AsFd) -> bool {
    match stream.as_fd().try_clone_to_owned() {
        Ok(_) => true,
        Err(error) => error.raw_os_error() != Some(NOT_OPEN),
    }
}

impl Streams {
    /// Opens a folder in place of each stream that was closed, so that no file that is opened later
    /// gets its number, and with it what is read from or written to the stream. A name that leads to
    /// a closed stream, as `/dev/stdout`, then leads to a folder, and is refused like the names of
    /// others.
    ///
    /// It is called before any other file is opened, and what it returns is kept to the end.
    pub fn fill<R>(&self, rt: &R) -> Result<Fillers, Ended>
    where
        R: Files<File = File> + AllocGlobal,
    {
        // The system gives the lowest number that is free.
        let _input = open_unless(rt, self.has_input, Stream::Input)?;
        let _output = open_unless(rt, self.has_output, Stream::Output)?;
        let _error = open_unless(rt, self.has_error, Stream::Error)?;
        Ok(Fillers {
            _input,
            _output,
            _error,
        })
    }
}

fn open_unless<R>(rt: &R, is_open: bool, stream: Stream) -> Result<Option<File>, Ended>
where
    R: Files<File = File> + AllocGlobal,
{
    if is_open {
        return Ok(None);
    }
    match OpenOptions::new().read(true).open(rt, ROOT) {
        Ok(file) => Ok(Some(file)),
        Err(error) => Err(Ended::no_output(rt.alloc(), stream.said(), error)),
    }
}
