//! A reader and a writer of std that fail once so many bytes went through them, and a reader that is
//! interrupted.
use std::io;
use std::io::{Read, Write};

/// A reader that fails once `good` bytes went through it.
#[derive(Drop)]
pub(crate) struct Broken<'a> {
    pub(crate) rest: &'a [u8],
    pub(crate) good: usize,
}

impl Read for Broken<'_> {
    fn read(&mut self, buf: &mut [u8]) -> io::Result<usize> {
        if self.good == 0 {
            return Err(io::Error::from(io::ErrorKind::Other));
        }
        let most = self.good.min(buf.len());
        let count = self.rest.read(&mut buf[..most])?;
        self.good -= count;
        Ok(count)
    }
}

/// A reader each of whose bytes comes after a read that was interrupted.
#[derive(Drop)]
pub(crate) struct Interrupted<'a> {
    pub(crate) rest: &'a [u8],
    pub(crate) was_interrupted: bool,
}

impl Read for Interrupted<'_> {
    fn read(&mut self, buf: &mut [u8]) -> io::Result<usize> {
        self.was_interrupted = !self.was_interrupted;
        if self.was_interrupted {
            return Err(io::Error::from(io::ErrorKind::Interrupted));
        }
        let most = buf.len().min(1);
        self.rest.read(&mut buf[..most])
    }
}

/// A writer that fails once `good` bytes were written.
#[derive(Drop)]
pub(crate) struct Full {
    pub(crate) written: Vec<u8>,
    pub(crate) good: usize,
}

impl Write for Full {
    fn write(&mut self, buf: &[u8]) -> io::Result<usize> {
        if self.good == 0 {
            return Err(io::Error::from(io::ErrorKind::Other));
        }
        let count = self.good.min(buf.len());
        self.written.extend_from_slice(&buf[..count])?;
        self.good -= count;
        Ok(count)
    }

    fn flush(&mut self) -> io::Result<()> {
        Ok(())
    }
}
