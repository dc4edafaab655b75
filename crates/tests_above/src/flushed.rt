//! Ends that show what a program has flushed when it reads on.

use std::alloc::Global;
use std::cell::Cell;
use std::io;
use std::io::{Read, Write};

/// A line, and what is to be printed of it.
pub type Line<'a> = (&'a str, &'a str);

/// A reader that gives a line at each read, and notes how many bytes were flushed by then.
#[derive(Drop)]
pub struct Turns<'a> {
    lines: &'a [Line<'a>],
    next: usize,
    flushed: &'a Cell<usize>,
    noted: Vec<usize>,
}

impl<'a> Turns<'a> {
    pub fn new(alloc: Global, lines: &'a [Line<'a>], flushed: &'a Cell<usize>) -> Turns<'a> {
        Turns {
            lines,
            next: 0,
            flushed,
            noted: Vec::new(alloc),
        }
    }

    pub fn noted(&self) -> &[usize] {
        self.noted.as_slice()
    }
}

impl Read for Turns<'_> {
    fn read(&mut self, buf: &mut [u8]) -> io::Result<usize> {
        self.noted.push(self.flushed.get())?;
        let Some((line, _)) = self.lines.get(self.next) else {
            return Ok(0);
        };
        self.next += 1;
        let mut rest = line.as_bytes();
        rest.read(buf)
    }
}

/// A writer that reports how many of its bytes were flushed.
#[derive(Drop)]
pub struct Flushed<'a> {
    written: usize,
    flushed: &'a Cell<usize>,
}

impl<'a> Flushed<'a> {
    pub fn new(flushed: &'a Cell<usize>) -> Flushed<'a> {
        Flushed {
            written: 0,
            flushed,
        }
    }
}

impl Write for Flushed<'_> {
    fn write(&mut self, buf: &[u8]) -> io::Result<usize> {
        self.written = self.written.saturating_add(buf.len());
        Ok(buf.len())
    }

    fn flush(&mut self) -> io::Result<()> {
        self.flushed.set(self.written);
        Ok(())
    }
}
