//! The lines of a script in, and replies out.

use crate::parser::MOST_OF_A_LINE;
use crate::reply::Reply;
use crate::stop::Stop;
use std::alloc::Global;
use std::io::{BufReader, ErrorKind, Read, Write};

/// The most bytes of a line that are read: one that is too long is known by the last of them.
const MOST_TO_READ: usize = MOST_OF_A_LINE + 1;

/// The lines of a script, read one after another.
#[derive(Drop)]
pub struct Lines<'input, I: Read> {
    reader: BufReader<&'input mut I>,
    line: Vec<u8>,
}

impl<'input, I: Read> Lines<'input, I> {
    /// The lines of the script that `input` gives. With room for a whole line from the start,
    /// reading one takes no memory.
    pub fn new(alloc: Global, input: &'input mut I) -> Result<Lines<'input, I>, Stop> {
        let line = Vec::with_capacity(alloc, MOST_TO_READ)?;
        let reader = BufReader::new(alloc, input).map_err(|_| Stop::Memory)?;
        Ok(Lines { reader, line })
    }

    /// Reads the next line, without its LF, and returns whether there was one. Of a line that is
    /// too long only the beginning is read.
    pub fn next(&mut self) -> Result<bool, Stop> {
        self.line.clear();
        for _ in 0..MOST_TO_READ {
            match read_byte(&mut self.reader)? {
                None => return Ok(!self.line.is_empty()),
                Some(b'\n') => return Ok(true),
                Some(byte) => self.line.push(byte).map_err(|_| Stop::Memory)?,
            }
        }
        Ok(true)
    }

    /// The line that was read last.
    pub fn line(&self) -> &[u8] {
        self.line.as_slice()
    }
}

// Reads a byte, unless the input has ended.
fn read_byte<R: Read>(reader: &mut R) -> Result<Option<u8>, Stop> {
    let mut place = [0];
    for _ in 0..u64::MAX {
        match reader.read(&mut place) {
            Ok(0) => return Ok(None),
            Ok(_) => return Ok(Some(place[0])),
            Err(error) if error.kind() == ErrorKind::Interrupted => {}
            Err(_) => return Err(Stop::Read),
        }
    }
    Err(Stop::Read)
}

/// Writes and flushes the reply.
pub fn write_reply<O: Write>(reply: &Reply, output: &mut O) -> Result<(), Stop> {
    output.write_all(reply.as_bytes()).map_err(|_| Stop::Write)?;
    output.flush().map_err(|_| Stop::Write)
}

/// Prints that the line was refused, if that is why the replay stops.
pub fn stopped<O: Write>(alloc: Global, line: u64, stop: Stop, output: &mut O) -> Result<(), Stop> {
    if let Stop::Refused(refusal) = stop {
        let mut reply = Reply::new(alloc);
        reply.write_refusal(line, refusal)?;
        write_reply(&reply, output)?;
    }
    Err(stop)
}
