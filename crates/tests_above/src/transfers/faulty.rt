//! Ends of a transfer of which one call, by its number, goes wrong.
use std::io;
use std::io::{ErrorKind, Read, Write};

/// How many bytes a call gives or takes at most.
const PIECE: usize = 100;

/// The byte that is given as the `index`th.
fn byte_at(index: u64) -> u8 {
    (index % 251) as u8
}

/// Which call goes wrong, and how.
#[derive(Clone, Copy)]
pub struct Fault {
    pub call: u32,
    pub kind: ErrorKind,
}

/// Gives so many bytes, each made from its index.
#[derive(Drop)]
pub struct Input {
    pub left: usize,
    pub fault: Fault,
    pub calls: u32,
    pub given: u64,
}

/// Takes bytes, and reports whether each was the one that was due.
#[derive(Drop)]
pub struct Output {
    pub fault: Fault,
    /// The number of the write that takes no byte.
    pub takes_none: u32,
    pub calls: u32,
    pub taken: u64,
    pub is_right: bool,
}

impl Input {
    pub fn new(left: usize, fault: Fault) -> Input {
        Input {
            left,
            fault,
            calls: 0,
            given: 0,
        }
    }
}

impl Output {
    pub fn new(fault: Fault) -> Output {
        Output {
            fault,
            takes_none: u32::MAX,
            calls: 0,
            taken: 0,
            is_right: true,
        }
    }
}

impl Read for Input {
    fn read(&mut self, buf: &mut [u8]) -> io::Result<usize> {
        let call = self.calls;
        self.calls = call.wrapping_add(1);
        if call == self.fault.call {
            return Err(self.fault.kind.into());
        }
        let count = buf.len().min(PIECE).min(self.left);
        let mut given = self.given;
        for place in &mut buf[..count] {
            *place = byte_at(given);
            given = given.wrapping_add(1);
        }
        self.given = given;
        self.left -= count;
        Ok(count)
    }
}

impl Write for Output {
    fn write(&mut self, buf: &[u8]) -> io::Result<usize> {
        let call = self.calls;
        self.calls = call.wrapping_add(1);
        if call == self.fault.call {
            return Err(self.fault.kind.into());
        }
        if call == self.takes_none {
            return Ok(0);
        }
        let count = buf.len().min(PIECE);
        let mut taken = self.taken;
        let mut is_right = self.is_right;
        for byte in &buf[..count] {
            is_right = is_right && *byte == byte_at(taken);
            taken = taken.wrapping_add(1);
        }
        self.taken = taken;
        self.is_right = is_right;
        Ok(count)
    }

    fn flush(&mut self) -> io::Result<()> {
        Ok(())
    }
}
