//! Lists of bytes, as a script writes them.

use crate::command::{MOST, Refusal};
use crate::number::{both, byte, is_at_most, number};
use crate::stop::Stop;
use piper_machine::bytes::Bytes;
use std::alloc::{AllocError, Global};

/// One item of a list.
#[derive(Clone, Copy)]
enum Item {
    /// One byte.
    Byte(u8),
    /// The bytes from the first to the second, both included.
    Range(u8, u8),
    /// The byte, so many times.
    Repeat(u8, usize),
}

impl Item {
    fn parse(text: &str) -> Result<Item, Refusal> {
        if let Some((first, last)) = text.split_once("..") {
            return range(first, last);
        }
        if let Some((value, count)) = text.split_once('*') {
            let (value, count) = both(byte(value), number(count, 0, MOST))?;
            return Ok(Item::Repeat(value, count));
        }
        Ok(Item::Byte(byte(text)?))
    }

    /// How many bytes the item represents.
    fn len(self) -> usize {
        match self {
            Item::Byte(_) => 1,
            Item::Range(first, last) => usize::from(last.saturating_sub(first)) + 1,
            Item::Repeat(_, count) => count,
        }
    }

    fn append_to(self, bytes: &mut Vec<u8>) -> Result<(), AllocError> {
        match self {
            Item::Byte(value) => bytes.push(value)?,
            Item::Range(first, last) => {
                for value in first..=last {
                    bytes.push(value)?;
                }
            }
            Item::Repeat(value, count) => {
                bytes.resize(bytes.len().saturating_add(count), value)?;
            }
        }
        Ok(())
    }
}

fn range(first: &str, last: &str) -> Result<Item, Refusal> {
    match both(byte(first), byte(last)) {
        Ok((first, last)) if first <= last => Ok(Item::Range(first, last)),
        Err(Refusal::Limit) if is_at_most(first, last) => Err(Refusal::Limit),
        _ => Err(Refusal::Syntax),
    }
}

/// A list of bytes that is written right: its text, and how many bytes it represents.
#[derive(Clone, Copy)]
pub struct List<'line> {
    text: &'line str,
    pub len: usize,
}

impl<'line> List<'line> {
    /// The list that the text writes, if it has at most [`MOST`] bytes.
    pub fn parse(text: &'line str) -> Result<List<'line>, Refusal> {
        if text == "-" {
            return Ok(List { text, len: 0 });
        }
        let mut len = 0usize;
        for item in text.split(',') {
            match Item::parse(item) {
                Ok(item) => len = len.saturating_add(item.len()),
                // A later item may still be no item, which is reported first.
                Err(Refusal::Limit) => len = usize::MAX,
                Err(refusal) => return Err(refusal),
            }
        }
        if len > MOST {
            return Err(Refusal::Limit);
        }
        Ok(List { text, len })
    }

    /// The list's bytes.
    pub fn bytes(self, alloc: Global) -> Result<Bytes, Stop> {
        let mut bytes = Vec::with_capacity(alloc, self.len)?;
        if self.text != "-" {
            for item in self.text.split(',') {
                Item::parse(item)?.append_to(&mut bytes)?;
            }
        }
        Ok(Bytes::copy_of(alloc, &bytes)?)
    }
}
