//! What a line of a script prints.

ghost use Rattle.std.specs.Prelude.{◌≡◌};

use itoa::{Buffer, Integer};
use piper_machine::{Answer, Failed, Polled};
use std::alloc::{AllocError, Global};
use std::fmt::{Display, Write};
use std::marker::Model;

/// The text that one line of a script prints. In clauses it is its bytes.
#[derive(Drop)]
pub struct Reply {
    pub(crate) text: String,
}

impl Model for Reply {
    ghost use Rattle.std.specs.Prelude.{ℕ, List, string_bytes};

    ghost Value = { List ℕ };

    ghost view = { λ reply. string_bytes reply.text };
}

impl Reply {
    pub fn new(alloc: Global) -> Reply {
        Reply {
            text: String::new(alloc),
        }
    }

    pub fn as_bytes(&self) -> &[u8]
        ensures { result.now ≡ self.now }
    {
        self.text.as_bytes()
    }

    pub fn clear(&mut self) {
        self.text.clear();
    }

    pub fn write(&mut self, text: &str) -> Result<(), AllocError> {
        self.text.push_str(text)
    }

    /// Writes what a whole call returns.
    pub fn write_answer(&mut self, answer: Answer) -> Result<(), AllocError> {
        self.write_found(answer, ' ')
    }

    /// Writes an answer as one word.
    pub fn write_answer_word(&mut self, answer: Answer) -> Result<(), AllocError> {
        match answer {
            Answer::Lent(count) => write!(self.text, "lent:{count}"),
            answer => self.write_found(answer, ':'),
        }
    }

    // Writes an answer, with a separator before what a ready call found.
    fn write_found(&mut self, answer: Answer, separator: char) -> Result<(), AllocError> {
        match answer {
            Answer::Count(count) | Answer::Lent(count) => write!(self.text, "{count}"),
            Answer::Flag(flag) => write!(self.text, "{flag}"),
            Answer::Poll(Polled::Ready(flag)) => write!(self.text, "ready{separator}{flag}"),
            Answer::Copy(Polled::Ready(Ok(count))) => {
                write!(self.text, "ready{separator}{count}")
            }
            Answer::Copy(Polled::Ready(Err(Failed))) => self.write("failed"),
            Answer::Poll(Polled::Pending) | Answer::Copy(Polled::Pending) => self.write("pending"),
            Answer::Poll(Polled::Memory) | Answer::Copy(Polled::Memory) => self.write("memory"),
            Answer::Done => self.write("ok"),
        }
    }

    /// Writes the names of the wakers that a whole call called, if there are any.
    pub fn write_woken(&mut self, names: &[u32]) -> Result<(), AllocError> {
        if names.is_empty() {
            return Ok(());
        }
        self.write(" woken ")?;
        self.write_list(names)
    }

    /// Writes that a line was refused, and why.
    pub fn write_refusal<R: Display + Drop>(
        &mut self,
        line: u64,
        refusal: R,
    ) -> Result<(), AllocError> {
        writeln!(self.text, "line {line}: {refusal}")
    }

    /// Writes how many bytes there are, and which.
    pub fn write_list_with_length(&mut self, bytes: &[u8]) -> Result<(), AllocError> {
        write!(self.text, "{} ", bytes.len())?;
        self.write_list(bytes)
    }

    /// Writes the numbers in decimal, joined by commas, or `-` if there are none.
    pub fn write_list<I: Integer>(&mut self, numbers: &[I]) -> Result<(), AllocError> {
        let Some((first, rest)) = numbers.split_first() else {
            return self.write("-");
        };
        let mut digits = Buffer::new();
        self.write(digits.format(*first))?;
        for number in rest {
            self.write(",")?;
            self.write(digits.format(*number))?;
        }
        Ok(())
    }
}
