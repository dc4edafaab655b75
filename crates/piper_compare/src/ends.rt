//! Sources and destinations that do what a script says, for the copies of the handles.
ghost use Rattle.std.specs.Prelude.{◌≡◌, ◌-◌, ◌^◌, ◌≤◌, length, IfOk, ⊤};
ghost use Rattle.piper.specs.Like.{Counts};

use piper::like::{ReadLike, WriteLike};
use piper_machine::scripted::{DestAct, SourceAct};
use piper_protocol::answer::Failed;
use std::io;
use std::io::{ErrorKind, Read, Write};

/// A source: what is left of the bytes of the act that it gives now, and the acts after it.
#[derive(Drop)]
pub struct Source<'a> {
    bytes: &'a [u8],
    acts: &'a [SourceAct],
    failures: u64,
}

/// A destination: the acts that are left.
#[derive(Drop)]
pub struct Destination<'a> {
    acts: &'a [DestAct],
    failures: u64,
}

impl<'a> Source<'a> {
    pub fn new(acts: &'a [SourceAct]) -> Source<'a> {
        Source {
            bytes: &[],
            acts,
            failures: 0,
        }
    }

    // As many bytes of one act as fit.
    fn give(&mut self, dest: &mut [u8]) -> Result<usize, Failed>
        ensures count { IfOk result (λ n. n ≤ length dest.new) }
        ensures failures { Counts result self.old.failures self.new.failures }
    {
        if self.bytes.is_empty() {
            let Some((act, rest)) = self.acts.split_first() else {
                return Ok(0);
            };
            self.acts = rest;
            match act {
                SourceAct::Bytes(bytes) => self.bytes = bytes.as_slice(),
                SourceAct::Fail => {
                    self.failures = self.failures.wrapping_add(1);
                    return Err(Failed);
                }
            }
        }
        let n = self.bytes.len().min(dest.len());
        let (given, rest) = self.bytes.split_at(n);
        dest[..n].copy_from_slice(given);
        self.bytes = rest;
        Ok(n)
    }
}

impl<'a> Destination<'a> {
    pub fn new(acts: &'a [DestAct]) -> Destination<'a> {
        Destination { acts, failures: 0 }
    }

    // At most as many bytes as the next act says.
    fn take(&mut self, most: usize) -> Result<usize, Failed>
        ensures count { IfOk result (λ n. n ≤ most) }
        ensures failures { Counts result self.old.failures self.new.failures }
    {
        let Some((act, rest)) = self.acts.split_first() else {
            return Ok(0);
        };
        self.acts = rest;
        match act {
            DestAct::Take(size) => Ok(most.min(*size)),
            DestAct::Fail => {
                self.failures = self.failures.wrapping_add(1);
                Err(Failed)
            }
        }
    }
}

impl Read for Source<'_> {
    fn read(&mut self, buf: &mut [u8]) -> io::Result<usize> {
        self.give(buf)
            .map_err(|_| io::Error::from(ErrorKind::Other))
    }
}

impl Write for Destination<'_> {
    fn write(&mut self, buf: &[u8]) -> io::Result<usize> {
        self.take(buf.len())
            .map_err(|_| io::Error::from(ErrorKind::Other))
    }

    fn flush(&mut self) -> io::Result<()> {
        Ok(())
    }
}

impl ReadLike for Source<'_> {
    type Error = Failed;

    ghost gives = { λ _ _ _. ⊤ };

    ghost is_dry = { λ _. ⊤ };

    ghost fails = { λ _ _ _. ⊤ };

    ghost failures = { λ source. source.failures };

    ghost wants = { λ _. 2 ^ 64 - 1 };

    ghost gives_nothing = { λ _. tt };

    ghost gives_in_order = { λ _ _ _ _ _ _ _. tt };

    fn read(&mut self, dest: &mut [u8]) -> Result<usize, Failed> {
        self.give(dest)
    }

    fn asks(&self) -> usize {
        usize::MAX
    }
}

impl WriteLike for Destination<'_> {
    type Error = Failed;

    ghost takes = { λ _ _ _. ⊤ };

    ghost is_full = { λ _. ⊤ };

    ghost fails = { λ _ _ _. ⊤ };

    ghost failures = { λ dest. dest.failures };

    ghost wants = { λ _. 2 ^ 64 - 1 };

    ghost takes_nothing = { λ _. tt };

    ghost takes_in_order = { λ _ _ _ _ _ _ _. tt };

    fn write(&mut self, source: &[u8]) -> Result<usize, Failed> {
        self.take(source.len())
    }

    fn asks(&self) -> usize {
        usize::MAX
    }
}
