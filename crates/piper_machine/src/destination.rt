//! What is left of the destination of an open drain.
ghost use Rattle.std.specs.Prelude.{◌≡◌, IfOk, IfErr};
ghost use Rattle.piper_protocol.specs.Reported.{HasFailed};
ghost use Rattle.piper_machine.specs.Round.{taken, taken_by_acts, left_of_acts, left_of_destination};

use crate::scripted::DestAct;
use piper_protocol::answer::Failed;
use piper_protocol::memory::OutOfMemory;
use std::alloc::Global;
use std::marker::Model;

/// A script of which the first acts are spent.
#[derive(Drop)]
pub struct Acts {
    script: Vec<DestAct>,
    spent: usize,
}

impl Model for Acts {
    ghost use Rattle.std.specs.Prelude.{List, drop};
    ghost use Rattle.piper_machine.specs.declared.scripted.DestAct.{DestAct};

    ghost Value = { List DestAct };

    ghost view = { λ acts. drop acts.spent acts.script.items };
}

/// Where a drain puts its bytes.
#[derive(Drop)]
pub enum Destination {
    /// So many places of a slice.
    Slice(usize),
    Acts(Acts),
}

/// What the act in front takes, or that it fails, and the acts after it.
pub fn next<'a>(acts: &'a [DestAct], most: usize) -> (Result<usize, Failed>, &'a [DestAct])
    ensures taken { result.0 ≡ taken_by_acts most acts.now }
    ensures rest { result.1.now ≡ left_of_acts acts.now }
{
    match acts.split_first() {
        Some((DestAct::Take(size), rest)) => (Ok((*size).min(most)), rest),
        Some((DestAct::Fail, rest)) => (Err(Failed), rest),
        None => (Ok(0), &[]),
    }
}

impl Acts {
    /// A copy of a script, none of which is spent.
    pub fn of(alloc: Global, acts: &[DestAct]) -> Result<Self, OutOfMemory>
        ensures copy { IfOk result (λ copy. copy ≡ acts.now) }
        ensures refused { IfErr result HasFailed }
    {
        let script = acts.to_vec(alloc)?;
        Ok(Acts { script, spent: 0 })
    }

    // An act is spent by its call, whatever it takes.
    fn take(&mut self, most: usize) -> Result<usize, Failed>
        ensures answer { result ≡ taken_by_acts most self.old }
        ensures after { self.new ≡ left_of_acts self.old }
    {
        let answer = match self.script.get(self.spent) {
            Some(DestAct::Take(size)) => Ok((*size).min(most)),
            Some(DestAct::Fail) => Err(Failed),
            None => Ok(0),
        };
        if self.spent < self.script.len() {
            self.spent += 1;
        }
        answer
    }
}

impl Destination {
    /// Takes as many bytes of a slice of `most` as it has place for, or fails.
    pub fn take(&mut self, most: usize) -> Result<usize, Failed>
        ensures answer { result ≡ taken most self.old }
        ensures after { self.new ≡ left_of_destination most self.old }
    {
        match self {
            Destination::Slice(size) => {
                let count = (*size).min(most);
                *size -= count;
                Ok(count)
            }
            Destination::Acts(acts) => acts.take(most),
        }
    }
}
