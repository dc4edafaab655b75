//! What is left of the source of an open fill.
ghost use Rattle.std.specs.Prelude.{◌≡◌, ◌≤◌, ℕ, [], ◌∷◌, length, drop, IfOk, IfErr};
ghost use Rattle.piper_protocol.specs.Reported.{HasFailed};
ghost use Rattle.piper_machine.specs.Round.{unspent, left_of_source};
ghost use Rattle.piper_machine.specs.Source.{IsSource, source_left, bytes_of, is_failing};

use crate::bytes::Bytes;
use crate::scripted::{ActList, SourceAct};
use piper_protocol::memory::OutOfMemory;
use std::alloc::Global;
use std::marker::Model;

/// A script of which the first acts are spent, and some bytes of the next one.
#[derive(Drop)]
pub struct Source {
    script: ActList<SourceAct>,
    spent: usize,
    given: usize,
}

impl Model for Source {
    ghost use Rattle.std.specs.Prelude.{List};
    ghost use Rattle.piper_machine.specs.declared.scripted.SourceAct.{SourceAct};
    ghost use Rattle.piper_machine.specs.Source.{source_left, IsSource};

    ghost Value = { List SourceAct };

    ghost view = { λ source. source_left source.given source.spent source.script };

    ghost invariant = { λ source. IsSource source.given source.spent source.script };
}

/// What a source gives next that has these bytes left of an act, and these acts after it: the bytes
/// or those of the next act, the acts after them, and whether it fails in their place.
pub fn next<'a>(bytes: &'a [u8], acts: &'a [SourceAct]) -> (&'a [u8], &'a [SourceAct], bool)
    ensures front { result.0.now ≡ bytes_of (unspent bytes.now acts.now) }
    ensures rest { (n : ℕ) → unspent (drop n result.0.now) result.1.now
        ≡ left_of_source n (unspent bytes.now acts.now) }
    ensures fails { result.2 ≡ is_failing (unspent bytes.now acts.now) }
{
    if !bytes.is_empty() {
        return (bytes, acts, false);
    }
    match acts.split_first() {
        Some((SourceAct::Bytes(bytes), rest)) => (bytes.as_slice(), rest, false),
        Some((SourceAct::Fail, rest)) => (&[], rest, true),
        None => (&[], &[], false),
    }
}

// How many acts are spent, and how many bytes the next one has given, when that act has given `n`
// bytes more.
fn passed(acts: &[SourceAct], spent: usize, given: usize, n: usize) -> (usize, usize)
    requires before { IsSource given spent acts.now }
    requires within { n ≤ length (bytes_of (source_left given spent acts.now)) }
    ensures left { source_left result.1 result.0 acts.now
        ≡ left_of_source n (source_left given spent acts.now) }
    ensures after { IsSource result.1 result.0 acts.now }
{
    let end = match acts.get(spent) {
        Some(SourceAct::Bytes(bytes)) => bytes.as_slice().len(),
        _ => 0,
    };
    if n < end - given {
        (spent, given + n)
    } else if spent < acts.len() {
        (spent + 1, 0)
    } else {
        (spent, given)
    }
}

impl Source {
    /// Nothing to give.
    pub fn none(alloc: Global) -> Self
        ensures { result ≡ [] }
    {
        Source {
            script: ActList::new(alloc),
            spent: 0,
            given: 0,
        }
    }

    /// A source that gives a copy of these bytes.
    pub fn of_bytes(alloc: Global, bytes: &[u8]) -> Result<Self, OutOfMemory>
        ensures copy { IfOk result (λ source. source ≡ SourceAct.Bytes bytes.now ∷ []) }
        ensures refused { IfErr result HasFailed }
    {
        let mut script = ActList::new(alloc);
        script.push(SourceAct::Bytes(Bytes::copy_of(alloc, bytes)?))?;
        Ok(Source {
            script,
            spent: 0,
            given: 0,
        })
    }

    /// A copy of a script, none of which was given.
    pub fn of_acts(alloc: Global, acts: &[SourceAct]) -> Result<Self, OutOfMemory>
        ensures copy { IfOk result (λ source. source ≡ acts.now) }
        ensures refused { IfErr result HasFailed }
    {
        let mut script = ActList::new(alloc);
        for act in acts {
            let act = match act {
                SourceAct::Bytes(bytes) => SourceAct::Bytes(Bytes::copy_of(
                    alloc,
                    bytes.as_slice(),
                )?),
                SourceAct::Fail => SourceAct::Fail,
            };
            script.push(act)?;
        }
        Ok(Source {
            script,
            spent: 0,
            given: 0,
        })
    }

    /// Whether its next call fails.
    pub fn is_failing(&self) -> bool
        ensures { result ≡ is_failing self.now }
    {
        match self.script.as_slice().get(self.spent) {
            Some(SourceAct::Fail) => true,
            _ => false,
        }
    }

    /// What it has to give next.
    pub fn front(&self) -> &[u8]
        ensures { result.now ≡ bytes_of self.now }
    {
        match self.script.as_slice().get(self.spent) {
            Some(SourceAct::Bytes(bytes)) => &bytes.as_slice()[self.given..],
            _ => &[],
        }
    }

    /// Gives the first `n` bytes of that. An act that has nothing left is spent.
    pub fn pass(&mut self, n: usize)
        requires { n ≤ length (bytes_of self.old) }
        ensures { self.new ≡ left_of_source n self.old }
    {
        let (spent, given) = passed(self.script.as_slice(), self.spent, self.given, n);
        self.spent = spent;
        self.given = given;
    }
}
