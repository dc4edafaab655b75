//! Sources and destinations that follow a script.
ghost use Rattle.std.specs.Prelude.{◌≡◌, [], ◌∷◌, ◌++◌, OnOk, OnErr, IfErr};
ghost use Rattle.piper_protocol.specs.Reported.{HasFailed};

use crate::bytes::Bytes;
use piper_protocol::memory::OutOfMemory;
use std::alloc::{AllocError, Global};
use std::marker::Model;

/// What a scripted source does.
#[derive(Drop)]
pub enum SourceAct {
    /// Gives these bytes, as many at a call as fit. No bytes are an end.
    Bytes(Bytes),
    /// Fails.
    Fail,
}

/// What a scripted destination does in one call.
#[derive(Clone, Copy)]
pub enum DestAct {
    /// Takes at most so many bytes.
    Take(usize),
    /// Fails.
    Fail,
}

/// What a source or destination does, act by act.
#[derive(Drop)]
pub struct ActList<A> {
    acts: Vec<A>,
}

impl<A> Model for ActList<A> {
    ghost use Rattle.std.specs.Prelude.{List};

    ghost Value = { List A };

    ghost view = { λ list. list.acts.items };
}

impl<A: Drop> ActList<A> {
    /// A list without an act.
    pub fn new(alloc: Global) -> Self
        ensures { result ≡ [] }
    {
        ActList {
            acts: Vec::new(alloc),
        }
    }

    /// Adds an act at the end.
    pub fn push(&mut self, act: A) -> Result<(), OutOfMemory>
        ensures ok { OnOk result (self.new ≡ self.old ++ act ∷ []) }
        ensures same { OnErr result (self.new ≡ self.old) }
        ensures refused { IfErr result HasFailed }
    {
        self.acts.push(act).map_err(AllocError::from)?;
        Ok(())
    }

    /// The acts, in their order.
    pub fn as_slice(&self) -> &[A]
        ensures { result.now ≡ self.now }
    {
        &self.acts
    }
}
