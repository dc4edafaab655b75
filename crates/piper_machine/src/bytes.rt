//! Bytes that own their memory.
ghost use Rattle.std.specs.Prelude.{◌≡◌, IfOk, IfErr};
ghost use Rattle.piper_protocol.specs.Reported.{HasFailed};

use piper_protocol::memory::OutOfMemory;
use std::alloc::Global;
use std::marker::Model;

/// A list of bytes that stays as it was made.
#[derive(Drop)]
pub struct Bytes {
    items: Vec<u8>,
}

impl Model for Bytes {
    ghost use Rattle.std.specs.Prelude.{ℕ, List};

    ghost Value = { List ℕ };

    ghost view = { λ bytes. bytes.items.items };
}

impl Bytes {
    /// A copy of `bytes`.
    ///
    /// Errors: `OutOfMemory` if memory is refused.
    pub fn copy_of(alloc: Global, bytes: &[u8]) -> Result<Self, OutOfMemory>
        ensures copy { IfOk result (λ copy. copy ≡ bytes.now) }
        ensures refused { IfErr result HasFailed }
    {
        let items = bytes.to_vec(alloc)?;
        Ok(Bytes { items })
    }

    /// The bytes.
    pub fn as_slice(&self) -> &[u8]
        ensures { result.now ≡ self.now }
    {
        &self.items
    }
}
