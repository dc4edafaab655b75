//! An end of a ring in whose slots nobody waits.
ghost use Rattle.piper_ring.specs.Log.{IsLogOf};

use crate::ends::slots::SlotEnd;
use crate::log::Log;

/// An end of a ring, and the log of what it did. It closes the ring when it is dropped.
pub struct Logged<E: SlotEnd> {
    pub end: E,
    pub log: Log,
    ghost own_log: { IsLogOf (E.names_of end) E.READS log },
}

impl<E: SlotEnd> Drop for Logged<E> {
    fn drop(self) {
        let Logged { end, mut log } = self;
        end.close(&mut log);
    }
}
