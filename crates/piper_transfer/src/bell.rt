//! What wakes one thread of a transfer that waits for the other.
use std::sync::Wait;
use std::thread::Parker;

/// A bell, for which one thread waits. A ring that comes before the wait ends it at once. So none is
/// lost between a look and the sleep that follows it, and nobody takes a lock.
#[derive(Drop)]
pub(crate) struct Bell {
    parker: Parker,
}

impl Bell {
    /// It was not rung.
    pub(crate) fn new() -> Bell {
        Bell {
            parker: Parker::new(),
        }
    }

    /// Ends the wait, or the next one.
    pub(crate) fn ring(&self) {
        self.parker.unpark();
    }

    /// Sleeps until it is rung, if it was not rung since the last wait.
    pub(crate) fn wait(&self, rt: &impl Wait) {
        self.parker.park(rt);
    }
}
