//! What the two sides of a transfer tell each other: the one that reads the input hears that there is
//! room, or that the output is over; and the other one, that the pipe holds more.
ghost use Rattle.std.specs.Prelude.{◌≡◌, IsTrue, true};

use crate::bell::Bell;
use piper::Writer;
use std::sync::Wait;
use std::sync::atomic::{AtomicBool, Ordering};

/// What the side that reads the input asks before each read, and tells after it.
pub(crate) trait Hears {
    // it may say that it is over
    ghost may_end: { Type 0 };

    /// Whether the output takes no more, so that no more is to be read.
    fn is_over(&self) -> bool
        ensures { IsTrue result → may_end };

    /// Tells the output's side that the pipe holds more.
    fn tell(&self);

    /// Tells it that the pipe is closed.
    fn tell_closed(&self, writer: &Writer)
        requires { writer.now.side.end.shut ≡ true };
}

/// What the threads of one transfer tell each other.
#[derive(Drop)]
pub(crate) struct Shared {
    /// Whether the output takes no more, since its side has failed.
    is_over: AtomicBool,
    /// The output's side waits for it as long as the pipe holds too little.
    rises: Bell,
    /// The input's side waits for it as long as the pipe is full.
    falls: Bell,
}

impl Shared {
    /// Nothing was told yet.
    pub(crate) fn new() -> Shared {
        Shared {
            is_over: AtomicBool::new(false),
            rises: Bell::new(),
            falls: Bell::new(),
        }
    }

    /// Tells the input's side that the pipe has more room.
    pub(crate) fn tell_room(&self) {
        self.falls.ring();
    }

    /// Tells the input's side to end, since the output's side has failed.
    pub(crate) fn end_output(&self) {
        self.is_over.store(true, Ordering::SeqCst);
        self.falls.ring();
    }

    /// Sleeps until the pipe of this writer has room, or the output is over.
    pub(crate) fn wait_for_room(&self, rt: &impl Wait, writer: &Writer) {
        for _ in rt.forever() {
            if self.is_over() || !writer.is_full() {
                return;
            }
            self.falls.wait(rt);
        }
    }

    /// Sleeps until the pipe holds more, or is closed.
    pub(crate) fn wait_for_rise(&self, rt: &impl Wait) {
        self.rises.wait(rt);
    }
}

impl Hears for Shared {
    ghost use Rattle.std.specs.Prelude.{⊤};

    ghost may_end = { ⊤ };

    fn is_over(&self) -> bool {
        self.is_over.load(Ordering::SeqCst)
    }

    fn tell(&self) {
        self.rises.ring();
    }

    fn tell_closed(&self, _writer: &Writer) {
        self.rises.ring();
    }
}

/// On one thread nobody ends the input before it has ended.
pub(crate) struct Nobody;

impl Hears for Nobody {
    ghost may_end = { ⊥ };

    fn is_over(&self) -> bool {
        false
    }

    fn tell(&self) {}

    fn tell_closed(&self, _writer: &Writer) {}
}
