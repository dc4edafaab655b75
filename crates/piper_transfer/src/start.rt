//! What two threads of a transfer tell each other: that the second one has begun, or is late.
use crate::shared::Shared;
use std::sync::{Condvar, Mutex, Wait};
use std::thread;
use std::thread::Threads;
use std::time::{Clock, Duration};

/// How many rounds the second thread is waited for. A program that is stopped and goes on later uses
/// up one.
const WAITS: u64 = 100;

/// How many milliseconds one round takes at most. A thread that begins at all mostly does so within
/// one.
const ROUND: u64 = 100;

/// Whether the system grants a thread now. It asks for one, which ends at once.
pub(crate) fn grants_thread(rt: &impl Threads) -> bool {
    match thread::spawn(rt, || ()) {
        Ok(thread) => {
            thread.join(rt);
            true
        }
        Err(_) => false,
    }
}

/// Where the start of the second thread is.
#[derive(Clone, Copy, PartialEq, Eq)]
enum Stage {
    Waited,
    Begun,
    GivenUp,
}

/// What the two threads of a transfer share. It says to the first whether the second one has begun,
/// to the second one whether it is still waited for, and what both tell each other later.
///
/// A thread that the system refuses is run after the first one, on the same thread. That is known
/// before, mostly, by `grants_thread`; but it may refuse one that it would have granted a moment
/// ago. So neither may wait for the other before both have begun; and where one has not begun for
/// ten seconds, neither does.
#[derive(Drop)]
pub(crate) struct Start {
    stage: Mutex<Stage>,
    changed: Condvar,
    pub(crate) shared: Shared,
}

impl Start {
    /// The second thread has not begun.
    pub(crate) fn new() -> Start {
        Start {
            stage: Mutex::new(Stage::Waited),
            changed: Condvar::new(),
            shared: Shared::new(),
        }
    }

    /// The second thread begins. Returns whether it was still waited for.
    pub(crate) fn begin(&self, rt: &impl Wait) -> bool {
        let mut stage = self.stage.lock(rt);
        if *stage == Stage::GivenUp {
            return false;
        }
        *stage = Stage::Begun;
        self.changed.notify_all();
        true
    }

    /// Waits for the second thread, and gives it up once the time is over. Returns whether it
    /// has begun.
    pub(crate) fn wait(&self, rt: &(impl Wait + Clock)) -> bool {
        for _ in 0..WAITS {
            if self.wait_once(rt) {
                return true;
            }
        }
        self.give_up(rt)
    }

    // Waits one round.
    fn wait_once(&self, rt: &(impl Wait + Clock)) -> bool {
        let stage = self.stage.lock(rt);
        let (stage, _) = self.changed.wait_timeout_while(
            rt,
            stage,
            Duration::from_millis(ROUND),
            |stage| *stage == Stage::Waited,
        );
        *stage == Stage::Begun
    }

    // Gives up the second thread, unless it has begun meanwhile.
    fn give_up(&self, rt: &impl Wait) -> bool {
        let mut stage = self.stage.lock(rt);
        if *stage == Stage::Waited {
            *stage = Stage::GivenUp;
        }
        *stage == Stage::Begun
    }
}
