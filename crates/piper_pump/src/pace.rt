//! A rate that is kept: so many bytes a second at most.
ghost use Rattle.std.specs.Prelude.{◌<◌, ◌≤◌};

use std::thread;
use std::time::{Clock, Duration, Instant};

/// For how many milliseconds bytes pass between two checks the clock.
const STEP: u64 = 1;

/// By how many milliseconds a write may be late, which is made up for by later ones.
const LAG: u64 = 100;

/// For how many milliseconds nothing may pass, which is made up for likewise.
const GAP: u64 = 10;

/// How many bytes a second may pass, and how far ahead of that rate those are that did.
#[derive(Clone, Copy)]
pub struct Pace {
    rate: usize,
    since: Option<Instant>,
    // How long the bytes take that have passed since then, and what that was when the clock was
    // read.
    owed: Duration,
    checked: Duration,
    // By how much the last ones were late.
    late: Duration,
}

impl Pace {
    pub fn new(rate: usize) -> Pace {
        Pace {
            rate,
            since: None,
            owed: Duration::ZERO,
            checked: Duration::ZERO,
            late: Duration::ZERO,
        }
    }

    /// How many of so many bytes are written at once: a tenth of a second's.
    pub fn most(&self, count: usize) -> usize
        ensures most { result ≤ count }
        ensures some { 0 < count → 0 < result }
    {
        count.min((self.rate / 10).max(1))
    }

    /// So many bytes are about to pass: the time begins to count if none did lately.
    pub fn begin(&mut self, clock: &impl Clock) {
        if let Some(since) = self.since {
            let spent = since.elapsed(clock).unwrap_or(self.owed);
            let late = self.late.saturating_add(Duration::from_millis(GAP));
            if spent.saturating_sub(self.owed) <= late {
                return;
            }
        }
        self.since = Instant::now(clock).ok();
        self.owed = Duration::ZERO;
        self.checked = Duration::ZERO;
        self.late = Duration::ZERO;
    }

    /// So many bytes have passed: sleeps until their time is over.
    pub fn keep(&mut self, clock: &impl Clock, count: usize) {
        let Some(since) = self.since else {
            return;
        };
        self.owed = self.owed.saturating_add(time_of(count, self.rate));
        if self.owed.saturating_sub(self.checked) < Duration::from_millis(STEP) {
            return;
        }
        self.checked = self.owed;
        let spent = since.elapsed(clock).unwrap_or(self.owed);
        if spent < self.owed {
            thread::sleep(clock, self.owed.saturating_sub(spent));
        }
        let spent = since.elapsed(clock).unwrap_or(self.owed);
        self.late = spent.saturating_sub(self.owed);
        if Duration::from_millis(LAG) < self.late {
            self.since = None;
        }
    }
}

// How long so many bytes take at so many a second.
fn time_of(count: usize, rate: usize) -> Duration {
    let nanoseconds = count as u128 * 1_000_000_000 / (rate as u128).max(1);
    Duration::from_nanos(nanoseconds.min(u64::MAX as u128) as u64)
}
