//! Lines on standard error that report how far a transfer is.

use crate::ended::{Prefix, name_in};
use crate::front::Front;
use crate::lines::{Done, Drawn, Fill, Line};
use crate::outcome::Outcome;
use crate::run::{Nothing, STACK};
use piper_transfer::{Meter, is_lasting};
use std::alloc::{AllocError, Global};
use std::io;
use std::marker::Send;
use std::sync::{Arc, Condvar, Mutex, Wait};
use std::thread::{Builder, Threads};
use std::time::{Clock, Duration, Instant};

/// The longest time that is reported as left, in milliseconds: 99 hours. A longer one is a guess.
const LONGEST: u128 = 356_400_000;

/// For how many milliseconds the end waits for the last line.
const GRACE: u64 = 200;

/// How far the thread is that watches a transfer.
#[derive(Clone, Copy)]
enum Stage {
    /// The transfer is under way.
    Watching,
    /// It is over.
    Over,
    /// Nobody watches it, or the last line was printed.
    Told,
}

/// Whether what is watched is over, and that was reported. Other threads may wait for that.
#[derive(Drop)]
pub struct EndSignal {
    stage: Mutex<Stage>,
    changed: Condvar,
}

impl EndSignal {
    /// Nobody watches yet.
    pub fn new() -> EndSignal {
        EndSignal {
            stage: Mutex::new(Stage::Told),
            changed: Condvar::new(),
        }
    }

    fn turn(&self, rt: &impl Wait, stage: Stage) {
        *self.stage.lock(rt) = stage;
        self.changed.notify_all();
    }

    /// Reports that it is over, and waits for the last line, for at most a fifth of a second: the
    /// end does not wait for who reads standard error.
    pub fn end(&self, rt: &(impl Wait + Clock)) {
        let mut stage = self.stage.lock(rt);
        if matches!(*stage, Stage::Told) {
            return;
        }
        *stage = Stage::Over;
        self.changed.notify_all();
        let grace = Duration::from_millis(GRACE);
        let _ = self
            .changed
            .wait_timeout_while(rt, stage, grace, |stage| !matches!(stage, Stage::Told));
    }

    // Waits until it is over, or the time is up. Returns whether it is over.
    fn wait(&self, rt: &(impl Wait + Clock), pause: Duration) -> bool {
        let stage = self.stage.lock(rt);
        let (stage, _) = self
            .changed
            .wait_timeout_while(rt, stage, pause, |stage| !matches!(stage, Stage::Over));
        matches!(*stage, Stage::Over)
    }
}

/// What is reported of a transfer, and how.
#[derive(Clone, Copy)]
pub struct Watched {
    /// How many bytes the pipe can hold.
    pub capacity: usize,
    /// How many bytes come, if that is known.
    pub total: Option<u64>,
    /// Whether each line takes the place of the one before, as on a terminal.
    pub redraws: bool,
    /// Whether a number is reported in place of a line.
    pub tells_number: bool,
    /// How many milliseconds it is from one line to the next.
    pub pause: u64,
    /// When the run began.
    pub begun: Option<Instant>,
}

/// How many bytes were moved, and how many in a second.
#[derive(Clone, Copy)]
struct Moved {
    bytes: u64,
    rate: u64,
}

/// What was reported last, from which the next line goes on.
#[derive(Drop)]
pub struct Progress {
    watched: Watched,
    /// What begins each line.
    name: Option<String>,
    reported: Option<Instant>,
    bytes: u64,
    /// Bytes a second, as an average over the last seconds.
    average: Option<u64>,
    /// Whether a line could not be printed, so that nobody reads them.
    is_unread: bool,
}

/// Has a thread of its own report the transfer until it is over. It is not joined, so that a line
/// which standard error does not take holds up nobody else. If no thread is granted, it returns what
/// reports it between two writes.
pub fn begin_watch<R>(
    rt: &R,
    outcome: &Arc<Outcome, Global>,
    watched: Watched,
    front: Front,
) -> Option<Progress>
where
    R: Wait + Threads + Clock + Eprint + Clone + Drop + Send + Sync + 'static,
{
    let cloned: Result<R, AllocError> = rt.clone();
    if let (Ok(runtime), Ok(theirs)) = (cloned, Arc::try_clone(outcome)) {
        outcome.over.turn(rt, Stage::Watching);
        let started = Builder::new().stack_size(STACK).spawn_with(
            rt,
            Nothing,
            move || watch(&runtime, &theirs, watched, front),
        );
        if started.is_ok() {
            return None;
        }
        outcome.over.turn(rt, Stage::Told);
    }
    Some(Progress::new(watched, outcome.take_name(rt)))
}

// Prints a line after each pause until the transfer is over, and then one of the whole. Once nobody
// reads them any more, it prints no more.
fn watch<R>(rt: &R, outcome: &Outcome, watched: Watched, mut front: Front)
where
    R: Wait + Clock + Eprint,
{
    let mut progress = Progress::new(watched, outcome.take_name(rt));
    for _ in rt.forever() {
        let is_over = outcome.over.wait(rt, Duration::from_millis(watched.pause));
        progress.report(rt, &outcome.meter, &mut front, is_over);
        if is_over || progress.is_unread {
            outcome.over.turn(rt, Stage::Told);
            return;
        }
    }
}

impl Progress {
    /// Nothing is reported yet.
    fn new(watched: Watched, name: Option<String>) -> Progress {
        Progress {
            watched,
            name,
            reported: watched.begun,
            bytes: 0,
            average: None,
            is_unread: false,
        }
    }

    /// Prints a line if the pause since the last one is over, where no other thread does that.
    pub fn report_if_due<R>(&mut self, rt: &R, meter: &Meter, front: &mut Front)
    where
        R: Wait + Clock + Eprint,
    {
        let since = match self.reported {
            Some(reported) => reported.elapsed(rt).unwrap_or(Duration::ZERO),
            None => Duration::ZERO,
        };
        if Duration::from_millis(self.watched.pause) <= since && !self.is_unread {
            self.report(rt, meter, front, false);
        }
    }

    /// Prints a line: of the time since the last one, or of the whole. In the background of a terminal
    /// it prints none.
    pub fn report<R>(&mut self, rt: &R, meter: &Meter, front: &mut Front, is_last: bool)
    where
        R: Wait + Clock + Eprint,
    {
        let bytes = meter.output.bytes();
        let (moved, since) = if is_last {
            (bytes, self.watched.begun)
        } else {
            (bytes.saturating_sub(self.bytes), self.reported)
        };
        let rate = rate(moved, elapsed(rt, since, self.watched.pause));
        self.average = Some(average(self.average, rate));
        let answer = if !front.is_ours() {
            Ok(())
        } else if self.watched.tells_number {
            eprintln!(rt; "{}", number_of(self.watched.total, bytes))
        } else {
            self.print(rt, meter, Moved { bytes, rate }, is_last)
        };
        self.is_unread = is_unread(&answer);
        self.bytes = bytes;
        self.reported = Instant::now(rt).ok();
    }

    // Prints a line, or draws one over the one before: a terminal that is too narrow cuts it off.
    fn print<R>(&self, rt: &R, meter: &Meter, moved: Moved, is_last: bool) -> io::Result<()>
    where
        R: Wait + Clock + Eprint,
    {
        let name = Prefix(name_in(&self.name));
        let line = Line {
            bytes: moved.bytes,
            spent: elapsed(rt, self.watched.begun, 0),
            rate: moved.rate,
        };
        let done = self.done(moved.bytes, is_last);
        let held = meter.input.bytes().saturating_sub(moved.bytes);
        let full = percent(held, self.watched.capacity as u64);
        if self.watched.redraws {
            let drawn = Drawn { line, done, full };
            let end = if is_last { "\n" } else { "" };
            return eprint!(rt; "\r\u{1b}[?7l{name}{drawn}\u{1b}[K\u{1b}[?7h{end}");
        }
        let fill = Fill {
            percent: full,
            full: meter.input.waited(rt),
            empty: meter.output.waited(rt),
        };
        match done {
            None => eprintln!(rt; "{name}{line}{fill}"),
            Some(done) => eprintln!(rt; "{name}{line}{done}{fill}"),
        }
    }

    // How much of all that comes has passed, and how long the rest takes; that is left out at the
    // end, and where none comes. Where more came than was reported, it is not known how much does.
    fn done(&self, bytes: u64, is_last: bool) -> Option<Done> {
        let total = self.watched.total.filter(|total| bytes <= *total)?;
        let average = self.average.unwrap_or(0);
        let left = total.saturating_sub(bytes) as u128 * 1_000 / (average as u128).max(1);
        let is_shown = !is_last && 0 < average && bytes < total && left <= LONGEST;
        Some(Done {
            percent: percent(bytes, total),
            left: if is_shown {
                Some(Duration::from_millis(left as u64))
            } else {
                None
            },
        })
    }
}

// How long ago that was, or so many milliseconds if the clock does not tell.
fn elapsed(clock: &impl Clock, since: Option<Instant>, or: u64) -> Duration {
    let unknown = Duration::from_millis(or);
    match since {
        Some(since) => since.elapsed(clock).unwrap_or(unknown),
        None => unknown,
    }
}

// What is reported as a number: how much of all that comes, in percent, or how many bytes if it is not
// known how many come.
fn number_of(total: Option<u64>, bytes: u64) -> u64 {
    match total {
        Some(total) => percent(bytes, total),
        None => bytes,
    }
}

// Whether nobody reads what is printed, by what a print of it answered.
fn is_unread(answer: &io::Result<()>) -> bool {
    match answer {
        Ok(()) => false,
        Err(error) => is_lasting(error),
    }
}

// Bytes a second.
fn rate(bytes: u64, spent: Duration) -> u64 {
    let milliseconds = spent.as_millis().max(1);
    (bytes as u128 * 1_000 / milliseconds).min(u64::MAX as u128) as u64
}

// The average of the last seconds, once a rate is added to it: each counts an eighth less than the
// next one.
fn average(average: Option<u64>, rate: u64) -> u64 {
    match average {
        None => rate,
        Some(average) => ((average as u128 * 7 + rate as u128) / 8) as u64,
    }
}

// How much of so many bytes that is, in percent; all of none.
fn percent(bytes: u64, all: u64) -> u64 {
    if all == 0 {
        return 100;
    }
    (bytes as u128 * 100 / all as u128).min(100) as u64
}
