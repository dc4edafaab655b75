//! What a transfer has done so far, for a thread that watches it.
use std::sync::atomic::{AtomicU64, Ordering};
use std::sync::{Mutex, Wait};
use std::time::{Clock, Duration, Instant};

/// Says that a `Side` is the one that reads the input.
#[derive(Clone, Copy)]
pub struct OfInput(());

/// Says that a `Side` is the one that writes the output.
#[derive(Clone, Copy)]
pub struct OfOutput(());

/// What a side of a transfer has done so far. `K` says which side it is.
#[derive(Drop)]
pub struct Side<K> {
    bytes: AtomicU64,
    // The waits that have ended, in nanoseconds.
    waited: AtomicU64,
    // When the wait began that is under way.
    since: Mutex<Option<Instant>>,
    _kind: K,
}

/// What both sides of a transfer have done so far. Other threads may read it at any time.
///
/// Several transfers may share a meter, at once or one after another. It doesn't change what they
/// move, and counts the bytes of all. If two waits overlap, it counts only from the begin of the
/// later one to the first end.
#[derive(Drop)]
pub struct Meter {
    /// The side that reads the input; it waits for room.
    pub input: Side<OfInput>,
    /// The side that writes the output; it waits for bytes.
    pub output: Side<OfOutput>,
}

impl<K> Side<K> {
    fn new(_kind: K) -> Side<K> {
        Side {
            bytes: AtomicU64::new(0),
            waited: AtomicU64::new(0),
            since: Mutex::new(None),
            _kind,
        }
    }

    /// How many bytes it has moved, modulo 2^64.
    pub fn bytes(&self) -> u64 {
        self.bytes.load(Ordering::SeqCst)
    }

    /// How long it has waited for the other side, with a wait that is under way. If the clock can't
    /// be read, that wait counts nothing.
    pub fn waited<R: Wait + Clock>(&self, rt: &R) -> Duration {
        // Locked until both are read, so that a wait which ends meanwhile is counted once.
        let since = self.since.lock(rt);
        let under_way = nanoseconds_since(rt, *since);
        let ended = self.waited.load(Ordering::SeqCst);
        Duration::from_nanos(ended.saturating_add(under_way))
    }

    /// So many more bytes were moved.
    pub(crate) fn add_bytes(&self, count: usize) {
        self.bytes.fetch_add(count as u64, Ordering::SeqCst);
    }

    /// It begins to wait.
    pub fn begin_wait<R: Wait + Clock>(&self, rt: &R) {
        *self.since.lock(rt) = Instant::now(rt).ok();
    }

    /// Its wait has ended.
    pub fn end_wait<R: Wait + Clock>(&self, rt: &R) {
        let mut since = self.since.lock(rt);
        let waited = nanoseconds_since(rt, *since);
        *since = None;
        self.waited.fetch_add(waited, Ordering::SeqCst);
    }
}

fn nanoseconds_since(clock: &impl Clock, since: Option<Instant>) -> u64 {
    let Some(since) = since else {
        return 0;
    };
    let Ok(time) = since.elapsed(clock) else {
        return 0;
    };
    time.as_nanos().min(u64::MAX as u128) as u64
}

impl Meter {
    /// Nothing was moved yet.
    pub fn new() -> Meter {
        Meter {
            input: Side::new(OfInput(())),
            output: Side::new(OfOutput(())),
        }
    }
}
