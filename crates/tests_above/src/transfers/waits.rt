//! How long a transfer's meter says that a side waited.
use crate::compare::same;
use piper_transfer::{Destination, Meter, Sizes, Source, transfer};
use std::sync::Wait;
use std::time::{Clock, Duration};
use std::{io, thread};

/// How many milliseconds the slow side sleeps, once.
const SLEEP: u64 = 200;

/// How many milliseconds the other side has waited then, at least.
const LEAST: u128 = 100;

/// How many milliseconds after its end a transfer's meter is asked again.
const LATER: u64 = 5;

/// How many bytes go through, a few times what the pipe holds.
const TOTAL: usize = 1_000;

const SIZES: Sizes = Sizes {
    capacity: 100,
    chunk: 50,
    level: 0,
};

/// Gives zeros; before the third call it sleeps, and then asks how long the other side has waited.
#[derive(Drop)]
struct SlowInput<'a, R: Wait + Clock> {
    rt: &'a R,
    meter: &'a Meter,
    sleeps: bool,
    calls: u32,
    left: usize,
    seen: Duration,
}

/// Takes all; before the third call it sleeps, and then asks how long the other side has waited.
#[derive(Drop)]
struct SlowOutput<'a, R: Wait + Clock> {
    rt: &'a R,
    meter: &'a Meter,
    sleeps: bool,
    calls: u32,
    seen: Duration,
}

impl<R: Wait + Clock> Source for SlowInput<'_, R> {
    fn read(&mut self, buf: &mut [u8]) -> io::Result<usize> {
        self.calls = self.calls.wrapping_add(1);
        if self.sleeps && self.calls == 3 {
            thread::sleep(self.rt, Duration::from_millis(SLEEP));
            self.seen = self.meter.output.waited(self.rt);
        }
        let count = buf.len().min(self.left);
        buf[..count].fill(0);
        self.left -= count;
        Ok(count)
    }
}

impl<R: Wait + Clock> Destination for SlowOutput<'_, R> {
    fn write(&mut self, buf: &[u8]) -> io::Result<usize> {
        self.calls = self.calls.wrapping_add(1);
        if self.sleeps && self.calls == 3 {
            thread::sleep(self.rt, Duration::from_millis(SLEEP));
            self.seen = self.meter.input.waited(self.rt);
        }
        Ok(buf.len())
    }

    fn flush(&mut self) -> io::Result<()> {
        Ok(())
    }
}

/// How long both sides have waited.
fn waited_by<R: Wait + Clock>(rt: &R, meter: &Meter) -> (Duration, Duration) {
    (meter.input.waited(rt), meter.output.waited(rt))
}

/// A transfer of which one side sleeps once, and after which nobody waits. The answer is how many
/// milliseconds the other side had waited by then, how many it had waited in all, and how many the
/// slow one had.
macro_rules! waits {
    ($rt:expr, $is_input_slow:expr) => {{
        let meter = Meter::new();
        let mut input = SlowInput {
            rt: $rt,
            meter: &meter,
            sleeps: $is_input_slow,
            calls: 0,
            left: TOTAL,
            seen: Duration::ZERO,
        };
        let mut output = SlowOutput {
            rt: $rt,
            meter: &meter,
            sleeps: !$is_input_slow,
            calls: 0,
            seen: Duration::ZERO,
        };
        let moved = transfer($rt, &mut input, &mut output, SIZES, &meter);
        same($rt, moved.is_ok(), true);
        let waited = waited_by($rt, &meter);
        thread::sleep($rt, Duration::from_millis(LATER));
        same($rt, waited_by($rt, &meter), waited);
        let (input_waited, output_waited) = (waited.0.as_millis(), waited.1.as_millis());
        let seen = input.seen.max(output.seen).as_millis();
        (seen, input_waited, output_waited)
    }};
}

#[test]
fn an_input_waits_for_a_slow_output(rt: HostRuntime) {
    let (seen, input_waited, output_waited) = waits!(&rt, false);
    same(&rt, LEAST <= seen, true);
    same(&rt, seen <= input_waited, true);
    same(&rt, output_waited < input_waited, true);
}

#[test]
fn an_output_waits_for_a_slow_input(rt: HostRuntime) {
    let (seen, input_waited, output_waited) = waits!(&rt, true);
    same(&rt, LEAST <= seen, true);
    same(&rt, seen <= output_waited, true);
    same(&rt, input_waited < output_waited, true);
}
