//! What is written, with all that is done with the bytes that pass: they are copied, summed up and
//! slowed down.
ghost use Rattle.std.specs.Prelude.{◌≡◌, ◌++◌, ◌≤◌, ◌<◌, ℕ, List};
ghost use Rattle.std.specs.List.{All};
ghost use Rattle.piper_transfer.specs.Transfer.{IsReady};
ghost use Rattle.piper_pump.specs.Passed.{HasGot, HaveGot, Passes, has_lost_copy, lacks_some};

use crate::ended::Ended;
use crate::front::Front;
use crate::outcome::Outcome;
use crate::pace::Pace;
use crate::progress::Progress;
use crate::sums::SumLine;
use crate::tees::{Tee, finish_all, give_all, say_losses};
use piper_transfer::{Destination, Meter, Ready, Source, TransferError, is_lasting};
use sha2::{Digest, Sha256};
use std::alloc::{AllocGlobal, Global};
use std::io;
use std::marker::Send;
use std::random::RandomSource;
use std::sync::{Arc, Wait};
use std::thread::Threads;
use std::time::Clock;

/// What is written.
#[derive(Drop)]
pub struct Outlet<'a, R: Wait + Clock + Eprint, D: Destination + Drop> {
    pub rt: &'a R,
    pub drain: D,
    pub tees: Vec<Tee<D>>,
    /// The sum of what passed, if it is wanted.
    pub sum: Option<Sha256>,
    /// Whether the sum is wanted and could not be reported.
    pub has_lost_sum: bool,
    pub pace: Option<Pace>,
    /// Where a failure of the drain is reported at once.
    pub outcome: &'a Arc<Outcome, Global>,
    /// What is reported between two writes, where no thread is granted that could report it.
    pub progress: Option<Progress>,
    /// Whether a line may be printed while bytes pass.
    front: Front,
}

impl<'a, R, D> Outlet<'a, R, D>
where
    R: Wait + Clock + Eprint,
    D: Destination + Drop,
{
    /// The bytes that pass go to these, and nothing else is done with them until that is asked for.
    pub fn new(
        rt: &'a R,
        drain: D,
        tees: Vec<Tee<D>>,
        outcome: &'a Arc<Outcome, Global>,
        front: Front,
    ) -> Outlet<'a, R, D> {
        Outlet {
            rt,
            drain,
            tees,
            sum: None,
            has_lost_sum: false,
            pace: None,
            outcome,
            progress: None,
            front,
        }
    }

    // These bytes have passed.
    fn keep(&mut self, bytes: &[u8])
        ensures drain { self.new.drain ≡ self.old.drain }
        ensures tees { (names : List (List ℕ)) (m : List ℕ)
            → All (HasGot D.took names m) self.old.tees.items
            → All (HasGot D.took names (m ++ bytes.now)) self.new.tees.items }
    {
        give_all(self.rt, self.tees.as_mut_slice(), bytes, &mut self.front);
        add_to_sum(&mut self.sum, bytes);
        keep_pace(self.rt, &mut self.pace, bytes.len());
        let (rt, outcome) = (self.rt, self.outcome);
        let meter = &outcome.meter;
        report_if_due(rt, &mut self.progress, meter, &mut self.front);
    }

    // How many of so many bytes may pass at once.
    fn begin(&mut self, count: usize) -> usize
        ensures most { result ≤ count }
        ensures some { 0 < count → 0 < result }
        ensures same { (self.new.drain ≡ self.old.drain) × (self.new.tees ≡ self.old.tees) }
    {
        match &mut self.pace {
            Some(pace) => {
                pace.begin(self.rt);
                pace.most(count)
            }
            None => count,
        }
    }

    /// Reports the last line of progress.
    pub fn report_last(&mut self)
        ensures { (self.new.drain ≡ self.old.drain) × (self.new.tees ≡ self.old.tees) }
    {
        let (rt, outcome) = (self.rt, self.outcome);
        match &mut self.progress {
            Some(progress) => progress.report(rt, &outcome.meter, &mut self.front, true),
            None => outcome.over.end(rt),
        }
    }

    // Reports what is left after a transfer that ended so: the last line of progress, the copies that
    // failed and could not be told of before, and the sum, as that of the file of this name, if it is
    // wanted and all that the input gave was written.
    fn report_rest(&mut self, moved: &Result<(), TransferError>, name: &str)
        ensures drain { self.new.drain ≡ self.old.drain }
        ensures tees { self.new.tees ≡ self.old.tees }
    {
        self.report_last();
        say_losses(self.rt, self.tees.as_slice());
        if matches!(moved, Ok(()) | Err(TransferError::Read(_))) {
            self.report_sum(name);
        }
    }

    fn report_sum(&mut self, name: &str)
        ensures { (self.new.drain ≡ self.old.drain) × (self.new.tees ≡ self.old.tees) }
    {
        if let Some(hasher) = &self.sum {
            self.has_lost_sum = match hasher.clone() {
                Ok(hasher) => {
                    let digest = hasher.finalize();
                    self.rt.eprintln(SumLine { digest, name }).is_err()
                }
                Err(_) => true,
            };
        }
    }

    /// Whether a file did not get its copy, or the sum was not reported though it is wanted.
    pub fn lacks_some(&self) -> bool
        ensures { result ≡ lacks_some self.now }
    {
        self.has_lost_copy() || self.has_lost_sum
    }

    fn has_lost_copy(&self) -> bool
        ensures { result ≡ has_lost_copy self.now }
    {
        self.tees.iter().any(|tee| tee.has_failed)
    }
}

impl<R, D> Destination for Outlet<'_, R, D>
where
    R: Wait + Clock + Eprint,
    D: Destination + Drop,
{
    ghost contents = { λ o. D.contents o.drain };

    // the copies got just what the output took
    ghost took = { λ o names m. HaveGot D.took names m o };

    ghost flushed = { λ o. D.flushed o.drain };

    ghost full = { λ o. D.full o.drain };

    ghost fails = { λ o e. D.fails o.drain e };

    // A copy that fails changes nothing of what the drain gets.
    fn write(&mut self, buf: &[u8]) -> io::Result<usize> {
        let most = self.begin(buf.len());
        match self.drain.write(&buf[..most]) {
            Ok(0) if 0 < most => {
                let ended = Ended::of(Err(TransferError::Full), false);
                self.outcome.fail(self.rt, ended);
                Ok(0)
            }
            Ok(count) => {
                self.keep(&buf[..count]);
                Ok(count)
            }
            Err(error) => {
                if is_lasting(&error) {
                    let ended = Ended::of(Err(TransferError::Write(error)), false);
                    self.outcome.fail(self.rt, ended);
                }
                Err(error)
            }
        }
    }

    fn flush(&mut self) -> io::Result<()> {
        self.drain.flush()?;
        finish_all(self.rt, self.tees.as_mut_slice(), &mut self.front);
        Ok(())
    }
}

fn add_to_sum(sum: &mut Option<Sha256>, bytes: &[u8]) {
    if let Some(hasher) = sum {
        hasher.update(bytes);
    }
}

fn keep_pace(clock: &impl Clock, pace: &mut Option<Pace>, count: usize) {
    if let Some(pace) = pace {
        pace.keep(clock, count);
    }
}

fn report_if_due<R>(rt: &R, progress: &mut Option<Progress>, meter: &Meter, front: &mut Front)
where
    R: Wait + Clock + Eprint,
{
    if let Some(progress) = progress {
        progress.report_if_due(rt, meter, front);
    }
}

/// Moves all that the source gives to the outlet, and reports what is to be reported. Returns how
/// that ended.
pub fn pass<R, S, D>(
    ready: Ready,
    source: &mut S,
    outlet: &mut Outlet<'_, R, D>,
    name: &str,
) -> Ended
where
    R: Wait + Threads + Clock + RandomSource + AllocGlobal,
    R: Eprint + Clone + Drop + Send + Sync,
    S: Source + Send,
    D: Destination + Drop,
    requires { IsReady ready }
    ensures { Passes (S.remaining source.old) (S.remaining source.new) D.contents D.took D.flushed
        outlet.old outlet.new result }
{
    let rt = outlet.rt;
    let outcome = outlet.outcome;
    let moved = ready.transfer(rt, source, outlet, &outcome.meter);
    outlet.report_rest(&moved, name);
    Ended::of(moved, outlet.lacks_some())
}
