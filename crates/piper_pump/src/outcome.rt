//! What the first thread waits for: the end of the run, or a failed output, after which the run can
//! end late, since a read that is under way is not cut short.
ghost use Rattle.std.specs.Process.{exit_status};
ghost use Rattle.piper_pump.specs.Ended.{HasStatus};
ghost use Rattle.piper_pump.specs.declared.ended.Ended.{Ended};

use crate::ended::{EndNames, Ended};
use crate::progress::EndSignal;
use piper_transfer::Meter;
use std::alloc::{AllocGlobal, Global};
use std::mem;
use std::process::ExitCode;
use std::sync::{Arc, Condvar, Mutex, Wait};
use std::time::{Clock, Duration};

/// For how many milliseconds the run may still end by itself once its output has failed.
const GRACE: u64 = 200;

/// What was reported so far.
#[derive(Drop)]
enum Told {
    Nothing,
    /// The output has failed, so that the run will end so.
    Failed(Ended),
    Over(Ended),
}

/// The place where a run reports how it goes. Another thread may wait for that.
#[derive(Drop)]
pub struct Outcome {
    reported: Mutex<Told>,
    changed: Condvar,
    names: Mutex<EndNames>,
    /// What the run has done so far, and whether that is over, for who reports its progress.
    pub meter: Meter,
    pub over: EndSignal,
}

impl Outcome {
    /// Nothing is reported yet.
    pub fn new() -> Outcome {
        Outcome {
            reported: Mutex::new(Told::Nothing),
            changed: Condvar::new(),
            names: Mutex::new(EndNames::none()),
            meter: Meter::new(),
            over: EndSignal::new(),
        }
    }

    /// What is read and written is named so, where an error of it is said.
    pub fn name(&self, rt: &impl Wait, names: EndNames) {
        *self.names.lock(rt) = names;
    }

    /// What begins each line of progress, which is no more known here then.
    pub fn take_name(&self, rt: &impl Wait) -> Option<String> {
        mem::replace(&mut self.names.lock(rt).progress, None)
    }

    /// The same, for two threads.
    pub fn for_two(alloc: Global) -> Result<(Arc<Outcome, Global>, Arc<Outcome, Global>), Ended> {
        let ours = Arc::new(alloc, Outcome::new()).map_err(|_| Ended::Memory)?;
        let theirs = Arc::try_clone(&ours).map_err(|_| Ended::Memory)?;
        Ok((ours, theirs))
    }

    /// Reports that the output has failed, by which the run ends so: not that a write is to be made
    /// again.
    pub fn fail(&self, rt: &impl Wait, ended: Ended) {
        *self.reported.lock(rt) = Told::Failed(ended);
        self.changed.notify_all();
    }

    /// Reports how the run has ended.
    pub fn end(&self, rt: &impl Wait, ended: Ended) {
        *self.reported.lock(rt) = Told::Over(ended);
        self.changed.notify_all();
    }

    /// Waits until the run has ended, and says why if that was early. Where its output has failed, it
    /// waits for at most a fifth of a second more, and then says that. Returns the status.
    pub fn report<R>(&self, rt: &R) -> ExitCode
    where
        R: Wait + Clock + Print + Eprint + AllocGlobal,
        ensures { (ended : Ended) × HasStatus ended (exit_status result) }
    {
        let ended = self.wait(rt);
        let names = self.names.lock(rt);
        ended.report(rt, &names)
    }

    // How the program ends.
    fn wait(&self, rt: &(impl Wait + Clock)) -> Ended {
        for _ in rt.forever() {
            match self.take(rt) {
                Told::Failed(ended) | Told::Over(ended) => return ended,
                Told::Nothing => {}
            }
        }
        unreachable!()
    }

    // What was reported, once something was, and where the output has failed, so much later.
    fn take(&self, rt: &(impl Wait + Clock)) -> Told {
        let reported = self.changed.wait_while(
            rt,
            self.reported.lock(rt),
            |reported| matches!(reported, Told::Nothing),
        );
        let grace = Duration::from_millis(GRACE);
        let (mut reported, _) = self.changed.wait_timeout_while(
            rt,
            reported,
            grace,
            |reported| !matches!(reported, Told::Over(_)),
        );
        mem::replace(&mut *reported, Told::Nothing)
    }
}
