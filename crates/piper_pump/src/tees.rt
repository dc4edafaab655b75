//! The files that also get what passes.
ghost use Rattle.std.specs.Prelude.{◌≡◌, ◌++◌, ℕ, List, OnOk, true};
ghost use Rattle.std.specs.List.{All};
ghost use Rattle.piper_pump.specs.Passed.{HasGot};
ghost use Rattle.piper_transfer.specs.Taken.{TakesMore};

use crate::front::Front;
use crate::names::Shown;
use piper_transfer::{Destination, flush_patiently, write_patiently};
use std::fmt::{Display, Formatter};
use std::io::ErrorKind;
use std::sync::Wait;
use std::time::Clock;
use std::{fmt, io};

/// A file that also gets what passes.
#[derive(Drop)]
pub struct Tee<D: Destination + Drop> {
    pub name: String,
    pub dest: D,
    /// Whether a write or a flush failed, after which it gets no more.
    pub has_failed: bool,
    /// How it failed, as long as that is still to be said.
    pub unsaid: Option<io::Error>,
}

/// That a copy can't be written, and gets no more.
#[derive(Clone, Copy)]
struct Loss<'a> {
    name: &'a str,
    error: io::Error,
}

impl Display for Loss<'_> {
    fn fmt<W: fmt::Write>(&self, f: &mut Formatter<W>) -> fmt::Result {
        write!(
            f,
            "piper_pump: {}: {}; it gets no more",
            Shown(self.name),
            self.error
        )
    }
}

impl<D: Destination + Drop> Tee<D> {
    /// It has got nothing yet.
    pub fn new(name: String, dest: D) -> Tee<D> {
        Tee {
            name,
            dest,
            has_failed: false,
            unsaid: None,
        }
    }

    // Writes all these bytes. If that fails, it reports so, once, by the file's name, and the file
    // gets no more. If none may be printed now, this one waits for the end.
    fn give<R: Wait + Clock + Eprint>(&mut self, rt: &R, bytes: &[u8], front: &mut Front)
        ensures { (names : List (List ℕ)) (m : List ℕ) → HasGot D.took names m self.old
            → HasGot D.took names (m ++ bytes.now) self.new }
    {
        if self.has_failed {
            return;
        }
        match write_all(rt, &mut self.dest, bytes) {
            Ok(()) => {}
            Err(error) => self.give_up(rt, error, front),
        }
    }

    // Flushes the file, likewise.
    fn finish<R: Wait + Clock + Eprint>(&mut self, rt: &R, front: &mut Front)
        ensures { (names : List (List ℕ)) (m : List ℕ) → HasGot D.took names m self.old
            → HasGot D.took names m self.new }
    {
        if self.has_failed {
            return;
        }
        match flush_patiently(rt, &mut self.dest) {
            Ok(()) => {}
            Err(error) => self.give_up(rt, error, front),
        }
    }

    fn give_up(&mut self, rt: &impl Eprint, error: io::Error, front: &mut Front)
        ensures { self.new.has_failed ≡ true }
    {
        self.has_failed = true;
        let name = self.name.as_str();
        if !front.is_ours() || rt.eprintln(Loss { name, error }).is_err() {
            self.unsaid = Some(error);
        }
    }
}

/// Says of each file that failed how it did, if that is still to be said. All bytes have passed.
pub fn say_losses<D: Destination + Drop>(rt: &impl Eprint, tees: &[Tee<D>]) {
    for tee in tees {
        if let Some(error) = tee.unsaid {
            let name = tee.name.as_str();
            let _ = rt.eprintln(Loss { name, error });
        }
    }
}

// Writes all these bytes.
fn write_all<R, D>(rt: &R, dest: &mut D, bytes: &[u8]) -> io::Result<()>
where
    R: Wait + Clock,
    D: Destination,
    ensures { OnOk result (TakesMore D.took dest.old dest.new bytes.now) }
{
    let mut rest = bytes;
    for _ in rt.forever() {
        if rest.is_empty() {
            return Ok(());
        }
        let count = write_patiently(rt, dest, rest)?;
        if count == 0 {
            return Err(ErrorKind::WriteZero.into());
        }
        let (_, after) = rest.split_at(count);
        rest = after;
    }
    unreachable!()
}

/// Gives each file these bytes.
pub fn give_all<R, D>(rt: &R, tees: &mut [Tee<D>], bytes: &[u8], front: &mut Front)
where
    R: Wait + Clock + Eprint,
    D: Destination + Drop,
    ensures { (names : List (List ℕ)) (m : List ℕ) → All (HasGot D.took names m) tees.old
        → All (HasGot D.took names (m ++ bytes.now)) tees.new }
{
    for tee in tees.iter_mut() {
        tee.give(rt, bytes, front);
    }
}

/// Flushes each file.
pub fn finish_all<R, D>(rt: &R, tees: &mut [Tee<D>], front: &mut Front)
where
    R: Wait + Clock + Eprint,
    D: Destination + Drop,
    ensures { (names : List (List ℕ)) (m : List ℕ) → All (HasGot D.took names m) tees.old
        → All (HasGot D.took names m) tees.new }
{
    for tee in tees.iter_mut() {
        tee.finish(rt, front);
    }
}
