//! What two sides of a pipe did, each by its own log, is one accepted list of the model's steps.
ghost use Rattle.std.specs.Prelude.{◌≡◌, ℕ, List, false};
ghost use Rattle.piper_machine.specs.logs.Follows.{AreInTurn, IsHonestEnd, IsNobodyForgotten, IsOneAwake};
ghost use Rattle.piper_machine.specs.logs.Line.{Line};
ghost use Rattle.piper_machine.specs.logs.Wide.{IsOneWideRun, goes_beyond};
ghost use Rattle.piper_machine.specs.logs.Listed.{lines_of};
ghost use Rattle.piper_machine.specs.logs.OfHandles.{lines_in};
ghost use Rattle.piper_protocol.specs.Lines as handle;
ghost use Rattle.piper_machine.specs.logs.OneList.{AreListed, FindsCount, accesses, did};
ghost use Rattle.piper_protocol.specs.OneList.{Access, AreOneList};
ghost use Rattle.piper_protocol.specs.Told.{AreTrueLogs, have_met};
ghost use Rattle.piper_machine.specs.logs.OneRun.{AreCountedLogs, AreLogs, IsOneRun};
ghost use Rattle.piper_machine.specs.logs.Worked.{fill_and_drain, wait_again, wait_and_wake};
ghost use Rattle.piper_protocol.specs.declared.table.Side.TheVariants.{Reader, Writer};

/// Two logs whose accesses are what is left of one list, each a list of runs of the call table,
/// are one run of the model. It has acts of its own for what the model does not have: what a meet
/// taught, a waker that a side takes out of its own slot before it registers, and a copy without a
/// context whose source or destination is no slice. Logs with none of these are one run of the
/// machine itself (`plain`).
pub fn is_one_run()
    ensures plain { (capacity : ℕ) (reader writer : List Line) → AreLogs capacity reader writer →
        goes_beyond Reader capacity reader ≡ false → goes_beyond Writer capacity writer ≡ false →
        IsOneRun capacity reader writer }
    ensures wide { (capacity : ℕ) (reader writer : List Line) →
        AreLogs capacity reader writer → IsOneWideRun capacity reader writer }
{}

/// The same, if the list is right in its counts alone and the bytes are known to be in their order.
pub fn is_one_run_by_counts()
    ensures plain { (capacity : ℕ) (reader writer : List Line) →
        AreCountedLogs capacity reader writer →
        goes_beyond Reader capacity reader ≡ false → goes_beyond Writer capacity writer ≡ false →
        IsOneRun capacity reader writer }
    ensures wide { (capacity : ℕ) (reader writer : List Line) →
        AreCountedLogs capacity reader writer → IsOneWideRun capacity reader writer }
{}

/// If two lists of accesses are what is left of one list, as those of two handles at a meet, then so
/// are the accesses of two logs of the model that are the same, line by line.
pub fn are_listed()
    ensures { (reader writer : List Line) (a b : List Access) → AreOneList a b →
        accesses reader ≡ lines_of a → accesses writer ≡ lines_of b →
        AreListed FindsCount reader writer }
{}

/// At a meet the logs of both handles of a pipe are such: each says the truth, and their accesses are
/// one list. The clause `logs` of `Reader::meet` says so. Until the handles first met, their logs are
/// one run of the model.
pub fn handles_are_one_run()
    ensures { (capacity : ℕ) (reader writer : List handle.Line) (taken sent : List ℕ) →
        AreTrueLogs capacity reader writer taken sent →
        have_met reader ≡ false → have_met writer ≡ false →
        IsOneWideRun capacity (lines_in Reader reader) (lines_in Writer writer) }
{}

/// Bytes come out in the order in which they went in.
pub fn bytes_are_in_turn()
    ensures { (capacity : ℕ) (reader writer : List Line) →
        IsOneWideRun capacity reader writer → AreInTurn capacity reader writer }
{}

/// The end is reported only when all bytes were consumed.
pub fn the_end_is_honest()
    ensures { (capacity : ℕ) (reader writer : List Line) →
        IsOneWideRun capacity reader writer → IsHonestEnd capacity reader writer }
{}

/// Nobody who waits is forgotten, and of two who wait one was called.
pub fn nobody_is_forgotten()
    ensures waits { (capacity : ℕ) (reader writer : List Line)
        (run : IsOneWideRun capacity reader writer) → IsNobodyForgotten run }
    ensures awake { (capacity : ℕ) (reader writer : List Line)
        (run : IsOneWideRun capacity reader writer) → IsOneAwake run }
{}

/// The logs of a fill and a drain are such, those of a wait and its wake, and those of a wait that
/// begins again while the writer looks for a waiter.
pub fn are_worked()
    ensures filled { AreLogs 4 (did Reader fill_and_drain) (did Writer fill_and_drain) }
    ensures woken { AreLogs 4 (did Reader wait_and_wake) (did Writer wait_and_wake) }
    ensures again { AreLogs 4 (did Reader wait_again) (did Writer wait_again) }
{}
