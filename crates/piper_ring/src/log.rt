//! What a side did, call by call, in the words of the call table. It has no bytes: an access of a
//! side adds itself, and clauses read it.
ghost use Rattle.std.specs.Borrow.{ftrue};
ghost use Rattle.std.specs.Prelude.{◌≡◌, Bool, List, false, length, true};
ghost use Rattle.piper_protocol.specs.Lines.{Line, accesses_in};
ghost use Rattle.piper_ring.specs.Shared.{Names, names_code};
ghost use Rattle.piper_protocol.specs.Told.{are_calls, moved_in};
ghost use Rattle.piper_ring.specs.Trace.{did_owns, side_of};

use crate::ring::marks::{ReadMark, WriteMark};
use piper_protocol::log::Note;
use piper_protocol::table::{Action, Found, Point, Side};
use std::marker::{Model, PhantomData, Send, Sync};

/// All that a side of a ring did, the last first: the reader if `reads`, else the writer. `lines`
/// has each access of what both sides share, with what it found and left: the access itself adds
/// it, and nothing else can. A query keeps no log.
pub struct Log {
    pub(crate) mark: PhantomData<*mut u8>,
    pub(crate) ghost names: { Names } by { names_code },
    pub(crate) ghost reads: { Bool },
    pub(crate) ghost keeps: { Bool },
    pub(crate) ghost lines: { List Line },
}

/// Which side it is: the reader if `reads`, else the writer.
#[inline(always)]
pub(crate) fn side_of(reads: bool) -> Side
    ensures { result ≡ side_of reads }
{
    if reads { Side::Reader } else { Side::Writer }
}

impl Model for Log {
    ghost also_owns = { λ l. did_owns l.names.traced l.keeps l.reads (accesses_in l.lines) };

    ghost also_shares = { λ _ _ _. ftrue };
}

// SAFETY: it has no bytes.
unsafe impl Send for Log {}

// SAFETY: as above.
unsafe impl Sync for Log {}

impl Drop for Log {
    fn drop(self) {
        let Self { mark: _ } = self;
    }
}

impl Log {
    ghost use Rattle.piper_ring.specs.Log.{IsLoaded, IsTold, MayBegin, MayDraw, MayMake, MayPass, WasMade, began, closed_loaded, drew, has_met, is_noted, made, next, passed, taught, tells_true, told, with_note};

    /// A log that nobody keeps, for a query.
    #[inline(always)]
    pub(crate) fn unkept() -> Log
        ensures { result.keeps ≡ false }
    {
        Log { mark: PhantomData }
    }

    /// A call begins.
    #[tactic(auto, using(crate::proofs::Told::begun_true))]
    #[inline(always)]
    pub(crate) fn begin(&mut self, first: Point)
        requires { MayBegin first self.old }
        ensures line { self.new ≡ began first self.old }
        ensures right { tells_true self.new ≡ tells_true self.old }
    {
        self.push(&Note::Began(first));
    }

    /// The last access was this step of the table, and found this.
    #[tactic(auto, using(crate::proofs::Told::told_true))]
    #[inline(always)]
    pub(crate) fn tell(&mut self, action: Action, found: Found)
        requires { IsTold action found self.old }
        ensures line { self.new ≡ told found self.old }
        ensures right { tells_true self.new ≡ tells_true self.old }
    {
        let _ = action;
        self.push(&Note::Told(found));
    }

    /// The last access was no step of the table, which has this one next.
    #[tactic(auto, using(crate::proofs::Told::passed_true))]
    #[inline(always)]
    pub(crate) fn pass(&mut self, action: Action)
        requires { MayPass action self.old }
        ensures line { self.new ≡ passed self.old }
        ensures right { tells_true self.new ≡ tells_true self.old }
    {
        let _ = action;
        self.push(&Note::Passed);
    }

    /// Closed was loaded as a look of the writer begins.
    #[tactic(auto, using(crate::proofs::Told::closed_loaded_true))]
    #[inline(always)]
    pub(crate) fn closed_loaded_first(&mut self, none: bool, is_closed: bool)
        requires { IsLoaded none is_closed self.old }
        ensures line { self.new ≡ closed_loaded none is_closed self.old }
        ensures right { tells_true self.new ≡ tells_true self.old }
    {
        self.push(&Note::ClosedLoaded { none, is_closed });
    }

    /// A copy drew.
    #[tactic(auto, using(crate::proofs::Told::drew_true))]
    #[inline(always)]
    pub(crate) fn drew(&mut self, is_drawn: bool)
        requires { MayDraw self.old }
        ensures line { self.new ≡ drew is_drawn self.old }
        ensures right { tells_true self.new ≡ tells_true self.old }
    {
        self.push(&Note::Drew(is_drawn));
    }

    /// The waker that was taken was called, by a side that has left.
    #[inline(always)]
    pub fn woke(&mut self)
        requires turn { next self.old ≡ Action.Wake }
        requires called { WasMade Action.Wake }
        ensures line { self.new ≡ made Found.Nothing self.old }
        ensures right { tells_true self.new ≡ tells_true self.old }
        ensures calls { are_calls self.new.lines ≡ are_calls self.old.lines }
        ensures noted { is_noted self.new ≡ true }
        ensures moved { moved_in self.new.lines ≡ moved_in self.old.lines }
    {
        self.note(Action::Wake, Found::Nothing);
    }

    /// This step was made, which the table has next; it is no access, and found this.
    #[tactic(auto, using(crate::proofs::Told::made_true))]
    #[inline(always)]
    pub(crate) fn note(&mut self, action: Action, found: Found)
        requires { MayMake action found self.old }
        ensures line { self.new ≡ made found self.old }
        ensures right { tells_true self.new ≡ tells_true self.old }
    {
        let _ = action;
        self.push(&Note::Made(found));
    }

    #[inline(always)]
    fn push(&mut self, note: &Note)
        ensures { self.new ≡ with_note note.now self.old }
    {}

    /// Both handles met, when the other side had moved as many bytes as its mark says.
    #[inline(always)]
    pub(crate) fn meet(&mut self, reader: &ReadMark, writer: &WriteMark)
        ensures { self.new
            ≡ has_met (taught self.old.reads reader.now.count (length writer.now.bytes)) self.old }
    {}
}
