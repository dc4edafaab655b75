//! The look that every poll and every copy begins with: whether there is something to do, and if
//! not, why. A call that waits registers between `look_first` and `look_again`.
ghost use Rattle.std.specs.Prelude.{◌≡◌, ◌+◌, ◌<◌, ◌≤◌, ◌++◌, IsTrue, IsFalse, length, not, true, false};
ghost use Rattle.piper_protocol.specs.Table.{goes_on, reader_found, reader_found_none, reader_looked, writer_found, writer_found_none};
ghost use Rattle.piper_protocol.specs.Told.{is_undrawn};
ghost use Rattle.piper_ring.specs.Log.{Comes, IsUndrawn, Opened, Rests, now};

use crate::ends::reader::ReadEnd;
use crate::ends::slots::side::Side;
use crate::ends::writer::WriteEnd;
use piper_protocol::table::{Point, Purpose, ReadPoint, WritePoint};

/// What a look finds.
#[derive(Clone, Copy)]
pub enum Look {
    /// A byte, or room in an open pipe.
    Ready,
    /// The pipe is closed, and nothing is left to do for good.
    Closed,
    /// There is nothing to do yet.
    NotReady,
}

impl<T> Side<ReadEnd, T> {
    ghost use Rattle.piper_ring.specs.Looks.{HasBytes, ReaderIsUpToDate, ReaderLooked, ReaderSees, look_next, looks_at};

    /// A call begins, and looks for a byte that is known, or else for one that was published since.
    /// Returns whether there is one.
    pub fn look_first(&mut self, purpose: Purpose) -> bool
        requires undrawn { is_undrawn purpose ≡ true }
        requires rests { Rests self.old.log }
        ensures undrawn { IsUndrawn self.new.log }
        ensures log { Opened (looks_at self.old.end purpose)
            (goes_on (Point.Reader (reader_looked (not result) purpose))) self.old.log self.new.log }
        ensures some { IsTrue result → HasBytes self.new.end }
        ensures none { IsFalse result →
            (length self.new.end.known ≡ 0) × ReaderIsUpToDate self.new.end }
        ensures looked { ReaderLooked self.old.end self.new.end }
        ensures rest { (self.new.slots ≡ self.old.slots) × (self.new.cells ≡ self.old.cells) }
    {
        let none = self.end.knows_none();
        self.begin(Point::Reader(ReadPoint::look(none, purpose)));
        if !none {
            return true;
        }
        !self.load_tail()
    }

    /// Looks once more, after a call that waits has registered. Closed is loaded before the tail:
    /// then what was published before the pipe was closed is found.
    pub fn look_again(&mut self, purpose: Purpose) -> Look
        requires at { now self.old.log ≡ goes_on (Point.Reader (ReadPoint.LookClosed purpose)) }
        requires none { length self.old.end.known ≡ 0 }
        ensures undrawn { IsUndrawn self.new.log }
        ensures log { Comes (look_next result purpose (Point.Reader (reader_found purpose)))
            self.old.log self.new.log }
        ensures found { ReaderSees result self.new.end }
        ensures after { (length self.old.slots.heard.bytes
            ≤ length (self.new.end.taken ++ self.new.end.known))
            × (self.old.slots.heard.closed ≡ true → self.new.end.saw ≡ true) }
        ensures looked { ReaderLooked self.old.end self.new.end }
        ensures rest { (self.new.slots ≡ self.old.slots) × (self.new.cells ≡ self.old.cells) }
    {
        let is_closed = self.load_closed();
        if !self.load_tail() {
            return Look::Ready;
        }
        if is_closed {
            Look::Closed
        } else {
            Look::NotReady
        }
    }

    /// The look of a call that doesn't wait.
    #[inline(always)]
    pub fn look_now(&mut self, purpose: Purpose) -> Look
        requires undrawn { is_undrawn purpose ≡ true }
        requires rests { Rests self.old.log }
        requires at_once { reader_found_none purpose ≡ ReadPoint.LookClosed purpose }
        ensures log { Opened (looks_at self.old.end purpose)
            (look_next result purpose (Point.Reader (reader_found purpose)))
            self.old.log self.new.log }
        ensures found { ReaderSees result self.new.end }
        ensures looked { ReaderLooked self.old.end self.new.end }
        ensures rest { (self.new.slots ≡ self.old.slots) × (self.new.cells ≡ self.old.cells) }
    {
        if self.look_first(purpose) {
            return Look::Ready;
        }
        self.look_again(purpose)
    }
}

impl<T> Side<WriteEnd, T> {
    ghost use Rattle.piper_ring.specs.Looks.{IfNotReady, WriterIsUpToDate, WriterLooked, WriterSees, first_next, look_next};

    /// A call begins, and looks whether the pipe is closed, and if it is not, for room that is
    /// known, or else for room that was given back since.
    pub fn look_first(&mut self, purpose: Purpose) -> Look
        requires undrawn { is_undrawn purpose ≡ true }
        requires rests { Rests self.old.log }
        ensures undrawn { IsUndrawn self.new.log }
        ensures log { Opened (Point.Writer (WritePoint.LookClosed purpose))
            (first_next result purpose) self.old.log self.new.log }
        ensures found { WriterSees result self.new.end }
        ensures fresh { IfNotReady result (WriterIsUpToDate self.new.end) }
        ensures looked { WriterLooked self.old.end self.new.end }
        ensures rest { (self.new.slots ≡ self.old.slots) × (self.new.cells ≡ self.old.cells) }
    {
        self.begin(Point::Writer(WritePoint::LookClosed(purpose)));
        let none = self.end.knows_none();
        if self.load_closed_first() {
            return Look::Closed;
        }
        if none && self.load_head() {
            return Look::NotReady;
        }
        Look::Ready
    }

    /// Looks once more, after a call that waits has registered. The head is loaded before closed.
    pub fn look_again(&mut self, purpose: Purpose) -> Look
        requires at { now self.old.log ≡ goes_on (Point.Writer (WritePoint.LookHeadAgain purpose)) }
        requires none { WriterSees Look.NotReady self.old.end }
        ensures undrawn { IsUndrawn self.new.log }
        ensures log { Comes (look_next result purpose (Point.Writer (writer_found purpose)))
            self.old.log self.new.log }
        ensures found { WriterSees result self.new.end }
        ensures after { (self.old.slots.heard.count + self.old.end.capacity
            ≤ length self.new.end.sent + self.new.end.room)
            × IfNotReady result (self.old.slots.heard.closed ≡ false) }
        ensures looked { WriterLooked self.old.end self.new.end }
        ensures rest { (self.new.slots ≡ self.old.slots) × (self.new.cells ≡ self.old.cells) }
    {
        if !self.load_head() {
            return Look::Ready;
        }
        if self.load_closed() {
            Look::Closed
        } else {
            Look::NotReady
        }
    }

    /// The look of a call that doesn't wait.
    #[inline(always)]
    pub fn look_now(&mut self, purpose: Purpose) -> Look
        requires undrawn { is_undrawn purpose ≡ true }
        requires rests { Rests self.old.log }
        requires at_once { writer_found_none purpose ≡ WritePoint.LookHeadAgain purpose }
        ensures log { Opened (Point.Writer (WritePoint.LookClosed purpose))
            (look_next result purpose (Point.Writer (writer_found purpose)))
            self.old.log self.new.log }
        ensures found { WriterSees result self.new.end }
        ensures looked { WriterLooked self.old.end self.new.end }
        ensures rest { (self.new.slots ≡ self.old.slots) × (self.new.cells ≡ self.old.cells) }
    {
        match self.look_first(purpose) {
            Look::NotReady => self.look_again(purpose),
            found => found,
        }
    }
}
