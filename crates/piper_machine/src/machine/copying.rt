//! Calls that copy bytes between the pipe and a slice or a script, run whole.
ghost use Rattle.std.specs.Prelude.{◌≡◌, ◌<◌, ◌≤◌, ◌-◌, ◌++◌, [], length, take, drop, min, Some};
ghost use Rattle.piper_machine.specs.Action.{round_count};
ghost use Rattle.piper_machine.specs.Round.{unspent};
ghost use Rattle.piper_machine.specs.Step.{fill_opened, drain_opened};
ghost use Rattle.piper_machine.specs.Alone.{reader_alone, writer_alone};
ghost use Rattle.piper_machine.specs.Look.{context};
ghost use Rattle.piper_machine.specs.Copy.{count_of, try_fill, try_drain, fill, drain};
ghost use Rattle.piper_machine.specs.Scripted.{fill_from, drain_to};
ghost use Rattle.piper_machine.specs.BySteps.{IsWholeBySteps, without_failure};

use super::Machine;
use crate::calls::Call;
use crate::destination::{self, Destination};
use crate::polling::{Context, Luck};
use crate::scripted::{DestAct, SourceAct};
use crate::source::{self, Source};
use piper_protocol::answer::{Answer, Failed, Polled};
use piper_protocol::table::{Action, MOST_A_ROUND, ReadPoint, Side, WritePoint};

// A copy between the pipe and a slice cannot fail.
fn without_failure(copied: Polled<Result<usize, Failed>>) -> Polled<usize>
    ensures { result ≡ without_failure copied }
{
    match copied {
        Polled::Ready(Ok(count)) => Polled::Ready(count),
        Polled::Ready(Err(Failed)) => Polled::Ready(0),
        Polled::Pending => Polled::Pending,
        Polled::Memory => Polled::Memory,
    }
}

impl Machine {
    // A fill run whole, up to its answer: bytes of the caller's, and after them the acts of its
    // script, replace the source that an open call holds.
    fn fill_whole<'a>(
        &mut self,
        context: Option<Context>,
        mut bytes: &'a [u8],
        mut acts: &'a [SourceAct],
    ) -> Answer
        requires idle { self.old.writer ≡ WritePoint.Idle }
        requires woken { self.old.woken ≡ [] }
        ensures answer { let p = fill_opened context (unspent bytes.now acts.now) self.old in
            result ≡ (writer_alone p.writer p).answer }
        ensures after { let p = fill_opened context (unspent bytes.now acts.now) self.old in
            self.new ≡ (writer_alone p.writer p).pipe }
    {
        self.open_fill(context, Source::none(self.alloc));
        'steps: loop {
            let action = self.writer_next();
            let answer = if let Action::CallSource = action {
                let (front, rest, is_failing) = source::next(bytes, acts);
                let count = self.write_round(front);
                bytes = &front[count..];
                acts = rest;
                self.source_called(if is_failing { Err(Failed) } else { Ok(count) })
            } else {
                self.hear(Side::Writer, action);
                self.writer_goes(action)
            };
            match answer {
                Some(answer) => return answer,
                None => {}
            }
        }
    }

    // Copies the known bytes that are contiguous to the front of a slice, as many as fit and a
    // round may move.
    fn read_round(&self, dest: &mut [u8]) -> usize
        ensures count { result ≡ min (length dest.old) (round_count self.now) }
        ensures bytes { dest.new ≡ take result self.now.unread ++ drop result dest.old }
    {
        let lent = self.r_peek();
        let count = dest.len().min(lent.len().min(MOST_A_ROUND));
        dest[..count].copy_from_slice(&lent[..count]);
        count
    }

    // A drain to the caller's slice, up to its answer: what a call of the destination takes is
    // copied just before it.
    fn drain_slice(&mut self, context: Option<Context>, dest: &mut [u8]) -> Answer
        requires idle { self.old.reader ≡ ReadPoint.Idle }
        requires woken { self.old.woken ≡ [] }
        ensures answer { let p =
            drain_opened context (Destination.Slice (length dest.old)) self.old in
            result ≡ (reader_alone p.reader p).answer }
        ensures after { let p =
            drain_opened context (Destination.Slice (length dest.old)) self.old in
            self.new ≡ (reader_alone p.reader p).pipe }
        ensures bytes { let n = length self.old.unread - length self.new.unread in
            dest.new ≡ take n self.old.unread ++ drop n dest.old }
    {
        self.open_drain(context, Destination::Slice(dest.len()));
        let mut done = 0;
        'steps: loop {
            let action = self.reader_next();
            if let Action::CallDestination = action {
                done += self.read_round(&mut dest[done..]);
            }
            self.hear(Side::Reader, action);
            match self.reader_goes(action) {
                Some(answer) => return answer,
                None => {}
            }
        }
    }

    // A drain to the caller's script, up to its answer: its acts replace the destination that an
    // open call holds.
    fn drain_script(&mut self, context: Option<Context>, mut acts: &[DestAct]) -> Answer
        requires idle { self.old.reader ≡ ReadPoint.Idle }
        requires woken { self.old.woken ≡ [] }
        ensures answer { let p = drain_opened context (Destination.Acts acts.now) self.old in
            result ≡ (reader_alone p.reader p).answer }
        ensures after { let p = drain_opened context (Destination.Acts acts.now) self.old in
            self.new ≡ (reader_alone p.reader p).pipe }
    {
        self.open_drain(context, Destination::Slice(0));
        'steps: loop {
            let action = self.reader_next();
            let answer = if let Action::CallDestination = action {
                let most = self.peekable().min(MOST_A_ROUND);
                let (taken, rest) = destination::next(acts, most);
                acts = rest;
                self.destination_called(taken)
            } else {
                self.hear(Side::Reader, action);
                self.reader_goes(action)
            };
            match answer {
                Some(answer) => return answer,
                None => {}
            }
        }
    }

    /// Publishes as many of the first bytes as there is known room, and returns how many.
    ///
    /// Requires: the writer is idle.
    pub fn w_try_fill(&mut self, bytes: &[u8]) -> usize
        requires { self.old.writer ≡ WritePoint.Idle }
        ensures count { result ≡ count_of (try_fill bytes.now self.old).answer }
        ensures after { self.new ≡ (try_fill bytes.now self.old).pipe }
        ensures by_steps { IsWholeBySteps (Call.TryFill bytes.now) self.old }
    {
        self.begin_whole(Side::Writer);
        self.fill_whole(None, bytes, &[]).count()
    }

    /// Moves as many of the known bytes as fit to the front of `dest`, and returns how many.
    ///
    /// Requires: the reader is idle.
    pub fn r_try_drain(&mut self, dest: &mut [u8]) -> usize
        requires { self.old.reader ≡ ReadPoint.Idle }
        ensures count { result ≡ count_of (try_drain (length dest.old) self.old).answer }
        ensures within { result ≤ length dest.old }
        ensures bytes { dest.new ≡ take result self.old.unread ++ drop result dest.old }
        ensures after { self.new ≡ (try_drain (length dest.old) self.old).pipe }
        ensures by_steps { IsWholeBySteps (Call.TryDrain (length dest.old)) self.old }
    {
        self.begin_whole(Side::Reader);
        self.drain_slice(None, dest).count()
    }

    /// Publishes as many of the first bytes as there is known room, and returns how many: 0 of a
    /// closed pipe.
    ///
    /// Without room it waits as `poll` does. With room it yields where the draw is 0: the
    /// caller's own waker is called, the answer is pending, and no byte has moved. `Memory` is
    /// returned exactly where a registration or a yield is needed and not granted. Nothing stays
    /// lent, whatever is returned.
    ///
    /// Requires: the writer is idle, and the draw is below 100.
    pub fn w_poll_fill_bytes(&mut self, waker: u32, luck: Luck, bytes: &[u8]) -> Polled<usize>
        requires idle { self.old.writer ≡ WritePoint.Idle }
        requires draw { luck.draw < 100 }
        ensures answer { result ≡ (fill (Some (context waker luck)) bytes.now self.old).answer }
        ensures after { self.new ≡ (fill (Some (context waker luck)) bytes.now self.old).pipe }
        ensures by_steps { IsWholeBySteps (Call.PollFillBytes waker luck bytes.now) self.old }
    {
        self.begin_whole(Side::Writer);
        without_failure(
            self.fill_whole(Some(Context { waker, luck }), bytes, &[])
                .copied(),
        )
    }

    /// Moves as many of the known bytes as fit to the front of `dest`, and returns how many: 0 at
    /// the end of a closed pipe.
    ///
    /// Without a byte it waits as `poll` does. With one it yields where the draw is 0: the
    /// caller's own waker is called, the answer is pending, and no byte has moved. `Memory` is
    /// returned exactly where a registration or a yield is needed and not granted.
    ///
    /// Requires: the reader is idle, and the draw is below 100.
    pub fn r_poll_drain_bytes(&mut self, waker: u32, luck: Luck, dest: &mut [u8]) -> Polled<usize>
        requires idle { self.old.reader ≡ ReadPoint.Idle }
        requires draw { luck.draw < 100 }
        ensures answer { result
            ≡ (drain (Some (context waker luck)) (length dest.old) self.old).answer }
        ensures bytes { let n = count_of result in
            dest.new ≡ take n self.old.unread ++ drop n dest.old }
        ensures after { self.new
            ≡ (drain (Some (context waker luck)) (length dest.old) self.old).pipe }
        ensures by_steps { IsWholeBySteps
            (Call.PollDrainBytes waker luck (length dest.old)) self.old }
    {
        self.begin_whole(Side::Reader);
        without_failure(
            self.drain_slice(Some(Context { waker, luck }), dest)
                .copied(),
        )
    }

    /// Publishes what a scripted source gives, as far as there is known room, and returns how many
    /// bytes.
    ///
    /// It waits and yields as `w_poll_fill_bytes` does. The source's end is a failure, an act of no
    /// bytes, or the end of its script; a failure that is reached is returned, and what moved
    /// before it stays.
    ///
    /// Requires: the writer is idle, and the draw is below 100.
    pub fn w_poll_fill(
        &mut self,
        waker: u32,
        luck: Luck,
        acts: &[SourceAct],
    ) -> Polled<Result<usize, Failed>>
        requires idle { self.old.writer ≡ WritePoint.Idle }
        requires draw { luck.draw < 100 }
        ensures answer { result ≡ (fill_from (Some (context waker luck)) acts.now self.old).answer }
        ensures after { self.new ≡ (fill_from (Some (context waker luck)) acts.now self.old).pipe }
        ensures by_steps { IsWholeBySteps (Call.PollFill waker luck acts.now) self.old }
    {
        self.begin_whole(Side::Writer);
        self.fill_whole(Some(Context { waker, luck }), &[], acts)
            .copied()
    }

    /// Hands known bytes to a scripted destination, and returns how many it took.
    ///
    /// It waits and yields as `r_poll_drain_bytes` does. Each call of the destination is lent the
    /// known bytes that are contiguous, at most 131,072; one that takes none, and the end of the
    /// script, end the call. A failure is returned, and what was taken before it stays consumed.
    ///
    /// Requires: the reader is idle, and the draw is below 100.
    pub fn r_poll_drain(
        &mut self,
        waker: u32,
        luck: Luck,
        acts: &[DestAct],
    ) -> Polled<Result<usize, Failed>>
        requires idle { self.old.reader ≡ ReadPoint.Idle }
        requires draw { luck.draw < 100 }
        ensures answer { result ≡ (drain_to (Some (context waker luck)) acts.now self.old).answer }
        ensures after { self.new ≡ (drain_to (Some (context waker luck)) acts.now self.old).pipe }
        ensures by_steps { IsWholeBySteps (Call.PollDrain waker luck acts.now) self.old }
    {
        self.begin_whole(Side::Reader);
        self.drain_script(Some(Context { waker, luck }), acts)
            .copied()
    }
}
