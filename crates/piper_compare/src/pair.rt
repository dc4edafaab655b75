//! Both handles of a pipe held by one thread, and who is woken by their calls.
ghost use Rattle.std.specs.Prelude.{◌≡◌, OnOk};

use crate::calls::{read_as_task, read_at_once, write_as_task, write_at_once};
use crate::draws::Draws;
use crate::halt::Halt;
use crate::tasks::Tasks;
use futures::test::MockTask;
use piper::{Reader, Writer, pipe_with_seed};
use piper_machine::calls::Call;
use piper_machine::polling::Context;
use piper_protocol::answer::{Answer, Polled};
use piper_protocol::table::Side;
use piper_script::command::{MOST, Refusal};
use piper_script::stop::Stop;
use std::alloc::{AllocError, AllocGlobal, Global};
use std::random::RandomSource;

/// The handles of a pipe, with tasks for each of them.
#[derive(Drop)]
pub struct Pair {
    reader: Option<Reader>,
    writer: Option<Writer>,
    reading: Tasks,
    writing: Tasks,
    /// What the reader draws next, and the writer.
    draws: [Draws; 2],
    /// How much is left of what the writer was lent last.
    lent: usize,
    alloc: Global,
}

impl Pair {
    /// An empty pipe. The handles draw as generators do that begin at the seed.
    pub fn new(rt: &impl AllocGlobal, capacity: usize, seed: u64) -> Result<Pair, Stop> {
        if capacity == 0 || capacity > MOST {
            return Err(Stop::Refused(Refusal::Limit));
        }
        let (reader, writer) = pipe_with_seed(rt.alloc(), capacity, seed)?;
        Ok(Pair {
            reader: Some(reader),
            writer: Some(writer),
            reading: Tasks::new(rt.alloc()),
            writing: Tasks::new(rt.alloc()),
            draws: [Draws::new(seed), Draws::new(seed ^ 1)],
            lent: 0,
            alloc: rt.alloc(),
        })
    }

    pub fn is_dropped(&self, side: Side) -> bool {
        match side {
            Side::Reader => self.reader.is_none(),
            Side::Writer => self.writer.is_none(),
        }
    }

    /// The number that a copy of this side draws next.
    pub fn next_draw(&self, side: Side) -> u32 {
        match side {
            Side::Reader => self.draws[0].next(),
            Side::Writer => self.draws[1].next(),
        }
    }

    /// The bytes that the reader knows of and that are contiguous.
    pub fn peek(&mut self) -> Result<&[u8], Halt> {
        let Some(reader) = &mut self.reader else {
            return Err(Halt::OnlyMachine);
        };
        Ok(reader.peek_buf())
    }

    /// Writes a byte at this offset of what is lent.
    pub fn put(&mut self, offset: usize, byte: u8) -> Result<(), Halt> {
        let Some(writer) = &mut self.writer else {
            return Err(Refusal::Dropped.into());
        };
        if offset >= self.lent {
            return Err(Refusal::PastLent.into());
        }
        // What is lent is lent again: the same places, with what is there.
        let places = writer.write_buf(self.lent);
        if let Some(place) = places.get_mut(offset) {
            *place = byte;
        }
        Ok(())
    }

    /// Makes the call, and adds the names of the wakers that it called.
    pub fn make(
        &mut self,
        rt: &(impl RandomSource + AllocGlobal),
        call: &Call,
        dest: &mut [u8],
        woken: &mut Vec<u32>,
    ) -> Result<Answer, Halt> {
        if self.is_dropped(call.side()) {
            return Err(Refusal::Dropped.into());
        }
        if !call.has_good_draw() {
            return Err(Refusal::BadDraw.into());
        }
        let draws = self.will_draw(call);
        let answer = match (call.context(), call) {
            (Some(context), _) => self.as_task(rt, context, call, dest)?,
            (None, Call::Close) => self.close(rt)?,
            (None, Call::Drop(side)) => self.drop_side(*side),
            (None, _) => self.at_once(call, dest)?,
        };
        if draws {
            self.pass(call.side());
        }
        let dropped = self.let_go(call, answer, draws);
        self.take_woken(call, answer, dropped, woken)?;
        Ok(answer)
    }

    fn drop_side(&mut self, side: Side) -> Answer {
        match side {
            Side::Reader => self.reader = None,
            Side::Writer => {
                self.writer = None;
                self.lent = 0;
            }
        }
        Answer::Done
    }

    fn close(&mut self, rt: &(impl RandomSource + AllocGlobal)) -> Result<Answer, Halt>
        ensures { OnOk result (self.new.lent ≡ 0) }
    {
        let Some(writer) = &mut self.writer else {
            return Err(Refusal::Dropped.into());
        };
        let task = MockTask::new(rt).map_err(|_| Stop::Memory)?;
        task.enter(|cx| writer.poll_close(cx));
        self.lent = 0;
        Ok(Answer::Done)
    }

    fn at_once(&mut self, call: &Call, dest: &mut [u8]) -> Result<Answer, Halt> {
        match (call.side(), &mut self.reader, &mut self.writer) {
            (Side::Reader, Some(reader), _) => read_at_once(reader, call, dest),
            (Side::Writer, _, Some(writer)) => write_at_once(writer, &mut self.lent, call),
            _ => Err(Refusal::Dropped.into()),
        }
    }

    fn as_task(
        &mut self,
        rt: &(impl RandomSource + AllocGlobal),
        context: Context,
        call: &Call,
        dest: &mut [u8],
    ) -> Result<Answer, Halt> {
        self.steer(rt, context.luck.draw == 0, call)?;
        Ok(match (call.side(), &mut self.reader, &mut self.writer) {
            (Side::Reader, Some(reader), _) => {
                let task = self.reading.of(rt, context.waker)?;
                read_as_task(reader, task, call, dest)?
            }
            (Side::Writer, _, Some(writer)) => {
                let task = self.writing.of(rt, context.waker)?;
                write_as_task(writer, &mut self.lent, task, call)?
            }
            _ => return Err(Refusal::Dropped.into()),
        })
    }

    // Whether the call will draw: a copy does whose look finds something.
    fn will_draw(&mut self, call: &Call) -> bool {
        match call {
            Call::PollFillBytes(..) | Call::PollFill(..) => match &mut self.writer {
                Some(writer) => !writer.is_closed() && !writer.is_full(),
                None => false,
            },
            Call::PollDrainBytes(..) | Call::PollDrain(..) => match &mut self.reader {
                Some(reader) => !reader.is_empty(),
                None => false,
            },
            _ => false,
        }
    }

    fn pass(&mut self, side: Side) {
        match side {
            Side::Reader => self.draws[0].pass(),
            Side::Writer => self.draws[1].pass(),
        }
    }

    // Copies of no byte, until the handle draws next what the line says. They are of a task of
    // their own, whose wakes nobody asks for.
    fn steer(
        &mut self,
        rt: &(impl RandomSource + AllocGlobal),
        yields: bool,
        call: &Call,
    ) -> Result<(), Stop> {
        let task = MockTask::new(rt).map_err(|_| Stop::Memory)?;
        for _ in 0..u64::MAX {
            if (self.next_draw(call.side()) == 0) == yields || !self.will_draw(call) {
                break;
            }
            self.draw_as(&task, call.side());
            self.pass(call.side());
        }
        Ok(())
    }

    // A copy of no byte out of the pipe, or into it.
    fn draw_as(&mut self, task: &MockTask, side: Side) {
        match (side, &mut self.reader, &mut self.writer) {
            (Side::Reader, Some(reader), _) => {
                task.enter(|cx| reader.poll_drain_bytes(cx, &mut []));
            }
            (Side::Writer, _, Some(writer)) => {
                task.enter(|cx| writer.poll_fill_bytes(cx, &[]));
            }
            _ => {}
        }
    }

    // Keeps whose waker is in the slot of the call's side after it, and returns whose it dropped
    // without a call. A polling call that found something to do empties the slot, and one that did
    // not registers there; but a writer that finds the pipe closed leaves the slot as it is, and so
    // does the drop of a side, unless it frees the pipe.
    fn let_go(&mut self, call: &Call, answer: Answer, draws: bool) -> Option<u32> {
        let side = call.side();
        let is_freed = self.reader.is_none() && self.writer.is_none();
        let tasks = self.tasks_of(side);
        match call.context() {
            Some(_) if draws || matches!(answer, Answer::Poll(Polled::Ready(true))) => {
                tasks.unregister()
            }
            Some(context) if is_pending(answer) || side == Side::Reader => {
                tasks.register(context.waker)
            }
            None if is_freed => tasks.unregister(),
            None if matches!(call, Call::Close) => {
                tasks.unregister();
                None
            }
            _ => None,
        }
    }

    fn tasks_of(&mut self, side: Side) -> &mut Tasks {
        match side {
            Side::Reader => &mut self.reading,
            Side::Writer => &mut self.writing,
        }
    }

    // Adds whom the call woke, the reader's tasks first. A waker of the other side that was called
    // is in its slot no more.
    fn take_woken(
        &mut self,
        call: &Call,
        answer: Answer,
        dropped: Option<u32>,
        woken: &mut Vec<u32>,
    ) -> Result<(), AllocError> {
        let mut own = Vec::new(self.alloc);
        match call.side() {
            Side::Reader => {
                self.reading.take_woken(&mut own)?;
                add_called(call, answer, dropped, &own, woken)?;
                self.writing.take_called(woken)
            }
            Side::Writer => {
                self.reading.take_called(woken)?;
                self.writing.take_woken(&mut own)?;
                add_called(call, answer, dropped, &own, woken)
            }
        }
    }
}

// Adds those of the call's own side that were woken, except the one whose waker the call only
// dropped: that also wakes its task.
fn add_called(
    call: &Call,
    answer: Answer,
    dropped: Option<u32>,
    own: &[u32],
    woken: &mut Vec<u32>,
) -> Result<(), AllocError> {
    for name in own {
        if dropped != Some(*name) || is_called(call, answer, *name) {
            woken.push(*name)?;
        }
    }
    Ok(())
}

// A polling call that is pending calls no waker of its own side but its own.
fn is_called(call: &Call, answer: Answer, name: u32) -> bool {
    match call.context() {
        Some(context) => context.waker == name && is_pending(answer),
        None => false,
    }
}

fn is_pending(answer: Answer) -> bool {
    matches!(
        answer,
        Answer::Poll(Polled::Pending) | Answer::Copy(Polled::Pending)
    )
}
