//! The opening of calls.
ghost use Rattle.std.specs.Prelude.{◌≡◌, OnOk, OnErr, IfOk, IfErr};
ghost use Rattle.piper_protocol.specs.Reported.{HasFailed};
ghost use Rattle.piper_machine.specs.Call.{side_of};
ghost use Rattle.piper_machine.specs.Log.{events};
ghost use Rattle.piper_machine.specs.Round.{destination_of, source_of};
ghost use Rattle.piper_machine.specs.Step.{opened, query_opened, is_closed_opened, poll_opened, drop_opened, drain_opened, fill_opened, form_of, answer_at_once, MayLend};
ghost use Rattle.piper_machine.specs.Refusal.{past, IsIdle};
ghost use Rattle.piper_machine.specs.Sound.{IsSound};
ghost use Rattle.piper_machine.specs.Run.{IsStepped, MemoryIsRefused};

use super::Machine;
use crate::calls::{Call, OpenCall, Step};
use crate::destination::{Acts, Destination};
use crate::events::{Event, Log, answered};
use crate::polling::Context;
use crate::refusals::StepRefusal;
use crate::source::Source;
use piper_protocol::answer::Answer;
use piper_protocol::memory::OutOfMemory;
use piper_protocol::table::{
    AfterRead, AfterWrite, Form, Purpose, Query, ReadPoint, Side, WritePoint,
};
use std::mem;

// In which form a copying call is made.
fn form(context: Option<Context>) -> Form
    ensures { result ≡ form_of context }
{
    match context {
        Some(cx) => Form::Polling {
            is_drawn: cx.luck.draw == 0,
        },
        None => Form::Try,
    }
}

impl Machine {
    // A copy of what the call's destination takes.
    fn destination_of(&self, call: &Call) -> Result<Destination, OutOfMemory>
        ensures destination { IfOk result (λ destination. destination ≡ destination_of call.now) }
        ensures refused { IfErr result HasFailed }
    {
        Ok(match call {
            Call::TryDrain(size) | Call::PollDrainBytes(_, _, size) => Destination::Slice(*size),
            Call::PollDrain(_, _, script) => Destination::Acts(Acts::of(
                self.alloc,
                script.as_slice(),
            )?),
            _ => Destination::Slice(0),
        })
    }

    // A copy of what the call's source gives.
    fn source_of(&self, call: &Call) -> Result<Source, OutOfMemory>
        ensures source { IfOk result (λ source. source ≡ source_of call.now) }
        ensures refused { IfErr result HasFailed }
    {
        match call {
            Call::TryFill(bytes) | Call::PollFillBytes(_, _, bytes) => Source::of_bytes(
                self.alloc,
                bytes.as_slice(),
            ),
            Call::PollFill(_, _, script) => Source::of_acts(self.alloc, script.as_slice()),
            _ => Ok(Source::none(self.alloc)),
        }
    }

    // Opens a call of a side that is idle, and returns at once where the call makes no step.
    pub(super) fn open(
        &mut self,
        call: &Call,
        destination: &mut Destination,
        source: &mut Source,
    ) -> Option<Answer>
        requires idle { IsIdle (side_of call.now) self.old }
        requires within { past call.now self.old ≡ None }
        requires destination { destination.old ≡ destination_of call.now }
        requires source { source.old ≡ source_of call.now }
        ensures after { self.new ≡ opened self.new.lent call.now self.old }
        ensures answer { result ≡ answer_at_once self.new.lent call.now }
        ensures lent { MayLend self.new.lent (Step.Begin call.now) self.old }
    {
        let alloc = self.alloc;
        let context = call.context();
        match *call {
            Call::Query(side, query) => self.open_query(side, query),
            Call::IsClosed(side) => self.open_is_closed(side),
            Call::Poll(side, waker, luck) => self.open_poll(side, Context { waker, luck }),
            Call::TryDrain(_) | Call::PollDrainBytes(..) | Call::PollDrain(..) => self.open_drain(
                context,
                mem::replace(destination, Destination::Slice(0)),
            ),
            Call::Consume(n) => self.read.begin(ReadPoint::StoreHead(n, AfterRead::Answer)),
            Call::TryFill(_) | Call::PollFillBytes(..) | Call::PollFill(..) => self.open_fill(
                context,
                mem::replace(source, Source::none(alloc)),
            ),
            Call::WriteBuf(most) => return Some(Answer::Lent(self.lend(most))),
            Call::Produced(n) => self
                .write
                .begin(WritePoint::StoreTail(n, AfterWrite::Answer)),
            Call::Close => self
                .write
                .begin(WritePoint::StoreClosed(AfterWrite::WakeWriter)),
            Call::Drop(side) => self.open_drop(side),
        }
        None
    }

    pub(super) fn open_drain(&mut self, context: Option<Context>, destination: Destination)
        requires { self.old.reader ≡ ReadPoint.Idle }
        ensures after { self.new ≡ drain_opened context destination self.old }
        ensures sound { IsSound self.old }
    {
        self.read.begin_look(Purpose::Copy(form(context)));
        self.reader_call = OpenCall {
            context,
            taken: None,
        };
        self.destination = destination;
    }

    pub(super) fn open_fill(&mut self, context: Option<Context>, source: Source)
        requires { self.old.writer ≡ WritePoint.Idle }
        ensures after { self.new ≡ fill_opened context source self.old }
        ensures sound { IsSound self.old }
    {
        self.write
            .begin(WritePoint::LookClosed(Purpose::Copy(form(context))));
        self.writer_call = OpenCall {
            context,
            taken: None,
        };
        self.source = source;
    }

    fn open_query(&mut self, side: Side, query: Query)
        requires { IsIdle side self.old }
        ensures { self.new ≡ query_opened side query self.old }
    {
        match side {
            Side::Reader => self.read.begin(ReadPoint::QueryHead(query)),
            Side::Writer => self.write.begin(WritePoint::QueryHead(query)),
        }
    }

    fn open_is_closed(&mut self, side: Side)
        requires { IsIdle side self.old }
        ensures { self.new ≡ is_closed_opened side self.old }
    {
        match side {
            Side::Reader => self.read.begin(ReadPoint::QueryClosed),
            Side::Writer => self.write.begin(WritePoint::QueryClosed),
        }
    }

    fn open_poll(&mut self, side: Side, context: Context)
        requires { IsIdle side self.old }
        ensures { self.new ≡ poll_opened side context self.old }
    {
        let call = OpenCall {
            context: Some(context),
            taken: None,
        };
        match side {
            Side::Reader => {
                self.read.begin_look(Purpose::Poll);
                self.reader_call = call;
            }
            Side::Writer => {
                self.write.begin(WritePoint::LookClosed(Purpose::Poll));
                self.writer_call = call;
            }
        }
    }

    fn open_drop(&mut self, side: Side)
        requires { IsIdle side self.old }
        ensures { self.new ≡ drop_opened side self.old }
    {
        match side {
            Side::Reader => self.read.begin(ReadPoint::StoreClosed),
            Side::Writer => self.write.begin(WritePoint::StoreClosed(AfterWrite::Drop)),
        }
    }

    // Opens a call and logs it.
    pub(super) fn begin(&mut self, call: &Call, log: &mut Log) -> Result<(), StepRefusal>
        requires idle { IsIdle (side_of call.now) self.old }
        requires within { past call.now self.old ≡ None }
        ensures ok { OnOk result
            (IsStepped self.old (Step.Begin call.now) self.new (events log.old) (events log.new)) }
        ensures same { OnErr result (self.new ≡ self.old) }
        ensures same_log { OnErr result (events log.new ≡ events log.old) }
        ensures memory { IfErr result (λ refusal. refusal ≡ StepRefusal.Memory) }
        ensures refused { OnErr result MemoryIsRefused }
    {
        let mut destination = self.destination_of(call).map_err(|_| StepRefusal::Memory)?;
        let mut source = self.source_of(call).map_err(|_| StepRefusal::Memory)?;
        log.reserve().map_err(|_| StepRefusal::Memory)?;
        let answer = self.open(call, &mut destination, &mut source);
        let began = Event::Began(call.side(), call.kind(), call.waker());
        log.add(Some(began), answered(call.side(), answer));
        Ok(())
    }
}
