//! The machine: what no contract says, that memory is granted, and that want of memory changes
//! nothing.
ghost use Rattle.std.specs.Prelude.{◌≡◌};
ghost use Rattle.piper_protocol.specs.Index.{IsCapacity};
ghost use Rattle.piper_machine.specs.Pipe.{fresh};

use crate::compare::same;
use piper_machine::Side;
use piper_machine::bytes::Bytes;
use piper_machine::calls::{Call, Step};
use piper_machine::events::{Event, Log};
use piper_machine::machine::{Machine, run};
use piper_machine::polling::Luck;
use piper_machine::refusals::{RunRefusal, StepRefusal};
use piper_machine::scripted::{ActList, SourceAct};
use piper_protocol::memory::OutOfMemory;
use std::alloc::Global;
use std::process::Abort;

/// Every clone is granted.
const GRANTED: Luck = Luck {
    draw: 1,
    register_granted: true,
    yield_granted: true,
};

/// Two bytes are lent and published, 7 and what was there before, and the first is consumed.
const PUBLISHED_AND_CONSUMED: [Step; 10] = [
    Step::Begin(Call::WriteBuf(2)),
    Step::Put(0, 7),
    Step::Begin(Call::Produced(2)),
    Step::Go(Side::Writer),
    Step::Go(Side::Writer),
    Step::Begin(Call::Poll(Side::Reader, 1, GRANTED)),
    Step::Go(Side::Reader),
    Step::Go(Side::Reader),
    Step::Begin(Call::Consume(1)),
    Step::Go(Side::Reader),
];

/// A source that gives two bytes and then fails.
fn failing_source(alloc: Global) -> Result<ActList<SourceAct>, OutOfMemory> {
    let mut script = ActList::new(alloc);
    script.push(SourceAct::Bytes(Bytes::copy_of(alloc, b"ab")?))?;
    script.push(SourceAct::Fail)?;
    Ok(script)
}

/// A fill from that source.
fn failing_fill(rt: &impl Abort, alloc: Global) -> Step {
    let source = failing_source(alloc).expect(rt, "a source");
    Step::Begin(Call::PollFill(6, GRANTED, source))
}

/// An empty pipe.
fn pipe_of(rt: &impl Abort, alloc: Global, capacity: usize) -> Machine
    requires { IsCapacity capacity }
    ensures { result ≡ fresh capacity }
{
    Machine::new(alloc, capacity).expect(rt, "a pipe")
}

/// Holds the unread bytes of a pipe against those that are wanted.
fn holds(rt: &impl Abort, pipe: &Machine, wanted: &[u8]) {
    let unread = pipe.unread().expect(rt, "its bytes");
    same(rt, unread.as_slice(), wanted);
}

/// A pipe of four places, and the log of its steps.
#[derive(Drop)]
struct Run {
    pipe: Machine,
    log: Log,
}

impl Run {
    fn new(rt: &impl Abort, alloc: Global) -> Run {
        Run {
            pipe: pipe_of(rt, alloc, 4),
            log: Log::new(alloc),
        }
    }

    /// The same. Where memory is refused, it is asked for again.
    fn at_last(rt: &impl Abort, alloc: Global) -> Run {
        let pipe = match Machine::new(alloc, 4) {
            Ok(pipe) => pipe,
            Err(_) => pipe_of(rt, alloc, 4),
        };
        Run {
            pipe,
            log: Log::new(alloc),
        }
    }

    /// Holds a run of `PUBLISHED_AND_CONSUMED` against what it leaves, and asks for no memory.
    fn has_consumed(&self, rt: &impl Abort) {
        same(rt, self.pipe.r_peek(), [0].as_slice());
        same(rt, self.log.events().len(), 10);
        assert!(rt;
            matches!(
                self.log.events(),
                [.., Event::Began(..), Event::Consumed(_)]
            )
        );
    }

    /// Makes the step.
    fn made(&mut self, rt: &impl Abort, step: &Step) {
        assert!(rt; self.pipe.step(step, &mut self.log).is_ok());
    }

    /// Makes the step. Where it is refused for want of memory, nothing has changed, and it is made
    /// again.
    fn made_at_last(&mut self, rt: &impl Abort, step: &Step) {
        let logged = self.log.events().len();
        let states = (self.pipe.r_state(), self.pipe.w_state());
        let shown = (self.pipe.r_peek().len(), self.pipe.w_lent().len());
        if let Err(refusal) = self.pipe.step(step, &mut self.log) {
            same(rt, refusal, StepRefusal::Memory);
            same(rt, self.log.events().len(), logged);
            same(rt, (self.pipe.r_state(), self.pipe.w_state()), states);
            same(
                rt,
                (self.pipe.r_peek().len(), self.pipe.w_lent().len()),
                shown,
            );
            self.made(rt, step);
        }
    }
}

#[test]
fn a_copy_refused_for_want_of_memory_can_be_opened_again(rt: HostRuntime) {
    let fill = failing_fill(&rt, rt.alloc());
    let mut run = Run::new(&rt, rt.alloc());
    run.made_at_last(&rt, &fill);
    for _ in 0..6 {
        run.made_at_last(&rt, &Step::Go(Side::Writer));
    }
    holds(&rt, &run.pipe, b"ab");
}

/// The run of those steps. If it is refused for want of memory, it is made again.
fn run_at_last(rt: &impl Abort, alloc: Global) -> Run {
    let (pipe, log) = match run(alloc, 4, &PUBLISHED_AND_CONSUMED) {
        Ok(ran) => ran,
        Err(refused) => {
            assert!(rt;
                matches!(
                    refused,
                    RunRefusal::NoMachine | RunRefusal::At(_, StepRefusal::Memory)
                )
            );
            run(alloc, 4, &PUBLISHED_AND_CONSUMED).expect(rt, "a second run")
        }
    };
    Run { pipe, log }
}

#[test]
fn a_run_refused_for_want_of_memory_can_be_made_again(rt: HostRuntime) {
    run_at_last(&rt, rt.alloc()).has_consumed(&rt);
}

#[test]
fn a_step_refused_for_want_of_memory_can_be_made_again(rt: HostRuntime) {
    let mut run = Run::at_last(&rt, rt.alloc());
    for step in &PUBLISHED_AND_CONSUMED {
        run.made_at_last(&rt, step);
    }
    run.has_consumed(&rt);
}
