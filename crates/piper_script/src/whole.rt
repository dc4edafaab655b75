//! Calls made whole: when a line may make one, and what it returns.

ghost use Rattle.std.specs.Prelude.{◌≡◌, ◌++◌, length, take, drop};
ghost use Rattle.piper_machine.specs.BySteps.{unfailing};
ghost use Rattle.piper_machine.specs.Refusal.{IsIdle};
ghost use Rattle.piper_script.specs.Whole.{IsReady, IsSilent, Makes, drained_by, room_for};

use piper_machine::calls::Call;
use piper_machine::machine::Machine;
use piper_machine::{Answer, Failed, Polled, Query, Side};

/// How many places the bytes need that the call moves out of the pipe.
pub fn room_for(call: &Call) -> usize
    ensures { result ≡ room_for call.now }
{
    match call {
        Call::TryDrain(most) | Call::PollDrainBytes(_, _, most) => *most,
        _ => 0,
    }
}

/// How many bytes a call moved out of the pipe to its caller, if it is one that does.
pub fn drained(call: &Call, answer: Answer) -> Option<usize> {
    match (call, answer) {
        (Call::TryDrain(_), Answer::Count(count)) => Some(count),
        (Call::PollDrainBytes(..), Answer::Copy(Polled::Ready(Ok(count)))) => Some(count),
        _ => None,
    }
}

// A copy over a slice never fails.
fn unfailing(polled: Polled<usize>) -> Polled<Result<usize, Failed>>
    ensures { result ≡ unfailing polled }
{
    match polled {
        Polled::Pending => Polled::Pending,
        Polled::Ready(count) => Polled::Ready(Ok(count)),
        Polled::Memory => Polled::Memory,
    }
}

/// Makes the call, and returns what it returns. Bytes that it moves out of the pipe go to the front
/// of `dest`.
pub fn answer(machine: &mut Machine, call: &Call, dest: &mut [u8]) -> Answer
    requires ready { IsReady call.now machine.old }
    requires room { length dest.old ≡ room_for call.now }
    ensures made { Makes call.now machine.old result machine.new }
    ensures bytes { let n = drained_by call.now result in
        dest.new ≡ take n machine.old.unread ++ drop n dest.old }
{
    match call {
        Call::Query(Side::Reader, query) => r_query(machine, *query),
        Call::Query(Side::Writer, query) => w_query(machine, *query),
        Call::IsClosed(Side::Reader) => Answer::Flag(machine.r_is_closed()),
        Call::IsClosed(Side::Writer) => Answer::Flag(machine.w_is_closed()),
        Call::Poll(Side::Reader, waker, luck) => Answer::Poll(machine.r_poll(*waker, *luck)),
        Call::Poll(Side::Writer, waker, luck) => Answer::Poll(machine.w_poll(*waker, *luck)),
        Call::WriteBuf(most) => Answer::Lent(machine.w_write_buf(*most)),
        Call::TryFill(bytes) => Answer::Count(machine.w_try_fill(bytes.as_slice())),
        Call::TryDrain(_) => Answer::Count(machine.r_try_drain(dest)),
        Call::PollFillBytes(waker, luck, bytes) => {
            let polled = machine.w_poll_fill_bytes(*waker, *luck, bytes.as_slice());
            Answer::Copy(unfailing(polled))
        }
        Call::PollDrainBytes(waker, luck, _) => {
            Answer::Copy(unfailing(machine.r_poll_drain_bytes(*waker, *luck, dest)))
        }
        Call::PollFill(waker, luck, acts) => {
            Answer::Copy(machine.w_poll_fill(*waker, *luck, acts.as_slice()))
        }
        Call::PollDrain(waker, luck, acts) => {
            Answer::Copy(machine.r_poll_drain(*waker, *luck, acts.as_slice()))
        }
        Call::Consume(_) | Call::Produced(_) | Call::Close | Call::Drop(_) => {
            make(machine, call);
            Answer::Done
        }
    }
}

// What a query of the reader returns.
fn r_query(machine: &mut Machine, query: Query) -> Answer
    requires { IsIdle Side.Reader machine.old }
    ensures { Makes (Call.Query Side.Reader query) machine.old result machine.new }
{
    match query {
        Query::Len => Answer::Count(machine.r_len()),
        Query::IsEmpty => Answer::Flag(machine.r_is_empty()),
        Query::IsFull => Answer::Flag(machine.r_is_full()),
    }
}

// What a query of the writer returns.
fn w_query(machine: &mut Machine, query: Query) -> Answer
    requires { IsIdle Side.Writer machine.old }
    ensures { Makes (Call.Query Side.Writer query) machine.old result machine.new }
{
    match query {
        Query::Len => Answer::Count(machine.w_len()),
        Query::IsEmpty => Answer::Flag(machine.w_is_empty()),
        Query::IsFull => Answer::Flag(machine.w_is_full()),
    }
}

// Makes a call that has nothing to answer.
fn make(machine: &mut Machine, call: &Call)
    requires { IsReady call.now machine.old }
    ensures { IsSilent call.now → Makes call.now machine.old Answer.Done machine.new }
{
    match call {
        Call::Consume(n) => machine.r_consume(*n),
        Call::Produced(n) => machine.w_produced(*n),
        Call::Close => machine.w_close(),
        Call::Drop(Side::Reader) => machine.r_drop(),
        Call::Drop(Side::Writer) => machine.w_drop(),
        _ => {}
    }
}
