//! The calls of both handles.

use crate::ends::{Destination, Source};
use crate::halt::Halt;
use futures::task::Poll;
use futures::test::MockTask;
use piper::{CopyError, OutOfMemory, PipeError, Reader, Writer};
use piper_machine::calls::Call;
use piper_protocol::answer::{Answer, Failed, Polled};
use piper_protocol::table::Query;
use piper_script::command::Refusal;

/// Makes a call of the reader without a waker, and returns what it returns. Bytes that it takes go to
/// the front of `dest`.
pub fn read_at_once(reader: &mut Reader, call: &Call, dest: &mut [u8]) -> Result<Answer, Halt> {
    Ok(match call {
        Call::Query(_, Query::Len) => Answer::Count(reader.len()),
        Call::Query(_, Query::IsEmpty) => Answer::Flag(reader.is_empty()),
        Call::Query(_, Query::IsFull) => Answer::Flag(reader.is_full()),
        Call::IsClosed(_) => Answer::Flag(reader.is_closed()),
        Call::TryDrain(_) => Answer::Count(reader.try_drain(dest)),
        Call::Consume(n) => {
            if *n > reader.peek_buf().len() {
                return Err(Refusal::PastPeek.into());
            }
            reader.consume(*n);
            Answer::Done
        }
        _ => return Err(Halt::OnlyMachine),
    })
}

/// Makes a call of the reader as this task, and returns what it returns. Bytes that it takes go to
/// the front of `dest`.
pub fn read_as_task(
    reader: &mut Reader,
    task: &MockTask,
    call: &Call,
    dest: &mut [u8],
) -> Result<Answer, Halt> {
    Ok(match call {
        Call::Poll(..) => Answer::Poll(reported(task.enter(|cx| reader.poll(cx)))),
        Call::PollDrainBytes(..) => {
            let polled = task.enter(|cx| reader.poll_drain_bytes(cx, dest));
            Answer::Copy(copied_slice(polled))
        }
        Call::PollDrain(waker, _, acts) if waker % 2 == 0 => {
            let mut dest = Destination::new(acts.as_slice());
            Answer::Copy(copied(task.enter(|cx| reader.poll_drain(cx, &mut dest))))
        }
        Call::PollDrain(_, _, acts) => {
            let mut dest = Destination::new(acts.as_slice());
            let polled = task.enter(|cx| reader.poll_drain_with(cx, &mut dest));
            Answer::Copy(copied_like(polled))
        }
        _ => return Err(Halt::OnlyMachine),
    })
}

/// Makes a call of the writer without a waker, and returns what it returns. `lent` is how much is
/// left of what is lent.
pub fn write_at_once(writer: &mut Writer, lent: &mut usize, call: &Call) -> Result<Answer, Halt> {
    Ok(match call {
        Call::Query(_, Query::Len) => Answer::Count(writer.len()),
        Call::Query(_, Query::IsEmpty) => Answer::Flag(writer.is_empty()),
        Call::Query(_, Query::IsFull) => Answer::Flag(writer.is_full()),
        Call::IsClosed(_) => Answer::Flag(writer.is_closed()),
        Call::TryFill(bytes) => {
            *lent = 0;
            Answer::Count(writer.try_fill(bytes.as_slice()))
        }
        Call::WriteBuf(most) => {
            *lent = writer.write_buf(*most).len();
            Answer::Lent(*lent)
        }
        Call::Produced(n) => {
            // What is left of it is lent again: the same places, with what is there.
            let left = writer.write_buf(*lent).len();
            if *n > left {
                return Err(Refusal::PastLent.into());
            }
            writer.produced(*n);
            *lent = left - *n;
            Answer::Done
        }
        _ => return Err(Halt::OnlyMachine),
    })
}

/// Makes a call of the writer as this task, and returns what it returns.
pub fn write_as_task(
    writer: &mut Writer,
    lent: &mut usize,
    task: &MockTask,
    call: &Call,
) -> Result<Answer, Halt> {
    if let Call::Poll(..) = call {
        return Ok(Answer::Poll(reported(task.enter(|cx| writer.poll(cx)))));
    }
    *lent = 0;
    Ok(Answer::Copy(match call {
        Call::PollFillBytes(_, _, bytes) => {
            copied_slice(task.enter(|cx| writer.poll_fill_bytes(cx, bytes.as_slice())))
        }
        Call::PollFill(waker, _, acts) if waker % 2 == 0 => {
            let mut source = Source::new(acts.as_slice());
            copied(task.enter(|cx| writer.poll_fill(cx, &mut source)))
        }
        Call::PollFill(_, _, acts) => {
            let mut source = Source::new(acts.as_slice());
            copied_like(task.enter(|cx| writer.poll_fill_with(cx, &mut source)))
        }
        _ => return Err(Halt::OnlyMachine),
    }))
}

/// What a poll returns.
pub fn reported(polled: Poll<Result<bool, OutOfMemory>>) -> Polled<bool> {
    match polled {
        Poll::Pending => Polled::Pending,
        Poll::Ready(Ok(found)) => Polled::Ready(found),
        Poll::Ready(Err(OutOfMemory)) => Polled::Memory,
    }
}

/// What a copy over a slice returns.
pub fn copied_slice(polled: Poll<Result<usize, OutOfMemory>>) -> Polled<Result<usize, Failed>> {
    match polled {
        Poll::Pending => Polled::Pending,
        Poll::Ready(Ok(count)) => Polled::Ready(Ok(count)),
        Poll::Ready(Err(OutOfMemory)) => Polled::Memory,
    }
}

/// What a copy over a reader or a writer returns.
pub fn copied(polled: Poll<Result<usize, PipeError>>) -> Polled<Result<usize, Failed>> {
    match polled {
        Poll::Pending => Polled::Pending,
        Poll::Ready(Ok(count)) => Polled::Ready(Ok(count)),
        Poll::Ready(Err(PipeError::Io(_))) => Polled::Ready(Err(Failed)),
        Poll::Ready(Err(PipeError::Memory)) => Polled::Memory,
    }
}

/// What a copy over a source or a destination returns.
pub fn copied_like(
    polled: Poll<Result<usize, CopyError<Failed>>>,
) -> Polled<Result<usize, Failed>> {
    match polled {
        Poll::Pending => Polled::Pending,
        Poll::Ready(Ok(count)) => Polled::Ready(Ok(count)),
        Poll::Ready(Err(CopyError::Like(Failed))) => Polled::Ready(Err(Failed)),
        Poll::Ready(Err(CopyError::Memory)) => Polled::Memory,
    }
}
