//! A client that leaves both sides of a pipe pending, and proves of itself that one of them was
//! woken: a pipe is not empty and full at once.
ghost use Rattle.std.specs.Prelude.{IfOk, IsTrue};
ghost use Rattle.piper.specs.Handles.{ArePair, NotifiesReader, NotifiesWriter};
ghost use Rattle.piper.specs.Waits.{ReaderLeavesNone, WriterLeavesNone};
ghost use Rattle.example_order.specs.Sleepers.{FilledAndPolled, IsAwake};

use futures::task::{Context, Doorbell, Poll, Queue};
use piper::{Reader, Writer};
use std::alloc::AllocGlobal;
use std::io;
use std::random::RandomSource;
use std::sync::Wait;

/// Polls the reader of an empty pipe, fills the pipe, and polls the writer. Returns whether both
/// polls are pending.
#[tactic(auto, unfolding(piper::specs::ReaderCalls::LogsMeet))]
fn fill_while_pending(reader: &mut Reader, writer: &mut Writer, cx: &mut Context<'_>) -> bool
    requires pair { ArePair reader.old writer.old }
    requires nobody { ReaderLeavesNone reader.old × WriterLeavesNone writer.old }
    requires woken { NotifiesWriter reader.old × NotifiesReader writer.old }
    ensures awake { IsTrue result → IsAwake reader.new writer.new }
    ensures calls { IsTrue result → FilledAndPolled writer.old writer.new }
{
    let Poll::Pending = reader.poll(cx) else {
        return false;
    };
    writer.try_fill(b"more bytes than fit");
    let Poll::Pending = writer.poll(cx) else {
        return false;
    };
    reader.meet(writer);
    true
}

/// Leaves both sides of a pipe pending that nobody waited at before. Returns whether they are.
pub(crate) fn leave_pending<H>(rt: &H, reader: &mut Reader, writer: &mut Writer) -> io::Result<bool>
where
    H: Wait + RandomSource + AllocGlobal,
    requires pair { ArePair reader.old writer.old }
    requires nobody { ReaderLeavesNone reader.old × WriterLeavesNone writer.old }
    requires woken { NotifiesWriter reader.old × NotifiesReader writer.old }
    ensures awake { IfOk result (λ both. IsTrue both → IsAwake reader.new writer.new) }
    ensures calls { IfOk result (λ both. IsTrue both → FilledAndPolled writer.old writer.new) }
{
    let queue = Queue::new(rt, Doorbell::parking())?;
    queue.add()?.schedule();
    let Some(mut cx) = queue.next(rt) else {
        return Err(io::ErrorKind::OutOfMemory.into());
    };
    let both = fill_while_pending(reader, writer, &mut cx);
    cx.cancel();
    Ok(both)
}
