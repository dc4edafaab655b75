//! What threads poll that sleep until they are woken.
ghost use Rattle.std.specs.Prelude.{◌<◌, length, IfErr, ⊤};
ghost use Rattle.futures.specs.Poll.{IfReady, OnPending};
ghost use Rattle.futures.specs.Task.{Covers, IsArmed, Keeps};
ghost use Rattle.piper_lines.specs.LineReader.{reader_of};
ghost use Rattle.piper_duplex.specs.Client.{PrintPends, WasInterrupted};
ghost use Rattle.piper_duplex.specs.Failures.{LacksMemory};

use crate::engine::echoing::{Echoed, LineEcho};
use crate::engine::lost::wanted;
use crate::engine::session::Ended;
use futures::Future;
use futures::task::{Context, Doorbell, Poll, Queue};
use piper::PipeError;
use piper::io::{AsyncBufRead, AsyncWrite};
use piper::like::StdWriter;
use piper_lines::Lines;
use std::alloc::{AllocGlobal, Global};
use std::random::RandomSource;
use std::sync::Wait;

/// The most bytes of a line, with its LF; a longer one is cut.
pub(crate) const MOST_OF_A_LINE: usize = 65_536;

/// The turns of a thread at a call that may be pending. It gets the first at once, and each later
/// one when the waker was called that its last turn left.
#[derive(Drop)]
pub(crate) struct Turns {
    queue: Queue,
}

/// The right to a turn: it is the first one, or the one before has ended and waits. So no thread
/// spins.
#[derive(Drop)]
pub(crate) struct Still(());

impl Turns {
    pub(crate) fn new(rt: &(impl RandomSource + AllocGlobal)) -> Result<(Turns, Still), Ended>
        ensures { IfErr result LacksMemory }
    {
        let queue = wanted(Queue::new(rt, Doorbell::parking()))?;
        wanted(queue.add())?.schedule();
        Ok((Turns { queue }, Still(())))
    }

    /// Sleeps until the next turn.
    pub(crate) fn next(&self, rt: &impl Wait, _still: Still) -> Result<Context<'_>, Ended>
        ensures { IfErr result LacksMemory }
    {
        wanted(self.queue.next(rt).ok_or(()))
    }
}

/// Ends a turn of a writer, which is why it is pending.
pub(crate) fn end_sending<W, T>(cx: Context<'_>, turn: &Poll<T>, _writer: &W) -> Still
where
    W: AsyncWrite,
    requires armed { OnPending turn.now (IsArmed cx) }
    requires waits { OnPending turn.now (W.waits _writer.now cx) }
{
    cx.end(turn);
    Still(())
}

/// Ends a turn of a reader, from which so many bytes were printed to the output. If it is
/// pending the reader is; or it asked for another turn itself, after 64 bytes at least or a write
/// that was interrupted.
pub(crate) fn end_printing<A, O, T>(
    cx: Context<'_>,
    turn: &Poll<T>,
    _reader: &A,
    _output: &O,
    _printed: usize,
) -> Still
where
    A: AsyncBufRead,
    O: StdWriter,
    requires armed { OnPending turn.now (IsArmed cx) }
    requires waits { OnPending turn.now (PrintPends (A.waits _reader.now cx)
        (WasInterrupted O.fails _output.now) 0 _printed cx) }
{
    cx.end(turn);
    Still(())
}

/// Writes lines back until the reader's end, the close of the writer's pipe, or the first error.
#[derive(Drop)]
pub(crate) struct EchoAll<R, W> {
    lines: Lines<R>,
    writer: W,
    echo: LineEcho,
}

impl<R: AsyncBufRead + Drop, W: AsyncWrite + Drop> EchoAll<R, W> {
    pub(crate) fn new(alloc: Global, reader: R, writer: W) -> EchoAll<R, W> {
        EchoAll {
            lines: Lines::new(alloc, reader),
            writer,
            echo: LineEcho::new(alloc),
        }
    }
}

impl<R: AsyncBufRead + Drop, W: AsyncWrite + Drop> Future for EchoAll<R, W> {
    ghost use Rattle.piper_duplex.specs.EchoAll.{EchoesAll};
    ghost use Rattle.piper_duplex.specs.Echoes.{EchoPends, WaitsFor, left_of};

    type Output = Result<Echoed, PipeError>;

    ghost gives = { EchoesAll R.taken R.known R.saw R.ended R.fails W.sent W.saw W.fails };

    ghost needs = { λ future. WaitsFor (R.needs (reader_of future.lines)) (W.needs future.writer)
        (left_of future.echo) };

    fn poll(&mut self, cx: &mut Context<'_>) -> Poll<Result<Echoed, PipeError>>
        ensures value { IfReady result
            (EchoesAll R.taken R.known R.saw R.ended R.fails W.sent W.saw W.fails self.old) }
        ensures again { OnPending result ⊤ }
        ensures same { OnPending result ((x : _) →
            EchoesAll R.taken R.known R.saw R.ended R.fails W.sent W.saw W.fails self.new x
            → EchoesAll R.taken R.known R.saw R.ended R.fails W.sent W.saw W.fails self.old x) }
        ensures registered { OnPending result (Covers cx.new
            (WaitsFor (R.needs (reader_of self.new.lines)) (W.needs self.new.writer)
            (left_of self.new.echo))) }
        ensures waits { OnPending result (EchoPends R.known R.knows_end R.waits
            (reader_of self.new.lines) (W.waits self.new.writer cx.new)
            (left_of self.new.echo) (W.saw self.old.writer)
            (length (R.taken (reader_of self.old.lines))
            < length (R.taken (reader_of self.new.lines))) cx.new) }
        ensures kept { Keeps cx.old cx.new }
    {
        self.echo
            .poll(cx, &mut self.lines, &mut self.writer, MOST_OF_A_LINE)
    }
}
