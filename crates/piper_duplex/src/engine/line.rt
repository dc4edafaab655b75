//! A line on its way: it is sent, comes back, and is printed before the next one is sent.
ghost use Rattle.std.specs.Prelude.{◌≡◌, ◌+◌, ◌-◌, ◌<◌, ◌≤◌, drop, take, length, true, false};
ghost use Rattle.std.specs.Prelude.{OnOk, IfErr};
ghost use Rattle.futures.specs.Poll.{IfReady};
ghost use Rattle.piper.specs.Polls.{IfReadyErr};
ghost use Rattle.piper_lines.specs.Sends.{Sends};
ghost use Rattle.piper_duplex.specs.Client.{IsOfLine, Prints};
ghost use Rattle.piper_duplex.specs.Failures.{LacksMemory, PrintFails, WriteHasFailed};

use crate::engine::lost::{unread, write_refused};
use crate::engine::printing::print_line;
use crate::engine::session::Ended;
use crate::engine::waiting::{MOST_OF_A_LINE, Still, Turns, end_sending};
use futures::task::{Context, Poll};
use memchr::memchr;
use piper::io::{AsyncBufRead, AsyncWrite};
use piper::like::StdWriter;
use piper_lines::{Written, poll_write_all};
use std::alloc::AllocGlobal;
use std::random::RandomSource;
use std::sync::Wait;

/// The line that is sent, or that comes back. The next one is sent once this one is printed.
#[derive(Drop)]
pub(crate) struct Line {
    /// How many of its bytes were sent.
    sent: usize,
    /// Whether these are all of it.
    is_whole: bool,
    ghost room: { is_whole ≡ false → sent < 65_536 },
}

/// The next bytes of a line.
#[derive(Clone, Copy)]
struct Piece {
    count: usize,
    /// Whether the line ends with them.
    is_last: bool,
}

impl Line {
    // No byte of it was sent yet.
    pub(crate) fn new() -> Line
        ensures sent { result.sent ≡ 0 }
        ensures whole { result.is_whole ≡ false }
    {
        Line {
            sent: 0,
            is_whole: false,
        }
    }

    // How many of its bytes were sent.
    pub(crate) fn sent(&self) -> usize
        ensures { result ≡ self.now.sent }
    {
        self.sent
    }

    // Whether all of it was sent.
    pub(crate) fn is_whole(&self) -> bool
        ensures { result ≡ self.now.is_whole }
    {
        self.is_whole
    }

    // Sends what comes next of the line: the bytes from `at` on through the first LF, and at most
    // so many that the line has 65,536. The line before it was printed and flushed.
    pub(crate) fn send<R, W, O>(
        &mut self,
        rt: &R,
        writer: &mut W,
        bytes: &[u8],
        at: &mut usize,
        output: &O,
    ) -> Result<(), Ended>
    where
        R: Wait + RandomSource + AllocGlobal,
        W: AsyncWrite,
        O: StdWriter,
        requires printed { self.old.is_whole ≡ false }
        requires flushed { O.flushed output.now }
        requires some { at.old < length bytes.now }
        ensures within { at.new ≤ length bytes.now }
        ensures sends { Sends (drop at.old bytes.now) (drop at.new bytes.now)
            (W.sent writer.old) (W.sent writer.new) (W.saw writer.old) (W.saw writer.new) }
        ensures stays { W.saw writer.old ≡ true → W.saw writer.new ≡ true }
        ensures some { OnOk result (at.old < at.new) }
        ensures counted { OnOk result (self.new.sent + at.old ≡ self.old.sent + at.new) }
        ensures line { OnOk result (IsOfLine self.new.is_whole (self.new.sent ≡ 65_536)
            (take (at.new - at.old) (drop at.old bytes.now))) }
        ensures failed { IfErr result LacksMemory }
    {
        let _flushed = output;
        let piece = Piece::first(&bytes[*at..], MOST_OF_A_LINE - self.sent);
        send(rt, writer, &bytes[..*at + piece.count], at)?;
        self.sent += piece.count;
        self.is_whole = piece.is_last;
        Ok(())
    }

    // Prints and flushes the line, once it comes back.
    pub(crate) fn print<R, A, O>(
        &mut self,
        rt: &R,
        reader: &mut A,
        output: &mut O,
    ) -> Result<(), Ended>
    where
        R: Wait + RandomSource + AllocGlobal,
        A: AsyncBufRead,
        O: StdWriter,
        ensures printed { Prints (A.taken reader.old) (A.taken reader.new)
            (O.contents output.old) (O.contents output.new) }
        ensures all { OnOk result
            (length (A.taken reader.new) ≡ length (A.taken reader.old) + self.old.sent) }
        ensures sent { OnOk result (self.new.sent ≡ 0) }
        ensures whole { OnOk result (self.new.is_whole ≡ false) }
        ensures flushed { OnOk result (O.flushed output.new) }
        ensures failed { IfErr result (PrintFails (WriteHasFailed O.fails O.full output.new)) }
    {
        print_line(rt, reader, self.sent, output)?;
        *self = Line::new();
        Ok(())
    }
}

impl Piece {
    // What is at the front of these bytes, through the first LF, and at most so many.
    fn first(bytes: &[u8], most: usize) -> Piece
        requires { 0 < most }
        ensures bound { result.count ≤ length bytes.now }
        ensures within { result.count ≤ most }
        ensures some { 0 < length bytes.now → 0 < result.count }
        ensures last { result.is_last ≡ false → result.count < most }
        ensures line { IsOfLine result.is_last (result.count ≡ most)
            (take result.count bytes.now) }
    {
        let room = bytes.len().min(most);
        match memchr(b'\n', &bytes[..room]) {
            Some(at) => Piece {
                count: at + 1,
                is_last: true,
            },
            None => Piece {
                count: room,
                is_last: room == most,
            },
        }
    }
}

// Sends what is left of `bytes`, from `count` on, and adds how many that were to `count`. Only a
// thread that is refused memory stops to answer.
fn send<R, W>(rt: &R, writer: &mut W, bytes: &[u8], count: &mut usize) -> Result<(), Ended>
where
    R: Wait + RandomSource + AllocGlobal,
    W: AsyncWrite,
    requires { count.old ≤ length bytes.now }
    ensures within { count.new ≤ length bytes.now }
    ensures sends { Sends (drop count.old bytes.now) (drop count.new bytes.now)
        (W.sent writer.old) (W.sent writer.new) (W.saw writer.old) (W.saw writer.new) }
    ensures whole { OnOk result (count.new ≡ length bytes.now) }
    ensures stays { W.saw writer.old ≡ true → W.saw writer.new ≡ true }
    ensures failed { IfErr result LacksMemory }
{
    let (turns, mut still) = Turns::new(rt)?;
    for _ in rt.forever() {
        let cx = turns.next(rt, still)?;
        let (turn, next) = send_in_turn(writer, cx, bytes, count);
        match turn {
            Poll::Pending => still = next,
            Poll::Ready(sent) => return sent,
        }
    }
    unreachable!()
}

// Sends what is left until it is pending or all is sent, and ends the turn. It has no way to wait,
// so it ends.
fn send_in_turn<W: AsyncWrite>(
    writer: &mut W,
    mut cx: Context<'_>,
    bytes: &[u8],
    count: &mut usize,
) -> (Poll<Result<(), Ended>>, Still)
    requires { count.old ≤ length bytes.now }
    ensures within { count.new ≤ length bytes.now }
    ensures sends { Sends (drop count.old bytes.now) (drop count.new bytes.now)
        (W.sent writer.old) (W.sent writer.new) (W.saw writer.old) (W.saw writer.new) }
    ensures whole { IfReady result.0 (λ r. OnOk r (count.new ≡ length bytes.now)) }
    ensures stays { W.saw writer.old ≡ true → W.saw writer.new ≡ true }
    ensures failed { IfReadyErr result.0 LacksMemory }
{
    let turn = match poll_write_all(writer, &mut cx, bytes, count) {
        Poll::Pending => Poll::Pending,
        Poll::Ready(Ok(Written::Whole)) => Poll::Ready(Ok(())),
        Poll::Ready(Ok(Written::Closed)) => Poll::Ready(Err(unread(writer))),
        Poll::Ready(Err(error)) => Poll::Ready(Err(write_refused(writer, &cx, error))),
    };
    let still = end_sending(cx, &turn, writer);
    (turn, still)
}
