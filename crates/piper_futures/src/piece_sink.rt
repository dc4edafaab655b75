//! Bytes that are sent piece by piece.
ghost use Rattle.std.specs.Prelude.{◌≡◌, ◌≤◌, ◌++◌, [], ◌∷◌, length, true, Ok, IfErr, OnErr, OnOk};
ghost use Rattle.futures.specs.Task.{Covers, Keeps};
ghost use Rattle.futures.specs.Poll.{IfReady, OnPending};
ghost use Rattle.piper_lines.specs.Sends.{Sends};

use crate::framing::{AsItIs, Framing, LineEnd};
use futures::Sink;
use futures::task::{Context, Poll};
use piper::PipeError;
use piper::io::AsyncWrite;
use piper_lines::{FrameHeader, Written, poll_write_all};
use std::alloc::Global;
use std::fmt::{self, Debug, Formatter};
use std::io;

/// Writes each item that it is sent, whole and in order, with what its framing adds.
///
/// It holds one item at a time.
///
/// Cancel safety: a `send` that is dropped after `start_send` leaves its item in the sink, and the
/// next call writes it on. A dropped sink drops what is left of its item.
///
/// In clauses, `writer_of` is the writer, `framing_of` says what is written for an item, and
/// `left_of` is what is left of the item.
#[derive(Drop)]
pub struct PieceSink<W, F> {
    writer: W,
    framing: F,
    piece: Vec<u8>,
    written: usize,
    ghost within: { written ≤ length piece.items },
}

/// Writes each piece of bytes as it is. It asks for no memory of its own.
pub type WriteSink<W> = PieceSink<W, AsItIs>;

/// Writes each text as a line, with the byte that ends it.
///
/// That byte is put at the end of the text itself. A text that has such a byte inside is written as
/// it is, as several lines.
///
/// In clauses, `ending_of` is the byte that ends a line, and `line_of` the line of a text.
pub type LineSink<W> = PieceSink<W, LineEnd>;

/// Writes a frame for each body: its length, and the body.
///
/// The length is put before the body in the body's own memory; more is asked for only if that has
/// no room for both.
///
/// In clauses, `framing_of` says how the length is reported, `frame_bytes` is the frame of a body,
/// `CanEncode` says which bodies it takes, and `IsRefused` why it refuses one.
pub type FrameSink<W> = PieceSink<W, FrameHeader>;

impl<W: AsyncWrite + Drop, F: Framing + Drop> PieceSink<W, F> {
    ghost use Rattle.piper_futures.specs.Sent.{left_of, writer_of, framing_of};

    /// The sink over this writer, of items that are framed in this way. Nothing is sent yet.
    pub fn with_framing(alloc: Global, writer: W, framing: F) -> PieceSink<W, F>
        ensures writer { writer_of result ≡ writer }
        ensures framing { framing_of result ≡ framing }
        ensures left { left_of result ≡ [] }
    {
        PieceSink {
            writer,
            framing,
            piece: Vec::new(alloc),
            written: 0,
        }
    }

    /// Gives the writer back. What is left of the last item is dropped.
    pub fn into_writer(self) -> W
        ensures { result ≡ writer_of self }
    {
        let PieceSink {
            writer,
            framing: _,
            piece: _,
            written: _,
        } = self;
        writer
    }
}

impl<W: AsyncWrite + Drop> WriteSink<W> {
    ghost use Rattle.piper_futures.specs.Sent.{left_of, writer_of};

    /// The sink over this writer, of pieces as they are. Nothing is sent yet.
    pub fn new(alloc: Global, writer: W) -> WriteSink<W>
        ensures writer { writer_of result ≡ writer }
        ensures left { left_of result ≡ [] }
    {
        PieceSink::with_framing(alloc, writer, AsItIs)
    }
}

impl<W: AsyncWrite + Drop> LineSink<W> {
    ghost use Rattle.piper_futures.specs.Sent.{left_of, writer_of, ending_of};
    ghost use Rattle.piper_lines.specs.Line.{line_feed};

    /// The sink over this writer, of lines that end with LF. Nothing is sent yet.
    pub fn new(alloc: Global, writer: W) -> LineSink<W>
        ensures writer { writer_of result ≡ writer }
        ensures end { ending_of result ≡ line_feed }
        ensures left { left_of result ≡ [] }
    {
        LineSink::ended_by(alloc, writer, b'\n')
    }

    /// The sink over this writer, of lines that end with this byte. Nothing is sent yet.
    pub fn ended_by(alloc: Global, writer: W, end: u8) -> LineSink<W>
        ensures writer { writer_of result ≡ writer }
        ensures end { ending_of result ≡ end }
        ensures left { left_of result ≡ [] }
    {
        PieceSink::with_framing(alloc, writer, LineEnd { byte: end })
    }
}

impl<W: AsyncWrite + Drop> FrameSink<W> {
    ghost use Rattle.piper_futures.specs.Sent.{left_of, writer_of, framing_of};
    ghost use Rattle.piper_lines.specs.Header.{usual_header};

    /// The sink over this writer, of frames whose length is four bytes, the most significant first.
    /// Nothing is sent yet.
    pub fn new(alloc: Global, writer: W) -> FrameSink<W>
        ensures writer { writer_of result ≡ writer }
        ensures format { framing_of result ≡ usual_header }
        ensures left { left_of result ≡ [] }
    {
        FrameSink::with_header(alloc, writer, FrameHeader::default())
    }

    /// The sink over this writer, of frames whose length is reported in this way. Nothing is sent
    /// yet.
    pub fn with_header(alloc: Global, writer: W, format: FrameHeader) -> FrameSink<W>
        ensures writer { writer_of result ≡ writer }
        ensures format { framing_of result ≡ format }
        ensures left { left_of result ≡ [] }
    {
        PieceSink::with_framing(alloc, writer, format)
    }
}

impl<W: AsyncWrite + Drop, F: Framing + Drop> PieceSink<W, F> {
    ghost use Rattle.piper_futures.specs.Sent.{left_of, writer_of, framing_of, TellsSent};

    // Writes what is left of the item.
    fn poll_write(&mut self, cx: &mut Context<'_>) -> Poll<Result<(), PipeError>>
        ensures sends { Sends (left_of self.old) (left_of self.new)
            (W.sent (writer_of self.old)) (W.sent (writer_of self.new))
            (W.saw (writer_of self.old)) (W.saw (writer_of self.new)) }
        ensures whole { result ≡ Poll.Ready (Ok (record {})) → left_of self.new ≡ [] }
        ensures tells { TellsSent result W.fails W.waits W.saw W.woken
            self.old self.new cx.new }
        ensures pending { OnPending result (Covers cx.new (W.needs (writer_of self.new))
            × ¬ (W.saw (writer_of self.old) ≡ true)) }
        ensures kept { Keeps cx.old cx.new × (framing_of self.new ≡ framing_of self.old) }
    {
        match poll_write_all(
            &mut self.writer,
            cx,
            self.piece.as_slice(),
            &mut self.written,
        ) {
            Poll::Pending => Poll::Pending,
            Poll::Ready(Err(error)) => Poll::Ready(Err(error)),
            Poll::Ready(Ok(Written::Whole)) => Poll::Ready(Ok(())),
            Poll::Ready(Ok(Written::Closed)) => {
                Poll::Ready(Err(PipeError::Io(io::ErrorKind::BrokenPipe.into())))
            }
        }
    }
}

impl<W: AsyncWrite + Drop, F: Framing + Drop> Sink<Vec<u8>> for PieceSink<W, F> {
    ghost use Rattle.piper_futures.specs.Sent.{left_of, writer_of, framing_of, IsClosed, IsFlushed, TellsSent, WasSent};

    type Error = PipeError;

    ghost can_send = { λ sink. left_of sink ≡ [] };

    ghost took = { WasSent F.framed W.sent W.saw };

    ghost is_flushed = { IsFlushed W.flushed };

    ghost is_closed = { IsClosed W.flushed W.saw };

    ghost needs = { λ sink. W.needs (writer_of sink) };

    /// Writes what is left of the last item. Once it is ready the next one can be sent.
    ///
    /// Pending: the writer's call is pending.
    /// Errors: the writer's own; or one of the kind `BrokenPipe`, if the pipe was seen closed and
    /// bytes are left. In the poll that sees it closed counted bytes may be lost; a later poll loses
    /// none (not proved).
    fn poll_ready(&mut self, cx: &mut Context<'_>) -> Poll<Result<(), PipeError>>
        ensures ready { IfReady result (λ r. OnOk r (left_of self.new ≡ [])) }
        ensures history { (xs : _) → WasSent F.framed W.sent W.saw self.old xs
            → WasSent F.framed W.sent W.saw self.new xs }
        ensures registered { OnPending result (Covers cx.new (W.needs (writer_of self.new))) }
        ensures kept { Keeps cx.old cx.new × (framing_of self.new ≡ framing_of self.old) }
        ensures tells { TellsSent result W.fails W.waits W.saw W.woken
            self.old self.new cx.new }
    {
        self.poll_write(cx)
    }

    /// Keeps the item, with what its framing adds.
    ///
    /// Requires: nothing is left of the last item, as after `poll_ready`.
    /// Errors: the framing's own; the item is dropped, and the sink is as it was. A `WriteSink` has
    /// none. A `LineSink` has `Memory`, if the text has no room for the byte that ends it. A
    /// `FrameSink` has one of the kind `InvalidInput`, if the header can't report the length; and
    /// `Memory`, only if the body has no room for it.
    fn start_send(&mut self, item: Vec<u8>) -> Result<(), PipeError>
        requires { left_of self.old ≡ [] }
        ensures error { IfErr result (F.refuses (framing_of self.old) item) }
        ensures history { OnOk result ((xs : _) → WasSent F.framed W.sent W.saw self.old xs
            → WasSent F.framed W.sent W.saw self.new (xs ++ item ∷ [])) }
        ensures left { OnOk result (left_of self.new ≡ F.framed (framing_of self.old) item) }
        ensures fits { OnOk result (F.fits (framing_of self.old) item) }
        ensures refused { OnErr result (self.new ≡ self.old) }
        ensures writer { (writer_of self.new ≡ writer_of self.old)
            × (framing_of self.new ≡ framing_of self.old) }
    {
        let piece = self.framing.frame(item)?;
        self.written = 0;
        self.piece = piece;
        Ok(())
    }

    /// Writes what is left of the last item, and flushes the writer.
    ///
    /// Pending: the writer's call, or its flush, is pending.
    /// Errors: as `poll_ready`.
    fn poll_flush(&mut self, cx: &mut Context<'_>) -> Poll<Result<(), PipeError>>
        ensures flushed { IfReady result (λ r. OnOk r (IsFlushed W.flushed self.new)) }
        ensures history { (xs : _) → WasSent F.framed W.sent W.saw self.old xs
            → WasSent F.framed W.sent W.saw self.new xs }
        ensures registered { OnPending result (Covers cx.new (W.needs (writer_of self.new))) }
        ensures kept { Keeps cx.old cx.new × (framing_of self.new ≡ framing_of self.old) }
        ensures tells { TellsSent result W.fails W.waits W.saw W.woken
            self.old self.new cx.new }
    {
        match self.poll_write(cx) {
            Poll::Ready(Ok(())) => self.writer.poll_flush(cx),
            unfinished => unfinished,
        }
    }

    /// Writes what is left of the last item, and closes the writer's pipe.
    ///
    /// Pending: the writer's call, or its close, is pending.
    /// Errors: as `poll_ready`.
    fn poll_close(&mut self, cx: &mut Context<'_>) -> Poll<Result<(), PipeError>>
        ensures closed { IfReady result (λ r. OnOk r (IsClosed W.flushed W.saw self.new)) }
        ensures history { (xs : _) → WasSent F.framed W.sent W.saw self.old xs
            → WasSent F.framed W.sent W.saw self.new xs }
        ensures registered { OnPending result (Covers cx.new (W.needs (writer_of self.new))) }
        ensures kept { Keeps cx.old cx.new × (framing_of self.new ≡ framing_of self.old) }
        ensures tells { TellsSent result W.fails W.waits W.saw W.woken
            self.old self.new cx.new }
    {
        match self.poll_write(cx) {
            Poll::Ready(Ok(())) => self.writer.poll_close(cx),
            unfinished => unfinished,
        }
    }
}

impl<W: Debug, F: Debug> Debug for PieceSink<W, F> {
    fn fmt<O: fmt::Write>(&self, f: &mut Formatter<O>) -> fmt::Result {
        f.debug_struct("PieceSink")
            .field("writer", &self.writer)
            .field("framing", &self.framing)
            .field("written", &self.written)
            .field("of", &self.piece.len())
            .finish()
    }
}
