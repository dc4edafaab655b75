//! A line that is written whole.
ghost use Rattle.std.specs.Prelude.{◌≡◌, ◌↔◌, ◌<◌, ◌≤◌, ◌++◌, [], ◌∷◌, IsTrue, length, true, Ok};
ghost use Rattle.futures.specs.Task.{Covers, Keeps};
ghost use Rattle.futures.specs.Poll.{OnPending};
ghost use Rattle.piper_lines.specs.Line.{Lacks, line_feed};
ghost use Rattle.piper.specs.Polls.{IfReadyErr};
ghost use Rattle.piper_lines.specs.Sends.{Sends};
ghost use Rattle.piper_lines.specs.Stays.{WriterStays};

use crate::write_all::{Written, poll_write_both};
use futures::task::{Context, Poll};
use memchr::memchr;
use piper::PipeError;
use piper::io::AsyncWrite;
use std::fmt::{self, Debug, Formatter};

/// A line that is being written: what is left of a text, and of the byte that ends it.
///
/// In clauses, `left_of` are the bytes that are left.
#[derive(Drop)]
pub struct WriteLine<'a> {
    text: &'a [u8],
    text_written: usize,
    end: [u8; 1],
    end_written: usize,
    ghost within: { text_written ≤ length text.now },
    ghost within_end: { end_written ≤ 1 },
}

/// Whether no LF is in the text. If none is, the text and one LF after it are one line.
pub fn is_one_line(text: &[u8]) -> bool
    ensures { IsTrue result ↔ Lacks line_feed text.now }
{
    lacks(text, b'\n')
}

/// Whether `end` is not in the text. If it is not, the text and one `end` after it are one line.
pub fn lacks(text: &[u8], end: u8) -> bool
    ensures { IsTrue result ↔ Lacks end text.now }
{
    memchr(end, text).is_none()
}

impl<'a> WriteLine<'a> {
    ghost use Rattle.piper_lines.specs.LineWriter.{left_of};

    /// The text with an LF after it, none of which is written yet.
    ///
    /// Requires: the text has no LF, which `is_one_line` tests.
    pub fn new(text: &'a [u8]) -> WriteLine<'a>
        requires { Lacks line_feed text.now }
        ensures { left_of result ≡ text.now ++ line_feed ∷ [] }
    {
        WriteLine::ended_by(text, b'\n')
    }

    /// The text with this byte after it, none of which is written yet.
    ///
    /// Requires: the text has no such byte, which `lacks` tests.
    pub fn ended_by(text: &'a [u8], end: u8) -> WriteLine<'a>
        requires { Lacks end text.now }
        ensures { left_of result ≡ text.now ++ end ∷ [] }
    {
        WriteLine {
            text,
            text_written: 0,
            end: [end],
            end_written: 0,
        }
    }

    /// Writes what is left of the line, as `poll_write_all` does.
    ///
    /// Returns: whether all of it was counted, or the pipe is closed with some left.
    /// Pending: bytes are left, and the writer's call is pending.
    /// Errors: the writer's own.
    /// Cancel safety: the next poll goes on from where this one ended.
    pub fn poll<W: AsyncWrite>(
        &mut self,
        cx: &mut Context<'_>,
        writer: &mut W,
    ) -> Poll<Result<Written, PipeError>>
        ensures sends { Sends (left_of self.old) (left_of self.new)
            (W.sent writer.old) (W.sent writer.new) (W.saw writer.old) (W.saw writer.new) }
        ensures whole { result ≡ Poll.Ready (Ok Written.Whole) → left_of self.new ≡ [] }
        ensures closed { result ≡ Poll.Ready (Ok Written.Closed) →
            (W.saw writer.new ≡ true) × (0 < length (left_of self.new)) }
        ensures stays { WriterStays W.saw W.woken writer.old writer.new }
        ensures error { IfReadyErr result (W.fails writer.new cx.new) }
        ensures pending { OnPending result (Covers cx.new (W.needs writer.new)
            × W.waits writer.new cx.new × ¬ (W.saw writer.old ≡ true)
            × (0 < length (left_of self.new))) }
        ensures kept { Keeps cx.old cx.new }
    {
        poll_write_both(
            writer,
            cx,
            self.text,
            &mut self.text_written,
            &self.end,
            &mut self.end_written,
        )
    }
}

impl Debug for WriteLine<'_> {
    fn fmt<O: fmt::Write>(&self, f: &mut Formatter<O>) -> fmt::Result {
        f.debug_struct("WriteLine")
            .field("written", &self.text_written)
            .field("of", &self.text.len())
            .finish()
    }
}
