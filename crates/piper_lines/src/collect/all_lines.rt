//! All lines of a reader.
ghost use Rattle.std.specs.Prelude.{◌≡◌, ◌<◌, ◌≤◌, ◌++◌, ◌⊎◌, [], length, vec_capacity, vec_len};
ghost use Rattle.futures.specs.Task.{Covers, Keeps};
ghost use Rattle.futures.specs.Poll.{OnPending};
ghost use Rattle.piper.specs.Polls.{IfReadyOk, IfReadyErr};
ghost use Rattle.piper_lines.specs.AtEnd.{AtEnd};
ghost use Rattle.piper_lines.specs.Line.{Lacks};
ghost use Rattle.piper_lines.specs.Split.{joined, Adds, IsPiece};
ghost use Rattle.piper_lines.specs.LineReader.{LinesAreSpent, reader_of, end_of, kept_of};
ghost use Rattle.piper_lines.specs.Moves.{Moves};
ghost use Rattle.piper_lines.specs.Refusals.{IsReported, LacksRoom};
ghost use Rattle.piper_lines.specs.Collected.{rest_of};
ghost use Rattle.piper_lines.specs.Stays.{Pends, ReaderStays, WentOn};

use super::push;
use crate::gather::MOST_PIECES;
use crate::line_reader::Lines;
use futures::task::{Context, Poll};
use piper::PipeError;
use piper::io::AsyncBufRead;

/// Appends the lines of the reader to `out`, up to the reader's end.
///
/// If fewer than `limit` bytes were kept before, a line of more than `limit` bytes comes in pieces
/// of `limit` bytes. If more were kept, nothing is said of the pieces of this call.
///
/// Requires: `limit`, which counts the byte that ends a line, is at least 1.
/// Returns: what follows the last line.
/// Pending: the reader knows no byte, and its call is pending; or this poll appended 64 lines or
/// pieces, and asked for another.
/// Errors: the reader's own; or `Memory`, if `out` lacks a place for one more line, or a line lacks
/// room for the bytes that are known: none of these is taken. `out` has each line that was taken
/// whole.
/// Cancel safety: the next poll goes on from where this one ended.
pub fn poll_lines<R: AsyncBufRead>(
    lines: &mut Lines<R>,
    cx: &mut Context<'_>,
    out: &mut Vec<Vec<u8>>,
    limit: usize,
) -> Poll<Result<Vec<u8>, PipeError>>
    requires { 0 < limit }
    ensures moved { Moves (R.taken (reader_of lines.old)) (R.taken (reader_of lines.new))
        (joined out.old.items ++ kept_of lines.old)
        (joined out.new.items ++ rest_of result) (kept_of lines.new) }
    ensures split { Adds (λ piece. length (kept_of lines.old) < limit →
        IsPiece (end_of lines.old) limit piece) out.old.items out.new.items }
    ensures ended { IfReadyOk result (λ rest. (kept_of lines.new ≡ [])
        × Lacks (end_of lines.old) rest.items
        × AtEnd (R.known (reader_of lines.new)) (R.saw (reader_of lines.new))
        × LinesAreSpent R.ended lines.new) }
    ensures error { IfReadyErr result (λ e. IsReported e (R.fails (reader_of lines.new) cx.new)
        (LacksRoom limit 0 (kept_of lines.new) (R.known (reader_of lines.new))
        ⊎ (vec_capacity out.old ≤ vec_len out.new))) }
    ensures pending { OnPending result (Covers cx.new (R.needs (reader_of lines.new))
        × Pends R.known R.knows_end R.waits (reader_of lines.new)
        (WentOn (length out.old.items) (length out.new.items)) cx.new) }
    ensures kept { Keeps cx.old cx.new }
    ensures rest { (end_of lines.new ≡ end_of lines.old)
        × ReaderStays R.knows_end R.woken (reader_of lines.old) (reader_of lines.new) }
{
    for _ in 0..MOST_PIECES {
        if let Err(refused) = out.reserve(1) {
            return Poll::Ready(Err(refused.into()));
        }
        let mut line = Vec::new(*out.allocator());
        let answer = match lines.poll_line(cx, &mut line, limit) {
            Poll::Pending => return Poll::Pending,
            Poll::Ready(Err(error)) => return Poll::Ready(Err(error)),
            Poll::Ready(Ok(answer)) => answer,
        };
        if answer.is_end() {
            return Poll::Ready(Ok(line));
        }
        push(out, line);
    }
    cx.yield_now()
}
