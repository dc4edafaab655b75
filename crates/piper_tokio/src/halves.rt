//! The two handles, for `tokio`.
ghost use Rattle.std.specs.Prelude.{◌≤◌};
ghost use Rattle.piper.specs.ReadView.{in_one_piece};

mod streams;

use piper::{Reader, Writer};

/// The reading side of a pipe, as a reader of `tokio`.
///
/// Its drop is that of its handle, which closes the pipe and wakes the writer.
///
/// In clauses, `handle_of` is its handle, and `shown_by` are the bytes that `buffer` shows. `reads
/// a xs b` says that the handle `a` took the bytes `xs`, in this order, and is `b` now (`Took`).
#[derive(Drop)]
pub struct CompatReader {
    reader: Reader,
    // `tokio` asks that `buffer` shows what is left of one piece and no more, until the next fill.
    shown: usize,
    ghost within: { shown ≤ in_one_piece reader.side.end },
}

/// The writing side of a pipe, as a writer of `tokio`.
///
/// Its drop is that of its handle, which closes the pipe and wakes the reader.
///
/// In clauses, `writing` is its handle. `writes a xs b` says that a front of `xs` was published,
/// and all of it unless the pipe was seen closed (`Gave`).
#[derive(Drop)]
pub struct CompatWriter {
    writer: Writer,
}
