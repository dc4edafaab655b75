//! The futures, and the stream of lines, as calls on what they read or write.
ghost use Rattle.std.specs.Prelude.{◌≡◌, ◌<◌, ◌≤◌, [], length, false};
ghost use Rattle.piper_futures.specs.Draining.{StartsDraining};
ghost use Rattle.piper_futures.specs.Filling.{StartsFilling};
ghost use Rattle.piper_futures.specs.LineStream.{lines_of, limit_of, ended_of};
ghost use Rattle.piper_futures.specs.Reading.{StartsReading, StartsReadingUpTo, StartsReadingAll};
ghost use Rattle.piper_futures.specs.Until.{StartsReadingThrough};
ghost use Rattle.piper_lines.specs.Line.{line_feed};
ghost use Rattle.piper_lines.specs.LineReader.{reader_of, end_of, kept_of};
ghost use Rattle.piper_futures.specs.Writing.{StartsWriting, StartsWritingToClose, StartsFlushing, StartsClosing};

use crate::drain::{Draining, drain_into};
use crate::fill::{AsyncFill, Filling, fill_from};
use crate::line_stream::LineStream;
use crate::read_all::{ReadToEnd, read_to_end};
use crate::read_some::{ReadOnce, read};
use crate::read_through::{ReadUntil, read_until};
use crate::read_up_to::{ReadExact, read_exact};
use crate::write_and_close::{WriteAllAndClose, write_all_and_close};
use crate::write_end::{Closing, Flushing, close, flush};
use crate::write_whole::{WriteAll, write_all};
use piper::io::{AsyncBufRead, AsyncRead, AsyncWrite};
use std::alloc::Global;
use std::io::{Read, Write};

/// Calls of a reader, each a future that owns it and gives it back.
pub trait AsyncReadExt: AsyncRead {
    /// As the function [`read`](fn@read).
    final fn read(self, places: Vec<u8>) -> ReadOnce<Self>
    where
        Self: Sized + Drop,
        ensures { StartsReading result self places }
    {
        read(self, places)
    }
}

impl<R: AsyncRead> AsyncReadExt for R {}

/// Calls of a reader that lends what it has: futures that own it and give it back, and the stream of
/// its lines.
pub trait AsyncBufReadExt: AsyncBufRead {
    /// As the function [`read_exact`].
    final fn read_exact(self, bytes: Vec<u8>, size: usize) -> ReadExact<Self>
    where
        Self: Sized + Drop,
        requires { length bytes.items ≤ size }
        ensures { StartsReadingUpTo result self bytes size }
    {
        read_exact(self, bytes, size)
    }

    /// As the function [`read_to_end`].
    final fn read_to_end(self, bytes: Vec<u8>) -> ReadToEnd<Self>
    where
        Self: Sized + Drop,
        ensures { StartsReadingAll result self bytes }
    {
        read_to_end(self, bytes)
    }

    /// As the function [`read_until`].
    final fn read_until(self, byte: u8, bytes: Vec<u8>) -> ReadUntil<Self>
    where
        Self: Sized + Drop,
        ensures { StartsReadingThrough result self byte bytes }
    {
        read_until(self, byte, bytes)
    }

    /// As the function [`drain_into`].
    final fn drain_into<D: Write + Drop>(self, dest: D) -> Draining<Self, D>
    where
        Self: Sized + Drop,
        ensures { StartsDraining result self dest }
    {
        drain_into(self, dest)
    }

    /// The lines of at most `limit` bytes that end with LF, as `LineStream::new` gives them.
    ///
    /// Requires: `limit`, which counts the LF, is at least 1.
    final fn lines(self, alloc: Global, limit: usize) -> LineStream<Self>
    where
        Self: Sized + Drop,
        requires { 0 < limit }
        ensures reader { reader_of (lines_of result) ≡ self }
        ensures end { end_of (lines_of result) ≡ line_feed }
        ensures kept { kept_of (lines_of result) ≡ [] }
        ensures limit { limit_of result ≡ limit }
        ensures open { ended_of result ≡ false }
    {
        LineStream::new(alloc, self, limit)
    }
}

impl<R: AsyncBufRead> AsyncBufReadExt for R {}

/// Calls of a writer, each a future that owns it. All but `write_all_and_close` give it back.
pub trait AsyncWriteExt: AsyncWrite {
    /// As the function [`write_all`].
    final fn write_all<'a>(self, bytes: &'a [u8]) -> WriteAll<'a, Self>
    where
        Self: Sized + Drop,
        ensures { StartsWriting result self bytes.now }
    {
        write_all(self, bytes)
    }

    /// As the function [`write_all_and_close`].
    final fn write_all_and_close<'a>(self, bytes: &'a [u8]) -> WriteAllAndClose<'a, Self>
    where
        Self: Sized + Drop,
        ensures { StartsWritingToClose result self bytes.now }
    {
        write_all_and_close(self, bytes)
    }

    /// As the function [`flush`].
    final fn flush(self) -> Flushing<Self>
    where
        Self: Sized + Drop,
        ensures { StartsFlushing result self }
    {
        flush(self)
    }

    /// As the function [`close`].
    final fn close(self) -> Closing<Self>
    where
        Self: Sized + Drop,
        ensures { StartsClosing result self }
    {
        close(self)
    }

    /// As the function [`fill_from`].
    final fn fill_from<S: Read + Drop>(self, source: S) -> Filling<Self, S>
    where
        Self: AsyncFill + Sized + Drop,
        ensures { StartsFilling result self source }
    {
        fill_from(self, source)
    }
}

impl<W: AsyncWrite> AsyncWriteExt for W {}
