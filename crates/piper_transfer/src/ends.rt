//! What a transfer reads and writes.
ghost use Rattle.std.specs.Prelude.{◌≡◌, ◌<◌, ℕ, List, length, Option, None, Ok, OnOk, IfErr, ⊤};
ghost use Rattle.std.specs.Io.{ReadsAtMost, WritesAtMost};
ghost use Rattle.std.specs.Io.KnownBytes.{Keeps, ReadConsumes, WriteAppends};
ghost use Rattle.piper_transfer.specs.Taken.{StaysTaken, WriteTakes};

use piper::like::{StdReader, StdWriter};
use std::io;

/// What a transfer reads: a reader that can say which errors it fails with. A reader of std is one
/// as a `Plain`.
pub trait Source {
    ghost use Rattle.std.specs.declared.io.Error.{Error};

    // the bytes that reads will give from here on, where they are known
    ghost remaining: { Self → Option (List ℕ) } = { λ _. None };

    // a read has failed with this error, and left it so
    ghost fails: { Self → Error → Type 0 } = { λ _ _. ⊤ };

    /// Reads bytes to the front of `buf`.
    ///
    /// Returns: how many bytes. 0 is the end if `buf` has room.
    fn read(&mut self, buf: &mut [u8]) -> io::Result<usize>
        ensures bound { ReadsAtMost result buf.new }
        ensures bytes { ReadConsumes (remaining self.old) (remaining self.new) result buf.new }
        ensures error { IfErr result (fails self.new) };
}

/// What a transfer writes: a writer that can say what it took and flushed, and which errors it
/// fails with. A writer of std is one as a `Plain`.
pub trait Destination {
    ghost use Rattle.std.specs.declared.io.Error.{Error};

    // the bytes that it holds, where they are known
    ghost contents: { Self → Option (List ℕ) } = { λ _. None };

    // its parts have these names, if it has any, and its writes have taken these bytes
    ghost took: { Self → List (List ℕ) → List ℕ → Type 0 } = { λ _ _ _. ⊤ };

    // a flush has succeeded, and left it so
    ghost flushed: { Self → Type 0 } = { λ _. ⊤ };

    // a write of some bytes has taken none, and left it so
    ghost full: { Self → Type 0 } = { λ _. ⊤ };

    // a write or a flush has failed with this error, and left it so
    ghost fails: { Self → Error → Type 0 } = { λ _ _. ⊤ };

    /// Writes bytes from the front of `buf`.
    ///
    /// Returns: how many bytes.
    fn write(&mut self, buf: &[u8]) -> io::Result<usize>
        ensures bound { WritesAtMost result buf.now }
        ensures bytes { WriteAppends (contents self.old) (contents self.new) result buf.now }
        ensures taken { WriteTakes took self.old self.new result buf.now }
        ensures full { result ≡ Ok 0 → 0 < length buf.now → full self.new }
        ensures error { IfErr result (fails self.new) };

    /// Sends what was written on its way.
    fn flush(&mut self) -> io::Result<()>
        ensures bytes { Keeps (contents self.old) (contents self.new) }
        ensures taken { StaysTaken took self.old self.new }
        ensures done { OnOk result (flushed self.new) }
        ensures error { IfErr result (fails self.new) };
}

/// Any reader of std as a source, and any writer as a destination.
#[derive(Drop)]
pub struct Plain<T>(pub T);

impl<R: StdReader> Source for Plain<R> {
    ghost remaining = { λ p. R.remaining p.0 };

    ghost fails = { λ p e. (old : _) × R.fails old e p.0 };

    fn read(&mut self, buf: &mut [u8]) -> io::Result<usize> {
        self.0.read_once(buf)
    }
}

impl<W: StdWriter> Destination for Plain<W> {
    ghost contents = { λ p. W.contents p.0 };

    ghost full = { λ p. W.full p.0 };

    ghost flushed = { λ p. W.flushed p.0 };

    ghost fails = { λ p e. (old : _) × W.fails old e p.0 };

    fn write(&mut self, buf: &[u8]) -> io::Result<usize> {
        self.0.write_once(buf)
    }

    fn flush(&mut self) -> io::Result<()> {
        self.0.flush_once()
    }
}
