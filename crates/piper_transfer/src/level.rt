//! How many bytes the pipe is to hold before the first is written, and again once it ran dry.
ghost use Rattle.std.specs.Prelude.{◌≡◌, ◌≤◌, true, max, IfSome, IfNone};
ghost use Rattle.piper.specs.OfReader.{ring};
ghost use Rattle.piper.specs.ReaderCalls.{ReaderMayHave};
ghost use Rattle.piper_ring.specs.Loads.{FoundClosed};

use crate::shared::Shared;
use crate::sizes::Sizes;
use piper::Reader;
use std::sync::Wait;

/// How many bytes the pipe is to hold, at least one; it is made of the sizes of a transfer alone.
#[derive(Drop)]
pub(crate) struct Level {
    bytes: usize,
}

/// That the pipe held so many bytes, or was closed before: a turn that writes asks for it.
#[derive(Drop)]
pub(crate) struct Reached {
    /// How many bytes it held, unless it was closed.
    held: Option<usize>,
}

impl Level {
    pub(crate) fn of(sizes: Sizes) -> Level
        ensures { result.bytes ≡ max 1 sizes.level }
    {
        Level {
            bytes: sizes.level.max(1),
        }
    }

    /// How many bytes that is.
    pub(crate) fn bytes(&self) -> usize
        ensures { result ≡ self.now.bytes }
    {
        self.bytes
    }

    /// Waits until the pipe holds so many bytes, or is closed: the other side rings then.
    pub(crate) fn wait(&self, rt: &impl Wait, reader: &Reader, shared: &Shared) -> Reached
        ensures level { IfSome result.held (λ held.
            (self.now.bytes ≤ held) × ReaderMayHave reader.now held) }
        ensures closed { IfNone result.held (FoundClosed (ring reader.now).names true) }
    {
        for _ in rt.forever() {
            if let Some(reached) = self.look(rt, reader, shared) {
                return reached;
            }
        }
        unreachable!()
    }

    // Looks once, and waits for the other side where the pipe is open and holds fewer.
    fn look(&self, rt: &impl Wait, reader: &Reader, shared: &Shared) -> Option<Reached>
        ensures level { IfSome result (λ reached. IfSome reached.held (λ held.
            (self.now.bytes ≤ held) × ReaderMayHave reader.now held)) }
        ensures closed { IfSome result (λ reached.
            IfNone reached.held (FoundClosed (ring reader.now).names true)) }
    {
        let held = reader.len();
        if self.bytes <= held {
            return Some(Reached { held: Some(held) });
        }
        if reader.is_closed() {
            return Some(Reached { held: None });
        }
        shared.wait_for_rise(rt);
        None
    }
}
