//! A reader that lends all bytes of a slice at once, and counts how often some are taken.
ghost use Rattle.std.specs.Prelude.{◌≡◌, ◌+◌, ◌≤◌, length, take, drop, true};

use futures::task::{Context, Poll};
use piper::PipeError;
use piper::io::AsyncBufRead;

/// A reader of a slice.
#[derive(Drop)]
pub(crate) struct Lending<'a> {
    bytes: &'a [u8],
    taken: usize,
    known: usize,
    takes: usize,
    is_over: bool,
    ghost within: { taken + known ≤ length bytes.now },
    ghost over: { is_over ≡ true → taken ≡ length bytes.now },
}

impl AsyncBufRead for Lending<'_> {
    ghost known = { λ reader. take reader.known (drop reader.taken reader.bytes.now) };

    ghost piece = { λ reader. reader.known };

    ghost taken = { λ reader. take reader.taken reader.bytes.now };

    ghost saw = { λ _. true };

    ghost ended = { λ reader. reader.is_over ≡ true };

    ghost needs = { λ _ _. ⊥ };

    fn poll_fill_buf(&mut self, cx: &mut Context<'_>) -> Poll<Result<&[u8], PipeError>> {
        let _unused = cx;
        if self.known == 0 && !self.is_over {
            self.known = self.bytes.len() - self.taken;
            self.is_over = self.known == 0;
        }
        Poll::Ready(Ok(self.front()))
    }

    fn consume(&mut self, amt: usize) {
        self.taken += amt;
        self.known -= amt;
        self.takes = self.takes.saturating_add(1);
    }
}

impl<'a> Lending<'a> {
    pub(crate) fn new(bytes: &'a [u8]) -> Lending<'a> {
        Lending {
            bytes,
            taken: 0,
            known: 0,
            takes: 0,
            is_over: false,
        }
    }

    /// How often bytes were taken.
    pub(crate) fn takes(&self) -> usize {
        self.takes
    }

    fn front(&self) -> &[u8]
        ensures { result.now ≡ take self.now.known (drop self.now.taken self.now.bytes.now) }
    {
        let rest = &self.bytes[self.taken..];
        &rest[..self.known]
    }
}
