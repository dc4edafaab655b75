//! What a waker slot holds.
ghost use Rattle.std.specs.Prelude.{◌≡◌};

use std::marker::Model;

/// At most one waker.
#[derive(Drop)]
pub struct SlotState<T> {
    content: Option<T>,
}

impl<T> Model for SlotState<T> {
    ghost use Rattle.std.specs.Prelude.{Option};

    ghost Value = { Option T };

    ghost view = { λ slot. slot.content };
}

impl<T> SlotState<T> {
    /// An empty slot.
    pub fn new() -> Self
        ensures { result ≡ None }
    {
        SlotState { content: None }
    }

    /// Keeps `value` and gives back what was there.
    pub fn put(&mut self, value: T) -> Option<T>
        ensures answer { result ≡ self.old }
        ensures after { self.new ≡ Some value }
    {
        self.content.replace(value)
    }

    /// Gives back what was there and keeps nothing.
    pub fn take(&mut self) -> Option<T>
        ensures answer { result ≡ self.old }
        ensures after { self.new ≡ None }
    {
        self.content.take()
    }
}
