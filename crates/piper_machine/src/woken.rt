//! The wakers that the last whole call called.
ghost use Rattle.std.specs.Prelude.{◌≡◌, ◌<◌, [], ◌∷◌, ◌++◌, length};

use std::marker::Model;

/// At most two names, oldest first.
#[derive(Drop)]
pub struct Woken {
    names: [u32; 2],
    count: usize,
}

impl Model for Woken {
    ghost use Rattle.std.specs.Prelude.{ℕ, ◌≤◌, List, take};

    ghost Value = { List ℕ };

    ghost view = { λ woken. take woken.count woken.names };

    ghost invariant = { λ woken. woken.count ≤ 2 };
}

impl Woken {
    /// No name.
    pub fn new() -> Self
        ensures { result ≡ [] }
    {
        Woken {
            names: [0; 2],
            count: 0,
        }
    }

    /// Forgets all names.
    pub fn clear(&mut self)
        ensures { self.new ≡ [] }
    {
        self.count = 0;
    }

    /// Adds a name at the end.
    pub fn add(&mut self, name: u32)
        requires { length self.old < 2 }
        ensures { self.new ≡ self.old ++ name ∷ [] }
    {
        self.names[self.count] = name;
        self.count += 1;
    }

    /// The names, oldest first.
    pub fn as_slice(&self) -> &[u32]
        ensures { result.now ≡ self.now }
    {
        &self.names[..self.count]
    }
}
