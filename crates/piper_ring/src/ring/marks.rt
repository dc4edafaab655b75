//! Evidence of what the other end did. It takes no space, threads may hand it on, and it stays true
//! for good.
ghost use Rattle.std.specs.Prelude.{◌≡◌, ℕ, Bool, true, List, length, max};
ghost use denote.Sharing.{said};
ghost use Rattle.piper_ring.specs.Shared.{Names, names_code, announced, took, raised, flag};
ghost use Rattle.piper_ring.specs.Streams.{Stream, Reaches};

use std::marker::{Model, PhantomData, Send, Sync};

/// The bytes published begin with `bytes`, and if `shut` is `true` they are all: the writer
/// closed the pipe after them.
pub struct WriteMark {
    pub(crate) mark: PhantomData<*mut u8>,
    pub ghost names: { Names } by { names_code },
    pub ghost bytes: { List ℕ },
    pub ghost shut: { Bool },
}

impl Model for WriteMark {
    ghost also_owns = { λ m. announced m.names m.bytes m.shut };

    ghost also_shares = { λ m _ κ. said (announced m.names m.bytes m.shut) κ };
}

// SAFETY: it has no bytes, and what it says stays true for good.
unsafe impl Send for WriteMark {}

// SAFETY: as above.
unsafe impl Sync for WriteMark {}

impl Drop for WriteMark {
    fn drop(self) {
        let Self { mark: _ } = self;
    }
}

impl WriteMark {
    /// A copy.
    pub fn duplicate(&self) -> WriteMark
        ensures { result ≡ self.now }
    {
        WriteMark { mark: PhantomData }
    }

    /// Afterwards it says what either of the two says.
    pub fn observe(&mut self, other: &WriteMark)
        requires { other.now.names ≡ self.old.names }
        ensures ring { self.new.names ≡ self.old.names }
        ensures bytes { length self.new.bytes
            ≡ max (length self.old.bytes) (length other.now.bytes) }
        ensures shut { flag self.new.shut ≡ max (flag self.old.shut) (flag other.now.shut) }
        ensures kept { Reaches (self.old.bytes, self.old.shut) (self.new.bytes, self.new.shut) }
        ensures observed { Reaches (other.now.bytes, other.now.shut) (self.new.bytes, self.new.shut) }
        ensures no_more { (all : Stream) → Reaches (self.old.bytes, self.old.shut) all
            → Reaches (other.now.bytes, other.now.shut) all
            → Reaches (self.new.bytes, self.new.shut) all }
    {}
}

/// At least `count` bytes were consumed.
pub struct ReadMark {
    pub(crate) mark: PhantomData<*mut u8>,
    pub ghost names: { Names } by { names_code },
    pub ghost count: { ℕ },
}

impl Model for ReadMark {
    ghost also_owns = { λ m. took m.names m.count };

    ghost also_shares = { λ m _ κ. said (took m.names m.count) κ };
}

// SAFETY: it has no bytes, and what it says stays true for good.
unsafe impl Send for ReadMark {}

// SAFETY: as above.
unsafe impl Sync for ReadMark {}

impl Drop for ReadMark {
    fn drop(self) {
        let Self { mark: _ } = self;
    }
}

impl ReadMark {
    /// A copy.
    pub fn duplicate(&self) -> ReadMark
        ensures { result ≡ self.now }
    {
        ReadMark { mark: PhantomData }
    }

    /// Afterwards it says what either of the two says.
    pub fn observe(&mut self, other: &ReadMark)
        requires { other.now.names ≡ self.old.names }
        ensures { self.new ≡ record self.old { count = max self.old.count other.now.count } }
    {}
}

/// What a reader that left had consumed, and that it closed the ring.
pub struct LastReadMark {
    /// All that was ever consumed.
    pub consumed: ReadMark,
    pub(crate) closed: ClosedMark,
    ghost of_one_ring: { closed.names ≡ consumed.names },
    ghost is_closed: { closed.seen ≡ true },
}

impl Drop for LastReadMark {
    fn drop(self) {
        let Self {
            consumed: _,
            closed: _,
        } = self;
    }
}

/// If `seen` is `true`, the ring was seen closed.
pub struct ClosedMark {
    pub(crate) mark: PhantomData<*mut u8>,
    pub(crate) ghost names: { Names } by { names_code },
    pub(crate) ghost seen: { Bool },
}

impl Model for ClosedMark {
    ghost also_owns = { λ s. raised s.names.closed s.seen };

    ghost also_shares = { λ s _ κ. said (raised s.names.closed s.seen) κ };
}

// SAFETY: it has no bytes, and what it says stays true for good.
unsafe impl Send for ClosedMark {}

// SAFETY: as above.
unsafe impl Sync for ClosedMark {}

impl Drop for ClosedMark {
    fn drop(self) {
        let Self { mark: _ } = self;
    }
}

impl ClosedMark {
    /// A copy.
    pub(crate) fn duplicate(&self) -> ClosedMark
        ensures { result ≡ self.now }
    {
        ClosedMark { mark: PhantomData }
    }
}
