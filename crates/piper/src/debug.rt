//! What `{:?}` prints of handles: their state, and no byte.
use crate::handles::{Reader, Writer};
use std::fmt::{self, Debug, Formatter};

impl Debug for Reader {
    fn fmt<W: fmt::Write>(&self, f: &mut Formatter<W>) -> fmt::Result {
        f.debug_struct("Reader")
            .field("capacity", &self.capacity())
            .field("known", &self.end().known_len())
            .field("closed", &self.is_closed())
            .finish()
    }
}

impl Debug for Writer {
    fn fmt<W: fmt::Write>(&self, f: &mut Formatter<W>) -> fmt::Result {
        f.debug_struct("Writer")
            .field("capacity", &self.capacity())
            .field("room", &self.end().room())
            .field("closed", &self.is_closed())
            .finish()
    }
}
