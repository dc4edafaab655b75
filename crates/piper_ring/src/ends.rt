//! The two ends of the ring, and its sides, which can wait. Every call returns, waits for nobody
//! and takes no lock.

pub(crate) mod cells;
pub(crate) mod finished;
pub(crate) mod leaving;
pub(crate) mod logged;
pub(crate) mod opening;
pub(crate) mod reader;
pub(crate) mod room;
pub(crate) mod slots;
pub(crate) mod writer;
