//! The pipe's handles, and an end of a duplex stream, as readers and writers of `tokio`. Its
//! copies, the codecs of `tokio_util`, and `hyper` run over them.
#![tactic(auto)]

mod end;
mod halves;

pub use end::CompatEnd;
pub use halves::{CompatReader, CompatWriter};
