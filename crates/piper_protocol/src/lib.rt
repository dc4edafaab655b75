//! What a pipe's handles and its model have in common: the indices of both ends, the call table,
//! and what calls answer.
#![tactic(auto)]

pub mod answer;
pub mod indices;
pub mod log;
pub mod memory;
pub mod reported;
pub mod table;
