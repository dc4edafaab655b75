//! Scripts of pipe calls: what their lines say, played on the pure machine, and what is printed.
#![tactic(auto)]

mod acts;
pub mod command;
mod event;
mod list;
pub mod number;
mod orders;
pub mod parser;
pub mod player;
pub mod replay;
pub mod reply;
mod runner;
mod steps;
pub mod stop;
pub mod stream;
mod trial;
pub mod whole;
