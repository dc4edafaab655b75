//! Transfers.
mod errors;
mod faults;
mod faulty;
mod waits;
