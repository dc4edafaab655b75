//! An example of each public call of `piper`, `piper_lines` and `piper_duplex`. A test in each file
//! runs all of it.
mod duplex;
mod ends;
mod frames;
mod handles;
mod lines;
mod streams;
