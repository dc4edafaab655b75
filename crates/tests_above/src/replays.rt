//! Replays that need more than a script: lines of many bytes, bytes that are no text, wrong
//! arguments, and readers and writers that fail or are flushed. Scripts with what they print are
//! data of `piper_compare`.
mod expected;
mod failing;
mod flushed;
mod long_lines;
