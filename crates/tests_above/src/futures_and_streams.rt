//! The futures, streams and sinks over the pipe.
mod asleep;
mod crossing;
mod joined;
mod methods;
mod one_call;
mod owning;
mod running;
mod texts;
mod threads;
