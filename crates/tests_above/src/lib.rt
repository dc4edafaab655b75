//! Tests of what stands on the pipe: lines and frames, futures, streams and sinks, the duplex stream
//! with its echo, transfers, `tokio` with its codecs and a server of `hyper`; and of the replayer,
//! which reads and writes as they do.
#![tactic(auto)]

#[cfg(test)]
mod broken;
#[cfg(test)]
mod compare;
#[cfg(test)]
mod duplex;
#[cfg(test)]
mod flushed;
#[cfg(test)]
mod futures_and_streams;
#[cfg(test)]
mod lending;
#[cfg(test)]
mod over_tokio;
#[cfg(test)]
mod polls;
#[cfg(test)]
mod replays;
#[cfg(test)]
mod transfers;
