//! `tokio`, its codecs and a server of `hyper` over pipes and duplex streams.
mod codecs;
mod copies;
mod ends;
mod http_over_duplex;
