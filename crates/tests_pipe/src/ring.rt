//! The ring's two ends over their public calls.
mod acts;
mod one_thread;
mod two_threads;
