//! Echoes whose input or output fails.
use crate::broken::{Broken, Full};
use crate::compare::same;
use piper_duplex::{Ended, echo};
use std::alloc::AllocGlobal;
use std::marker::Send;
use std::process::Abort;
use std::random::RandomSource;
use std::sync::Wait;
use std::thread::Threads;

const TEXT: &[u8] = b"one\ntwo\nthree";

/// The whole lines of the text that lie in its first `count` bytes.
fn whole_before(count: usize) -> &'static [u8] {
    if count < 4 {
        b"".as_slice()
    } else if count < 8 {
        b"one\n".as_slice()
    } else {
        b"one\ntwo\n".as_slice()
    }
}

/// An echo whose input fails once so many bytes went through it: the whole lines before that come
/// back.
fn input_fails_at<R>(rt: &R, good: usize)
where
    R: Abort + Wait + Threads + RandomSource + AllocGlobal + Clone + Drop + Send + 'static,
{
    let mut input = Broken { rest: TEXT, good };
    let mut output = Vec::new(rt.alloc());
    let ended = echo(rt, rt.alloc(), &[], &mut input, &mut output);
    same(rt, ended, Ended::READ_FAILED);
    same(rt, output.as_slice(), whole_before(good));
}

#[test]
fn a_failing_input_ends_the_echo_after_its_whole_lines(rt: HostRuntime) {
    for good in 0..TEXT.len() {
        input_fails_at(&rt, good);
    }
}

/// An echo whose output fails once so many bytes were written: these are the first of the text.
fn output_fails_at<R>(rt: &R, text: &[u8], good: usize)
where
    R: Abort + Wait + Threads + RandomSource + AllocGlobal + Clone + Drop + Send + 'static,
{
    let mut input = text;
    let written = Vec::new(rt.alloc());
    let mut output = Full { written, good };
    let ended = echo(rt, rt.alloc(), &[], &mut input, &mut output);
    same(rt, ended, Ended::WRITE_FAILED);
    same(rt, output.written.as_slice(), &text[..good.min(text.len())]);
}

#[test]
fn a_failing_output_ends_the_echo(rt: HostRuntime) {
    for good in 0..TEXT.len() {
        output_fails_at(&rt, TEXT, good);
    }
    // The other thread then waits for room, since neither pipe holds such a line.
    output_fails_at(&rt, &[b'x'; 1_000], 7);
}
