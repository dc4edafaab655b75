//! Clients that prove of themselves that bytes arrive in order. Where one function holds both sides
//! of the pipe, all that was sent came: `carry` fills the pipe once, and rounds.rt sends more than
//! the pipe holds. On two threads, in threads.rt, what came is a beginning of what was sent; and in
//! sleeping.rt two threads poll by hand, of which nothing of the kind is proved. What both sides did
//! until they met is one run of the model, in one_run.rt.
#![tactic(auto)]

mod one_run;
mod pending;
mod rounds;
mod sleeping;
mod threads;
mod words;

ghost use Rattle.std.specs.Prelude.{◌≡◌, ◌<◌, ◌*◌, ◌^◌, ◌≤◌, take, length, IfOk};

use crate::one_run::fill_and_meet;
use crate::pending::leave_pending;
use crate::rounds::carry_in_rounds;
use crate::sleeping::send_and_count;
use crate::threads::carry_across;
use crate::words::answer_words;
use piper::pipe;
use std::alloc::Global;
use std::io;
use std::process::ExitCode;

/// Sends what is in `bytes` through a pipe that holds all of it, and returns how many bytes came:
/// all of them, in order, at the front of `place`.
fn carry(alloc: Global, bytes: &[u8], place: &mut [u8]) -> io::Result<usize>
    requires some { (0 < length bytes.now) × (2 * length bytes.now < 2 ^ 64) }
    requires room { length bytes.now ≤ length place.old }
    ensures { IfOk result (λ n. take n place.new ≡ bytes.now) }
{
    let (mut reader, mut writer) = pipe(alloc, bytes.len())?;
    writer.try_fill(bytes);
    reader.meet(&mut writer);
    Ok(reader.try_drain(place))
}

fn main(rt: HostRuntime) -> io::Result<ExitCode> {
    if let Some(status) = answer_words(&rt)? {
        return Ok(status);
    }
    let mut place = [0; 32];
    let came = carry(rt.alloc(), b"hello world", &mut place)?;
    println!(&rt; "{}", place[..came].escape_ascii())?;
    let came = carry_in_rounds(rt.alloc(), b"hello, eight bytes at a time", &mut place)?;
    println!(&rt; "{}", place[..came].escape_ascii())?;
    let came = carry_across(&rt, b"hello, threads", &mut place)?;
    println!(&rt; "{}", place[..came].escape_ascii())?;
    let (mut reader, mut writer) = pipe(rt.alloc(), 4)?;
    if leave_pending(&rt, &mut reader, &mut writer)? {
        println!(&rt; "one of two pending sides was woken")?;
    }
    let came = send_and_count(&rt)?;
    println!(&rt; "{came} bytes came")?;
    let (mut reader, _writer) = fill_and_meet(rt.alloc(), b"hello, model")?;
    let came = reader.try_drain(&mut place);
    println!(&rt; "{} in one run of the model", place[..came].escape_ascii())?;
    Ok(ExitCode::SUCCESS)
}
