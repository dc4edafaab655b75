//! What the errors of transfers say.
use crate::compare::same;
use piper_transfer::TransferError;
use std::alloc::AllocGlobal;
use std::fmt::Display;
use std::io::ErrorKind;
use std::process::Abort;

fn says<H: Abort + AllocGlobal>(rt: &H, error: &impl Display, wanted: &str) {
    let said = format!(in rt.alloc(); "{error}").expect(rt, "memory");
    same(rt, said.as_str(), wanted);
}

#[test]
fn errors_say_what_failed(rt: HostRuntime) {
    let read = TransferError::Read(ErrorKind::BrokenPipe.into());
    says(&rt, &read, "reading the input failed: broken pipe");
    let write = TransferError::Write(ErrorKind::BrokenPipe.into());
    says(&rt, &write, "writing the output failed: broken pipe");
    says(&rt, &TransferError::Full, "the output takes no more bytes");
    says(&rt, &TransferError::Memory, "out of memory");
    let turns = TransferError::Turns(ErrorKind::OutOfMemory.into());
    says(&rt, &turns, "a thread can't be made to wait: out of memory");
}
