//! Text through a duplex stream and back: one thread sends its lines, and another writes them back.
ghost use Rattle.std.specs.Prelude.{◌≡◌, ◌<◌, ◌⊎◌, [], length, IfErr, OnOk};
ghost use Rattle.piper_duplex.specs.Client.{CameBack};
ghost use Rattle.piper_duplex.specs.Failures.{EchoFails, EndsWith, HasFailedAt, LacksMemory, LacksThread, StdWriteHasFailed, TalkFails, WriteHasFailed};

use crate::end::{End, duplex};
use crate::engine::client::talk;
use crate::engine::lost::wanted;
use crate::engine::printing::print_line;
use crate::engine::waiting::EchoAll;
use futures::executor::block_on;
use piper::like::{StdReader, StdWriter};
use piper::{Reader, Writer};
use piper_protocol::reported::reported;
use std::alloc::{AllocGlobal, Global};
use std::io::Write;
use std::marker::Send;
use std::random::RandomSource;
use std::sync::Wait;
use std::thread;
use std::thread::{JoinHandle, Threads};

/// How many bytes each way of the stream can hold. So many pass at a time, with a change of threads
/// each way, so that time goes into those.
const CAPACITY: usize = 64;

/// How an echo program ends.
#[derive(Clone, Copy, Debug, PartialEq, Eq)]
pub struct Ended {
    /// The exit status.
    pub status: u8,
    /// The line for standard error, without its LF; empty where there is none.
    pub text: &'static str,
}

impl Ended {
    pub const DONE: Ended = Ended {
        status: 0,
        text: "",
    };

    pub const WRONG_ARGUMENTS: Ended = Ended {
        status: 1,
        text: "",
    };

    pub const OUT_OF_MEMORY: Ended = Ended {
        status: 2,
        text: "memory",
    };

    pub const NO_THREAD: Ended = Ended {
        status: 2,
        text: "no thread is granted",
    };

    pub const READ_FAILED: Ended = Ended {
        status: 2,
        text: "read failed",
    };

    pub const WRITE_FAILED: Ended = Ended {
        status: 2,
        text: "write failed",
    };
}

/// Sends the text that `input` gives line by line through a duplex stream, at the other end of
/// which a thread writes each line back, and prints what comes back to `output`.
///
/// A line is printed and flushed before the next one is sent. One of more than 65,536 bytes goes
/// through in pieces of that many. `words` are the arguments of the command line; with any it moves
/// no byte.
///
/// Returns: with the status 0, the input is at its end, and as many bytes were printed as it gave;
/// 1, there were `words`; 2, with a text that says why, memory or a thread was refused, or `input`
/// or `output` failed.
pub fn echo<R, I, O>(
    rt: &R,
    alloc: Global,
    words: &[String],
    input: &mut I,
    output: &mut O,
) -> Ended
where
    R: Wait + Threads + RandomSource + AllocGlobal + Clone + Drop + Send + 'static,
    I: StdReader,
    O: Write,
    ensures words { 0 < length words.now → EndsWith 1 [] result
        × (input.new ≡ input.old) × (output.new ≡ output.old) }
    ensures none { words.now ≡ [] → EndsWith 0 [] result
        ⊎ EchoFails (HasFailedAt I.fails input.new) (StdWriteHasFailed output.new) result }
    ensures all { result.status ≡ 0 → CameBack (I.remaining input.old) (I.remaining input.new)
        (O.contents output.old) (O.contents output.new) }
{
    if !words.is_empty() {
        return Ended::WRONG_ARGUMENTS;
    }
    match echo_through(rt, alloc, input, output) {
        Ok(()) => Ended::DONE,
        Err(ended) => ended,
    }
}

// Makes the stream, starts the thread that echoes, and talks to it.
fn echo_through<R, I, O>(rt: &R, alloc: Global, input: &mut I, output: &mut O) -> Result<(), Ended>
where
    R: Wait + Threads + RandomSource + AllocGlobal + Clone + Drop + Send + 'static,
    I: StdReader,
    O: Write,
    ensures all { OnOk result (CameBack (I.remaining input.old) (I.remaining input.new)
        (O.contents output.old) (O.contents output.new)) }
    ensures failed { IfErr result (EchoFails (HasFailedAt I.fails input.new)
        (StdWriteHasFailed output.new)) }
{
    let (theirs, first, second) = prepare(rt, alloc)?;
    let child = start(rt, alloc, theirs, second)?;
    let (mut reader, writer) = first.into_halves();
    let printed = exchange(rt, &mut reader, writer, input, output);
    drop(reader);
    child.join(rt);
    printed
}

// A runtime for the thread that echoes, and the ends of a stream. Only memory is asked for.
fn prepare<R: Clone + Drop>(rt: &R, alloc: Global) -> Result<(R, End, End), Ended>
    ensures { IfErr result LacksMemory }
{
    let theirs = wanted(rt.clone())?;
    let (first, second) = wanted(duplex(alloc, CAPACITY, CAPACITY))?;
    Ok((theirs, first, second))
}

// Starts the thread that echoes what comes to this end. Only a thread is asked for.
fn start<R>(rt: &R, alloc: Global, theirs: R, end: End) -> Result<JoinHandle<()>, Ended>
where
    R: Wait + Threads + RandomSource + AllocGlobal + Drop + Send + 'static,
    ensures { IfErr result LacksThread }
{
    let (reader, writer) = end.into_halves();
    let echo = EchoAll::new(alloc, reader, writer);
    let spawned = thread::spawn(rt, move || {
        let _ = block_on(&theirs, echo);
    });
    match spawned {
        Ok(child) => Ok(child),
        Err(_) => reported(Err(Ended::NO_THREAD)),
    }
}

// Sends the input, closes the way there, and prints all that comes back.
fn exchange<R, I, O>(
    rt: &R,
    reader: &mut Reader,
    mut writer: Writer,
    input: &mut I,
    output: &mut O,
) -> Result<(), Ended>
where
    R: Wait + RandomSource + AllocGlobal,
    I: StdReader,
    O: StdWriter,
    requires { O.flushed output.old }
    ensures all { OnOk result (CameBack (I.remaining input.old) (I.remaining input.new)
        (O.contents output.old) (O.contents output.new)) }
    ensures flushed { OnOk result (O.flushed output.new) }
    ensures failed { IfErr result (TalkFails (HasFailedAt I.fails input.new)
        (WriteHasFailed O.fails O.full output.new)) }
{
    let sent = talk(rt, reader, &mut writer, input, output);
    drop(writer);
    print_line(rt, reader, sent?, output)
}
