//! A client of two threads that proves of itself that all bytes arrive in order. The thread that
//! writes hands its last mark back, and by that alone, with no more than the reader in hand, what
//! came is a beginning of what was sent.
ghost use Rattle.std.specs.Prelude.{◌≡◌, ℕ, ◌≤◌, ◌<◌, [], length, take, IfOk, true};
ghost use Rattle.piper.specs.OfReader.{taken};
ghost use Rattle.piper.specs.OfReader as of_reader;
ghost use Rattle.piper.specs.OfWriter.{ring, sent};
ghost use Rattle.example_order.specs.LastMark.{ReportsFront};

use piper::{Reader, WriteMark, Writer, pipe};
use std::alloc::AllocGlobal;
use std::marker::{Send, Sync};
use std::sync::Wait;
use std::thread::{Promise, Threads};
use std::{io, thread};

/// How many bytes the pipe holds: fewer than are sent, so the threads take turns.
const CAPACITY: usize = 4;

/// What the thread that writes promises of its last mark: it is of the pipe that `pipe` is a mark
/// of, and reports a beginning of `bytes`.
#[derive(Drop)]
struct SendsFront {
    pipe: WriteMark,
    bytes: &'static [u8],
}

impl Promise<WriteMark> for SendsFront {
    ghost kept_by = { λ promise last.
        ReportsFront promise.pipe.names last.names promise.bytes.now last.bytes last.shut };
}

/// Publishes `bytes` in order, up to the last or to the pipe's close, and drops the writer. The
/// answer is its last mark.
fn send_all<H: Wait>(rt: &H, mut writer: Writer, bytes: &[u8]) -> WriteMark
    requires { sent writer ≡ [] }
    ensures { ReportsFront (ring writer).names result.names
        bytes.now result.bytes result.shut }
{
    let mut given = 0;
    for _ in rt.forever() {
        given += writer.try_fill(&bytes[given..]);
        if given == bytes.len() || writer.is_closed() {
            break;
        }
        thread::yield_now();
    }
    writer.finish().mark
}

/// Takes bytes to the front of `place` until it is full or the pipe has ended, and returns how
/// many.
#[tactic(auto, using(crate::proofs::Beginnings::front_and_next))]
fn receive_all<H: Wait>(rt: &H, reader: &mut Reader, place: &mut [u8]) -> usize
    requires { taken reader.old ≡ [] }
    ensures count { result ≤ length place.new }
    ensures taken { taken reader.new ≡ take result place.new }
    ensures ring { of_reader.ring reader.new ≡ of_reader.ring reader.old }
{
    let mut came = 0;
    for _ in rt.forever() {
        let is_closed = reader.is_closed();
        let n = reader.try_drain(&mut place[came..]);
        came += n;
        if came == place.len() || (n == 0 && is_closed) {
            break;
        }
        if n == 0 {
            thread::yield_now();
        }
    }
    came
}

/// Sends `bytes` from one thread to another, and returns how many came to the front of `place`.
pub(crate) fn carry_across<H>(rt: &H, bytes: &'static [u8], place: &mut [u8]) -> io::Result<usize>
where
    H: Threads + Wait + Clone + AllocGlobal + Drop + Send + Sync + 'static,
    requires { length bytes.now ≤ length place.old }
    ensures { IfOk result (λ n. take n place.new ≡ take n bytes.now) }
{
    let theirs = rt.clone()?;
    let (mut reader, writer) = pipe(rt.alloc(), CAPACITY)?;
    let promise = SendsFront {
        pipe: writer.mark(),
        bytes,
    };
    let child = thread::spawn_with(rt, promise, move || send_all(&theirs, writer, bytes))?;
    let came = receive_all(rt, &mut reader, place);
    let last = child.join(rt);
    reader.observe(&last);
    Ok(came)
}
