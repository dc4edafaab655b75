//! A client that sends more than its pipe holds, and proves of itself that all of it arrives: it
//! has both sides of the pipe, and moves the bytes in rounds.
ghost use Rattle.std.specs.Prelude.{◌≡◌, ◌<◌, ◌≤◌, take, length, IfOk};
ghost use Rattle.example_order.specs.Rounds.{IsEmptied};

use piper::{Reader, Writer, pipe};
use std::alloc::Global;
use std::io;

/// How many bytes the pipe holds, and so the most that a round moves.
const CAPACITY: usize = 8;

/// Moves what fits of `bytes` through the pipe, which is empty before and after, to the front of
/// `place`, and returns how many bytes that was. The handles meet before the fill and before the
/// drain: only a meeting promises that the writer knows all room, and the reader all bytes.
fn carry_some(reader: &mut Reader, writer: &mut Writer, bytes: &[u8], place: &mut [u8]) -> usize
    requires emptied { IsEmptied reader.old writer.old }
    requires some { 0 < length bytes.now }
    requires room { length bytes.now ≤ length place.old }
    ensures emptied { IsEmptied reader.new writer.new }
    ensures some { (0 < result) × (result ≤ length bytes.now) }
    ensures came { take result place.new ≡ take result bytes.now }
{
    reader.meet(writer); // the writer learns that all room is free
    writer.try_fill(bytes);
    reader.meet(writer); // the reader learns of all that was published
    reader.try_drain(place)
}

/// Sends what is in `bytes` through a pipe of eight bytes, and returns how many bytes came: all of
/// them, in order, at the front of `place`.
#[tactic(auto, using(crate::proofs::Beginnings::first_and_next, crate::proofs::Beginnings::front_and_next))]
pub(crate) fn carry_in_rounds(alloc: Global, bytes: &[u8], place: &mut [u8]) -> io::Result<usize>
    requires room { length bytes.now ≤ length place.old }
    ensures { IfOk result (λ n. take n place.new ≡ bytes.now) }
{
    let (mut reader, mut writer) = pipe(alloc, CAPACITY)?;
    let mut came = 0;
    while came < bytes.len() {
        let rest = &mut place[came..];
        came += carry_some(&mut reader, &mut writer, &bytes[came..], rest);
    }
    Ok(came)
}
