//! A client that proves of itself that what both handles did, until they met, is one run of the
//! model: so each law of the model holds of it.
ghost use Rattle.std.specs.Prelude.{◌≡◌, ◌<◌, ◌*◌, ◌^◌, IfOk, false, length};
ghost use Rattle.piper_protocol.specs.Told.{have_met};
ghost use Rattle.piper.specs.OfReader.{lines, ring};
ghost use Rattle.piper.specs.OfWriter as of_writer;
ghost use Rattle.example_order.specs.OneRun.{DidOneRun};

use piper::{Reader, Writer, pipe};
use piper_machine::one_run::handles_are_one_run;
use std::alloc::Global;
use std::io;

/// Lets the handles of a pipe meet for the first time.
fn meet_first(reader: &mut Reader, writer: &mut Writer)
    requires pair { of_writer.ring writer.old ≡ ring reader.old }
    requires first { (have_met (lines reader.old) ≡ false)
        × (have_met (of_writer.lines writer.old) ≡ false) }
    ensures { DidOneRun reader.new writer.new }
{
    reader.meet(writer);
    handles_are_one_run();
}

/// Fills a new pipe with `bytes`, and lets its handles meet.
pub(crate) fn fill_and_meet(alloc: Global, bytes: &[u8]) -> io::Result<(Reader, Writer)>
    requires { (0 < length bytes.now) × (2 * length bytes.now < 2 ^ 64) }
    ensures { IfOk result (λ (reader, writer). DidOneRun reader writer) }
{
    let (mut reader, mut writer) = pipe(alloc, bytes.len())?;
    writer.try_fill(bytes);
    meet_first(&mut reader, &mut writer);
    Ok((reader, writer))
}
