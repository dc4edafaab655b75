//! The look of a call that waits: it registers if there is nothing to do, and looks once more.
ghost use Rattle.std.specs.Prelude.{◌≡◌, IfOk, OnErr, false, length};
ghost use Rattle.futures.specs.Task.{Keeps};
ghost use Rattle.piper_protocol.specs.Table.{goes_on, reader_found, writer_found};
ghost use Rattle.piper_ring.specs.Log.{Comes, IsUndrawn, now};
ghost use Rattle.piper_ring.specs.Looks.{ReaderIsUpToDate, ReaderLooked, WriterIsUpToDate, WriterLooked, WriterSees};
ghost use Rattle.piper_ring.specs.SlotsView.{OnlyWaits, Registers};
ghost use Rattle.piper.specs.Contexts.{LacksWaker};
ghost use Rattle.piper.specs.Looks.{IfPending, ReaderWaited, WriterWaited};
ghost use Rattle.piper.specs.Runs.{wait_next};

use crate::handles::waiting::register;
use crate::handles::{Reader, Writer};
use futures::task::{Context, Source, Waker};
use piper_protocol::table::{Point, Purpose, ReadPoint, WritePoint};
use piper_ring::{Look, OutOfMemory, ReadSide, WriteSide};

impl Reader {
    ghost use Rattle.piper.specs.Waits.{ReaderPendsAt};

    /// The rest of a look that waits, if no byte was found.
    #[inline(never)]
    pub(crate) fn look_waiting(
        side: &mut ReadSide<Waker>,
        source: &Source,
        purpose: Purpose,
        cx: &mut Context<'_>,
    ) -> Result<Look, OutOfMemory>
        requires at { now side.old.log ≡ goes_on (Point.Reader (ReadPoint.LookRegister purpose)) }
        requires none { length side.old.end.known ≡ 0 }
        requires fresh { ReaderIsUpToDate side.old.end }
        ensures undrawn { IfOk result (λ _. IsUndrawn side.new.log) }
        ensures log { Comes (wait_next result purpose (Point.Reader (reader_found purpose)))
            side.old.log side.new.log }
        ensures answer { ReaderWaited result side.new.end }
        ensures pending { IfPending result (ReaderPendsAt source.now.id side.old.slots side.new.end
            side.new.slots cx.old cx.new) }
        ensures refused { OnErr result
            (LacksWaker cx.old cx.new × (side.new.slots.waits ≡ false)) }
        ensures registered { IfOk result (λ _. Registers side.old.slots side.new.slots) }
        ensures looked { ReaderLooked side.old.end side.new.end }
        ensures rest { OnlyWaits side.old.slots side.new.slots × (side.new.cells ≡ side.old.cells) }
        ensures kept { Keeps cx.old cx.new }
    {
        if !register(side, source, cx) {
            return Err(OutOfMemory);
        }
        Ok(side.look_again(purpose))
    }
}

impl Writer {
    ghost use Rattle.piper.specs.Waits.{WriterPendsAt};

    /// The rest of a look that waits, if the pipe is open and no room was found.
    #[inline(never)]
    pub(crate) fn look_waiting(
        side: &mut WriteSide<Waker>,
        source: &Source,
        purpose: Purpose,
        cx: &mut Context<'_>,
    ) -> Result<Look, OutOfMemory>
        requires at { now side.old.log ≡ goes_on (Point.Writer (WritePoint.LookRegister purpose)) }
        requires none { WriterSees Look.NotReady side.old.end }
        requires fresh { WriterIsUpToDate side.old.end }
        ensures undrawn { IfOk result (λ _. IsUndrawn side.new.log) }
        ensures log { Comes (wait_next result purpose (Point.Writer (writer_found purpose)))
            side.old.log side.new.log }
        ensures answer { WriterWaited result side.new.end }
        ensures pending { IfPending result (WriterPendsAt source.now.id side.old.slots side.new.end
            side.new.slots cx.old cx.new) }
        ensures refused { OnErr result
            (LacksWaker cx.old cx.new × (side.new.slots.waits ≡ false)) }
        ensures registered { IfOk result (λ _. Registers side.old.slots side.new.slots) }
        ensures looked { WriterLooked side.old.end side.new.end }
        ensures rest { OnlyWaits side.old.slots side.new.slots × (side.new.cells ≡ side.old.cells) }
        ensures kept { Keeps cx.old cx.new }
    {
        if !register(side, source, cx) {
            return Err(OutOfMemory);
        }
        Ok(side.look_again(purpose))
    }
}
