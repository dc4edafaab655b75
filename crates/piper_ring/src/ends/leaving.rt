//! The ends once they closed the ring and are about to leave. The second one to leave frees the
//! memory.
ghost use Rattle.std.specs.Prelude.{◌≡◌, ◌*◌, ◌<◌, ◌^◌, length, true, false, IfSome};
ghost use Rattle.piper_ring.specs.Cells.{AreCellsOf, GetsLeft};
ghost use Rattle.piper_ring.specs.Loads.{FoundGone};
ghost use Rattle.piper_ring.specs.Shared.{flag};
ghost use Rattle.piper_ring.specs.Stretches.{IsBlankFrom};

use crate::ends::cells::{LeftWakers, WakerCells, take_out};
use crate::ring::memory::block_size;
use crate::ring::places::Blank;
use crate::ring::remains::Remains;
use crate::ring::seats::{ReadSeat, WriteSeat};
use piper_cells::lent_space::{Lease, Placed};
use std::alloc::Global;

/// The reader's end, which has closed the ring. The places of the bytes that it knew of go to
/// whoever frees them.
pub(crate) struct LeavingReader {
    pub(crate) seat: ReadSeat,
    pub(crate) known: Blank,
    pub(crate) lease: Lease,
    pub(crate) alloc: Global,
    pub(crate) capacity: usize,
    ghost closed: { seat.leaving ≡ true },
    ghost fits: { capacity ≡ seat.names.capacity },
    ghost placed: { IsBlankFrom seat.at seat.names.capacity seat.head seat.seen known },
    ghost leased: { (lease.life ≡ seat.names.life) × (lease.first ≡ true) },
}

impl LeavingReader {
    /// Leaves, and frees the memory if the writer has left. With it comes what is left in the slots
    /// then, if the cells are handed over.
    pub(crate) fn leave<T>(self, cells: Option<&Placed<WakerCells<T>>>) -> LeftWakers<T>
        requires { IfSome cells (λ c. AreCellsOf self.seat.names c.now) }
        ensures { IfSome cells.entry (λ _. GetsLeft self.seat.names result) }
    {
        let LeavingReader {
            seat,
            known,
            lease,
            alloc,
            capacity,
        } = self;
        let (found, remains) = seat.leave(known, lease);
        release(found, remains, alloc, capacity, cells)
    }
}

/// The writer's end, which has closed the ring. The places of its room go to whoever frees them.
pub(crate) struct LeavingWriter {
    pub(crate) seat: WriteSeat,
    pub(crate) room: Blank,
    pub(crate) lease: Lease,
    pub(crate) alloc: Global,
    pub(crate) capacity: usize,
    ghost closed: { seat.shut ≡ true },
    ghost fits: { capacity ≡ seat.names.capacity },
    ghost placed: { IsBlankFrom seat.at seat.names.capacity (length seat.sent) seat.limit room },
    ghost leased: { (lease.life ≡ seat.names.life) × (lease.first ≡ false) },
}

impl LeavingWriter {
    /// Leaves, and frees the memory if the reader has left. With it comes what is left in the slots
    /// then, if the cells are handed over.
    pub(crate) fn leave<T>(self, cells: Option<&Placed<WakerCells<T>>>) -> LeftWakers<T>
        requires { IfSome cells (λ c. AreCellsOf self.seat.names c.now) }
        ensures { IfSome cells.entry (λ _. GetsLeft self.seat.names result) }
    {
        let LeavingWriter {
            seat,
            room,
            lease,
            alloc,
            capacity,
        } = self;
        let (found, remains) = seat.leave(room, lease);
        release(found, remains, alloc, capacity, cells)
    }
}

/// Frees what an end got when it left: all of the memory if `found` is 1, else nothing. With it
/// comes what is left in the slots: the other end may have registered after this one looked for it.
fn release<T>(
    found: u64,
    remains: Remains,
    alloc: Global,
    capacity: usize,
    cells: Option<&Placed<WakerCells<T>>>,
) -> LeftWakers<T>
    requires remains { (found ≡ flag remains.last) × FoundGone remains.names found
        × (capacity ≡ remains.names.capacity) × (2 * capacity < 2 ^ 64) }
    requires cells { IfSome cells (λ c. AreCellsOf remains.names c.now) }
    ensures { IfSome cells.entry (λ _. GetsLeft remains.names result) }
{
    if found == 0 {
        remains.finish();
        return LeftWakers::none();
    }
    let (frame, lender, first, second, reader, mut reader_right, writer, mut writer_right) =
        remains.into_parts();
    let left = match cells {
        None => LeftWakers::none(),
        Some(cells) => {
            let cells = cells.get(&first);
            LeftWakers {
                reader: take_out(cells, reader, &mut reader_right),
                writer: take_out(cells, writer, &mut writer_right),
            }
        }
    };
    let space = lender.take_back(first, second);
    frame.join(space).surrender(&alloc, block_size(capacity));
    left
}
