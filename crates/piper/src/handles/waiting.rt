//! What both handles do at the slots: in their own a task waits, in the other's they wake one.
ghost use Rattle.std.specs.Prelude.{◌≡◌, ◌⊎◌, IsTrue, IsFalse, IfNone, IfSome, true, false};
ghost use Rattle.futures.specs.Task.{Covers, Keeps, Wakes};
ghost use Rattle.piper_ring.specs.Log.{Comes, HasDrawn, IsUndrawn, WakesNext, WasMade, next, now, other, own, then};
ghost use Rattle.piper_ring.specs.SlotsView.{OnlyWaits, Registers, WaitsAsBefore};
ghost use Rattle.piper.specs.Called.{CallsTaken, RegistersTask, TakesOwn, WasCalled, WasLetGo};
ghost use Rattle.piper.specs.Contexts.{LacksWaker, WasAsked};

use futures::task::{Context, Poll, Source, Waker};
use piper_protocol::table::{Action, Found};
use piper_ring::{LeftWakers, Side, SlotEnd};

/// Registers in the side's slot, and reports whether a waker was granted.
#[inline(never)]
pub(crate) fn register<E: SlotEnd>(
    side: &mut Side<E, Waker>,
    source: &Source,
    cx: &mut Context<'_>,
) -> bool
    requires turn { next side.old.log ≡ Action.Register }
    ensures log { Comes (then (now side.old.log) (Found.Granted result)) side.old.log side.new.log }
    ensures covered { Covers cx.new (λ s. s ≡ source.now.id) }
    ensures registered { IsTrue result → Registers side.old.slots side.new.slots
        × RegistersTask side.old.slots side.new.slots cx.old cx.new }
    ensures refused { IsFalse result →
        LacksWaker cx.old cx.new × (side.new.slots.waits ≡ false) }
    ensures kept { Keeps cx.old cx.new }
    ensures waits { OnlyWaits side.old.slots side.new.slots }
    ensures rest { (side.new.end ≡ side.old.end) × (side.new.cells ≡ side.old.cells) }
{
    // A waker of this task that still lies there goes in again: if it were dropped, it would wake
    // the task, and each poll would ask for the next.
    let mut waker = side.cancel();
    ask(source, &mut waker, cx);
    let Some(waker) = waker else {
        side.note(Action::Register, Found::Granted(false));
        return false;
    };
    let None = side.register(waker) else {
        unreachable!()
    };
    true
}

/// Asks for a waker of the task that is polled, which waits at `source`, in place of the one in
/// `waker`: that stays if it is of this task, and else it is woken. If none can be made, the task
/// has asked for another poll.
fn ask(source: &Source, waker: &mut Option<Waker>, cx: &mut Context<'_>)
    ensures covered { Covers cx.new (λ s. s ≡ source.now.id) }
    ensures asked { WasAsked waker.old waker.new cx.old cx.new }
    ensures refused { IfNone waker.new (cx.new.lacks_waker ≡ true) }
    ensures task { IfSome waker.new (λ w. (cx.new.lacks_waker ≡ true) ⊎ Wakes w cx.new) }
    ensures kept { Keeps cx.old cx.new }
{
    let _pending: Poll<()> = cx.register(source, waker);
}

/// Empties the side's own slot after a look that found something, unless it is known to be empty, so
/// that a flowing pipe need not check for it.
#[inline(always)]
pub(crate) fn take_own<E: SlotEnd>(side: &mut Side<E, Waker>)
    requires turn { next side.old.log ≡ Action.Take (own E.READS) }
    requires drawn { HasDrawn side.old.log }
    ensures log { Comes (then (now side.old.log) Found.Nothing) side.old.log side.new.log }
    ensures leaves { side.new.slots ≡ record side.old.slots { waits = false } }
    ensures dropped { TakesOwn WasLetGo E.READS side.old.slots side.new.log }
    ensures rest { (side.new.end ≡ side.old.end) × (side.new.cells ≡ side.old.cells) }
{
    if side.is_waiting() {
        let_own_go(side);
    } else {
        side.own_is_empty();
    }
}

/// Drops a waker that is still registered in the side's slot. That wakes its task, too: it polls
/// once too often.
#[cold]
#[inline(never)]
fn let_own_go<E: SlotEnd>(side: &mut Side<E, Waker>)
    requires turn { next side.old.log ≡ Action.Take (own E.READS) }
    requires drawn { HasDrawn side.old.log }
    requires waits { side.old.slots.waits ≡ true }
    ensures log { Comes (then (now side.old.log) Found.Nothing) side.old.log side.new.log }
    ensures leaves { side.new.slots ≡ record side.old.slots { waits = false } }
    ensures dropped { TakesOwn WasLetGo E.READS side.old.slots side.new.log }
    ensures rest { (side.new.end ≡ side.old.end) × (side.new.cells ≡ side.old.cells) }
{
    if side.is_registered() {
        let_go(side.take_registered());
    }
}

/// Takes whoever is registered in the side's own slot, in a close, and calls its waker.
pub(crate) fn wake_own<E: SlotEnd>(side: &mut Side<E, Waker>)
    requires turn { next side.old.log ≡ Action.Take (own E.READS) }
    requires drawn { HasDrawn side.old.log }
    requires on { WakesNext (now side.old.log) }
    ensures log { Comes (then (now side.old.log) (Found.Waker false)) side.old.log side.new.log }
    ensures called { TakesOwn WasCalled E.READS side.old.slots side.new.log }
    ensures leaves { side.new.slots ≡ record side.old.slots { waits = false } }
    ensures rest { (side.new.end ≡ side.old.end) × (side.new.cells ≡ side.old.cells) }
{
    if let Some(waker) = side.take_own() {
        call(waker);
        side.note(Action::Wake, Found::Nothing);
    }
}

/// Calls a waker that came out of a slot.
pub(crate) fn call(waker: Waker)
    ensures called { WasCalled waker }
    ensures made { WasMade Action.Wake }
{
    waker.wake();
}

/// Drops a waker that came out of a slot, if there is one.
fn let_go(waker: Option<Waker>)
    ensures { IfSome waker WasLetGo }
{
    drop(waker);
}

/// Drops what lay in the slots of a ring that both ends have left.
pub(crate) fn let_left_go(left: LeftWakers<Waker>)
    ensures reader { IfSome left.reader WasLetGo }
    ensures writer { IfSome left.writer WasLetGo }
{
    let LeftWakers { reader, writer } = left;
    let_go(reader);
    let_go(writer);
}

/// Checks after all that this side stored whether the other is registered in its slot, and if so
/// takes it and calls its waker. So a call has none that may wake on the path of a flowing pipe:
/// after one the compiler checks whether it returned.
#[inline(always)]
pub(crate) fn wake_other<E: SlotEnd>(side: &mut Side<E, Waker>)
    requires turn { next side.old.log ≡ Action.Take (other E.READS) }
    requires on { WakesNext (now side.old.log) }
    ensures log { Comes (then (now side.old.log) (Found.Waker false)) side.old.log side.new.log }
    ensures rests { side.new.slots.stored ≡ E.stored_of side.new.end }
    ensures called { CallsTaken side.old.slots side.new.slots }
    ensures own { WaitsAsBefore side.old.slots side.new.slots }
    ensures rest { (side.new.end ≡ side.old.end) × (side.new.cells ≡ side.old.cells) }
{
    if !side.nobody_waits() {
        wake_waiting(side);
    }
}

/// The rest of `wake_other`, if someone waits. It is a function of its own: the path of a flowing
/// pipe stays short.
#[cold]
#[inline(never)]
pub(crate) fn wake_waiting<E: SlotEnd>(side: &mut Side<E, Waker>)
    requires turn { next side.old.log ≡ Action.Take (other E.READS) }
    requires on { WakesNext (now side.old.log) }
    ensures undrawn { IsUndrawn side.new.log }
    ensures log { Comes (then (now side.old.log) (Found.Waker false)) side.old.log side.new.log }
    ensures rests { side.new.slots.stored ≡ E.stored_of side.new.end }
    ensures called { CallsTaken side.old.slots side.new.slots }
    ensures own { WaitsAsBefore side.old.slots side.new.slots }
    ensures rest { (side.new.end ≡ side.old.end) × (side.new.cells ≡ side.old.cells) }
{
    if let Some(waker) = side.take() {
        call(waker);
        side.note(Action::Wake, Found::Nothing);
    }
}
