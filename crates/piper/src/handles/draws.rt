//! The draw of a polling copy, which makes it yield once in a hundred calls.
ghost use Rattle.std.specs.Prelude.{◌≡◌, ◌↔◌, Bool, IsTrue, IsFalse, true, false};
ghost use Rattle.futures.specs.Task.{Keeps};
ghost use Rattle.piper_ring.specs.Log.{Comes, MayDraw, WasMade, drew, made, next, now, own, then};
ghost use Rattle.piper_ring.specs.SlotsView.{OnlyWaits};
ghost use Rattle.piper.specs.Contexts.{AsksAgain};
ghost use Rattle.piper.specs.Draws.{DrawsYield, drawn_from};

use super::waiting::take_own;
use futures::task::{Context, Poll, Waker};
use piper_protocol::table::{Action, Form, Found};
use piper_ring::{Side, SlotEnd};
use rand_core::utils::NextWord;
use rand_pcg::Pcg32;

/// The form of a copy that waits, before its draw.
pub(crate) const WAITING: Form = Form::Polling { is_drawn: false };

/// Draws after the true look of a polling copy, and empties the side's own slot. If the draw is a
/// yield, the task asks for another poll. Reports whether it is.
#[inline(always)]
pub(crate) fn draw_yield<E: SlotEnd>(
    side: &mut Side<E, Waker>,
    rng: &mut Pcg32,
    cx: &mut Context<'_>,
) -> bool
    requires may { MayDraw side.old.log }
    requires turn { (is_drawn : Bool) →
        next (drew is_drawn side.old.log) ≡ Action.Take (own E.READS) }
    requires drawn { next (made Found.Nothing (drew true side.old.log)) ≡ Action.Yield }
    ensures yields { IsTrue result → AsksAgain cx.new
        × Comes (then (then (now (drew true side.old.log)) Found.Nothing) (Found.Granted true))
        side.old.log side.new.log }
    ensures goes_on { IsFalse result → (cx.new ≡ cx.old)
        × Comes (then (now (drew false side.old.log)) Found.Nothing) side.old.log side.new.log }
    ensures draw { (IsTrue result ↔ DrawsYield rng.old) × (rng.new ≡ drawn_from rng.old) }
    ensures kept { Keeps cx.old cx.new }
    ensures leaves { side.new.slots.waits ≡ false }
    ensures waits { OnlyWaits side.old.slots side.new.slots }
    ensures rest { (side.new.end ≡ side.old.end) × (side.new.cells ≡ side.old.cells) }
{
    let is_drawn = draw(rng);
    side.drew(is_drawn);
    take_own(side);
    if is_drawn {
        ask_again(cx);
        side.note(Action::Yield, Found::Granted(true));
    }
    is_drawn
}

// Asks for another poll, in place of the rounds of a copy.
#[inline(always)]
fn ask_again(cx: &mut Context<'_>)
    ensures again { AsksAgain cx.new }
    ensures made { WasMade Action.Yield }
    ensures kept { Keeps cx.old cx.new }
{
    let _pending: Poll<()> = cx.yield_now();
}

// Takes one word, and reports whether it is 0 modulo 100.
fn draw(rng: &mut Pcg32) -> bool
    ensures yields { IsTrue result ↔ DrawsYield rng.old }
    ensures rest { rng.new ≡ drawn_from rng.old }
{
    rng.next_word() % 100 == 0
}
