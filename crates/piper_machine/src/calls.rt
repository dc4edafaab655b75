//! The calls of the two sides, as they are opened and made step by step.
ghost use Rattle.std.specs.Prelude.{◌≡◌, ◌<◌};
ghost use Rattle.piper_machine.specs.Call.{side_of, kind_of, context_of, waker_of, has_good_draw};

use crate::bytes::Bytes;
use crate::polling::{Context, Luck};
use crate::scripted::{ActList, DestAct, SourceAct};
use piper_protocol::table::{Query, Side};

/// What a side is about.
#[derive(Clone, Copy, Debug, PartialEq, Eq)]
pub enum SideState {
    /// It has no open call.
    Idle,
    /// It is inside a call.
    Busy,
    /// It was dropped.
    Dropped,
}

/// A call. Those that both sides have name their side.
#[derive(Drop)]
pub enum Call {
    /// Asks about the number of unread bytes.
    Query(Side, Query),
    IsClosed(Side),
    /// Polls with a waker.
    Poll(Side, u32, Luck),
    /// Drains at most so many bytes.
    TryDrain(usize),
    PollDrainBytes(u32, Luck, usize),
    /// Drains into a scripted destination.
    PollDrain(u32, Luck, ActList<DestAct>),
    /// Consumes the first bytes of the peeked slice.
    Consume(usize),
    TryFill(Bytes),
    PollFillBytes(u32, Luck, Bytes),
    /// Fills from a scripted source.
    PollFill(u32, Luck, ActList<SourceAct>),
    /// Lends at most so many free places.
    WriteBuf(usize),
    /// Publishes the first bytes of what is lent.
    Produced(usize),
    Close,
    Drop(Side),
}

/// Which call it is, without its arguments.
#[derive(Clone, Copy)]
pub enum Kind {
    Query(Query),
    IsClosed,
    Poll,
    TryDrain,
    PollDrainBytes,
    PollDrain,
    Consume,
    TryFill,
    PollFillBytes,
    PollFill,
    WriteBuf,
    Produced,
    Close,
    Drop,
}

/// One step of a run.
#[derive(Drop)]
pub enum Step {
    /// Opens a call of its side.
    Begin(Call),
    /// Makes the next step of the side's open call.
    Go(Side),
    /// Writes a byte into what is lent, outside any call of the writer.
    Put(usize, u8),
}

/// What an open call of a side holds besides its point.
#[derive(Clone, Copy)]
pub struct OpenCall {
    /// The context of a polling call.
    pub context: Option<Context>,
    /// The waker that the call last took from a slot and has not called.
    pub taken: Option<u32>,
}

impl OpenCall {
    ghost use Rattle.piper_machine.specs.Open.{no_call};

    /// No call is open.
    pub fn none() -> Self
        ensures { result ≡ no_call }
    {
        OpenCall {
            context: None,
            taken: None,
        }
    }
}

impl Call {
    /// The side whose call it is.
    pub fn side(&self) -> Side
        ensures { result ≡ side_of self.now }
    {
        match *self {
            Call::Query(side, _) | Call::IsClosed(side) => side,
            Call::Poll(side, _, _) | Call::Drop(side) => side,
            Call::TryDrain(_) | Call::PollDrainBytes(..) | Call::PollDrain(..) | Call::Consume(_) =>
                Side::Reader,
            Call::TryFill(_) | Call::PollFillBytes(..) | Call::PollFill(..) => Side::Writer,
            Call::WriteBuf(_) | Call::Produced(_) | Call::Close => Side::Writer,
        }
    }

    /// The call without its arguments.
    pub fn kind(&self) -> Kind
        ensures { result ≡ kind_of self.now }
    {
        match *self {
            Call::Query(_, query) => Kind::Query(query),
            Call::IsClosed(_) => Kind::IsClosed,
            Call::Poll(..) => Kind::Poll,
            Call::TryDrain(_) => Kind::TryDrain,
            Call::PollDrainBytes(..) => Kind::PollDrainBytes,
            Call::PollDrain(..) => Kind::PollDrain,
            Call::Consume(_) => Kind::Consume,
            Call::TryFill(_) => Kind::TryFill,
            Call::PollFillBytes(..) => Kind::PollFillBytes,
            Call::PollFill(..) => Kind::PollFill,
            Call::WriteBuf(_) => Kind::WriteBuf,
            Call::Produced(_) => Kind::Produced,
            Call::Close => Kind::Close,
            Call::Drop(_) => Kind::Drop,
        }
    }

    /// The waker that a polling call hands over.
    pub fn waker(&self) -> Option<u32>
        ensures { result ≡ waker_of self.now }
    {
        self.context().map(|cx| cx.waker)
    }

    /// What a polling call is handed beside its side, its bytes or its script.
    pub fn context(&self) -> Option<Context>
        ensures { result ≡ context_of self.now }
    {
        match *self {
            Call::Poll(_, waker, luck)
            | Call::PollDrainBytes(waker, luck, _)
            | Call::PollDrain(waker, luck, _)
            | Call::PollFillBytes(waker, luck, _)
            | Call::PollFill(waker, luck, _) => Some(Context { waker, luck }),
            _ => None,
        }
    }

    /// Whether the draw of a polling call is below 100.
    pub fn has_good_draw(&self) -> bool
        ensures { result ≡ has_good_draw self.now }
    {
        match self.context() {
            Some(cx) => cx.luck.draw < 100,
            None => true,
        }
    }
}
