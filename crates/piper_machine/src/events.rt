//! What happens in a run, and the log that keeps it.
ghost use Rattle.std.specs.Prelude.{◌≡◌, ◌<◌, ◌≤◌, ◌+◌, ◌++◌, [], OnOk, IfErr, vec_len, vec_capacity};
ghost use Rattle.piper_protocol.specs.Reported.{HasFailed};
ghost use Rattle.piper_machine.specs.Log.{listed, answer_event};

use crate::bytes::Bytes;
use crate::calls::Kind;
use piper_protocol::answer::Answer;
use piper_protocol::memory::OutOfMemory;
use piper_protocol::table::Side;
use std::alloc::Global;

/// What a load found: the number of unread bytes at that moment, or the closed flag.
#[derive(Clone, Copy)]
pub enum Seen {
    /// The head was loaded.
    Head(usize),
    /// The tail was loaded.
    Tail(usize),
    /// The closed flag was loaded.
    Closed(bool),
}

/// What a step did that the other side, or the caller, can notice.
#[derive(Drop)]
pub enum Event {
    /// A call was opened, with the waker handed to it.
    Began(Side, Kind, Option<u32>),
    /// A side loaded an index or the closed flag, and found this.
    Looked(Side, Seen),
    /// The writer stored tail past these bytes.
    Published(Bytes),
    /// The reader stored head past these bytes.
    Consumed(Bytes),
    /// A side stored the closed flag.
    Closed(Side),
    /// A side put this waker into its slot.
    Registered(Side, u32),
    /// This waker was called.
    Woken(u32),
    /// The call of a side returned this.
    Answered(Side, Answer),
}

/// What happened, oldest first.
#[derive(Drop)]
pub struct Log {
    pub(crate) items: Vec<Event>,
}

impl Log {
    ghost use Rattle.piper_machine.specs.Log.{events, listed, HasRoom};

    /// Nothing has happened yet.
    pub fn new(alloc: Global) -> Self
        ensures { events result ≡ [] }
    {
        Log {
            items: Vec::new(alloc),
        }
    }

    /// The events, oldest first.
    pub fn events(&self) -> &[Event]
        ensures { result.now ≡ events self.now }
    {
        &self.items
    }

    /// Makes room for the events of one step.
    pub fn reserve(&mut self) -> Result<(), OutOfMemory>
        ensures ok { OnOk result (HasRoom self.new) }
        ensures same { events self.new ≡ events self.old }
        ensures refused { IfErr result HasFailed }
    {
        self.items.reserve(2)?;
        Ok(())
    }

    /// Adds the events of one step, for which room was made before.
    ///
    /// Requires: room was made for two events.
    pub fn add(&mut self, first: Option<Event>, second: Option<Event>)
        requires { HasRoom self.old }
        ensures { events self.new ≡ events self.old ++ (listed first ++ listed second) }
    {
        self.push(first);
        self.push(second);
    }

    fn push(&mut self, event: Option<Event>)
        requires { vec_len self.old.items < vec_capacity self.old.items }
        ensures items { events self.new ≡ events self.old ++ listed event }
        ensures len { vec_len self.new.items ≤ vec_len self.old.items + 1 }
        ensures capacity { vec_capacity self.old.items ≤ vec_capacity self.new.items }
    {
        if let Some(event) = event {
            if self.items.push(event).is_err() {
                unreachable!()
            }
        }
    }
}

/// The event of an answer, if there is one.
pub fn answered(side: Side, answer: Option<Answer>) -> Option<Event>
    ensures { listed result ≡ answer_event side answer }
{
    match answer {
        Some(answer) => Some(Event::Answered(side, answer)),
        None => None,
    }
}
