//! How the events of a step are printed.

use crate::reply::Reply;
use piper_machine::Side;
use piper_machine::events::{Event, Seen};
use std::alloc::AllocError;
use std::fmt::Write;

// The side whose event it is. A waker is called on no side.
fn side_of(event: &Event) -> Option<Side> {
    match event {
        Event::Began(side, _, _)
        | Event::Looked(side, _)
        | Event::Closed(side)
        | Event::Registered(side, _)
        | Event::Answered(side, _) => Some(*side),
        Event::Published(_) => Some(Side::Writer),
        Event::Consumed(_) => Some(Side::Reader),
        Event::Woken(_) => None,
    }
}

impl Reply {
    /// Writes the words of the events, joined by spaces, or `-` if there are none.
    pub fn write_events(&mut self, events: &[Event]) -> Result<(), AllocError> {
        let Some((first, rest)) = events.split_first() else {
            return self.write("-");
        };
        self.write_event(first)?;
        for event in rest {
            self.write(" ")?;
            self.write_event(event)?;
        }
        Ok(())
    }

    /// Writes an event on a line of its own, after the letter of its side.
    pub fn write_event_line(&mut self, event: &Event) -> Result<(), AllocError> {
        self.write(match side_of(event) {
            Some(Side::Reader) => "r ",
            Some(Side::Writer) => "w ",
            None => "",
        })?;
        self.write_event(event)?;
        self.write("\n")
    }

    // Writes the word of an event.
    fn write_event(&mut self, event: &Event) -> Result<(), AllocError> {
        match event {
            Event::Began(_, _, _) => self.write("began"),
            Event::Looked(_, Seen::Head(count)) => write!(self.text, "head={count}"),
            Event::Looked(_, Seen::Tail(count)) => write!(self.text, "tail={count}"),
            Event::Looked(_, Seen::Closed(flag)) => write!(self.text, "closed={flag}"),
            Event::Published(bytes) => {
                self.write("published=")?;
                self.write_list(bytes.as_slice())
            }
            Event::Consumed(bytes) => {
                self.write("consumed=")?;
                self.write_list(bytes.as_slice())
            }
            Event::Closed(_) => self.write("closes"),
            Event::Registered(_, waker) => write!(self.text, "registered={waker}"),
            Event::Woken(waker) => write!(self.text, "woken={waker}"),
            Event::Answered(_, answer) => {
                self.write("answer=")?;
                self.write_answer_word(*answer)
            }
        }
    }
}
