//! What scripted sources and destinations do, as a script writes it.

use crate::command::{MOST, Refusal};
use crate::list::List;
use crate::number::number;
use crate::stop::Stop;
use piper_machine::scripted::{ActList, DestAct, SourceAct};
use std::alloc::Global;

/// The acts of a source that are written right: their text.
#[derive(Clone, Copy)]
pub struct Sources<'line> {
    text: &'line str,
}

impl<'line> Sources<'line> {
    /// The acts that the text writes, if their lists have at most [`MOST`] bytes together.
    pub fn parse(text: &'line str) -> Result<Sources<'line>, Refusal> {
        if text == "none" {
            return Ok(Sources { text });
        }
        let mut len = 0usize;
        for act in text.split('/') {
            match source_len(act) {
                Ok(count) => len = len.saturating_add(count),
                // A later act may still be no act, which is reported first.
                Err(Refusal::Limit) => len = usize::MAX,
                Err(refusal) => return Err(refusal),
            }
        }
        if len > MOST {
            return Err(Refusal::Limit);
        }
        Ok(Sources { text })
    }

    /// The acts, with bytes of their own.
    pub fn acts(self, alloc: Global) -> Result<ActList<SourceAct>, Stop> {
        let mut acts = ActList::new(alloc);
        if self.text != "none" {
            for act in self.text.split('/') {
                acts.push(source(alloc, act)?)?;
            }
        }
        Ok(acts)
    }
}

// How many bytes an act of a source represents.
fn source_len(text: &str) -> Result<usize, Refusal> {
    if text == "fail" {
        return Ok(0);
    }
    Ok(List::parse(text)?.len)
}

// The act of a source that the text writes.
fn source(alloc: Global, text: &str) -> Result<SourceAct, Stop> {
    if text == "fail" {
        return Ok(SourceAct::Fail);
    }
    Ok(SourceAct::Bytes(List::parse(text)?.bytes(alloc)?))
}

/// The acts of a destination that are written right: their text.
#[derive(Clone, Copy)]
pub struct Dests<'line> {
    text: &'line str,
}

impl<'line> Dests<'line> {
    /// The acts that the text writes.
    pub fn parse(text: &'line str) -> Result<Dests<'line>, Refusal> {
        if text == "none" {
            return Ok(Dests { text });
        }
        let mut is_within = true;
        for act in text.split('/') {
            match dest(act) {
                Ok(_) => {}
                // A later act may still be no act, which is reported first.
                Err(Refusal::Limit) => is_within = false,
                Err(refusal) => return Err(refusal),
            }
        }
        if !is_within {
            return Err(Refusal::Limit);
        }
        Ok(Dests { text })
    }

    /// The acts.
    pub fn acts(self, alloc: Global) -> Result<ActList<DestAct>, Stop> {
        let mut acts = ActList::new(alloc);
        if self.text != "none" {
            for act in self.text.split('/') {
                acts.push(dest(act)?)?;
            }
        }
        Ok(acts)
    }
}

// The act of a destination that the text writes.
fn dest(text: &str) -> Result<DestAct, Refusal> {
    if text == "fail" {
        return Ok(DestAct::Fail);
    }
    Ok(DestAct::Take(number(text, 0, MOST)?))
}
