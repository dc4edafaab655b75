//! From the bytes of a line to the command that they say.

ghost use Rattle.std.specs.Prelude.{IfOk, IfSome};
ghost use Rattle.piper_script.specs.Played.{IsInLimits};

use crate::acts::{Dests, Sources};
use crate::command::{Command, MOST, Refusal, Steps};
use crate::list::List;
use crate::number::{both, byte, name, number};
use crate::stop::Stop;
use piper_machine::calls::{Call, Step};
use piper_machine::polling::Luck;
use piper_machine::{Query, Side};
use std::alloc::Global;
use std::str;

/// The most bytes of a line, without the LF that ends it.
pub const MOST_OF_A_LINE: usize = 65_536;

/// The numbers that copies of the two sides draw if their line names none.
#[derive(Clone, Copy)]
pub struct Draws {
    pub reader: u32,
    pub writer: u32,
}

impl Draws {
    /// What the language says: no copy yields unless its line says so.
    pub const ONES: Draws = Draws {
        reader: 1,
        writer: 1,
    };
}

/// The command of a line, or `None` if the line is empty or a comment.
///
/// A line that is no command, or past a limit, is refused before memory is asked for.
pub fn parse(alloc: Global, line: &[u8], draws: Draws) -> Result<Option<Command>, Stop>
    ensures { IfOk result (λ said. IfSome said IsInLimits) }
{
    if line.len() > MOST_OF_A_LINE {
        return Err(Refusal::Limit.into());
    }
    if is_silent(line) {
        return Ok(None);
    }
    let text = str::from_utf8(line).map_err(|_| Refusal::Syntax)?;
    Ok(Some(Parser { alloc, draws }.command(text)?))
}

/// Whether the line is empty or a comment.
pub fn is_silent(line: &[u8]) -> bool {
    line.is_empty() || line.first() == Some(&b'#')
}

/// The side whose call a `begin` line opens, whatever the numbers and lists in it.
pub fn begins_for(line: &[u8]) -> Option<Side> {
    let text = str::from_utf8(line).ok()?;
    let (name, arguments) = first_word(text.strip_prefix("begin ")?);
    match name {
        "fill" | "pollfill" | "fillfrom" | "lend" | "produced" | "close" => Some(Side::Writer),
        "drain" | "polldrain" | "drainto" | "consume" => Some(Side::Reader),
        "len" | "empty" | "full" | "closed" | "poll" | "drop" => side(first_word(arguments).0).ok(),
        _ => None,
    }
}

// The text before the first space, and what follows that.
fn first_word(text: &str) -> (&str, &str) {
    text.split_once(' ').unwrap_or((text, ""))
}

/// What parsing needs beside the text.
#[derive(Clone, Copy)]
struct Parser {
    alloc: Global,
    draws: Draws,
}

impl Parser {
    fn command(self, text: &str) -> Result<Command, Stop>
        ensures { IfOk result IsInLimits }
    {
        if text == "peek" {
            return Ok(Command::Peek);
        }
        match first_word(text) {
            ("pipe", capacity) => Ok(Command::Pipe(number(capacity, 1, MOST)?)),
            ("put", arguments) => Ok(put(arguments)?),
            ("go", arguments) => Ok(go(arguments)?),
            ("begin", call) => Ok(Command::Step(Step::Begin(self.call(call)?))),
            _ => Ok(Command::Whole(self.call(text)?)),
        }
    }

    fn call(self, text: &str) -> Result<Call, Stop> {
        if text == "close" {
            return Ok(Call::Close);
        }
        let (name, arguments) = text.split_once(' ').ok_or(Refusal::Syntax)?;
        Ok(match name {
            "len" => Call::Query(side(arguments)?, Query::Len),
            "empty" => Call::Query(side(arguments)?, Query::IsEmpty),
            "full" => Call::Query(side(arguments)?, Query::IsFull),
            "closed" => Call::IsClosed(side(arguments)?),
            "drop" => Call::Drop(side(arguments)?),
            "drain" => Call::TryDrain(number(arguments, 0, MOST)?),
            "consume" => Call::Consume(number(arguments, 0, MOST)?),
            "lend" => Call::WriteBuf(number(arguments, 0, MOST)?),
            "produced" => Call::Produced(number(arguments, 0, MOST)?),
            "fill" => Call::TryFill(List::parse(arguments)?.bytes(self.alloc)?),
            "poll" => poll(arguments)?,
            "pollfill" => self.poll_fill(arguments)?,
            "polldrain" => self.poll_drain(arguments)?,
            "fillfrom" => self.fill_from(arguments)?,
            "drainto" => self.drain_to(arguments)?,
            _ => return Err(Refusal::Syntax.into()),
        })
    }

    fn poll_fill(self, arguments: &str) -> Result<Call, Stop> {
        let (waker, list, luck) = two_words(arguments, self.draws.writer)?;
        let (waker, (list, luck)) = both(name(waker), both(List::parse(list), luck))?;
        Ok(Call::PollFillBytes(waker, luck, list.bytes(self.alloc)?))
    }

    fn poll_drain(self, arguments: &str) -> Result<Call, Refusal> {
        let (waker, most, luck) = two_words(arguments, self.draws.reader)?;
        let (waker, (most, luck)) = both(name(waker), both(number(most, 0, MOST), luck))?;
        Ok(Call::PollDrainBytes(waker, luck, most))
    }

    fn fill_from(self, arguments: &str) -> Result<Call, Stop> {
        let (waker, sources, luck) = two_words(arguments, self.draws.writer)?;
        let (waker, (sources, luck)) = both(name(waker), both(Sources::parse(sources), luck))?;
        Ok(Call::PollFill(waker, luck, sources.acts(self.alloc)?))
    }

    fn drain_to(self, arguments: &str) -> Result<Call, Stop> {
        let (waker, dests, luck) = two_words(arguments, self.draws.reader)?;
        let (waker, (dests, luck)) = both(name(waker), both(Dests::parse(dests), luck))?;
        Ok(Call::PollDrain(waker, luck, dests.acts(self.alloc)?))
    }
}

fn put(arguments: &str) -> Result<Command, Refusal>
    ensures { IfOk result IsInLimits }
{
    let (offset, value) = arguments.split_once(' ').ok_or(Refusal::Syntax)?;
    let (offset, value) = both(number(offset, 0, MOST), byte(value))?;
    Ok(Command::Step(Step::Put(offset, value)))
}

fn go(arguments: &str) -> Result<Command, Refusal>
    ensures { IfOk result IsInLimits }
{
    let Some((mover, count)) = arguments.split_once(' ') else {
        return Ok(Command::Go(side(arguments)?, Steps::Count(1)));
    };
    let mover = side(mover)?;
    if count == "end" {
        return Ok(Command::Go(mover, Steps::ToAnswer));
    }
    Ok(Command::Go(mover, Steps::Count(number(count, 1, MOST)?)))
}

fn poll(arguments: &str) -> Result<Call, Refusal> {
    let (looker, waker, luck) = two_words(arguments, 1)?;
    let looker = side(looker)?;
    let (waker, luck) = both(name(waker), luck)?;
    Ok(Call::Poll(looker, waker, luck))
}

type TwoWords<'line> = (&'line str, &'line str, Result<Luck, Refusal>);

// Two words, and the luck that the words after them say, or with `draw` if there are none.
fn two_words(arguments: &str, draw: u32) -> Result<TwoWords<'_>, Refusal> {
    let (first, rest) = arguments.split_once(' ').ok_or(Refusal::Syntax)?;
    Ok(match rest.split_once(' ') {
        Some((second, words)) => (first, second, luck(words, draw)),
        None => (first, rest, Ok(granted(draw))),
    })
}

fn granted(draw: u32) -> Luck {
    Luck {
        draw,
        register_granted: true,
        yield_granted: true,
    }
}

// The luck that these words say, with `draw` if they name no other number.
fn luck(words: &str, draw: u32) -> Result<Luck, Refusal> {
    let Some(drawn) = words.strip_prefix("draw=") else {
        return denied(words, draw);
    };
    match drawn.split_once(' ') {
        None => Ok(granted(name(drawn)?)),
        Some((drawn, words)) => {
            let (draw, luck) = both(name(drawn), denied(words, draw))?;
            Ok(Luck { draw, ..luck })
        }
    }
}

// The luck by which memory is denied as these words say.
fn denied(words: &str, draw: u32) -> Result<Luck, Refusal> {
    let (register_granted, yield_granted) = match words {
        "noregister" => (false, true),
        "noyield" => (true, false),
        "noregister noyield" => (false, false),
        _ => return Err(Refusal::Syntax),
    };
    Ok(Luck {
        draw,
        register_granted,
        yield_granted,
    })
}

fn side(text: &str) -> Result<Side, Refusal> {
    match text {
        "r" => Ok(Side::Reader),
        "w" => Ok(Side::Writer),
        _ => Err(Refusal::Syntax),
    }
}
