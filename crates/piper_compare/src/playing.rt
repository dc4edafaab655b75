//! Scripts on the handles, alone or compared with the machine.

use crate::halt::{Halt, finish};
use crate::hands::Hands;
use crate::random::Drawn;
use crate::twin::{Compared, Difference, Twin};
use piper_script::parser::{Draws, parse};
use piper_script::replay::Ended;
use piper_script::reply::Reply;
use piper_script::stop::Stop;
use piper_script::stream::{Lines, write_reply};
use std::alloc::AllocGlobal;
use std::io::{Read, Write};
use std::random::RandomSource;

/// The seed of the generators where a script is read.
const SEED: u64 = 1;

/// What came of scripts.
enum Played {
    /// They were played to their end, and nothing differed.
    Whole,
    /// A line was refused.
    Refused,
    Differ(Difference),
}

/// How a program ends by what came of its scripts, or what stopped it.
fn end_of(played: Result<Played, Stop>) -> Ended {
    match played {
        Ok(Played::Whole) => Ended::DONE,
        Ok(Played::Refused) => Ended::REFUSED,
        Ok(Played::Differ(difference)) => difference.ended(),
        Err(stop) => Ended::from(stop),
    }
}

/// Plays the script that `input` gives on the handles, and writes what it prints to `output`. The
/// status is 1 where a line was refused.
pub fn play_on_handles<H, I: Read, O: Write>(rt: &H, input: &mut I, output: &mut O) -> Ended
where
    H: RandomSource + AllocGlobal + Clone + Drop,
{
    end_of(play_handles(rt, input, output))
}

/// Plays the script that `input` gives on the handles and on the machine, and writes what both
/// print to `output`, or where they differ. The status is 1 where a line was refused, and where
/// they differ.
pub fn play_on_both<H, I: Read, O: Write>(rt: &H, input: &mut I, output: &mut O) -> Ended
where
    H: RandomSource + AllocGlobal + Clone + Drop,
{
    end_of(play_twin(rt, input, output))
}

/// Plays `count` scripts that are drawn from `seed` on the handles and on the machine, and writes
/// the first difference to `output`, or how many lines were played. The status is 1 where they
/// differ.
pub fn play_drawn_on_both<H, O: Write>(rt: &H, seed: u64, count: u64, output: &mut O) -> Ended
where
    H: RandomSource + AllocGlobal + Clone + Drop,
{
    end_of(draw_twin(rt, seed, count, output))
}

// Plays a script on the handles.
fn play_handles<H, I: Read, O: Write>(rt: &H, input: &mut I, output: &mut O) -> Result<Played, Stop>
where
    H: RandomSource + AllocGlobal + Clone + Drop,
{
    let mut lines = Lines::new(rt.alloc(), input)?;
    let mut hands = Hands::new(rt.clone().map_err(|_| Stop::Memory)?, SEED);
    let mut reply = Reply::new(rt.alloc());
    play_each(&mut lines, &mut hands, &mut reply, output)
}

// Plays each line on the handles, and writes the reply.
fn play_each<H, I: Read, O: Write>(
    lines: &mut Lines<'_, I>,
    hands: &mut Hands<H>,
    reply: &mut Reply,
    output: &mut O,
) -> Result<Played, Stop>
where
    H: RandomSource + AllocGlobal + Drop,
{
    for number in 1..u64::MAX {
        if !lines.next()? {
            break;
        }
        let line = lines.line();
        reply.clear();
        let played = match parse(hands.alloc(), line, Draws::ONES) {
            Ok(None) => continue,
            Ok(Some(command)) => hands.play(&command, reply),
            Err(stop) => Err(Halt::from(stop)),
        };
        let is_refused = finish(played, number, reply)?;
        write_reply(reply, output)?;
        if is_refused {
            return Ok(Played::Refused);
        }
    }
    Ok(Played::Whole)
}

// Plays a script on both, and tells where the answers differ.
fn play_twin<H, I: Read, O: Write>(rt: &H, input: &mut I, output: &mut O) -> Result<Played, Stop>
where
    H: RandomSource + AllocGlobal + Clone + Drop,
{
    let mut lines = Lines::new(rt.alloc(), input)?;
    let mut twin = Twin::new(rt.clone().map_err(|_| Stop::Memory)?, SEED);
    compare_each(&mut lines, &mut twin, output)
}

// Plays each line on both, and tells the first difference.
fn compare_each<H, I: Read, O: Write>(
    lines: &mut Lines<'_, I>,
    twin: &mut Twin<H>,
    output: &mut O,
) -> Result<Played, Stop>
where
    H: RandomSource + AllocGlobal + Clone + Drop,
{
    for number in 1..u64::MAX {
        if !lines.next()? {
            break;
        }
        let line = lines.line();
        match twin.play(number, line)? {
            Compared::Silent => {}
            Compared::Alike => write_reply(&twin.handles, output)?,
            Compared::Refused => {
                write_reply(&twin.handles, output)?;
                return Ok(Played::Refused);
            }
            Compared::Differ(difference) => {
                let told = tell(difference, None, twin, number, line, output);
                return Ok(Played::Differ(told));
            }
        }
    }
    Ok(Played::Whole)
}

// Writes where they differ, in the script of that seed, if it was drawn.
fn tell<H, O: Write>(
    difference: Difference,
    seed: Option<u64>,
    twin: &Twin<H>,
    number: u64,
    line: &[u8],
    output: &mut O,
) -> Difference
where
    H: RandomSource + AllocGlobal + Clone + Drop,
{
    difference.told(write_difference(seed, twin, number, line, output))
}

fn write_difference<H, O: Write>(
    seed: Option<u64>,
    twin: &Twin<H>,
    number: u64,
    line: &[u8],
    output: &mut O,
) -> Result<(), Stop>
where
    H: RandomSource + AllocGlobal + Clone + Drop,
{
    if let Some(seed) = seed {
        write!(output, "seed {seed}, ").map_err(|_| Stop::Write)?;
    }
    write!(output, "line {number}: ").map_err(|_| Stop::Write)?;
    output.write_all(line).map_err(|_| Stop::Write)?;
    write!(output, "\nmachine: ").map_err(|_| Stop::Write)?;
    write_reply(&twin.machine, output)?;
    write!(output, "handles: ").map_err(|_| Stop::Write)?;
    write_reply(&twin.handles, output)
}

// Plays so many drawn scripts on both, and tells the first difference.
fn draw_twin<H, O: Write>(rt: &H, seed: u64, count: u64, output: &mut O) -> Result<Played, Stop>
where
    H: RandomSource + AllocGlobal + Clone + Drop,
{
    let mut lines = 0u64;
    for index in 0..count {
        match play_drawn(rt, seed.wrapping_add(index), &mut lines, output)? {
            Some(difference) => return Ok(Played::Differ(difference)),
            None => {}
        }
    }
    writeln!(output, "{count} scripts, {lines} lines: no difference").map_err(|_| Stop::Write)?;
    Ok(Played::Whole)
}

// Plays the script that is drawn from the seed, and counts its lines, up to the first that differs.
fn play_drawn<H, O: Write>(
    rt: &H,
    seed: u64,
    lines: &mut u64,
    output: &mut O,
) -> Result<Option<Difference>, Stop>
where
    H: RandomSource + AllocGlobal + Clone + Drop,
{
    let mut drawn = Drawn::new(seed);
    let mut twin = Twin::new(rt.clone().map_err(|_| Stop::Memory)?, seed);
    let mut line = String::new(rt.alloc());
    let count = 20 + u64::from(drawn.below(60));
    for number in 1..count + 1 {
        draw_line(&mut drawn, number, &mut line)?;
        match twin.play(number, line.as_bytes())? {
            Compared::Differ(difference) => {
                let line = line.as_bytes();
                let told = tell(difference, Some(seed), &twin, number, line, output);
                return Ok(Some(told));
            }
            Compared::Silent | Compared::Alike | Compared::Refused => {}
        }
        *lines = lines.saturating_add(1);
    }
    Ok(None)
}

// Draws the line of that number: the first makes a pipe.
fn draw_line(drawn: &mut Drawn, number: u64, line: &mut String) -> Result<(), Stop> {
    line.clear();
    if number == 1 {
        drawn.write_pipe(line)?;
    } else {
        drawn.write_line(line)?;
    }
    Ok(())
}
