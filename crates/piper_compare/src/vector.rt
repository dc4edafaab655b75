//! A stored script with its answers, and its replay.
ghost use Rattle.std.specs.Prelude.{IfOk, IsTrue, ◌↔◌};
ghost use Rattle.piper_compare.specs.Answers.{GivesAnswers};

use crate::playing::{play_on_both, play_on_handles};
use anyhow::Context;
use piper_script::replay::{self, Ended};
use serde_json::Value;
use std::alloc::{AllocGlobal, Global};
use std::random::RandomSource;
use std::{io, str};

/// A script, what it prints, and how its replay ends.
#[derive(Clone, Copy)]
pub(crate) struct Vector<'json> {
    /// What the script shows, unless it was drawn at random.
    pub(crate) what: Option<&'json str>,
    script: &'json str,
    output: &'json str,
    status: u64,
    /// What is written to standard error, without its LF.
    stderr: &'json str,
}

impl Vector<'_> {
    /// The script that a line of a file has, if no member is missing.
    pub(crate) fn of(line: &Value) -> Option<Vector<'_>> {
        Some(Vector {
            what: text_of(line, "what"),
            script: text_of(line, "script")?,
            output: text_of(line, "output")?,
            status: line.get("status")?.as_u64()?,
            stderr: text_of(line, "stderr").unwrap_or(""),
        })
    }

    // Whether a replay that printed this, and ended so, gave just the answers that it should.
    fn is_answered(&self, ended: Ended, printed: &[u8]) -> bool
        ensures { IsTrue result ↔ GivesAnswers self.now ended printed.now }
    {
        printed == self.output.as_bytes()
            && u64::from(ended.status) == self.status
            && ended.text == self.stderr
    }
}

/// A member that is a text, if it is there.
fn text_of<'json>(line: &'json Value, name: &str) -> Option<&'json str> {
    line.get(name)?.as_str()
}

/// The arguments of the command line: none where the member is absent.
pub(crate) fn arguments_of(alloc: Global, line: &Value) -> Result<Vec<String>, anyhow::Error> {
    let mut arguments = Vec::new(alloc);
    if let Some(words) = line.get("arguments") {
        for word in words.as_array().context("arguments are no array")? {
            let word = word.as_str().context("an argument is no text")?;
            arguments.push(String::from_str(alloc, word)?)?;
        }
    }
    Ok(arguments)
}

/// How far the handles played a script, and answered as the machine does.
#[derive(Clone, Copy)]
pub(crate) enum Replayed {
    ToItsEnd,
    /// Up to a line that only the machine plays.
    Begun,
    /// The script is for another mode.
    Not,
    Otherwise,
}

/// Where a replay gives something else than it should.
#[derive(Drop)]
struct DifferentLine<'text> {
    /// The number of the first output line that differs.
    line: usize,
    wanted: &'text str,
    given: &'text str,
}

/// The first line in which the two texts differ, if there is one.
fn first_difference<'text>(wanted: &'text str, given: &'text str) -> Option<DifferentLine<'text>> {
    let mut wanted = wanted.split('\n');
    let mut given = given.split('\n');
    for line in 1..usize::MAX {
        match (wanted.next(), given.next()) {
            (None, None) => break,
            (Some(wanted), Some(given)) if wanted == given => {}
            (wanted, given) => {
                return Some(DifferentLine {
                    line,
                    wanted: wanted.unwrap_or("no line"),
                    given: given.unwrap_or("no line"),
                });
            }
        }
    }
    None
}

/// Whether a script gave the answers that it should; if not, reports what differs.
fn is_alike(rt: &HostRuntime, vector: &Vector<'_>, ended: Ended, output: &[u8]) -> io::Result<bool>
    ensures { IfOk result (λ alike. IsTrue alike ↔ GivesAnswers vector.now ended output.now) }
{
    if vector.is_answered(ended, output) {
        return Ok(true);
    }
    let given = str::from_utf8(output).unwrap_or("no text");
    match first_difference(vector.output, given) {
        Some(difference) => report_difference(rt, &difference)?,
        None => report_end(rt, vector, ended)?,
    }
    Ok(false)
}

fn report_end(rt: &HostRuntime, vector: &Vector<'_>, ended: Ended) -> io::Result<()> {
    println!(rt;
        "status {} {} in place of {} {}",
        ended.status, ended.text, vector.status, vector.stderr
    )
}

fn report_difference(rt: &HostRuntime, difference: &DifferentLine<'_>) -> io::Result<()> {
    println!(rt;
        "output line {}: {} in place of {}",
        difference.line, difference.given, difference.wanted
    )
}

/// Whether a script gives the answers that it should.
pub(crate) fn gives_its_answers<H>(
    rt: &HostRuntime,
    hands: &H,
    vector: &Vector<'_>,
    arguments: &[String],
) -> Result<bool, anyhow::Error>
where
    H: RandomSource + AllocGlobal + Clone + Drop,
{
    let mut output = Vec::new(rt.alloc());
    let mut input = vector.script.as_bytes();
    let word = arguments.first().map_or("", |word| word.as_str());
    let ended = match (word, arguments.len()) {
        ("handles", 1) => play_on_handles(hands, &mut input, &mut output),
        ("twin", 1) => play_on_both(hands, &mut input, &mut output),
        _ => replay::replay(rt.alloc(), arguments, &mut input, &mut output),
    };
    Ok(is_alike(rt, vector, ended, &output)?)
}

/// Replays a script on the handles, and reports where they give other answers than the machine.
pub(crate) fn replay_on_handles<H>(
    rt: &HostRuntime,
    hands: &H,
    vector: &Vector<'_>,
) -> Result<Replayed, anyhow::Error>
where
    H: RandomSource + AllocGlobal + Clone + Drop,
{
    let mut output = Vec::new(rt.alloc());
    let mut input = vector.script.as_bytes();
    let ended = play_on_handles(hands, &mut input, &mut output);
    let given = str::from_utf8(&output).unwrap_or("no text");
    let Some(rest) = given.strip_suffix(": OnlyMachine\n") else {
        return Ok(if is_alike(rt, vector, ended, given.as_bytes())? {
            Replayed::ToItsEnd
        } else {
            Replayed::Otherwise
        });
    };
    // The last line is the refusal.
    let front = rest.rsplit_once('\n').map_or("", |(front, _)| front);
    let begun = Vector {
        output: vector.output.get(..front.len()).unwrap_or(vector.output),
        status: 1,
        ..*vector
    };
    Ok(if is_alike(rt, &begun, ended, front.as_bytes())? {
        Replayed::Begun
    } else {
        Replayed::Otherwise
    })
}
