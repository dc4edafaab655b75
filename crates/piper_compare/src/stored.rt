//! The stored scripts: their files, and how many of them give the answers that they should.
ghost use Rattle.std.specs.Prelude.{◌≡◌, ◌↔◌, IsTrue};

use crate::vector::{Replayed, Vector, arguments_of, gives_its_answers, replay_on_handles};
use anyhow::Context;
use serde_json::Value;
use std::alloc::AllocGlobal;
use std::fmt::Display;
use std::random::RandomSource;
use std::{fs, io};

/// The scripts that the Rust crate answered. Each file lies where the program runs, and has one
/// script a line.
const OF_THE_CRATE: [&str; 1] = ["upstream-play.jsonl"];

/// The scripts that the page of the language answers, in a file for each subject.
const OF_THE_LANGUAGE: [&str; 10] = [
    "whole-calls.jsonl",
    "copies.jsonl",
    "steps.jsonl",
    "refusals.jsonl",
    "lines.jsonl",
    "lists.jsonl",
    "limits.jsonl",
    "mode-run.jsonl",
    "mode-all.jsonl",
    "mode-handles.jsonl",
];

/// What went wrong was written to standard error.
#[derive(Drop)]
pub(crate) struct Reported;

/// Where a script is.
#[derive(Clone, Copy)]
struct Place<'name> {
    file: &'name str,
    line: usize,
}

/// How many scripts were replayed, and how many of them gave the answers that they should.
#[derive(Clone, Copy)]
struct Tally {
    alike: usize,
    all: usize,
    /// Those in which the handles gave the machine's answers to the end.
    on_handles: usize,
    /// Those that gave the same answers up to a line that only the machine plays.
    begun_on_handles: usize,
    /// Those in which the handles gave other answers.
    otherwise_on_handles: usize,
}

impl Tally {
    fn count_on_handles(&mut self, played: Replayed) {
        match played {
            Replayed::ToItsEnd => self.on_handles = self.on_handles.saturating_add(1),
            Replayed::Begun => self.begun_on_handles = self.begun_on_handles.saturating_add(1),
            Replayed::Otherwise => {
                self.otherwise_on_handles = self.otherwise_on_handles.saturating_add(1);
            }
            Replayed::Not => {}
        }
    }

    // Whether no answer differed, of the machine or of the handles.
    fn is_alike(&self) -> bool
        ensures { IsTrue result ↔
            (self.now.alike ≡ self.now.all) × (self.now.otherwise_on_handles ≡ 0) }
    {
        self.alike == self.all && self.otherwise_on_handles == 0
    }
}

/// Replays the script of a line of a file on both, and reports where an answer differs.
fn replay_line<H>(
    rt: &HostRuntime,
    hands: &H,
    place: &Place<'_>,
    line: &str,
    tally: &mut Tally,
) -> Result<(), anyhow::Error>
where
    H: RandomSource + AllocGlobal + Clone + Drop,
{
    let line = Value::from_str(rt.alloc(), line)?;
    let vector = Vector::of(&line).context("a member is missing")?;
    let arguments = arguments_of(rt.alloc(), &line)?;
    tally.all = tally.all.saturating_add(1);
    let is_alike = gives_its_answers(rt, hands, &vector, &arguments)?;
    if is_alike {
        tally.alike = tally.alike.saturating_add(1);
    }
    let played = if arguments.is_empty() {
        replay_on_handles(rt, hands, &vector)?
    } else {
        Replayed::Not
    };
    tally.count_on_handles(played);
    report_place(
        rt,
        place,
        &vector,
        is_alike && !matches!(played, Replayed::Otherwise),
    )
}

/// Says which script differs, if one does.
fn report_place(
    rt: &HostRuntime,
    place: &Place<'_>,
    vector: &Vector<'_>,
    is_alike: bool,
) -> Result<(), anyhow::Error> {
    if !is_alike {
        let what = vector.what.unwrap_or("drawn at random");
        println!(rt; "  in line {} of {}: {what}", place.line, place.file)?;
    }
    Ok(())
}

/// Replays the scripts of a file, and reports which of them give other answers. A file that has no
/// script is a failure.
fn replay_file<H>(
    rt: &HostRuntime,
    hands: &H,
    file: &str,
    tally: &mut Tally,
) -> Result<(), Reported>
where
    H: RandomSource + AllocGlobal + Clone + Drop,
{
    let text = match fs::read_to_string(rt, file) {
        Ok(text) => text,
        Err(error) => return refuse(rt, file, 0, error),
    };
    let before = tally.all;
    replay_lines(rt, hands, file, text.as_str(), tally)?;
    if tally.all == before {
        return refuse(rt, file, 0, "it has no script");
    }
    Ok(())
}

/// Says why a file can't be compared, and at which of its lines, counted from 1, if it is one's.
fn refuse<E: Display + Drop>(
    rt: &HostRuntime,
    file: &str,
    line: usize,
    why: E,
) -> Result<(), Reported> {
    let _ = match line {
        0 => eprintln!(rt; "piper_compare: {file}: {why}"),
        _ => eprintln!(rt; "piper_compare: line {line} of {file}: {why}"),
    };
    Err(Reported)
}

/// Replays the scripts that the lines of a file hold.
fn replay_lines<H>(
    rt: &HostRuntime,
    hands: &H,
    file: &str,
    text: &str,
    tally: &mut Tally,
) -> Result<(), Reported>
where
    H: RandomSource + AllocGlobal + Clone + Drop,
{
    for (before, script) in text.lines().enumerate() {
        let line = before.saturating_add(1);
        if let Err(error) = replay_line(rt, hands, &Place { file, line }, script, tally) {
            return refuse(rt, file, line, error);
        }
    }
    Ok(())
}

/// Replays the scripts of all these files.
fn replay_files<H>(rt: &HostRuntime, hands: &H, files: &[&str]) -> Result<Tally, Reported>
where
    H: RandomSource + AllocGlobal + Clone + Drop,
{
    let mut tally = Tally {
        alike: 0,
        all: 0,
        on_handles: 0,
        begun_on_handles: 0,
        otherwise_on_handles: 0,
    };
    for file in files {
        replay_file(rt, hands, file, &mut tally)?;
    }
    Ok(tally)
}

/// Replays the stored scripts on the machine and on the handles, and prints how many give the
/// answers that they should. Returns whether all do.
pub(crate) fn compare(rt: &HostRuntime) -> Result<bool, Reported> {
    let by_the_crate = replay_files(rt, rt, &OF_THE_CRATE)?;
    let by_the_page = replay_files(rt, rt, &OF_THE_LANGUAGE)?;
    if print_counts(rt, &by_the_crate, &by_the_page).is_err() {
        let _ = eprintln!(rt; "piper_compare: write failed");
        return Err(Reported);
    }
    Ok(by_the_crate.is_alike() && by_the_page.is_alike())
}

fn print_counts(rt: &HostRuntime, by_the_crate: &Tally, by_the_page: &Tally) -> io::Result<()> {
    println!(rt;
        "{} of {} scripts are answered as by the crate",
        by_the_crate.alike, by_the_crate.all
    )?;
    println!(rt;
        "{} of {} scripts are answered as the page of the language says",
        by_the_page.alike, by_the_page.all
    )?;
    let to_the_end = by_the_crate
        .on_handles
        .saturating_add(by_the_page.on_handles);
    let begun = by_the_crate
        .begun_on_handles
        .saturating_add(by_the_page.begun_on_handles);
    println!(rt;
        "the handles answer {to_the_end} alike to their end, and {begun} up to a line that only the machine plays"
    )
}
