//! Random scripts of whole calls.
ghost use Rattle.std.specs.Prelude.{◌≤◌};

use rand_core::SeedableRng;
use rand_core::utils::NextWord;
use rand_pcg::Pcg32;
use std::alloc::AllocError;
use std::fmt::Write;

/// A script that is drawn line by line.
#[derive(Drop)]
pub struct Drawn {
    rng: Pcg32,
    capacity: u32,
}

impl Drawn {
    pub fn new(seed: u64) -> Drawn {
        Drawn {
            rng: Pcg32::seed_from_u64(seed),
            capacity: 1,
        }
    }

    /// A number below `bound`, or 0 where there is none.
    pub fn below(&mut self, bound: u32) -> u32
        ensures { result ≤ bound }
    {
        if bound == 0 {
            return 0;
        }
        self.rng.next_word() % bound
    }

    /// Writes a line that makes a new pipe: mostly a small one, at times one of several rounds of a
    /// copy.
    pub fn write_pipe(&mut self, line: &mut String) -> Result<(), AllocError> {
        self.capacity = match self.below(200) {
            0 => 131_072 + self.below(80_000),
            1..=7 => 4000 + self.below(12_000),
            _ => 1 + self.below(12),
        };
        write!(line, "pipe {}", self.capacity)
    }

    /// Writes the next line.
    pub fn write_line(&mut self, line: &mut String) -> Result<(), AllocError> {
        match self.below(100) {
            0..=13 => {
                line.push_str("fill ")?;
                self.write_list(line)
            }
            14..=27 => {
                let most = self.size();
                write!(line, "drain {most}")
            }
            28..=35 => self.write_query(line),
            36..=45 => {
                let side = self.side();
                let waker = self.below(5);
                write!(line, "poll {side} {waker}")
            }
            46..=73 => self.write_copy(line),
            74..=77 => line.push_str("peek"),
            78..=82 => {
                let most = self.below(6);
                write!(line, "consume {most}")
            }
            83..=87 => {
                let most = self.size();
                write!(line, "lend {most}")
            }
            88..=91 => {
                let offset = self.below(6);
                let byte = self.below(256);
                write!(line, "put {offset} {byte}")
            }
            92..=96 => {
                let most = self.below(6);
                write!(line, "produced {most}")
            }
            _ => self.write_end(line),
        }
    }

    fn side(&mut self) -> &'static str {
        if self.below(2) == 0 { "r" } else { "w" }
    }

    // A number of bytes: mostly about the capacity, at times a few.
    fn size(&mut self) -> u32 {
        if self.below(3) == 0 {
            self.below(4)
        } else {
            let most = self.capacity.saturating_add(3);
            self.below(most)
        }
    }

    fn write_query(&mut self, line: &mut String) -> Result<(), AllocError> {
        let word = ["len", "empty", "full", "closed"][self.below(4) as usize % 4];
        let side = self.side();
        write!(line, "{word} {side}")
    }

    // A list of a byte several times, of a range, or of both.
    fn write_list(&mut self, line: &mut String) -> Result<(), AllocError> {
        let first = self.below(200);
        let last = first + self.below(20);
        let count = self.size();
        match self.below(8) {
            0 => line.push_str("-"),
            1..=4 => write!(line, "{first}..{last}"),
            5 | 6 => write!(line, "{first}*{count}"),
            _ => write!(line, "{first}..{last},{last}*{count}"),
        }
    }

    fn write_copy(&mut self, line: &mut String) -> Result<(), AllocError> {
        let waker = self.below(5);
        match self.below(4) {
            0 => {
                write!(line, "pollfill {waker} ")?;
                self.write_list(line)?;
            }
            1 => {
                let most = self.size();
                write!(line, "polldrain {waker} {most}")?;
            }
            2 => {
                write!(line, "fillfrom {waker} ")?;
                self.write_source(line)?;
            }
            _ => {
                write!(line, "drainto {waker} ")?;
                self.write_destination(line)?;
            }
        }
        match self.below(12) {
            0 => line.push_str(" draw=0"),
            1 => line.push_str(" draw=7"),
            2 if self.below(8) == 0 => line.push_str(" draw=100"),
            _ => Ok(()),
        }
    }

    fn write_source(&mut self, line: &mut String) -> Result<(), AllocError> {
        for act in 0..self.below(4) {
            if act > 0 {
                line.push_str("/")?;
            }
            if self.below(6) == 0 {
                line.push_str("fail")?;
            } else {
                self.write_list(line)?;
            }
        }
        self.end_acts(line)
    }

    fn write_destination(&mut self, line: &mut String) -> Result<(), AllocError> {
        for act in 0..self.below(4) {
            if act > 0 {
                line.push_str("/")?;
            }
            if self.below(6) == 0 {
                line.push_str("fail")?;
            } else {
                let most = self.size();
                write!(line, "{most}")?;
            }
        }
        self.end_acts(line)
    }

    // Acts of which there is none are a word of their own.
    fn end_acts(&mut self, line: &mut String) -> Result<(), AllocError> {
        if line.as_bytes().last() == Some(&b' ') {
            line.push_str("none")?;
        }
        Ok(())
    }

    fn write_end(&mut self, line: &mut String) -> Result<(), AllocError> {
        match self.below(6) {
            0 => line.push_str("close"),
            1 => line.push_str("drop r"),
            2 => line.push_str("drop w"),
            3 => self.write_pipe(line),
            _ => line.push_str("peek"),
        }
    }
}
