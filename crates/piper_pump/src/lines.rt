//! What a line of progress says. Without a name it has at most 87 columns, and 79 at a terminal.
ghost use Rattle.std.specs.Prelude.{◌<◌, ◌≤◌};

use std::fmt;
use std::fmt::{Display, Formatter};
use std::time::Duration;

/// How many bytes each unit has.
const KIBI: u64 = 1_024;

const MEBI: u64 = 1_048_576;

const GIBI: u64 = 1_073_741_824;

const TEBI: u64 = 1_099_511_627_776;

const PEBI: u64 = 1_125_899_906_842_624;

const EXBI: u64 = 1_152_921_504_606_846_976;

/// What one line reports first.
#[derive(Clone, Copy)]
pub struct Line {
    pub bytes: u64,
    /// How long that took.
    pub spent: Duration,
    pub rate: u64,
}

impl Display for Line {
    fn fmt<W: fmt::Write>(&self, f: &mut Formatter<W>) -> fmt::Result {
        write!(
            f,
            "{} in {}, {}/s",
            Amount(self.bytes),
            Seconds(self.spent),
            Amount(self.rate)
        )
    }
}

/// How full the pipe is, in percent, and who had to wait.
#[derive(Drop)]
pub struct Fill {
    pub percent: u64,
    /// How long the input had to wait since the pipe was full, and the output since it was empty.
    pub full: Duration,
    pub empty: Duration,
}

impl Display for Fill {
    fn fmt<W: fmt::Write>(&self, f: &mut Formatter<W>) -> fmt::Result {
        write!(
            f,
            "; {}% full; full {}, empty {}",
            self.percent,
            Seconds(self.full),
            Seconds(self.empty)
        )
    }
}

/// How much of all that comes has passed, in percent, and how long the rest takes, if that is
/// reported.
#[derive(Clone, Copy)]
pub struct Done {
    pub percent: u64,
    pub left: Option<Duration>,
}

impl Display for Done {
    fn fmt<W: fmt::Write>(&self, f: &mut Formatter<W>) -> fmt::Result {
        match self.left {
            None => write!(f, "; {}%", self.percent),
            Some(left) => write!(f, "; {}%, {} left", self.percent, Seconds(left)),
        }
    }
}

/// How many characters the bar has.
const BAR: u64 = 12;

/// A line at a terminal: with a bar if it is known how much comes, and with how full the pipe is, in
/// percent.
#[derive(Clone, Copy)]
pub struct Drawn {
    pub line: Line,
    pub done: Option<Done>,
    pub full: u64,
}

impl Display for Drawn {
    fn fmt<W: fmt::Write>(&self, f: &mut Formatter<W>) -> fmt::Result {
        let Line { bytes, spent, rate } = self.line;
        write!(f, "{} {} {}/s", Hours(spent), Amount(bytes), Amount(rate))?;
        if let Some(done) = self.done {
            write!(f, " {}% [{}]", done.percent, Bar(done.percent))?;
            if let Some(left) = done.left {
                write!(f, " {} left", Hours(left))?;
            }
        }
        write!(f, ", {}% full", self.full)
    }
}

/// How much has passed, in percent, as a bar.
#[derive(Clone, Copy)]
struct Bar(u64);

impl Display for Bar {
    fn fmt<W: fmt::Write>(&self, f: &mut Formatter<W>) -> fmt::Result {
        let end = self.0.min(100) * BAR / 100;
        for at in 0..BAR {
            f.write_str(if at < end {
                "="
            } else if at == end {
                ">"
            } else {
                " "
            })?;
        }
        Ok(())
    }
}

/// A time in hours, minutes and seconds.
#[derive(Clone, Copy)]
struct Hours(Duration);

impl Display for Hours {
    fn fmt<W: fmt::Write>(&self, f: &mut Formatter<W>) -> fmt::Result {
        let seconds = self.0.as_secs();
        let (hours, minutes) = ((seconds / 3_600).min(9_999), seconds / 60 % 60);
        write!(f, "{hours}:{minutes:02}:{:02}", seconds % 60)
    }
}

/// A number of bytes, in the greatest unit of which it has one.
#[derive(Clone, Copy)]
struct Amount(u64);

impl Display for Amount {
    fn fmt<W: fmt::Write>(&self, f: &mut Formatter<W>) -> fmt::Result {
        let Amount(bytes) = *self;
        match bytes {
            EXBI.. => write!(f, "{} EiB", InUnit { bytes, unit: EXBI }),
            PEBI.. => write!(f, "{} PiB", InUnit { bytes, unit: PEBI }),
            TEBI.. => write!(f, "{} TiB", InUnit { bytes, unit: TEBI }),
            GIBI.. => write!(f, "{} GiB", InUnit { bytes, unit: GIBI }),
            MEBI.. => write!(f, "{} MiB", InUnit { bytes, unit: MEBI }),
            KIBI.. => write!(f, "{} KiB", InUnit { bytes, unit: KIBI }),
            _ => write!(f, "{bytes} B"),
        }
    }
}

/// A time: in seconds, to a tenth, below 100 of them, and else in minutes, hours or days.
#[derive(Clone, Copy)]
struct Seconds(Duration);

impl Display for Seconds {
    fn fmt<W: fmt::Write>(&self, f: &mut Formatter<W>) -> fmt::Result {
        let Seconds(time) = self;
        match time.as_secs() {
            seconds @ 360_000.. => write!(f, "{} d", (seconds / 86_400).min(9_999)),
            seconds @ 6_000.. => write!(f, "{} h", seconds / 3_600),
            seconds @ 100.. => write!(f, "{} min", seconds / 60),
            seconds => write!(f, "{seconds}.{} s", time.subsec_millis() / 100),
        }
    }
}

/// How many of this unit so many bytes are: with a tenth below 100.
#[derive(Clone, Copy)]
struct InUnit {
    bytes: u64,
    unit: u64,
    ghost is_unit: { (0 < unit) × (unit ≤ 1_152_921_504_606_846_976) },
}

impl Display for InUnit {
    fn fmt<W: fmt::Write>(&self, f: &mut Formatter<W>) -> fmt::Result {
        let InUnit { bytes, unit } = *self;
        let whole = bytes / unit;
        if 100 <= whole {
            return write!(f, "{whole}");
        }
        write!(f, "{whole}.{}", bytes % unit * 10 / unit)
    }
}
