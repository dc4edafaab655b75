//! The numbers on a command line: sizes, as `4096`, `64K`, `16m` or `2GiB`, percents and seconds.
ghost use Rattle.std.specs.Prelude.{◌<◌, ◌≤◌, IfOk, IfSome};

use crate::arguments::Texts;
use piper_transfer::Sizes;

/// The greatest size. A pipe can't hold more.
const GREATEST: u64 = 9_223_372_036_854_775_807;

/// How many milliseconds it is from one line of progress to the next, if none is asked for.
const PAUSE: u64 = 250;

/// What each option takes.
const SIZES: &str =
    "a size is a number of bytes from 1 to 9223372036854775807, as 4096, 64K, 16m or 2GiB";

const TOTALS: &str =
    "a size is a number of bytes from 0 to 9223372036854775807, as 4096, 64K, 16m or 2GiB";

const INTERVALS: &str = "an interval is a number of seconds from 1 to 3600";

const PERCENTS: &str = "a level is a number of percent from 0 to 100";

const COPIES: &str = "a copy goes to a file, which - is not";

/// A word after an option that is none which the option takes.
#[derive(Clone, Copy)]
pub struct Untaken<'a> {
    pub option: &'static str,
    pub text: &'a str,
    /// Which words it takes.
    pub range: &'static str,
}

/// The numbers that are asked for.
#[derive(Clone, Copy)]
pub struct Numbers {
    pub sizes: Sizes,
    /// How many bytes may pass in a second.
    pub rate: Option<usize>,
    /// How many bytes come, if that was reported.
    pub total: Option<u64>,
    /// How many bytes of the input are left out, and how many are read after those at most.
    pub skip: u64,
    pub most: Option<u64>,
    /// How many milliseconds it is from one line of progress to the next.
    pub pause: u64,
}

/// Reads the numbers after the options.
pub fn numbers_of<'a>(texts: Texts<'a>) -> Result<Numbers, Untaken<'a>> {
    let capacity = size("--capacity <N>", texts.capacity.unwrap_or("1M"))?;
    let chunk = size("--chunk <N>", texts.chunk.unwrap_or("64K"))?;
    let rate = match texts.rate {
        Some(text) => Some(size("--rate <N>", text)?),
        None => None,
    };
    let total = match texts.size {
        Some(text) => Some(amount("--size <N>", text)?),
        None => None,
    };
    let percent = percent(texts.start_at.unwrap_or("0"))?;
    let skip = amount("--skip <N>", texts.skip.unwrap_or("0"))?;
    let most = match texts.stop_after {
        Some(text) => Some(amount("--stop-after <N>", text)?),
        None => None,
    };
    let pause = match texts.interval {
        Some(text) => seconds(text)? as u64 * 1_000,
        None => PAUSE,
    };
    Ok(Numbers {
        sizes: Sizes {
            capacity,
            chunk,
            level: level(capacity, percent),
        },
        rate,
        total,
        skip,
        most,
        pause,
    })
}

// So many percent of the capacity.
fn level(capacity: usize, percent: u8) -> usize
    ensures { result ≤ capacity }
{
    (capacity as u128 * percent as u128 / 100).min(capacity as u128) as usize
}

// A size of which there is some.
fn size<'a>(option: &'static str, text: &'a str) -> Result<usize, Untaken<'a>>
    ensures some { IfOk result (λ n. 0 < n) }
    ensures most { IfOk result (λ n. n ≤ 9_223_372_036_854_775_807) }
{
    match bytes_of(text) {
        Some(size) if 0 < size => Ok(size as usize),
        _ => Err(Untaken {
            option,
            text,
            range: SIZES,
        }),
    }
}

// A size, or none.
fn amount<'a>(option: &'static str, text: &'a str) -> Result<u64, Untaken<'a>> {
    bytes_of(text).ok_or(Untaken {
        option,
        text,
        range: TOTALS,
    })
}

// From 1 to 3,600.
fn seconds<'a>(text: &'a str) -> Result<u16, Untaken<'a>> {
    match text.parse::<u16>() {
        Ok(seconds) if 1 <= seconds && seconds <= 3_600 => Ok(seconds),
        _ => Err(Untaken {
            option: "--interval <N>",
            text,
            range: INTERVALS,
        }),
    }
}

// From 0 to 100.
fn percent<'a>(text: &'a str) -> Result<u8, Untaken<'a>> {
    match text.parse::<u8>() {
        Ok(percent) if percent <= 100 => Ok(percent),
        _ => Err(Untaken {
            option: "--start-at <N>",
            text,
            range: PERCENTS,
        }),
    }
}

// The number of bytes that the text writes in decimal digits, after which may come `K` (1,024
// bytes), `M` (1,024 `K`), `G` (1,024 `M`) or `T` (1,024 `G`), also in lower case, and `iB` after
// that. It is at most half of the greatest `u64`; nothing else is a size.
fn bytes_of(text: &str) -> Option<u64>
    ensures { IfSome result (λ n. n ≤ 9_223_372_036_854_775_807) }
{
    let (digits, unit) = split(text.as_bytes());
    let bytes = number(digits)?.checked_mul(unit)?;
    if GREATEST < bytes {
        return None;
    }
    Some(bytes)
}

// The digits, and how many bytes each unit of them has.
fn split(text: &[u8]) -> (&[u8], u64) {
    let (front, letter) = match text {
        [front @ .., letter, b'i', b'B'] => (front, *letter),
        [front @ .., letter] => (front, *letter),
        [] => return (text, 1),
    };
    match letter {
        b'K' | b'k' => (front, 1_024),
        b'M' | b'm' => (front, 1_048_576),
        b'G' | b'g' => (front, 1_073_741_824),
        b'T' | b't' => (front, 1_099_511_627_776),
        _ => (text, 1),
    }
}

// The number that the digits write, if they are digits and it fits.
fn number(digits: &[u8]) -> Option<u64> {
    if digits.is_empty() {
        return None;
    }
    let mut value = 0u64;
    for digit in digits {
        let digit = char::from(*digit).to_digit(10)?;
        value = value.checked_mul(10)?.checked_add(digit as u64)?;
    }
    Some(value)
}

/// The file that is named; `-` represents the standard stream.
pub fn named<'a>(text: Option<&'a str>) -> Option<&'a str> {
    match text {
        Some("-") => None,
        text => text,
    }
}

/// Refuses a copy to `-`: of the standard streams only the output is written, without a copy.
pub fn refuse_dashes(tees: &[&str]) -> Result<(), Untaken<'static>> {
    if tees.iter().any(|name| *name == "-") {
        return Err(Untaken {
            option: "--tee <FILE>",
            text: "-",
            range: COPIES,
        });
    }
    Ok(())
}
