//! Numbers of a script: decimal, without a sign and without leading zeros.
ghost use Rattle.std.specs.Prelude.{◌≤◌, IfOk};

use crate::command::Refusal;

/// The greatest name of a waker, and the greatest draw.
const MOST_OF_A_NAME: usize = 4_294_967_295;

// Whether the text is written as a number, however great.
fn is_number(text: &str) -> bool {
    let digits = text.as_bytes();
    let is_plain = digits.len() == 1 || digits.first() != Some(&b'0');
    !digits.is_empty() && is_plain && digits.iter().all(|digit| digit.is_ascii_digit())
}

/// The number from `least` to `most` that the text writes.
pub fn number(text: &str, least: usize, most: usize) -> Result<usize, Refusal>
    ensures { IfOk result (λ n. (least ≤ n) × (n ≤ most)) }
{
    if !is_number(text) {
        return Err(Refusal::Syntax);
    }
    // A number fails to parse only where it is past the greatest `usize`.
    match text.parse::<usize>() {
        Ok(value) if least <= value && value <= most => Ok(value),
        _ => Err(Refusal::Limit),
    }
}

/// The number that the text writes of a waker or a draw.
pub fn name(text: &str) -> Result<u32, Refusal> {
    Ok(number(text, 0, MOST_OF_A_NAME)? as u32)
}

/// The byte that the text writes.
pub fn byte(text: &str) -> Result<u8, Refusal> {
    Ok(number(text, 0, 255)? as u8)
}

/// Whether the first of two numbers, however great, is at most the second.
pub fn is_at_most(first: &str, second: &str) -> bool {
    (first.len(), first) <= (second.len(), second)
}

/// Both values, or the refusal that is reported first: `Syntax` comes before `Limit`.
pub fn both<A: Drop, B: Drop>(
    first: Result<A, Refusal>,
    second: Result<B, Refusal>,
) -> Result<(A, B), Refusal> {
    match (first, second) {
        (Err(Refusal::Syntax), _) | (_, Err(Refusal::Syntax)) => Err(Refusal::Syntax),
        (first, second) => Ok((first?, second?)),
    }
}
