//! The text of a line, without what ends it.
ghost use Rattle.std.specs.Prelude.{◌≡◌, ◌++◌, ◌∷◌, [], MatchOption};
ghost use Rattle.piper_lines.specs.Text.{EndsIn, IsTextOf};

/// The line without the LF at its end, and without a CR before that LF. A piece without LF at its
/// end comes as it is.
pub fn line_text(line: &[u8]) -> &[u8]
    ensures { IsTextOf line.now result.now }
{
    match without_last(line, b'\n') {
        None => line,
        Some(text) => match without_last(text, b'\r') {
            None => text,
            Some(shorter) => shorter,
        },
    }
}

/// As `line_text`, of a line that is owned, as a stream of lines yields it. It asks for no memory.
pub fn into_line_text(line: Vec<u8>) -> Vec<u8>
    ensures { IsTextOf line.items result.items }
{
    let mut text = line;
    text.truncate(line_text(&text).len());
    text
}

// The bytes before the last, if that is this one.
fn without_last(bytes: &[u8], last: u8) -> Option<&[u8]>
    ensures { MatchOption result (¬ EndsIn last bytes.now)
        (λ before. bytes.now ≡ before.now ++ last ∷ []) }
{
    let before = bytes.len().checked_sub(1)?;
    if bytes[before] == last {
        Some(&bytes[..before])
    } else {
        None
    }
}
