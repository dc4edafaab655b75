//! How names are shown on a terminal.
use std::fmt;
use std::fmt::{Display, Formatter};

/// A name as it is shown: one with a quote or characters that control a terminal in the shell's own
/// writing, as `$'a\033b'`, and one without any character as `''`.
#[derive(Clone, Copy)]
pub struct Shown<'a>(pub &'a str);

impl Display for Shown<'_> {
    fn fmt<W: fmt::Write>(&self, f: &mut Formatter<W>) -> fmt::Result {
        let Shown(name) = self;
        if name.is_empty() {
            return f.write_str("''");
        }
        if !name.chars().any(|c| c.is_control() || c == '\'') {
            return f.write_str(name);
        }
        f.write_str("$'")?;
        for c in name.chars() {
            match c {
                '\\' | '\'' => write!(f, "\\{c}")?,
                c => write_safely(f, c)?,
            }
        }
        f.write_str("'")
    }
}

/// A text of more lines, in which no character but the ends of its lines controls a terminal.
#[derive(Clone, Copy)]
pub struct Tamed<'a>(pub &'a str);

impl Display for Tamed<'_> {
    fn fmt<W: fmt::Write>(&self, f: &mut Formatter<W>) -> fmt::Result {
        let Tamed(text) = self;
        for c in text.chars() {
            match c {
                '\n' => f.write_str("\n")?,
                c => write_safely(f, c)?,
            }
        }
        Ok(())
    }
}

// The character, or its bytes in octal digits if it controls a terminal.
fn write_safely<W: fmt::Write>(f: &mut Formatter<W>, c: char) -> fmt::Result {
    if !c.is_control() {
        return write!(f, "{c}");
    }
    let code = c as u32;
    if code < 0x80 {
        return write!(f, "\\{:03o}", code);
    }
    write!(f, "\\302\\{:03o}", code)
}
