//! The line that reports a sum.
use std::fmt;
use std::fmt::{Display, Formatter};

/// A sum in the form of `sha256sum`, which a backslash begins where the name has one or an end of line.
#[derive(Clone, Copy)]
pub struct SumLine<'a> {
    pub digest: [u8; 32],
    pub name: &'a str,
}

impl Display for SumLine<'_> {
    fn fmt<W: fmt::Write>(&self, f: &mut Formatter<W>) -> fmt::Result {
        if self.name.chars().any(|c| matches!(c, '\\' | '\n' | '\r')) {
            f.write_str("\\")?;
        }
        for byte in &self.digest {
            write!(f, "{:02x}", byte)?;
        }
        f.write_str("  ")?;
        for c in self.name.chars() {
            match c {
                '\\' => f.write_str("\\\\")?,
                '\n' => f.write_str("\\n")?,
                '\r' => f.write_str("\\r")?,
                c => write!(f, "{c}")?,
            }
        }
        Ok(())
    }
}
