//! Whether this process may write to the terminal that standard error is.
use std::fs::{File, Files};
use std::io::{Read, Seek};

/// Whether a line may be printed. A terminal may stop a process that writes there from its
/// background.
#[derive(Drop)]
pub struct Front {
    /// Where the system reports of this process, if standard error is a terminal.
    stat: Option<File>,
}

impl Front {
    pub fn new(files: &impl Files<File = File>, is_terminal: bool) -> Front {
        if !is_terminal {
            return Front { stat: None };
        }
        Front {
            stat: File::open(files, "/proc/self/stat").ok(),
        }
    }

    /// Whether the terminal's foreground is the group of processes that this one is in. If standard
    /// error is no terminal, or the system does not report that, it is.
    pub fn is_ours(&mut self) -> bool {
        match &mut self.stat {
            Some(file) => is_in_front(file),
            None => true,
        }
    }
}

// By what the system reports in one line: after the name, in brackets, come the process's state, its
// parent, its group, its session, its terminal and the group in front there.
fn is_in_front(stat: &mut File) -> bool {
    let mut place = [0u8; 1_024];
    if stat.rewind().is_err() {
        return true;
    }
    let count = stat.read(&mut place).unwrap_or(0);
    let line = str::from_utf8(&place[..count]).unwrap_or("");
    let Some((_, rest)) = line.rsplit_once(')') else {
        return true;
    };
    let mut words = rest.split_whitespace().skip(2);
    let group = words.next();
    let front = words.nth(2);
    front == Some("-1") || front == group
}
