//! Where the bytes go: standard output, or files. A file is looked at by its name first, and opened
//! and cut off once the input has given its first bytes.
use crate::found::{FileId, Found, Kind, look};
use piper_transfer::Destination;
use std::alloc::Global;
use std::fs::{self, File, Files, OpenOptions};
use std::io;
use std::io::{ErrorKind, IsTerminal, Stdout, Write};
use std::os::fd::{AsFd, OwnedFd};
use std_io::io::last_error;

/// What is said of a file that holds bytes, if such files are not taken.
const HOLDS_BYTES: &str = "it holds bytes, which --force overwrites and --append keeps";

/// What is said of a device that would be appended to.
const NO_ROOM: &str = "it is a block device, which has no room after its bytes";

/// What is said of a folder. One is also put in the place of a standard stream that is closed.
pub const FOLDER: &str = "it is a folder, or a standard stream that is closed";

/// What is said of a file whose name has become that of another.
pub const ANOTHER: &str = "it has become another file";

/// How files are written.
#[derive(Clone, Copy)]
pub struct Way {
    /// Whether the bytes that they hold are overwritten.
    pub overwrites: bool,
    /// Whether all that is written follows what they hold, which stays then.
    pub appends: bool,
    /// Whether a flush waits until what was written is on its device.
    pub syncs: bool,
}

/// A file that is written.
#[derive(Drop)]
pub struct Sink {
    pub name: String,
    /// What was found where it was looked at, if it was there.
    found: Option<Found>,
    way: Way,
    file: Option<File>,
    /// Whether this run made it.
    is_own: bool,
}

/// What is done for each file that is written, for one after another.
#[derive(Clone, Copy)]
pub enum Step {
    /// If it is there, it is opened.
    Open,
    /// It is made if it is not there.
    Make,
    /// What it holds is cut off, unless it is appended to.
    Cut,
}

impl Way {
    /// Refuses a file that may not be written so.
    pub fn check(&self, found: &Found) -> io::Result<()> {
        if self.appends && found.kind == Kind::BlockDevice {
            return Err(io::Error::other(NO_ROOM));
        }
        if found.holds() && !self.overwrites && !self.appends {
            return Err(io::Error::other(HOLDS_BYTES));
        }
        Ok(())
    }

    // Without `--force` what another program writes there meanwhile stays, too.
    fn options(&self) -> OpenOptions {
        let mut how = OpenOptions::new();
        how.write(true).append(self.appends || !self.overwrites);
        how
    }
}

impl Sink {
    /// Looks at the file of this name, and neither opens nor makes it. If there is none, there has to
    /// be the folder that it is made in.
    pub fn look(files: &impl Files, alloc: Global, name: &str, way: Way) -> io::Result<Sink> {
        let found = match look(files, name) {
            Ok(found) if found.kind == Kind::Folder => return Err(io::Error::other(FOLDER)),
            Ok(found) => Some(found),
            Err(error) if error.kind() == ErrorKind::NotFound => {
                look_at_folder(files, name)?;
                None
            }
            Err(error) => return Err(error),
        };
        Ok(Sink {
            name: String::from_str(alloc, name).map_err(io::Error::from)?,
            found,
            way,
            file: None,
            is_own: false,
        })
    }

    /// Refuses the file that was looked at, if it may not be written so.
    pub fn check(&self) -> io::Result<()> {
        match &self.found {
            Some(found) => self.way.check(found),
            None => Ok(()),
        }
    }

    /// Which file it is, if it is there.
    pub fn id(&self) -> Option<FileId> {
        self.found?.id
    }

    /// Takes a step.
    pub fn take(&mut self, files: &impl Files<File = File>, step: Step) -> io::Result<()> {
        match step {
            Step::Open => self.open(files),
            Step::Make => self.make(files),
            Step::Cut => self.cut(),
        }
    }

    // It is to be the one that was looked at, and may have got bytes since.
    fn open(&mut self, files: &impl Files<File = File>) -> io::Result<()> {
        let Some(seen) = self.found else {
            return Ok(());
        };
        let file = self.way.options().open(files, self.name.as_str())?;
        let found = Found::of(&file.metadata()?);
        if found.id != seen.id {
            return Err(io::Error::other(ANOTHER));
        }
        self.way.check(&found)?;
        self.file = Some(file);
        Ok(())
    }

    // A new file, which may have to go again, is made by a call that refuses what is there.
    fn make(&mut self, files: &impl Files<File = File>) -> io::Result<()> {
        if self.found.is_some() {
            return Ok(());
        }
        let name = self.name.as_str();
        match self.way.options().create_new(true).open(files, name) {
            Ok(file) => self.file = Some(file),
            Err(error) => return Err(why_unmade(files, name, error)),
        }
        self.is_own = true;
        Ok(())
    }

    // It may have got bytes since it was opened, of which only `--force` cuts off any.
    fn cut(&mut self) -> io::Result<()> {
        if self.way.appends {
            return Ok(());
        }
        let Some(file) = &self.file else {
            return Ok(());
        };
        let found = Found::of(&file.metadata()?);
        if found.kind != Kind::Regular || found.len == 0 {
            return Ok(());
        }
        self.way.check(&found)?;
        file.set_len(0)
    }

    /// Takes the file away, if this run made it, it holds no byte, and its name is still its own.
    pub fn unmake(&self, files: &impl Files) {
        let Some(file) = &self.file else {
            return;
        };
        let (Ok(own), Ok(named)) = (file.metadata(), look(files, self.name.as_str())) else {
            return;
        };
        let own = Found::of(&own);
        if self.is_own && own.id == named.id && !own.holds() {
            // There is nothing to be said of one that can't be removed.
            let _ = fs::remove_file(files, self.name.as_str());
        }
    }
}

/// Where bytes go.
#[derive(Drop)]
pub enum Target {
    /// With another descriptor of it, which is closed at the end.
    Standard(Stdout, Option<OwnedFd>),
    File(Sink),
}

impl Target {
    /// Standard output.
    pub fn standard(stdout: Stdout) -> io::Result<Target> {
        let other = stdout.as_fd().try_clone_to_owned()?;
        Ok(Target::Standard(stdout, Some(other)))
    }

    /// What it is called: `-` is the standard stream.
    pub fn name(&self) -> &str {
        match self {
            Target::Standard(_, _) => "-",
            Target::File(sink) => sink.name.as_str(),
        }
    }
}

fn not_open() -> io::Error {
    io::Error::other("it is not open")
}

impl Destination for Target {
    fn write(&mut self, buf: &[u8]) -> io::Result<usize> {
        match self {
            Target::Standard(standard, _) => standard.write(buf),
            Target::File(sink) => match &mut sink.file {
                Some(file) => file.write(buf),
                None => Err(not_open()),
            },
        }
    }

    fn flush(&mut self) -> io::Result<()> {
        match self {
            Target::Standard(standard, other) => {
                standard.flush()?;
                close(other)
            }
            Target::File(sink) => {
                if let (true, Some(file)) = (sink.way.syncs, &sink.file) {
                    file.sync_all()?;
                }
                close(&mut sink.file)
            }
        }
    }
}

// Closes what is open, and tells how that went: some systems say only then that they could not keep what
// was written. std drops the answer, but the system keeps the number of its last error. The look for a
// terminal leaves one there that no close has.
fn close<F: IsTerminal + Drop>(open: &mut Option<F>) -> io::Result<()> {
    let Some(file) = open.take() else {
        return Err(not_open());
    };
    if file.is_terminal() {
        return Ok(());
    }
    let before = last_error();
    file.drop();
    let after = last_error();
    if after.raw_os_error() == before.raw_os_error() {
        return Ok(());
    }
    Err(after)
}

// Why a file can't be made that was not there.
fn why_unmade(files: &impl Files, name: &str, error: io::Error) -> io::Error {
    if error.kind() != ErrorKind::AlreadyExists {
        return error;
    }
    match look(files, name) {
        Ok(_) => io::Error::other("it is also another output, or was made by another program"),
        Err(_) => io::Error::other("it is a link to a file that is not there"),
    }
}

// Looks at the folder that a file of this name is made in.
fn look_at_folder(files: &impl Files, name: &str) -> io::Result<()> {
    match name.rsplit_once('/') {
        Some((folder, _)) if !folder.is_empty() => {
            look(files, folder)?;
            Ok(())
        }
        _ => Ok(()),
    }
}
