//! What the system reports of a file where it is looked at or opened: which one it is, of which
//! kind, and how many bytes it holds.
use std::fs::{self, Files, Metadata};
use std::io;
use std::os::unix::fs::MetadataExt;

/// The bits of a mode that say which kind of file it is, and what they are for the kinds below.
const KIND: u32 = 0o170000;

const REGULAR: u32 = 0o100000;

const FOLDER: u32 = 0o040000;

const BLOCK_DEVICE: u32 = 0o060000;

const FIFO: u32 = 0o010000;

const SOCKET: u32 = 0o140000;

/// Kinds of files, as far as they are told apart here.
#[derive(Clone, Copy, PartialEq, Eq)]
pub enum Kind {
    Regular,
    Folder,
    BlockDevice,
    /// A pipe, with a name or without.
    Fifo,
    Socket,
    /// A terminal or another device.
    Other,
    /// It can't be told.
    Untold,
}

/// A file, whatever its name is.
#[derive(Clone, Copy, PartialEq, Eq)]
pub enum FileId {
    /// A regular file or a FIFO.
    Inode { device: u64, inode: u64 },
    /// A block device.
    Device(u64),
    /// One of these, but it can't be told which.
    Untold,
}

/// What was found.
#[derive(Clone, Copy)]
pub struct Found {
    pub kind: Kind,
    /// Which regular file, FIFO or block device it is; `None` of others.
    pub id: Option<FileId>,
    /// How many bytes it holds, if it is a regular file.
    pub len: u64,
}

impl Found {
    /// By what the system reported.
    pub fn of(metadata: &Metadata) -> Found {
        let kind = match metadata.mode() & KIND {
            REGULAR => Kind::Regular,
            FOLDER => Kind::Folder,
            BLOCK_DEVICE => Kind::BlockDevice,
            FIFO => Kind::Fifo,
            SOCKET => Kind::Socket,
            _ => Kind::Other,
        };
        let id = match kind {
            Kind::Regular | Kind::Fifo => Some(FileId::Inode {
                device: metadata.dev(),
                inode: metadata.ino(),
            }),
            Kind::BlockDevice => Some(FileId::Device(metadata.rdev())),
            _ => None,
        };
        Found {
            kind,
            id,
            len: metadata.len(),
        }
    }

    /// Whether it holds bytes, as a block device always does.
    pub fn holds(&self) -> bool {
        match self.kind {
            Kind::Regular => 0 < self.len,
            Kind::BlockDevice => true,
            _ => false,
        }
    }
}

/// Looks at the file of this name.
pub fn look(files: &impl Files, name: &str) -> io::Result<Found> {
    fs::metadata(files, name).map(|metadata| Found::of(&metadata))
}

/// A standard stream.
#[derive(Clone, Copy)]
pub enum Stream {
    Input,
    Output,
    Error,
}

impl Stream {
    /// How the pump names it.
    pub fn said(self) -> &'static str {
        match self {
            Stream::Input => "standard input",
            Stream::Output => "standard output",
            Stream::Error => "standard error",
        }
    }

    // The name that the system gives to what is open under its number, where `/proc` is mounted.
    fn name(self) -> &'static str {
        match self {
            Stream::Input => "/proc/self/fd/0",
            Stream::Output => "/proc/self/fd/1",
            Stream::Error => "/proc/self/fd/2",
        }
    }
}

/// Looks at a standard stream. Without `/proc` it can't be told which file it is.
pub fn look_at_stream(files: &impl Files, stream: Stream) -> Found {
    look(files, stream.name()).unwrap_or(Found {
        kind: Kind::Untold,
        id: Some(FileId::Untold),
        len: 0,
    })
}
