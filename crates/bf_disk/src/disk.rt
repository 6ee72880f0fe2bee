//! The system's files.
ghost use Rattle.std.specs.Prelude.{◌≡◌, None, false};
ghost use Rattle.bf_disk.specs.Disks.{has_failed_on};

use crate::source::{Source, SourceFault};
use bf_device::Input;
use std::fs::File;
use std::io::ErrorKind;
use std::rt::Files;
use std::{fs, io};

/// A path as it was given, and the path of the file that is replaced: where the first is a link, the file it leads to.
#[derive(Drop)]
pub(crate) struct Target {
    pub(crate) path: String,
    pub(crate) file: String,
}

/// The files of the system, by their paths.
#[derive(Drop)]
pub struct Disk<'a, R> {
    pub(crate) rt: &'a R,
    /// The path of the replacement that was begun last, and the file there; None before the first.
    pub(crate) target: Option<Target>,
    /// Whether a call that replaces a file has failed.
    pub(crate) failed: bool,
}

impl<'a, R: Files> Disk<'a, R> {
    /// Gives the files that a runtime reaches; none has been opened or replaced yet.
    pub fn new(rt: &'a R) -> Self
        ensures { has_failed_on result ≡ false }
    {
        Disk {
            rt,
            target: None,
            failed: false,
        }
    }
}

impl From<io::Error> for SourceFault {
    ghost use Rattle.std.specs.Prelude.{◌≢◌};
    ghost use Rattle.std.specs.IoError.{error_kind};
    ghost use Rattle.std.specs.declared.io.ErrorKind.TheVariants.{OutOfMemory as NoMemory};
    ghost use Rattle.bf_disk.specs.declared.source.SourceFault.TheVariants.{CannotRead, OutOfMemory};

    ghost from_gives = { λ error fault. (error_kind error ≡ NoMemory → fault ≡ OutOfMemory)
        × (error_kind error ≢ NoMemory → fault ≡ CannotRead) };

    /// Want of memory stays that; any other error of std becomes `CannotRead`.
    fn from(error: io::Error) -> SourceFault {
        match error.kind() {
            ErrorKind::OutOfMemory => SourceFault::OutOfMemory,
            _ => SourceFault::CannotRead,
        }
    }
}

impl<'a, R: Files> Source for Disk<'a, R> {
    type Device = Input<R::File>;

    ghost file = { λ _ _. None };

    /// Opens the file at a path for reading. `Err` where it can't be opened, or at want of memory.
    fn open(&mut self, path: &str) -> Result<Input<R::File>, SourceFault> {
        Ok(Input::new(File::open(self.rt, path)?))
    }

    /// Opens the file at a path for reading, once it was seen that it is a regular one: another might wait for ever to
    /// be opened. `Err` where it isn't, can't be opened, or at want of memory.
    fn open_regular(&mut self, path: &str) -> Result<Input<R::File>, SourceFault> {
        if !fs::metadata(self.rt, path)?.is_file() {
            return Err(SourceFault::CannotRead);
        }
        self.open(path)
    }
}
