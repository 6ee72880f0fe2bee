//! Where journals are.
ghost use Rattle.std.specs.Prelude.{IfSome};
ghost use Rattle.bf_disk.specs.Journals.{OpensJournal};

use crate::disk::Disk;
use bf_device::Output;
use bf_journal::Cuttable;
use std::alloc::Global;
use std::fs::{File, OpenFile, TryLockError};
use std::io;
use std::io::{ErrorKind, Read};
use std::rt::Files;

/// Why a journal can't be opened.
#[derive(Clone, Copy, Debug, PartialEq, Eq)]
pub enum OpenFault {
    /// It isn't a regular file, or can't be opened, made, locked or read.
    CannotRead,
    /// Another backfill has it open.
    InUse,
    /// It begins neither with the head that is asked for nor as a beginning of that does.
    OfAnother,
    /// Memory ran out.
    OutOfMemory,
}

/// An open journal: the bytes that it held when it was opened, and a device that appends to them.
#[derive(Drop)]
pub struct OpenJournal<D: Cuttable + Drop> {
    pub held: Vec<u8>,
    pub device: D,
}

/// Where journals are, by their paths.
pub trait Journals {
    ghost use Rattle.std.specs.Prelude.{ℕ, List, Option};

    /// What an open journal is written and cut by.
    type Device: Cuttable + Drop;

    /// What a path's journal holds, where that is told: its bytes, which are none where there is no such file, or
    /// `None` where it can't be opened.
    ghost journal: { Self → List ℕ → Option (Option (List ℕ)) };

    /// Opens the journal at a path, or makes it, and reads its bytes. While it is open, another backfill that opens it
    /// gets `InUse`. `OfAnother` where its first bytes, as many as `head` has, aren't those or all before the end; `Err`
    /// also where it can't be opened or read, or at want of memory.
    fn open_journal(
        &self,
        alloc: Global,
        path: &str,
        head: &[u8],
    ) -> Result<OpenJournal<Self::Device>, OpenFault>
        ensures { IfSome (journal self.now path.now) (λ held.
            OpensJournal head.now held result) };
}

/// Want of memory stays that; any other error of std becomes `CannotRead`.
fn open_fault_of(error: &io::Error) -> OpenFault {
    match error.kind() {
        ErrorKind::OutOfMemory => OpenFault::OutOfMemory,
        _ => OpenFault::CannotRead,
    }
}

/// Opens the file at a path, or makes it, to be read from its start and written at its end. An error for a device or a
/// pipe, which might be read for ever.
fn open_or_make_file<R: Files>(rt: &R, path: &str) -> io::Result<R::File> {
    let file = File::options()
        .read(true)
        .append(true)
        .create(true)
        .open(rt, path)?;
    if file.metadata()?.is_file() {
        Ok(file)
    } else {
        Err(io::Error::from(ErrorKind::Unsupported))
    }
}

/// Reads all bytes from the file's start to its end. Reads first as many as `head` has: None where these are no beginning
/// of it.
fn read_behind_head<F: Read>(
    alloc: Global,
    file: &mut F,
    head: &[u8],
) -> io::Result<Option<Vec<u8>>> {
    let mut held = Vec::new(alloc);
    file.by_ref()
        .take(head.len() as u64)
        .read_to_end(&mut held)?;
    if !head.starts_with(&held) {
        return Ok(None);
    }
    file.read_to_end(&mut held)?;
    Ok(Some(held))
}

/// A file that one process at a time can lock, until it closes the file or ends.
pub trait Lockable {
    /// Locks the file for this process alone, without waiting. `Err(InUse)` where another process has it locked.
    fn lock_for_one(&self) -> Result<(), OpenFault>;
}

impl Lockable for File {
    /// Locks the file for this process alone, without waiting. `Err(InUse)` where another process has it locked,
    /// `CannotRead` where the system refuses.
    fn lock_for_one(&self) -> Result<(), OpenFault> {
        match self.try_lock() {
            Ok(()) => Ok(()),
            Err(TryLockError::WouldBlock) => Err(OpenFault::InUse),
            Err(TryLockError::Error(error)) => Err(open_fault_of(&error)),
        }
    }
}

impl<'a, R: Files> Journals for Disk<'a, R>
where
    R::File: Lockable,
{
    ghost use Rattle.std.specs.Prelude.{None};

    type Device = Output<R::File>;

    ghost journal = { λ _ _. None };

    /// Opens the file at a path, or makes it, locks it, and reads its bytes, no further than the head where it has
    /// another. `Err(InUse)` where another process has it locked, `OfAnother` at another head, `CannotRead` where it
    /// isn't a regular file or a call fails.
    fn open_journal(
        &self,
        alloc: Global,
        path: &str,
        head: &[u8],
    ) -> Result<OpenJournal<Output<R::File>>, OpenFault> {
        let mut file = match open_or_make_file(self.rt, path) {
            Ok(file) => file,
            Err(error) => return Err(open_fault_of(&error)),
        };
        file.lock_for_one()?;
        match read_behind_head(alloc, &mut file, head) {
            Ok(Some(held)) => Ok(OpenJournal {
                held,
                device: Output::new(file),
            }),
            Ok(None) => Err(OpenFault::OfAnother),
            Err(error) => Err(open_fault_of(&error)),
        }
    }
}
