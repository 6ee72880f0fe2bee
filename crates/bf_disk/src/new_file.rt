//! New files on the system's disk, each beside the one whose place it is to take.
ghost use Rattle.std.specs.Prelude.{◌≡◌, ◌≢◌, ◌≤◌, [], IfOk, length, string_bytes};

use crate::disk::{Disk, Target};
use crate::target::{refuse_fixed, target_of};
use bf_device::MOST_INTERRUPTIONS;
use bf_file::{Folder, PlaceFault, ReplaceFault, Replacement};
use bf_value::Text;
use std::alloc::Global;
use std::fs;
use std::fs::{File, OpenFile, OpenOptions, Permissions};
use std::io::{ErrorKind, Write};
use std::os::unix::fs::{OpenOptionsExt, PermissionsExt};
use std::rt::Files;

/// How many names are tried for a new file. One is taken while another backfill writes its report, or where one was
/// killed meanwhile or couldn't rename it.
const MOST_NEW_FILES: u32 = 1_000_000;

/// A file on the disk, and its path.
#[derive(Drop)]
struct Made<F: Drop> {
    file: F,
    name: String,
}

/// A new file, made only at its first write. So a backfill that is killed while its tries run leaves no file behind.
#[derive(Drop)]
pub struct NewFile<'a, R: Files> {
    rt: &'a R,
    alloc: Global,
    /// The path of the file to be replaced.
    target: String,
    made: Option<Made<R::File>>,
    failed: bool,
}

/// The permissions of the file at the path `target`; None where there is no file. `Err` where the system refuses.
fn old_permissions<R: Files>(rt: &R, target: &str) -> Result<Option<Permissions>, ReplaceFault> {
    match fs::metadata(rt, target) {
        Ok(found) => Ok(Some(found.permissions())),
        Err(error) if error.kind() == ErrorKind::NotFound => Ok(None),
        Err(error) => Err(error.into()),
    }
}

/// How to open a new file: only where no file has its name, and with no more permissions than the old file, if there is
/// one, so that nobody may read it who couldn't read that.
fn options_of(old: &Option<Permissions>) -> OpenOptions {
    let mut options = File::options();
    options.write(true).create_new(true);
    if let Some(old) = old {
        options.mode(old.mode());
    }
    options
}

/// Gives a new file all permissions of the old one, some of which the system's umask took away; leaves it alone where
/// there was no old one. At `Err` the new file is removed.
fn give_permissions<R: Files>(
    rt: &R,
    made: Made<R::File>,
    old: Option<Permissions>,
) -> Result<Made<R::File>, ReplaceFault> {
    let Some(old) = old else {
        return Ok(made);
    };
    match made.file.set_permissions(old) {
        Ok(()) => Ok(made),
        Err(error) => {
            remove_made(rt, &made);
            Err(error.into())
        }
    }
}

/// Makes a file beside `target`, with the permissions of the one there, under the first name `.new1`, `.new2` .. that
/// is free. `Err` where 1,000,000 names are taken, the system refuses, or memory runs out.
fn make_beside<R: Files>(
    rt: &R,
    alloc: Global,
    target: &str,
) -> Result<Made<R::File>, ReplaceFault> {
    let old = old_permissions(rt, target)?;
    let options = options_of(&old);
    for number in 1..=MOST_NEW_FILES {
        let name = format!(in alloc; "{target}.new{number}")?;
        match options.open(rt, name.as_str()) {
            Ok(file) => return give_permissions(rt, Made { file, name }, old),
            Err(error) if error.kind() == ErrorKind::AlreadyExists => {}
            Err(error) => return Err(error.into()),
        }
    }
    Err(ReplaceFault::CannotReplace)
}

/// Removes a new file from the disk. Ignores a failure.
fn remove_made<R: Files>(rt: &R, made: &Made<R::File>) {
    // Where it can't be taken away, nothing is left to say so on.
    let _ = fs::remove_file(rt, made.name.as_str());
}

/// Writes a first part of the bytes, at least one if there is any, and answers its length. `Err` where the file takes
/// none, a write fails, or at the 1,001st interruption.
fn write_some<F: Write>(file: &mut F, bytes: &[u8]) -> Result<usize, ReplaceFault>
    ensures bound { IfOk result (λ n. n ≤ length bytes.now) }
    ensures some { IfOk result (λ n. bytes.now ≢ [] → n ≢ 0) }
{
    for _ in 0..=MOST_INTERRUPTIONS {
        match file.write(bytes) {
            Ok(0) if !bytes.is_empty() => return Err(ReplaceFault::CannotReplace),
            Ok(count) => return Ok(count),
            Err(error) if error.kind() == ErrorKind::Interrupted => {}
            Err(error) => return Err(error.into()),
        }
    }
    Err(ReplaceFault::CannotReplace)
}

impl<'a, R: Files> NewFile<'a, R> {
    /// Makes the new file on the disk, unless it is there already. `Err` where it can't be made, or at want of memory.
    fn make(&mut self) -> Result<(), ReplaceFault>
        ensures { self.new.failed ≡ self.old.failed }
    {
        if self.made.is_none() {
            self.made = Some(make_beside(self.rt, self.alloc, self.target.as_str())?);
        }
        Ok(())
    }

    /// Makes the new file, unless it is there already, writes a first part of the bytes, at least one if there is any,
    /// and answers its length. `Err` where either fails.
    fn write_made(&mut self, bytes: &[u8]) -> Result<usize, ReplaceFault>
        ensures bound { IfOk result (λ n. n ≤ length bytes.now) }
        ensures some { IfOk result (λ n. bytes.now ≢ [] → n ≢ 0) }
        ensures failed { self.new.failed ≡ self.old.failed }
    {
        self.make()?;
        match &mut self.made {
            Some(made) => write_some(&mut made.file, bytes),
            None => Err(ReplaceFault::CannotReplace),
        }
    }

    /// Makes the new file, unless it is there already, and syncs it to the disk. `Err` where either fails.
    fn sync_made(&mut self) -> Result<(), ReplaceFault>
        ensures { self.new.failed ≡ self.old.failed }
    {
        self.make()?;
        match &self.made {
            Some(made) => Ok(made.file.sync_all()?),
            None => Err(ReplaceFault::CannotReplace),
        }
    }
}

impl<'a, R: Files> Replacement for NewFile<'a, R> {
    ghost use Rattle.std.specs.Prelude.{None};
    ghost use Rattle.bf_disk.specs.Disks.{has_failed};

    ghost calls = { λ _. None };

    ghost failed = { λ n. has_failed n };

    /// Writes a first part of the bytes to the new file, made if need be, and answers its length. `Err` where that
    /// fails; the failure is kept in `failed`.
    fn write(&mut self, bytes: &[u8]) -> Result<usize, ReplaceFault> {
        let written = self.write_made(bytes);
        self.failed = self.failed || written.is_err();
        written
    }

    /// Syncs the new file to the disk. `Err` where that fails; the failure is kept in `failed`.
    fn sync(&mut self) -> Result<(), ReplaceFault> {
        let synced = self.sync_made();
        self.failed = self.failed || synced.is_err();
        synced
    }
}

/// Makes a new file beside the one at a path and removes it again, to see that it can be made. Answers the path with
/// its file, and the new file that is made at its first write. `Err` where either fails, where the old file can't be
/// taken away, or at want of memory.
fn try_begin<'a, R: Files>(
    rt: &'a R,
    alloc: Global,
    path: &str,
) -> Result<(Target, NewFile<'a, R>), ReplaceFault>
    ensures { IfOk result (λ begun. string_bytes begun.0.path ≡ path.now) }
{
    let file = target_of(rt, alloc, path)?;
    refuse_fixed(rt, alloc, file.as_str())?;
    let tried = make_beside(rt, alloc, file.as_str())?;
    fs::remove_file(rt, tried.name.as_str())?;
    let new = NewFile {
        rt,
        alloc,
        target: file.clone()?,
        made: None,
        failed: false,
    };
    let path = String::from_str(alloc, path)?;
    Ok((Target { path, file }, new))
}

/// Renames a new file to the path `file` that it replaces. `Left` with its name where the rename fails, and `Lost` where
/// it was never made.
fn rename_made<R: Files>(new: NewFile<'_, R>, file: &str) -> Result<(), PlaceFault> {
    let NewFile {
        rt,
        alloc: _,
        target: _,
        made,
        failed: _,
    } = new;
    let Some(Made { file: _, name }) = made else {
        return Err(PlaceFault::Lost(ReplaceFault::CannotReplace));
    };
    match fs::rename(rt, name.as_str(), file) {
        Ok(()) => Ok(()),
        Err(_) => Err(PlaceFault::Left(Text::new(name))),
    }
}

impl<'a, R: Files> Folder for Disk<'a, R> {
    ghost use Rattle.std.specs.Prelude.{None};
    ghost use Rattle.bf_disk.specs.Disks.{has_failed_on, path_begun};

    type New = NewFile<'a, R>;

    ghost placed = { λ _. None };

    ghost left = { λ _. None };

    ghost begun = { λ d. path_begun d };

    ghost failed = { λ d. has_failed_on d };

    /// Sees that the file at a path can be taken away, and one beside it made, by making and removing one, and remembers
    /// the path for
    /// `rename`. `Err` where that fails; the failure is kept in `failed`.
    fn begin_replacement(
        &mut self,
        alloc: Global,
        path: &str,
    ) -> Result<NewFile<'a, R>, ReplaceFault> {
        match try_begin(self.rt, alloc, path) {
            Ok((target, new)) => {
                self.target = Some(target);
                Ok(new)
            }
            Err(fault) => {
                self.failed = true;
                Err(fault)
            }
        }
    }

    /// Renames the new file to the file of the path last begun. `Left` where the rename fails, `Lost` where nothing was
    /// begun or written; the failure is kept in `failed`.
    fn rename(&mut self, new: NewFile<'a, R>) -> Result<(), PlaceFault> {
        let renamed = match &self.target {
            Some(target) => rename_made(new, target.file.as_str()),
            None => Err(PlaceFault::Lost(ReplaceFault::CannotReplace)),
        };
        self.failed = self.failed || renamed.is_err();
        renamed
    }

    /// Removes the new file from the disk, if it was made, and keeps in `failed` whether a call of it failed.
    fn discard(&mut self, new: NewFile<'a, R>) {
        if let Some(made) = &new.made {
            remove_made(self.rt, made);
        }
        self.failed = new.failed || self.failed;
    }
}
