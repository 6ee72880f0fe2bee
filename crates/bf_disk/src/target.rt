//! The file that a new one is to replace, and whether it can be taken away.

use bf_file::ReplaceFault;
use std::alloc::{AllocError, Global};
use std::fs;
use std::fs::File;
use std::io::{ErrorKind, Read};
use std::rt::Files;

/// Where the system lists what is mounted.
const MOUNTS: &str = "/proc/self/mountinfo";

/// The place of the path where something is mounted among the words of a line of `MOUNTS`, from 0.
const MOUNT_POINT: usize = 4;

/// Answers the path of the file to be replaced, links followed; a path without a file is itself. `Err` where it is a
/// folder, a device, a broken link or empty, the system refuses, or memory runs out.
pub(crate) fn target_of<R: Files>(
    rt: &R,
    alloc: Global,
    path: &str,
) -> Result<String, ReplaceFault> {
    let found = match fs::symlink_metadata(rt, path) {
        Ok(found) => found,
        Err(error) if error.kind() == ErrorKind::NotFound && !path.is_empty() => {
            return Ok(String::from_str(alloc, path)?);
        }
        Err(error) => return Err(error.into()),
    };
    if found.is_file() {
        return Ok(String::from_str(alloc, path)?);
    }
    let target = rt.canonicalize(alloc, path)?.into_string();
    if fs::metadata(rt, target.as_str())?.is_file() {
        Ok(target)
    } else {
        Err(ReplaceFault::CannotReplace)
    }
}

/// Refuses a file at the path `target` that can't be taken away: it is another user's in a sticky folder, is immutable,
/// or is mounted there by itself. `Err` also where the system refuses, or memory runs out; not where there is no file.
pub(crate) fn refuse_fixed<R: Files>(
    rt: &R,
    alloc: Global,
    target: &str,
) -> Result<(), ReplaceFault> {
    // A file isn't taken away by this call, which looks first whether that may be, and then whether it is a folder.
    match fs::remove_dir(rt, target) {
        Err(error) if error.kind() == ErrorKind::NotADirectory => {}
        Err(error) if error.kind() == ErrorKind::NotFound => return Ok(()),
        Err(error) => return Err(error.into()),
        Ok(()) => return Err(ReplaceFault::CannotReplace),
    }
    if is_mounted(rt, alloc, target)? {
        return Err(ReplaceFault::CannotReplace);
    }
    Ok(())
}

/// Whether the file at the path `target` is mounted there by itself; false where the system doesn't list what is
/// mounted.
fn is_mounted<R: Files>(rt: &R, alloc: Global, target: &str) -> Result<bool, ReplaceFault> {
    let place = rt.canonicalize(alloc, target)?.into_string();
    let spelled = spelled_in_mounts(alloc, place.as_str())?;
    let mut mounts = Vec::new(alloc);
    match File::open(rt, MOUNTS).and_then(|mut file| file.read_to_end(&mut mounts)) {
        Ok(_) => Ok(has_mount(
            String::from_utf8_lossy(alloc, &mounts)?.as_str(),
            spelled.as_str(),
        )),
        Err(error) if error.kind() == ErrorKind::OutOfMemory => Err(ReplaceFault::OutOfMemory),
        Err(_) => Ok(false),
    }
}

/// The path as a line of `MOUNTS` has it: a blank, a tab, a line feed and a backslash by their octal numbers.
fn spelled_in_mounts(alloc: Global, path: &str) -> Result<String, AllocError> {
    let mut spelled = String::new(alloc);
    for letter in path.chars() {
        match letter {
            ' ' => spelled.push_str("\\040")?,
            '\t' => spelled.push_str("\\011")?,
            '\n' => spelled.push_str("\\012")?,
            '\\' => spelled.push_str("\\134")?,
            _ => spelled.push(letter)?,
        }
    }
    Ok(spelled)
}

/// Whether a line of `mounts` has this path as its mount point.
fn has_mount(mounts: &str, spelled: &str) -> bool {
    mounts
        .lines()
        .any(|line| line.split(' ').nth(MOUNT_POINT) == Some(spelled))
}
