//! Which paths lead to one file.
ghost use Rattle.std.specs.Prelude.{◌≡◌, IfSome};

use crate::disk::Disk;
use crate::launchers::program_in_folders;
use std::alloc::Alloc;
use std::fs;
use std::os::unix::fs::MetadataExt;
use std::rt::{Env, Files};

/// Tells which paths lead to one file.
pub trait Places {
    ghost use Rattle.std.specs.Prelude.{ℕ, Bool, List, Option};

    /// Whether two paths lead to one file, where that is told.
    ghost same: { Self → List ℕ → List ℕ → Option Bool };

    /// Whether a launcher is the program at a path, where that is told.
    ghost started: { Self → List ℕ → List ℕ → Option Bool };

    /// Whether two paths lead to one file, links followed; where neither has a file, whether one that is made at either
    /// is the same.
    fn are_one(&self, one: &str, other: &str) -> bool
        ensures { IfSome (same self.now one.now other.now) (λ told. result ≡ told) };

    /// Whether the program that a launcher names is the file at a path, links followed.
    fn is_launcher(&self, launcher: &str, path: &str) -> bool
        ensures { IfSome (started self.now launcher.now path.now) (λ told. result ≡ told) };
}

/// The folder in which a path's file stands, and its name there.
fn folder_and_name(path: &str) -> (&str, &str) {
    match path.trim_end_matches('/').rsplit_once('/') {
        Some(("", name)) => ("/", name),
        Some(both) => both,
        None => (".", path.trim_end_matches('/')),
    }
}

/// Whether there are files at both paths, links followed, of one number on one device.
fn lead_to_one_file<R: Files>(rt: &R, one: &str, other: &str) -> bool {
    match (fs::metadata(rt, one), fs::metadata(rt, other)) {
        (Ok(one), Ok(other)) => one.dev() == other.dev() && one.ino() == other.ino(),
        _ => false,
    }
}

/// Whether there is a file at neither path, and both name the same in one folder.
fn name_one_file<R: Files>(rt: &R, one: &str, other: &str) -> bool {
    if fs::metadata(rt, one).is_ok() || fs::metadata(rt, other).is_ok() {
        return false;
    }
    let (folder, name) = folder_and_name(one);
    let (other_folder, other_name) = folder_and_name(other);
    name == other_name && lead_to_one_file(rt, folder, other_folder)
}

/// Looks for a launcher's name without `/` in the folders of `PATH`, as `execvp` does. What the system doesn't say
/// counts as no.
impl<'a, R: Files + Env + Alloc> Places for Disk<'a, R> {
    ghost use Rattle.std.specs.Prelude.{None};

    ghost same = { λ _ _ _. None };

    ghost started = { λ _ _ _. None };

    /// Whether the files at both paths are one by device and number; where neither is there, whether the paths have one
    /// name in one folder.
    fn are_one(&self, one: &str, other: &str) -> bool {
        lead_to_one_file(self.rt, one, other) || name_one_file(self.rt, one, other)
    }

    /// Whether the file at a path is the launcher by device and number. False also where `PATH` can't be read or memory
    /// runs out.
    fn is_launcher(&self, launcher: &str, path: &str) -> bool {
        if launcher.contains('/') {
            return lead_to_one_file(self.rt, launcher, path);
        }
        match program_in_folders(self.rt, launcher) {
            Ok(Some(program)) => lead_to_one_file(self.rt, program.as_str(), path),
            Ok(None) | Err(_) => false,
        }
    }
}
