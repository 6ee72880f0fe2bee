//! Which launchers can be started.
ghost use Rattle.std.specs.Prelude.{◌≡◌, IfSome};

use crate::disk::Disk;
use std::alloc::Alloc;
use std::os::unix::fs::PermissionsExt;
use std::rt::{Env, Files};
use std::{env, fs};

/// Tells which launchers can be started.
pub trait Launchers {
    ghost use Rattle.std.specs.Prelude.{ℕ, Bool, List, Option};

    /// Whether a path's program can be started, where that is told.
    ghost startable: { Self → List ℕ → Option Bool };

    /// Whether the program at a path can be started. Doesn't start it.
    fn can_start(&self, path: &str) -> bool
        ensures { IfSome (startable self.now path.now) (λ told. result ≡ told) };
}

/// Where a program is can't be told, since `PATH` can't be read or memory ran out.
#[derive(Clone, Copy)]
pub(crate) struct Unknown;

/// Whether a regular file that somebody may execute is at a path; false where the system doesn't say.
fn is_program<R: Files>(rt: &R, path: &str) -> bool {
    match fs::metadata(rt, path) {
        Ok(metadata) => metadata.is_file() && metadata.permissions().mode() & 0o111 != 0,
        Err(_) => false,
    }
}

/// Looks for a program under a name without `/` in the folders of `PATH`, as `execvp` does, where an empty folder is the
/// current one, and gives its path; None where there is none. `Err` where `PATH` can't be read or memory runs out.
pub(crate) fn program_in_folders<R: Files + Env + Alloc>(
    rt: &R,
    name: &str,
) -> Result<Option<String<R::A>>, Unknown> {
    let Ok(folders) = env::var(rt, "PATH") else {
        return Err(Unknown);
    };
    for folder in folders.split(':') {
        let in_folder = if folder.is_empty() {
            format!(in rt.alloc(); "./{name}")
        } else {
            format!(in rt.alloc(); "{folder}/{name}")
        };
        let Ok(program) = in_folder else {
            return Err(Unknown);
        };
        if is_program(rt, program.as_str()) {
            return Ok(Some(program));
        }
    }
    Ok(None)
}

/// Looks for a name without `/` in the folders of `PATH`, as `execvp` does. Where `PATH` can't be read or memory runs
/// out, calls it startable: starting it will tell.
impl<'a, R: Files + Env + Alloc> Launchers for Disk<'a, R> {
    ghost use Rattle.std.specs.Prelude.{None};

    ghost startable = { λ _ _. None };

    /// Whether the program is at a path with a `/`, or under a bare name in a folder of `PATH`, where an empty folder
    /// is the current one. True also where `PATH` can't be read or memory runs out. Doesn't start it.
    fn can_start(&self, path: &str) -> bool {
        if path.is_empty() || path.contains('/') {
            return is_program(self.rt, path);
        }
        match program_in_folders(self.rt, path) {
            Ok(found) => found.is_some(),
            Err(_) => true,
        }
    }
}
