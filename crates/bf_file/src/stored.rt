//! Files in memory that are replaced.
ghost use Rattle.std.specs.Prelude.{◌≡◌, ◌++◌, ◌∷◌, [], None, false, IfErr, IfOk, OnErr, OnOk, Some, length};
ghost use Rattle.bf_file.specs.Replacing.{left_at, placed_with};

use crate::call::{Call, Placed};
use crate::fault::{PlaceFault, ReplaceFault};
use crate::folder::Folder;
use crate::replacement::Replacement;
use bf_value::{Sequence, Text};
use std::alloc::Global;

/// A new file in memory, under a name of its own. It keeps the calls on it that succeeded.
#[derive(Drop)]
pub struct StoredNew {
    alloc: Global,
    pub name: Text,
    pub calls: Sequence<Call>,
    pub failed: bool,
}

/// A folder in memory, which tells all that was done. It shows that the clauses of `Folder` can be kept. A call fails
/// only at want of memory, or for a rename where no file was begun since the last: that file stays under its own name.
#[derive(Drop)]
pub struct StoredFolder {
    pub placed: Sequence<Placed>,
    pub left: Sequence<Placed>,
    pub begun: Option<Text>,
    pub failed: bool,
}

impl StoredFolder {
    /// Makes a folder in memory in which no file was replaced yet.
    pub fn new(alloc: Global) -> StoredFolder
        ensures { result ≡ record { placed = []; left = []; begun = None; failed = false } }
    {
        StoredFolder {
            placed: Sequence::new(alloc),
            left: Sequence::new(alloc),
            begun: None,
            failed: false,
        }
    }
}

/// Adds a call behind the others. At an Err, which only want of memory gives, they stay as they were.
fn add_call(calls: &mut Sequence<Call>, call: Call) -> Result<(), ReplaceFault>
    ensures ok { OnOk result (calls.new ≡ calls.old ++ call ∷ []) }
    ensures err { OnErr result (calls.new ≡ calls.old) }
{
    match calls.push(call) {
        Ok(()) => Ok(()),
        Err(_) => Err(ReplaceFault::OutOfMemory),
    }
}

/// Adds a call that wrote these bytes, and gives their number. At an Err, which only want of memory gives, the calls
/// stay as they were.
fn add_write(alloc: Global, calls: &mut Sequence<Call>, bytes: &[u8]) -> Result<usize, ReplaceFault>
    ensures count { IfOk result (λ n. n ≡ length bytes.now) }
    ensures ok { OnOk result (calls.new ≡ calls.old ++ Call.Wrote bytes.now ∷ []) }
    ensures err { OnErr result (calls.new ≡ calls.old) }
{
    let piece = Sequence::from_vec(bytes.to_vec(alloc)?);
    add_call(calls, Call::Wrote(piece))?;
    Ok(bytes.len())
}

/// Adds a path with the calls on its new file, and a rename behind these. At an Err, which only want of memory gives,
/// the paths stay as they were.
fn add_placed(
    placed: &mut Sequence<Placed>,
    path: Text,
    mut calls: Sequence<Call>,
) -> Result<(), ReplaceFault>
    ensures ok { OnOk result (Some placed.new
        ≡ placed_with (Some placed.old) (Some path) (Some calls)) }
    ensures err { OnErr result (placed.new ≡ placed.old) }
{
    add_call(&mut calls, Call::Renamed)?;
    match placed.push(Placed { path, calls }) {
        Ok(()) => Ok(()),
        Err(_) => Err(ReplaceFault::OutOfMemory),
    }
}

/// Adds a path with the calls on its new file, as `add_placed` does. `Lost` at want of memory.
fn put(placed: &mut Sequence<Placed>, path: Text, new: StoredNew) -> Result<(), PlaceFault>
    ensures ok { OnOk result (Some placed.new
        ≡ placed_with (Some placed.old) (Some path) (Some new.calls)) }
    ensures err { OnErr result (placed.new ≡ placed.old) }
    ensures lost { IfErr result (λ fault. fault ≡ PlaceFault.Lost ReplaceFault.OutOfMemory) }
{
    match add_placed(placed, path, new.calls) {
        Ok(()) => Ok(()),
        Err(_) => Err(PlaceFault::Lost(ReplaceFault::OutOfMemory)),
    }
}

/// Adds a new file that stays under its name, with the calls on it, and gives why it isn't at its path: `Left`, or
/// `Lost` at want of memory, where none is added.
fn add_left(left: &mut Sequence<Placed>, new: StoredNew) -> PlaceFault
    ensures { Some left.new ≡ left_at (Some left.old) (Some new.calls) result }
{
    let StoredNew {
        alloc,
        name,
        calls,
        failed: _,
    } = new;
    let Ok(path) = Text::copy_of(alloc, name.as_str()) else {
        return PlaceFault::Lost(ReplaceFault::OutOfMemory);
    };
    match left.push(Placed { path, calls }) {
        Ok(()) => PlaceFault::Left(name),
        Err(_) => PlaceFault::Lost(ReplaceFault::OutOfMemory),
    }
}

impl Replacement for StoredNew {
    ghost use Rattle.std.specs.Prelude.{Some};

    ghost calls = { λ n. Some n.calls };

    ghost failed = { λ n. n.failed };

    /// Adds a call that wrote all these bytes, and gives their number; `OutOfMemory` at want of memory.
    fn write(&mut self, bytes: &[u8]) -> Result<usize, ReplaceFault> {
        let written = add_write(self.alloc, &mut self.calls, bytes);
        self.failed = self.failed || written.is_err();
        written
    }

    /// Adds a sync to the calls; `OutOfMemory` at want of memory.
    fn sync(&mut self) -> Result<(), ReplaceFault> {
        let synced = add_call(&mut self.calls, Call::Synced);
        self.failed = self.failed || synced.is_err();
        synced
    }
}

impl Folder for StoredFolder {
    ghost use Rattle.std.specs.Prelude.{Some};

    type New = StoredNew;

    ghost placed = { λ f. Some f.placed };

    ghost left = { λ f. Some f.left };

    ghost begun = { λ f. f.begun };

    ghost failed = { λ f. f.failed };

    /// Remembers the path for `rename`, and gives a new file with no calls, whose name is the path; `OutOfMemory` at
    /// want of memory.
    fn begin_replacement(&mut self, alloc: Global, path: &str) -> Result<StoredNew, ReplaceFault> {
        let (Ok(name), Ok(path)) = (Text::copy_of(alloc, path), Text::copy_of(alloc, path)) else {
            self.failed = true;
            return Err(ReplaceFault::OutOfMemory);
        };
        self.begun = Some(path);
        Ok(StoredNew {
            alloc,
            name,
            calls: Sequence::new(alloc),
            failed: false,
        })
    }

    /// Adds the path last begun with the new file's calls. `Left` where none was begun since the last rename, `Lost` at
    /// want of memory.
    fn rename(&mut self, new: StoredNew) -> Result<(), PlaceFault> {
        let renamed = match self.begun.take() {
            Some(path) => put(&mut self.placed, path, new),
            None => Err(add_left(&mut self.left, new)),
        };
        self.failed = self.failed || renamed.is_err();
        renamed
    }

    /// Drops the new file; no path gets it.
    fn discard(&mut self, new: StoredNew) {
        self.failed = new.failed || self.failed;
    }
}
