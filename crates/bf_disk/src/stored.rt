//! Files in memory.
ghost use Rattle.std.specs.Prelude.{◌≡◌, ◌++◌, ◌∷◌, [], OnOk, OnErr, map, option_map, option_copied, find, string_bytes};
ghost use Rattle.std.specs.Str.{bytes_eq};
ghost use Rattle.bf_disk.specs.Source.{file_in};
ghost use Rattle.bf_disk.specs.Stored.{seen};

use crate::source::{Source, SourceFault};
use bf_device::Bytes;
use bf_value::OutOfMemory;
use std::alloc::Global;
use std::marker::Model;

/// A file in memory: its path, and its bytes.
#[derive(Drop)]
struct StoredFile {
    path: String,
    bytes: Vec<u8>,
}

/// Files in memory, by which the clauses of `Source` are proved to be possible. Contracts see the list of paths and
/// bytes. Of two files with one path the first is read.
#[derive(Drop)]
pub struct StoredFiles {
    alloc: Global,
    files: Vec<StoredFile>,
}

impl Model for StoredFiles {
    ghost use Rattle.std.specs.Prelude.{List, ℕ, map};

    ghost Value = { List (List ℕ × List ℕ) };

    ghost use Rattle.bf_disk.specs.Stored.{seen};

    ghost view = { λ s. map seen s.files.items };
}

impl StoredFiles {
    /// Makes a source in memory that has no files.
    pub fn new(alloc: Global) -> Self
        ensures { result ≡ [] }
    {
        StoredFiles {
            alloc,
            files: Vec::new(alloc),
        }
    }

    /// Adds a file at the end of the list; it isn't read where an earlier one has its path. At `Err` the list stays as
    /// it was.
    pub fn add(&mut self, path: &str, bytes: &[u8]) -> Result<(), OutOfMemory>
        ensures ok { OnOk result (self.new ≡ self.old ++ (path.now, bytes.now) ∷ []) }
        ensures err { OnErr result (self.new ≡ self.old) }
    {
        let file = StoredFile {
            path: String::from_str(self.alloc, path)?,
            bytes: bytes.to_vec(self.alloc)?,
        };
        self.files.push(file)?;
        Ok(())
    }
}

impl Source for StoredFiles {
    ghost use Rattle.std.specs.Prelude.{Some};
    ghost use Rattle.bf_disk.specs.Source.{file_in};

    type Device = Bytes;

    ghost file = { λ s path. Some (file_in s path) };

    /// Gives a device with the bytes of the first file with this path. `Err(CannotRead)` where there is none, or want
    /// of memory.
    fn open(&mut self, path: &str) -> Result<Bytes, SourceFault> {
        let Some(bytes) = bytes_at(&self.files, path) else {
            return Err(SourceFault::CannotRead);
        };
        Ok(Bytes::new(bytes.to_vec(self.alloc)?))
    }

    /// Gives what `open` does: every file is regular.
    fn open_regular(&mut self, path: &str) -> Result<Bytes, SourceFault> {
        self.open(path)
    }
}

/// The bytes of the first file with this path; None where there is none.
#[tactic(auto, using(crate::proofs::FoundFiles::found_bytes))]
fn bytes_at<'a>(files: &'a [StoredFile], path: &str) -> Option<&'a [u8]>
    ensures { option_map (λ b. b.now) result ≡ file_in (map seen files.entry.now) path.now }
{
    let file = file_at(files, path)?;
    Some(file.bytes.as_slice())
}

/// The first file with this path; None where there is none.
fn file_at<'a>(files: &'a [StoredFile], path: &str) -> Option<&'a StoredFile>
    ensures { option_copied result
        ≡ find (λ f. bytes_eq (string_bytes f.path) path.now) files.entry.now }
{
    files.iter().find(|f| f.path.as_str() == path)
}
