//! Where files are read from.
ghost use Rattle.std.specs.Prelude.{◌≡◌, ℕ, List, Option, IfSome};
ghost use Rattle.bf_disk.specs.Source.{NeverHalts, Opens};

use bf_device::Read;
use std::alloc::AllocError;

/// Why a file's bytes can't be had.
#[derive(Clone, Copy, Debug, PartialEq, Eq)]
pub enum SourceFault {
    /// There is no such file, it may not be read, or a read of it failed.
    CannotRead,
    /// Memory ran out.
    OutOfMemory,
}

impl From<AllocError> for SourceFault {
    ghost use Rattle.bf_disk.specs.declared.source.SourceFault.TheVariants.{OutOfMemory};

    ghost from_gives = { λ _ e. e ≡ OutOfMemory };

    /// Gives `OutOfMemory`.
    fn from(_e: AllocError) -> SourceFault {
        SourceFault::OutOfMemory
    }
}

/// Where files are read from, by their paths.
pub trait Source {
    /// What an open file is read by.
    type Device: Read + Drop;

    /// What a path's file holds, where the source tells it: its bytes, or `None` where it can't be read.
    ghost file: { Self → List ℕ → Option (Option (List ℕ)) };

    /// Opens the file at a path. Where the source tells what files hold, the device gives just these bytes and never
    /// halts. `Err` where the file can't be opened, or at want of memory.
    fn open(&mut self, path: &str) -> Result<Self::Device, SourceFault>
        ensures opens { IfSome (file self.old path.now) (λ held.
            Opens Self.Device.left held result) }
        ensures steady { IfSome (file self.old path.now) (λ _.
            NeverHalts Self.Device.interruptions Self.Device.failures) }
        ensures stays { (p : List ℕ) → file self.new p ≡ file self.old p };

    /// Opens the file at a path, as `open` does. `Err` also where it isn't a regular file, as a pipe, which may never
    /// end.
    fn open_regular(&mut self, path: &str) -> Result<Self::Device, SourceFault>
        ensures opens { IfSome (file self.old path.now) (λ held.
            Opens Self.Device.left held result) }
        ensures steady { IfSome (file self.old path.now) (λ _.
            NeverHalts Self.Device.interruptions Self.Device.failures) }
        ensures stays { (p : List ℕ) → file self.new p ≡ file self.old p };
}
