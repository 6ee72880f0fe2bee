//! Why no new file takes a path's place.
ghost use Rattle.std.specs.Prelude.{◌≡◌};

use bf_value::Text;
use std::alloc::AllocError;
use std::io;
use std::io::ErrorKind;

/// Why no new file could be put at a path.
#[derive(Clone, Copy, Debug, PartialEq, Eq)]
pub enum ReplaceFault {
    /// A folder or a device stands at the path, the folder of the path doesn't exist, the file there can't be taken
    /// away, or a call of the system failed.
    CannotReplace,
    OutOfMemory,
}

/// Why a new file that was written isn't at its path.
#[derive(Debug, Drop)]
pub enum PlaceFault {
    /// It isn't on the disk as a whole, and was removed.
    Lost(ReplaceFault),
    /// It can't be renamed, and stays whole under this name.
    Left(Text),
}

impl From<AllocError> for ReplaceFault {
    ghost use Rattle.bf_file.specs.declared.fault.ReplaceFault.TheVariants.{OutOfMemory};

    ghost from_gives = { λ _ e. e ≡ OutOfMemory };

    /// Gives `OutOfMemory`.
    fn from(_e: AllocError) -> ReplaceFault {
        ReplaceFault::OutOfMemory
    }
}

impl From<io::Error> for ReplaceFault {
    ghost use Rattle.std.specs.Prelude.{◌≢◌};
    ghost use Rattle.std.specs.IoError.{error_kind};
    ghost use Rattle.std.specs.declared.io.ErrorKind.TheVariants.{OutOfMemory as NoMemory};
    ghost use Rattle.bf_file.specs.declared.fault.ReplaceFault.TheVariants.{CannotReplace, OutOfMemory};

    ghost from_gives = { λ error fault. (error_kind error ≡ NoMemory → fault ≡ OutOfMemory)
        × (error_kind error ≢ NoMemory → fault ≡ CannotReplace) };

    /// Gives `OutOfMemory` for an error of that kind, else `CannotReplace`.
    fn from(error: io::Error) -> ReplaceFault {
        match error.kind() {
            ErrorKind::OutOfMemory => ReplaceFault::OutOfMemory,
            _ => ReplaceFault::CannotReplace,
        }
    }
}
