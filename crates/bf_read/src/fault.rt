//! Why a graph file is refused.
ghost use Rattle.std.specs.Prelude.{◌≡◌};
ghost use Rattle.bf_read.specs.Faults.{refusal_number_of};

use crate::path::Path;
use bf_value::{OutOfMemory, Text};
use std::alloc::AllocFailed;
use std::error::Error;
use std::fmt;

/// Why a graph file could not be read as a draft. Paths say where the fault is.
#[derive(Debug, Drop)]
pub enum ReadFault {
    /// The bytes are no UTF-8, or no JSON.
    NotJson,
    /// A value is missing or of the wrong type, an object has an unknown key, a name is that of no kind, weight rule or
    /// context variable, or a word of a command is malformed.
    Shape(Path),
    /// A text isn't an id.
    BadName(Path),
    /// An earlier task has this id.
    DuplicateTask(Text),
    LimitPassed(Path),
    OutOfMemory,
}

impl ReadFault {
    /// Gives the number of the refusal in docs/FORMATS.md, 1 to 5; None for `OutOfMemory`, which refuses no file.
    pub fn refusal_number(&self) -> Option<u32>
        ensures { result ≡ refusal_number_of self.now }
    {
        match self {
            ReadFault::NotJson => Some(1),
            ReadFault::Shape(_) => Some(2),
            ReadFault::BadName(_) => Some(3),
            ReadFault::DuplicateTask(_) => Some(4),
            ReadFault::LimitPassed(_) => Some(5),
            ReadFault::OutOfMemory => None,
        }
    }
}

impl fmt::Display for ReadFault {
    ghost use Rattle.std.specs.Prelude.{Some};
    ghost use Rattle.bf_read.specs.Faults.{fault_text};

    ghost output = { λ fault. Some (fault_text fault) };

    /// Writes the fault in words, with its place or task, such as `shape: tasks[3].upstream`.
    fn fmt<W: fmt::Write>(&self, f: &mut fmt::Formatter<W>) -> fmt::Result {
        match self {
            ReadFault::NotJson => write!(f, "not json"),
            ReadFault::Shape(path) => write!(f, "shape: {path}"),
            ReadFault::BadName(path) => write!(f, "bad name: {path}"),
            ReadFault::DuplicateTask(task) => write!(f, "duplicate task: {task}"),
            ReadFault::LimitPassed(path) => write!(f, "limit passed: {path}"),
            ReadFault::OutOfMemory => write!(f, "out of memory"),
        }
    }
}

impl Error for ReadFault {}

impl From<OutOfMemory> for ReadFault {
    ghost use Rattle.bf_read.specs.declared.fault.ReadFault.TheVariants.{OutOfMemory};

    ghost from_gives = { λ _ e. e ≡ OutOfMemory };

    /// Gives `OutOfMemory`.
    fn from(_e: OutOfMemory) -> ReadFault {
        ReadFault::OutOfMemory
    }
}

impl<T: Drop> From<AllocFailed<T>> for ReadFault {
    ghost use Rattle.bf_read.specs.declared.fault.ReadFault.TheVariants.{OutOfMemory};

    ghost from_gives = { λ _ e. e ≡ OutOfMemory };

    /// Gives `OutOfMemory`.
    fn from(_e: AllocFailed<T>) -> ReadFault {
        ReadFault::OutOfMemory
    }
}
