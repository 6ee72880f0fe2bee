//! Why a journal was not read.
ghost use Rattle.std.specs.Prelude.{◌≡◌};
ghost use Rattle.bf_journal.specs.declared.fault.JournalFault.TheVariants.{OutOfMemory};

use bf_value::OutOfMemory;
use std::alloc::{AllocError, AllocFailed};
use std::error::Error;
use std::fmt;

/// Why a journal could not be read. Lines are counted from 1, the head.
#[derive(Clone, Copy, Debug, PartialEq, Eq)]
pub enum JournalFault {
    /// This whole line is no record of a try of this plan and its runs.
    BadRecord(u64),
    /// The journal is of another backfill: it neither begins with this one's head nor is a beginning of that head.
    Mismatch,
    OutOfMemory,
}

impl JournalFault {
    ghost use Rattle.bf_journal.specs.Found.{refusal_number_of};

    /// Gives the number of the refusal in docs/FORMATS.md, 33 or 43; None for `OutOfMemory`, which refuses no journal.
    pub fn refusal_number(self) -> Option<u32>
        ensures { result ≡ refusal_number_of self }
    {
        match self {
            JournalFault::BadRecord(_) => Some(33),
            JournalFault::Mismatch => Some(43),
            JournalFault::OutOfMemory => None,
        }
    }
}

impl fmt::Display for JournalFault {
    ghost use Rattle.std.specs.Prelude.{Some};
    ghost use Rattle.bf_journal.specs.Found.{fault_text};

    ghost output = { λ fault. Some (fault_text fault) };

    /// Writes the words of the fault, as `bad record: 3`.
    fn fmt<W: fmt::Write>(&self, f: &mut fmt::Formatter<W>) -> fmt::Result {
        match self {
            JournalFault::BadRecord(number) => write!(f, "bad record: {number}"),
            JournalFault::Mismatch => write!(f, "journal mismatch"),
            JournalFault::OutOfMemory => write!(f, "out of memory"),
        }
    }
}

impl Error for JournalFault {}

impl From<OutOfMemory> for JournalFault {
    ghost from_gives = { λ _ e. e ≡ OutOfMemory };

    /// Gives `OutOfMemory`.
    fn from(_e: OutOfMemory) -> JournalFault {
        JournalFault::OutOfMemory
    }
}

impl From<AllocError> for JournalFault {
    ghost from_gives = { λ _ e. e ≡ OutOfMemory };

    /// Gives `OutOfMemory`.
    fn from(_e: AllocError) -> JournalFault {
        JournalFault::OutOfMemory
    }
}

impl<T: Drop> From<AllocFailed<T>> for JournalFault {
    ghost from_gives = { λ _ e. e ≡ OutOfMemory };

    /// Gives `OutOfMemory`.
    fn from(_e: AllocFailed<T>) -> JournalFault {
        JournalFault::OutOfMemory
    }
}
