//! Why a range has no listing.
ghost use Rattle.std.specs.Prelude.{◌≡◌};
ghost use Rattle.bf_interval.specs.Intervals.{refusal_number_of};
ghost use Rattle.bf_interval.specs.declared.fault.IntervalFault.TheVariants.{OutOfMemory};

use std::alloc::{AllocError, AllocFailed};
use std::error::Error;
use std::fmt;

/// Why the data intervals of a range can't be listed.
#[derive(Clone, Copy, Debug, PartialEq, Eq)]
pub enum IntervalFault {
    /// A moment lies outside the years 1970 to 2199.
    OutsideYears,
    /// The first moment lies after the last.
    RangeReversed,
    /// More than 4,096 data intervals start in the range.
    TooManyRuns,
    OutOfMemory,
}

impl IntervalFault {
    /// Gives the number of the refusal in docs/FORMATS.md, 25 to 27; None for `OutOfMemory`, which refuses no range.
    pub fn refusal_number(self) -> Option<u32>
        ensures { result ≡ refusal_number_of self }
    {
        match self {
            IntervalFault::OutsideYears => Some(25),
            IntervalFault::RangeReversed => Some(26),
            IntervalFault::TooManyRuns => Some(27),
            IntervalFault::OutOfMemory => None,
        }
    }
}

impl fmt::Display for IntervalFault {
    ghost use Rattle.std.specs.Prelude.{Some};
    ghost use Rattle.bf_interval.specs.Intervals.{fault_text};

    ghost output = { λ fault. Some (fault_text fault) };

    /// Writes the fault in words, such as `range reversed`.
    fn fmt<W: fmt::Write>(&self, f: &mut fmt::Formatter<W>) -> fmt::Result {
        match self {
            IntervalFault::OutsideYears => write!(f, "outside years"),
            IntervalFault::RangeReversed => write!(f, "range reversed"),
            IntervalFault::TooManyRuns => write!(f, "too many runs"),
            IntervalFault::OutOfMemory => write!(f, "out of memory"),
        }
    }
}

impl Error for IntervalFault {}

impl From<AllocError> for IntervalFault {
    ghost from_gives = { λ _ e. e ≡ OutOfMemory };

    /// Gives `OutOfMemory`.
    fn from(_e: AllocError) -> IntervalFault {
        IntervalFault::OutOfMemory
    }
}

impl<T: Drop> From<AllocFailed<T>> for IntervalFault {
    ghost from_gives = { λ _ e. e ≡ OutOfMemory };

    /// Gives `OutOfMemory`.
    fn from(_e: AllocFailed<T>) -> IntervalFault {
        IntervalFault::OutOfMemory
    }
}
