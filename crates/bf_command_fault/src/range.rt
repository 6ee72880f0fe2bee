//! Why there are no runs.
ghost use Rattle.std.specs.Prelude.{◌≡◌};
ghost use Rattle.bf_command_fault.specs.Ranges.{range_refusal_number_of};

use bf_interval::IntervalFault;
use std::error::Error;
use std::fmt;

/// Why a range of dates, or a moment, gives no runs.
#[derive(Clone, Copy, Debug, PartialEq, Eq)]
pub enum RangeFault {
    /// The data intervals can't be listed.
    Unlisted(IntervalFault),
    /// No data interval starts in the range, and `--some` asks for one.
    NoRuns,
}

impl RangeFault {
    /// Answers the number that docs/FORMATS.md gives the refusal, 25 to 27 or 29; None for want of memory.
    pub(crate) fn refusal_number(self) -> Option<u32>
        ensures { result ≡ range_refusal_number_of self }
    {
        match self {
            RangeFault::Unlisted(fault) => fault.refusal_number(),
            RangeFault::NoRuns => Some(29),
        }
    }
}

impl fmt::Display for RangeFault {
    ghost use Rattle.std.specs.Prelude.{Some};
    ghost use Rattle.bf_command_fault.specs.Ranges.{range_words};

    ghost output = { λ fault. Some (range_words fault) };

    /// Writes the words that follow the refusal's number.
    fn fmt<W: fmt::Write>(&self, f: &mut fmt::Formatter<W>) -> fmt::Result {
        match self {
            RangeFault::Unlisted(fault) => write!(f, "{fault}"),
            RangeFault::NoRuns => write!(f, "no runs"),
        }
    }
}

impl Error for RangeFault {}
