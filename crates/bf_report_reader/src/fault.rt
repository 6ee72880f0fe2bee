//! Why a report was not read.
ghost use Rattle.std.specs.Prelude.{◌≡◌};
ghost use Rattle.bf_report_reader.specs.Refusals.{refusal_number_of};

use bf_value::OutOfMemory;
use std::error::Error;
use std::fmt;

/// Why a report could not be read. Lines are counted from 1.
#[derive(Clone, Copy, Debug, PartialEq, Eq)]
pub enum ReportFault {
    /// This line isn't one that may stand here.
    BadLine(u64),
    /// This line has more bytes than a line may have.
    TooLong(u64),
    /// The bytes end before the line feed of the end line.
    Truncated,
    /// The device failed, or was interrupted too often.
    Io,
    OutOfMemory,
}

impl ReportFault {
    /// Gives the number of the refusal in docs/FORMATS.md, 30 to 32; None for `Io` and `OutOfMemory`, which refuse no
    /// report.
    pub fn refusal_number(self) -> Option<u32>
        ensures { result ≡ refusal_number_of self }
    {
        match self {
            ReportFault::BadLine(_) => Some(30),
            ReportFault::TooLong(_) => Some(31),
            ReportFault::Truncated => Some(32),
            ReportFault::Io | ReportFault::OutOfMemory => None,
        }
    }
}

impl fmt::Display for ReportFault {
    ghost use Rattle.std.specs.Prelude.{Some};
    ghost use Rattle.bf_report_reader.specs.Refusals.{fault_text};

    ghost output = { λ fault. Some (fault_text fault) };

    /// Writes the words of the fault, as `bad line: 3`.
    fn fmt<W: fmt::Write>(&self, f: &mut fmt::Formatter<W>) -> fmt::Result {
        match self {
            ReportFault::BadLine(line) => write!(f, "bad line: {line}"),
            ReportFault::TooLong(line) => write!(f, "line too long: {line}"),
            ReportFault::Truncated => write!(f, "truncated"),
            ReportFault::Io => write!(f, "cannot read"),
            ReportFault::OutOfMemory => write!(f, "out of memory"),
        }
    }
}

impl Error for ReportFault {}

impl From<OutOfMemory> for ReportFault {
    ghost use Rattle.bf_report_reader.specs.declared.fault.ReportFault.TheVariants.{OutOfMemory};

    ghost from_gives = { λ _ e. e ≡ OutOfMemory };

    /// Gives `OutOfMemory`.
    fn from(_e: OutOfMemory) -> ReportFault {
        ReportFault::OutOfMemory
    }
}

/// The device failed, or interrupted reads more than `MOST_INTERRUPTIONS` times.
#[derive(Clone, Copy, Debug, PartialEq, Eq)]
pub(crate) struct Halted;

impl From<Halted> for ReportFault {
    ghost use Rattle.bf_report_reader.specs.declared.fault.ReportFault.TheVariants.{Io};

    ghost from_gives = { λ _ e. e ≡ Io };

    /// Gives `Io`.
    fn from(_e: Halted) -> ReportFault {
        ReportFault::Io
    }
}
