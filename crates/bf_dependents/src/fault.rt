//! Why nothing is cleared.
ghost use Rattle.std.specs.Prelude.{◌≡◌};
ghost use Rattle.bf_dependents.specs.Faults.{refusal_number_of};

use bf_value::OutOfMemory;
use std::error::Error;
use std::fmt;

/// Why nothing is cleared.
#[derive(Clone, Copy, Debug, PartialEq, Eq)]
pub enum ClearFault {
    /// A seed names a task that the plan lacks.
    UnknownTask,
    /// A seed names a run whose logical date is the start of no data interval.
    UnknownRun,
    /// The report isn't one of this graph or, unless it is cleared by ids, over these data intervals.
    ReportMismatch,
    /// Memory ran out.
    OutOfMemory,
}

impl ClearFault {
    /// The number of the refusal in docs/FORMATS.md, from 40 to 42; None for want of memory.
    pub fn refusal_number(self) -> Option<u32>
        ensures { result ≡ refusal_number_of self }
    {
        match self {
            ClearFault::UnknownTask => Some(40),
            ClearFault::UnknownRun => Some(41),
            ClearFault::ReportMismatch => Some(42),
            ClearFault::OutOfMemory => None,
        }
    }
}

impl fmt::Display for ClearFault {
    ghost use Rattle.std.specs.Prelude.{Some};
    ghost use Rattle.bf_dependents.specs.Faults.{fault_text};

    ghost output = { λ fault. Some (fault_text fault) };

    /// Writes the text of the fault, such as `unknown task`.
    fn fmt<W: fmt::Write>(&self, f: &mut fmt::Formatter<W>) -> fmt::Result {
        f.write_str(match self {
            ClearFault::UnknownTask => "unknown task",
            ClearFault::UnknownRun => "unknown run",
            ClearFault::ReportMismatch => "report mismatch",
            ClearFault::OutOfMemory => "out of memory",
        })
    }
}

impl Error for ClearFault {}

impl From<OutOfMemory> for ClearFault {
    ghost use Rattle.bf_dependents.specs.declared.fault.ClearFault.TheVariants.{OutOfMemory};

    ghost from_gives = { λ _ e. e ≡ OutOfMemory };

    /// Gives `OutOfMemory`.
    fn from(_e: OutOfMemory) -> ClearFault {
        ClearFault::OutOfMemory
    }
}
