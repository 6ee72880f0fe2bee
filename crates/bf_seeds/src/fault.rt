//! Why no seeds are read.
ghost use Rattle.std.specs.Prelude.{◌≡◌};
ghost use Rattle.bf_seeds.specs.Seeds.{refusal_number_of};

use bf_dependents::ClearFault;
use bf_value::{OutOfMemory, Text};
use std::error::Error;
use std::fmt;

/// Why a seeds file is refused: the file as a whole, or its first bad line.
#[derive(Debug, Drop)]
pub enum SeedsFault {
    /// The file has more than 8,388,608 bytes, or isn't UTF-8.
    BadFile,
    /// A line is neither `RUN TASK` nor `RUN TASK INDEX`: this is told of it, at most 200 characters, as a terminal shows
    /// them.
    BadSeed(Text),
    /// A line names a task that the plan lacks, or a run that is the start of no data interval.
    Unknown(ClearFault),
    /// Memory ran out.
    OutOfMemory,
}

impl SeedsFault {
    /// The number of the refusal in docs/FORMATS.md: 45 for a bad file or a line of another form, that of the fault
    /// within for an unknown task or run. None for want of memory.
    pub fn refusal_number(&self) -> Option<u32>
        ensures { result ≡ refusal_number_of self.now }
    {
        match self {
            SeedsFault::BadFile | SeedsFault::BadSeed(_) => Some(45),
            SeedsFault::Unknown(fault) => fault.refusal_number(),
            SeedsFault::OutOfMemory => None,
        }
    }
}

impl fmt::Display for SeedsFault {
    ghost use Rattle.std.specs.Prelude.{Some};
    ghost use Rattle.bf_seeds.specs.Seeds.{fault_text};

    ghost output = { λ fault. Some (fault_text fault) };

    /// Writes the text of the fault, such as `bad seed: LINE`.
    fn fmt<W: fmt::Write>(&self, f: &mut fmt::Formatter<W>) -> fmt::Result {
        match self {
            SeedsFault::BadFile => write!(f, "bad seed: file"),
            SeedsFault::BadSeed(line) => write!(f, "bad seed: {line}"),
            SeedsFault::Unknown(fault) => write!(f, "{fault}"),
            SeedsFault::OutOfMemory => write!(f, "out of memory"),
        }
    }
}

impl Error for SeedsFault {}

impl From<OutOfMemory> for SeedsFault {
    ghost use Rattle.bf_seeds.specs.declared.fault.SeedsFault.TheVariants.{OutOfMemory};

    ghost from_gives = { λ _ e. e ≡ OutOfMemory };

    /// Gives `OutOfMemory`.
    fn from(_e: OutOfMemory) -> SeedsFault {
        SeedsFault::OutOfMemory
    }
}
