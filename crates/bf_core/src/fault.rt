//! Faults of a backfill.
ghost use Rattle.std.specs.Prelude.{◌≡◌};

use bf_value::{JobName, OutOfMemory};
use thiserror::Error;

/// Why a backfill did not come to its end.
#[derive(Debug, Drop, Error)]
pub enum BackfillFault {
    #[error("out of memory")]
    OutOfMemory,
    /// The runner gave up this try.
    #[error("runner gave up")]
    Runner(JobName),
    /// A worker's thread could not be started.
    #[error("cannot start workers")]
    Start,
}

impl From<OutOfMemory> for BackfillFault {
    ghost use Rattle.bf_core.specs.declared.fault.BackfillFault.TheVariants.{OutOfMemory};

    ghost from_gives = { λ _ e. e ≡ OutOfMemory };

    /// Want of memory is the fault `OutOfMemory`.
    fn from(_e: OutOfMemory) -> BackfillFault {
        BackfillFault::OutOfMemory
    }
}
