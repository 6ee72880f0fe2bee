//! Halts of the turns.
ghost use Rattle.std.specs.Prelude.{◌≡◌};

use bf_value::{JobName, OutOfMemory};

/// Why a turn did not come to its end.
#[derive(Debug, Drop)]
pub enum TurnFault {
    OutOfMemory,
    /// The runner gave up this try.
    Runner(JobName),
    /// The gathered answer is to no running try, or to one that was given something else. Once the lanes are closed,
    /// their lists show that this never was.
    Stranger,
}

impl From<OutOfMemory> for TurnFault {
    ghost use Rattle.bf_exec.specs.declared.turn_fault.TurnFault.TheVariants.{OutOfMemory};

    ghost from_gives = { λ _ e. e ≡ OutOfMemory };

    /// Want of memory is the fault `OutOfMemory`.
    fn from(_e: OutOfMemory) -> TurnFault {
        TurnFault::OutOfMemory
    }
}
