//! Why a backfill stopped before its end.
ghost use Rattle.std.specs.Prelude.{◌≡◌};

use bf_value::Text;
use std::error::Error;
use std::fmt;

/// Why a backfill stopped before its end. It waited first for the tries that were running.
#[derive(Debug, Drop)]
pub enum StopFault {
    /// A worker's thread can't be started.
    CannotStart,
    /// The program of this try was started, but waiting for it failed. `index` is the map index, -1 for an unmapped
    /// task; `attempt` is the number of the try, from 1.
    GaveUp {
        task: Text,
        index: i32,
        attempt: u32,
    },
    /// A try's log can't be made at this path, so its program wasn't started.
    CannotLog(Text),
    /// The journal can't be written or synced, so the end of a try isn't recorded.
    CannotRecord,
    /// As many tries failed as are allowed, which is this many.
    EnoughFailed(u32),
}

impl fmt::Display for StopFault {
    ghost use Rattle.std.specs.Prelude.{Some};
    ghost use Rattle.bf_command_fault.specs.Refusal.{stop_words};

    ghost output = { λ fault. Some (stop_words fault) };

    /// Writes the words that follow `fault:`.
    fn fmt<W: fmt::Write>(&self, f: &mut fmt::Formatter<W>) -> fmt::Result {
        match self {
            StopFault::CannotStart => write!(f, "cannot start workers"),
            StopFault::GaveUp {
                task,
                index,
                attempt,
            } => write!(f, "runner gave up: {task} {index} {attempt}"),
            StopFault::CannotLog(path) => write!(f, "cannot write {path}"),
            StopFault::CannotRecord => write!(f, "cannot write the journal"),
            StopFault::EnoughFailed(most) => write!(f, "stopped after {most} failed tries"),
        }
    }
}

impl Error for StopFault {}
