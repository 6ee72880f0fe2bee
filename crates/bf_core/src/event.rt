//! Events.
ghost use Rattle.std.specs.Prelude.{◌≡◌, IfOk};
ghost use Rattle.bf_core.specs.Cores.{deciding};

use bf_try::Outcome;
use bf_value::{JobName, OutOfMemory};
use std::alloc::{AllocError, Global};
use thiserror::Error;

/// What may happen next in a backfill.
#[derive(Debug, Drop)]
pub enum Event {
    /// The next run is opened.
    Open,
    /// A task is decided, without going on to its expansion.
    Settle { run: u32, task: u32 },
    /// An expanded task that its rule and its past let run is decided, by the items of its source.
    Expand { run: u32, task: u32 },
    /// A try begins.
    Begin(JobName),
    /// A try ends.
    End(JobName, Outcome),
    /// A run is closed.
    Close { run: u32 },
    /// The clock comes to a later moment, in seconds since 1970.
    Tick { moment: i64 },
}

impl Event {
    /// The event that decides a task in a run: `Expand` where its expansion decides it, else `Settle`.
    pub(crate) fn deciding(expands: bool, run: u32, task: u32) -> Event
        ensures { result ≡ deciding expands run task }
    {
        if expands {
            Event::Expand { run, task }
        } else {
            Event::Settle { run, task }
        }
    }

    /// A copy of the event; what was pushed is shared and not copied. Contracts see no sharing.
    pub fn copy(&self, alloc: Global) -> Result<Event, OutOfMemory>
        ensures { IfOk result (λ event. event ≡ self.now) }
    {
        Ok(match self {
            Event::Open => Event::Open,
            Event::Settle { run, task } => Event::Settle {
                run: *run,
                task: *task,
            },
            Event::Expand { run, task } => Event::Expand {
                run: *run,
                task: *task,
            },
            Event::Begin(name) => Event::Begin(*name),
            Event::End(name, outcome) => Event::End(*name, outcome.copy(alloc)?),
            Event::Close { run } => Event::Close { run: *run },
            Event::Tick { moment } => Event::Tick { moment: *moment },
        })
    }
}

/// Why an event is refused: the first of these causes that holds, but want of memory may come before any other.
#[derive(Clone, Copy, Debug, PartialEq, Eq, Error)]
pub enum Illegal {
    /// The event names a run, a task, an instance or a try that isn't there.
    #[error("stranger")]
    Stranger,
    /// The event may not come now, for another cause than want of room.
    #[error("not enabled")]
    NotEnabled,
    /// The task's pool has too few slots free.
    #[error("no room")]
    NoRoom,
    #[error("out of memory")]
    OutOfMemory,
}

impl From<OutOfMemory> for Illegal {
    ghost use Rattle.std.specs.Prelude.{◌≡◌};
    ghost use Rattle.bf_core.specs.declared.event.Illegal.TheVariants.{OutOfMemory};

    ghost from_gives = { λ _ e. e ≡ OutOfMemory };

    /// Want of memory refuses an event by `OutOfMemory`.
    fn from(_e: OutOfMemory) -> Illegal {
        Illegal::OutOfMemory
    }
}

impl From<AllocError> for Illegal {
    ghost use Rattle.std.specs.Prelude.{◌≡◌};
    ghost use Rattle.bf_core.specs.declared.event.Illegal.TheVariants.{OutOfMemory};

    ghost from_gives = { λ _ e. e ≡ OutOfMemory };

    /// Want of memory refuses an event by `OutOfMemory`.
    fn from(_e: AllocError) -> Illegal {
        Illegal::OutOfMemory
    }
}
