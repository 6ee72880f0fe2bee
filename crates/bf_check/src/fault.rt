//! Why a draft is refused.
ghost use Rattle.std.specs.Prelude.{◌≡◌};
ghost use Rattle.bf_check.specs.Refusals.{refusal_number_of, check_refusal_number_of};

use bf_value::{OutOfMemory, Sequence, Text};
use std::error::Error;
use std::fmt;

/// Why a draft is refused for one of its tasks.
#[derive(Clone, Copy, Debug, PartialEq, Eq)]
pub enum TaskFault {
    /// One of its upstreams is no task.
    UnknownUpstream,
    UnknownPool,
    /// It takes more slots than its pool has.
    SlotsBeyondPool,
    /// Its rule isn't a trigger rule.
    BadRule,
    /// It pulls from a task that may be unsettled when it is decided, or from one that doesn't exist.
    PullNotSettled,
    /// It is expanded over a task that isn't directly upstream.
    ExpandSource,
    /// It is expanded under a rule that may decide it before its upstreams settle.
    ExpandRule,
    /// It is both a branch and expanded.
    BranchMisuse,
}

impl TaskFault {
    /// Gives the number of the refusal in docs/FORMATS.md, from 6 to 17.
    fn refusal_number(self) -> u32
        ensures { result ≡ refusal_number_of self }
    {
        match self {
            TaskFault::UnknownUpstream => 6,
            TaskFault::UnknownPool => 8,
            TaskFault::SlotsBeyondPool => 9,
            TaskFault::BadRule => 10,
            TaskFault::PullNotSettled => 14,
            TaskFault::ExpandSource => 15,
            TaskFault::ExpandRule => 16,
            TaskFault::BranchMisuse => 17,
        }
    }
}

impl fmt::Display for TaskFault {
    ghost use Rattle.std.specs.Prelude.{Some};
    ghost use Rattle.bf_check.specs.Refusals.{task_fault_text};

    ghost output = { λ fault. Some (task_fault_text fault) };

    /// Writes the fault in words, such as `unknown pool`.
    fn fmt<W: fmt::Write>(&self, f: &mut fmt::Formatter<W>) -> fmt::Result {
        f.write_str(match self {
            TaskFault::UnknownUpstream => "unknown upstream",
            TaskFault::UnknownPool => "unknown pool",
            TaskFault::SlotsBeyondPool => "slots beyond pool",
            TaskFault::BadRule => "bad rule",
            TaskFault::PullNotSettled => "pull not settled",
            TaskFault::ExpandSource => "expand source",
            TaskFault::ExpandRule => "expand rule",
            TaskFault::BranchMisuse => "branch misuse",
        })
    }
}

impl Error for TaskFault {}

/// Why a draft is refused.
#[derive(Debug, Drop)]
pub enum CheckFault {
    /// The first task in the file with this fault, by its id.
    Task(TaskFault, Text),
    /// The edges have a cycle: each of these tasks is directly upstream of the next, and the last of the first. It
    /// begins with the first task in the file that lies on a cycle, and is the shortest through that.
    Cycle(Sequence<Text>),
    /// The schedule is neither a cron expression nor a preset.
    BadCron,
    /// No civil minute matches the schedule.
    NeverFires,
    /// The zone's text means none, or is `file` and the zone file is missing or unreadable.
    BadZone,
    OutOfMemory,
}

impl CheckFault {
    /// Gives the number of the refusal in docs/FORMATS.md, 6 to 17; None for `OutOfMemory`, which refuses no draft.
    pub fn refusal_number(&self) -> Option<u32>
        ensures { result ≡ check_refusal_number_of self.now }
    {
        match self {
            CheckFault::Task(fault, _) => Some(fault.refusal_number()),
            CheckFault::Cycle(_) => Some(7),
            CheckFault::BadCron => Some(11),
            CheckFault::NeverFires => Some(12),
            CheckFault::BadZone => Some(13),
            CheckFault::OutOfMemory => None,
        }
    }
}

impl fmt::Display for CheckFault {
    ghost use Rattle.std.specs.Prelude.{Some};
    ghost use Rattle.bf_check.specs.Refusals.{fault_text};

    ghost output = { λ fault. Some (fault_text fault) };

    /// Writes the fault in words, with its tasks, such as `unknown pool: load` or `cycle: a b c`.
    fn fmt<W: fmt::Write>(&self, f: &mut fmt::Formatter<W>) -> fmt::Result {
        match self {
            CheckFault::Task(fault, task) => write!(f, "{fault}: {task}"),
            CheckFault::Cycle(tasks) => write!(f, "cycle: {}", Spaced(tasks)),
            CheckFault::BadCron => write!(f, "bad cron"),
            CheckFault::NeverFires => write!(f, "never fires"),
            CheckFault::BadZone => write!(f, "bad zone"),
            CheckFault::OutOfMemory => write!(f, "out of memory"),
        }
    }
}

impl Error for CheckFault {}

/// Texts that display with one space between each two.
#[derive(Clone, Copy)]
struct Spaced<'a>(&'a Sequence<Text>);

impl fmt::Display for Spaced<'_> {
    ghost use Rattle.std.specs.Prelude.{Some};
    ghost use Rattle.std.specs.List.{join_with_byte};

    ghost output = { λ texts. Some (join_with_byte 32 texts.0.now) };

    /// Writes the texts with one space between each two; nothing where there are none.
    fn fmt<W: fmt::Write>(&self, f: &mut fmt::Formatter<W>) -> fmt::Result {
        let [first, rest @ ..] = self.0.as_slice() else {
            return Ok(());
        };
        write!(f, "{first}")?;
        for text in rest {
            write!(f, " {text}")?;
        }
        Ok(())
    }
}

impl From<OutOfMemory> for CheckFault {
    ghost use Rattle.std.specs.Prelude.{◌≡◌};
    ghost use Rattle.bf_check.specs.declared.fault.CheckFault.TheVariants.{OutOfMemory};

    ghost from_gives = { λ _ e. e ≡ OutOfMemory };

    /// Gives `OutOfMemory`.
    fn from(_e: OutOfMemory) -> CheckFault {
        CheckFault::OutOfMemory
    }
}
