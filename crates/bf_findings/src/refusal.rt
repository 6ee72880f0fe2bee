//! Why a graph file is refused, explained.
ghost use Rattle.std.specs.Prelude.{◌≡◌};
ghost use Rattle.bf_findings.specs.Texts.{why_read, why_task, why_check};

use bf_check::{CheckFault, TaskFault};
use bf_read::{Path, ReadFault};
use bf_value::Text;
use std::fmt;

/// Why a graph file is refused: when it is read as a draft, or when the draft is checked as a plan.
#[derive(Debug, Drop)]
pub enum Refusal {
    Read(ReadFault),
    Check(CheckFault),
    /// That a task pulls from one which needn't have ended then, and the id of that one.
    Pull(CheckFault, Text),
}

/// Gives the words that explain, behind the fault itself, why a file can't be read as a draft.
fn words_of_read_fault(fault: &ReadFault) -> &'static str
    ensures { result.now ≡ why_read fault.now }
{
    match fault {
        ReadFault::LimitPassed(Path::Bytes) => "a graph file has at most 8388608 bytes",
        ReadFault::LimitPassed(_) => {
            "a file has at most 20000 distinct edges, and a command pulls from at most 16 tasks"
        }
        _ => "no graph file is of this form",
    }
}

/// Gives the words that explain, behind the fault itself, what is wrong with a task.
fn words_of_task_fault(fault: TaskFault) -> &'static str
    ensures { result.now ≡ why_task fault }
{
    match fault {
        TaskFault::UnknownUpstream => "it comes after a task that isn't there",
        TaskFault::UnknownPool => "its pool isn't there",
        TaskFault::SlotsBeyondPool => "it takes more slots than its pool has",
        TaskFault::BadRule => "its rule is none",
        TaskFault::PullNotSettled => {
            "it pulls from a task that needn't have ended when this one is decided"
        }
        TaskFault::ExpandSource => "it is expanded over a task that isn't directly upstream",
        TaskFault::ExpandRule => "its rule may decide it before all upstreams have ended",
        TaskFault::BranchMisuse => "a branch can't be expanded",
    }
}

/// Gives the words that explain, behind the fault itself, why a draft is refused.
fn words_of_check_fault(fault: &CheckFault) -> &'static str
    ensures { result.now ≡ why_check fault.now }
{
    match fault {
        CheckFault::Task(fault, _) => words_of_task_fault(*fault),
        CheckFault::Cycle(_) => "each comes after the one before it, and the first after the last",
        CheckFault::BadCron => "the schedule is none",
        CheckFault::NeverFires => "no day matches the schedule",
        CheckFault::BadZone => "the zone is none",
        CheckFault::OutOfMemory => "no memory was left",
    }
}

impl fmt::Display for Refusal {
    ghost use Rattle.std.specs.Prelude.{Some};
    ghost use Rattle.bf_findings.specs.Texts.{refusal_text};

    ghost output = { λ refusal. Some (refusal_text refusal) };

    /// Writes the fault, and behind it the words that explain it.
    fn fmt<W: fmt::Write>(&self, f: &mut fmt::Formatter<W>) -> fmt::Result {
        match self {
            Refusal::Read(fault) => write!(f, "{fault}: {}", words_of_read_fault(fault)),
            Refusal::Check(fault) => write!(f, "{fault}: {}", words_of_check_fault(fault)),
            Refusal::Pull(fault, pulled) => {
                write!(f, "{fault}: {}: {pulled}", words_of_check_fault(fault))
            }
        }
    }
}
