//! What a command that writes a report names beside the file that it goes to. Other commands name nothing here.
ghost use Rattle.std.specs.Prelude.{◌≡◌, IfOk, option_copied, option_map};
ghost use Rattle.clap.specs.Words.{kind_of};
ghost use Rattle.bf_command_line.specs.Naming.{graph_of, journal_of, launcher_of, logs_of, path_in, report_of, seeds_in, seeds_of, table_of};

use crate::forms::{Asked, ClearedAsked, GraphAsked, JournalAsked};
use crate::refusal::overwriting_error;
use clap::Error;
use clap::error::ErrorKind;
use std::alloc::{AllocError, Global};

/// The path of the seeds file; None where what to clear is told otherwise.
fn seeds_named(cleared: &ClearedAsked) -> Option<&str>
    ensures { option_map (λ path. path.now) result ≡ seeds_in cleared.entry.now }
{
    match cleared {
        ClearedAsked::File(path) => Some(path.as_str()),
        ClearedAsked::Seeds(_) | ClearedAsked::Failed | ClearedAsked::Nothing => None,
    }
}

/// The path of a journal; None where none is asked for.
fn path_named(journal: &Option<JournalAsked>) -> Option<&str>
    ensures { option_map (λ path. path.now) result ≡ path_in journal.entry.now }
{
    match journal {
        Some(journal) => Some(journal.path.as_str()),
        None => None,
    }
}

impl Asked {
    /// The graph file, and the zone file where one is named.
    pub fn graph(&self) -> Option<&GraphAsked>
        ensures { option_copied result ≡ graph_of self.entry.now }
    {
        match self {
            Asked::Single(single) => Some(&single.graph),
            Asked::Dry(dry) => Some(&dry.graph),
            Asked::Run(run) => Some(&run.graph),
            Asked::Keep(clear) | Asked::Clear(clear) => Some(&clear.graph),
            Asked::ClearPlan(plan) => Some(&plan.graph),
            _ => None,
        }
    }

    /// The path of the table.
    pub fn table(&self) -> Option<&str>
        ensures { option_map (λ path. path.now) result ≡ table_of self.entry.now }
    {
        match self {
            Asked::Single(single) => Some(single.table.as_str()),
            Asked::Dry(dry) => Some(dry.table.as_str()),
            Asked::Keep(clear) | Asked::Clear(clear) => clear.table.as_deref(),
            _ => None,
        }
    }

    /// The path of the report that it goes on from.
    pub fn report(&self) -> Option<&str>
        ensures { option_map (λ path. path.now) result ≡ report_of self.entry.now }
    {
        match self {
            Asked::Keep(clear) | Asked::Clear(clear) => Some(clear.report.as_str()),
            Asked::ClearPlan(plan) => Some(plan.report.as_str()),
            _ => None,
        }
    }

    /// The path of the file that says what to clear.
    pub fn seeds(&self) -> Option<&str>
        ensures { option_map (λ path. path.now) result ≡ seeds_of self.entry.now }
    {
        match self {
            Asked::Clear(clear) => seeds_named(&clear.cleared),
            Asked::ClearPlan(plan) => seeds_named(&plan.cleared),
            _ => None,
        }
    }

    /// The path of the journal.
    pub fn journal(&self) -> Option<&str>
        ensures { option_map (λ path. path.now) result ≡ journal_of self.entry.now }
    {
        match self {
            Asked::Run(run) => path_named(&run.journal),
            Asked::Keep(clear) | Asked::Clear(clear) => path_named(&clear.journal),
            _ => None,
        }
    }

    /// The launcher, as a path or as a name that `PATH` is searched for.
    pub fn launcher(&self) -> Option<&str>
        ensures { option_map (λ path. path.now) result ≡ launcher_of self.entry.now }
    {
        match self {
            Asked::Run(run) => run.launcher.as_deref(),
            Asked::Keep(clear) | Asked::Clear(clear) => clear.launcher.as_deref(),
            _ => None,
        }
    }

    /// The path of the folder of logs.
    pub fn logs(&self) -> Option<&str>
        ensures { option_map (λ path. path.now) result ≡ logs_of self.entry.now }
    {
        match self {
            Asked::Run(run) => run.logs.as_deref(),
            Asked::Keep(clear) | Asked::Clear(clear) => clear.logs.as_deref(),
            _ => None,
        }
    }

    /// The name of the command, as a line has it, where it writes a report; else that of another.
    fn report_name(&self) -> &'static str {
        match self {
            Asked::Single(_) => "single",
            Asked::Dry(_) => "dry",
            Asked::Keep(clear) if clear.table.is_some() => "dry",
            Asked::Run(_) | Asked::Keep(_) => "run",
            _ => "clear",
        }
    }
}

/// Makes the error for a line whose `--out` leads to a file that its command names, in the words for one that is spelled
/// the same.
pub fn overwriting_error_of(alloc: Global, asked: &Asked) -> Result<Error, AllocError>
    ensures { IfOk result (λ e. kind_of e ≡ ErrorKind.ArgumentConflict) }
{
    overwriting_error(alloc, asked.report_name())
}
