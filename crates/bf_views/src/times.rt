//! The times of the journal that a line names, and the clocks of the graph's zone.
ghost use Rattle.std.specs.Prelude.{◌≡◌, List, Option, ℕ, IfOk, IfErr, OnOk, map, option_map, string_bytes};
ghost use Rattle.bf_disk.specs.Files.{AreReadable, IsHeld, IsHeldIfNamed, IsReadable, named_paths};
ghost use Rattle.bf_report_reader.specs.Rules.{IsShownReport};
ghost use Rattle.bf_views.specs.Matching.{intervals_in};
ghost use Rattle.bf_times.specs.Times.{AreTimesOf};
ghost use Rattle.bf_views.specs.Times.{AreTimesTold};
ghost use Rattle.bf_views.specs.inner.Clocks.{AreClocksBy};
ghost use Rattle.bf_views.specs.inner.Times.{IsJournalFaultAt, IsNamedJournalFault};

use crate::matching::intervals_of;
use bf_command_fault::CommandFault;
use bf_disk::Source;
use bf_input::read_journal_bytes;
use bf_interval::Runs;
use bf_moment::Moment;
use bf_plan::Plan;
use bf_planning::TimedPlan;
use bf_report::Report;
use bf_times::{front_of, times_of};
use bf_value::OutOfMemory;
use std::alloc::Global;

/// Makes runs of the data intervals of a report's runs.
fn runs_of(alloc: Global, report: &Report) -> Result<Runs, OutOfMemory>
    requires { IsShownReport report.now }
    ensures { IfOk result (λ runs. runs ≡ intervals_in report.now.runs) }
{
    let intervals = intervals_of(alloc, report.runs.as_slice())?;
    Ok(Runs::from_intervals(intervals))
}

/// Gives what the clocks of the graph's zone show at the start of each run of a report, in order.
pub(crate) fn clocks_of(
    alloc: Global,
    timed: &TimedPlan,
    report: &Report,
) -> Result<Vec<Moment>, OutOfMemory>
    requires { IsShownReport report.now }
    ensures { IfOk result (λ clocks.
        AreClocksBy timed.now report.now (map (λ clock. clock.at.nanosecond) clocks.items)) }
{
    let runs = runs_of(alloc, report)?;
    timed.clocks(alloc, &runs)
}

/// Reads the journal at `path`, its head first, and gives the times of its tries as text for the page. `Err` where it
/// can't be read, isn't of this plan and the report's runs, or memory runs out.
#[tactic(auto, using(crate::proofs::TimesRead::front_fault, crate::proofs::TimesRead::times_fault, crate::proofs::TimesRead::times_at))]
fn read_times_at<S: Source>(
    alloc: Global,
    path: String,
    plan: &Plan,
    report: &Report,
    files: &mut S,
) -> Result<String, CommandFault>
    requires { IsShownReport report.now }
    ensures times { IfOk result (λ times. (held : List ℕ)
        → IsHeld (S.file files.old (string_bytes path)) held
        → AreTimesOf plan.now.dag (intervals_in report.now.runs) held (string_bytes times)) }
    ensures readable { OnOk result (IsReadable (S.file files.old (string_bytes path))) }
    ensures fault { IfErr result (IsJournalFaultAt (S.file files.old) (string_bytes path)
        plan.now.dag (intervals_in report.now.runs)) }
{
    let runs = runs_of(alloc, report)?;
    let front = front_of(alloc, plan, &runs)?;
    let journal = read_journal_bytes(alloc, path, &front, files)?;
    Ok(times_of(alloc, plan, &runs, &journal)?)
}

/// Reads the journal at `path`, and gives the times of its tries as text for the page; empty where no journal is named.
/// `Err` where it can't be read, isn't of this plan and the report's runs, or memory runs out.
#[tactic(auto, using(crate::proofs::TimesRead::named_times, crate::proofs::TimesRead::unnamed_times, crate::proofs::TimesRead::named_fault))]
pub(crate) fn read_times<S: Source>(
    alloc: Global,
    path: Option<String>,
    plan: &Plan,
    report: &Report,
    files: &mut S,
) -> Result<String, CommandFault>
    requires { IsShownReport report.now }
    ensures times { IfOk result (λ times. (journal : Option (List ℕ))
        → IsHeldIfNamed (S.file files.old) (option_map string_bytes path) journal
        → AreTimesTold plan.now.dag (intervals_in report.now.runs) journal (string_bytes times)) }
    ensures readable { OnOk result
        (AreReadable (S.file files.old) (named_paths (option_map string_bytes path))) }
    ensures fault { IfErr result (IsNamedJournalFault (S.file files.old)
        (option_map string_bytes path) plan.now.dag (intervals_in report.now.runs)) }
{
    match path {
        Some(path) => read_times_at(alloc, path, plan, report, files),
        None => Ok(String::new(alloc)),
    }
}
