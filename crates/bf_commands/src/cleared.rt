//! What is cleared.
ghost use Rattle.std.specs.Prelude.{IfErr, IfOk, length};
ghost use Rattle.bf_kept.specs.Kept.{AreFit};
ghost use Rattle.bf_dependents.specs.Dependents.{AreDependents};
ghost use Rattle.bf_clear.specs.Keeping.{kept_in};
ghost use Rattle.bf_clear.specs.Matching.{IsRefusedFor};
ghost use Rattle.bf_commands.specs.Cleared.{AreCleared, AreKeptFor, IsKeptOf, IsUncleared, IsUnknown, MatchesFor};
ghost use Rattle.bf_commands.specs.Planned.{AreFollowing};

use bf_clear::{Cleared, clear_places, clear_places_by_ids, failed_places};
use bf_command_fault::CommandFault;
use bf_dependents::{ClearFault, Place, Seed, places_of};
use bf_planning::DatedPlan;
use bf_report::Report;
use bf_seeds::read_seeds;
use std::alloc::Global;

/// What is to be cleared in a report.
#[derive(Drop)]
pub enum ToClear {
    /// These tasks in runs, or single instances of them.
    Seeds(Vec<Seed>),
    /// What the lines of a seeds file name; these are its bytes.
    File(Vec<u8>),
    /// Each instance that failed.
    Failed,
    /// Nothing. The report's tries are kept by data interval and task id, though graph or range may have changed since.
    Nothing,
}

/// Finds what is to be cleared in a report, without what follows from it. `Err` where a seed's task or run is unknown,
/// the seeds file is refused, or memory runs out.
pub(crate) fn places_to_clear(
    alloc: Global,
    dated: &DatedPlan,
    report: &Report,
    what: &ToClear,
) -> Result<Vec<Place>, CommandFault>
    ensures ok { IfOk result (λ places. AreCleared dated.now.plan.dag dated.now.runs report.now
        what.now places.items) }
    ensures fault { IfErr result (IsUnknown dated.now.plan.dag dated.now.runs what.now) }
{
    let intervals = dated.runs.intervals();
    match what {
        ToClear::Seeds(seeds) => Ok(places_of(alloc, &dated.plan, intervals, seeds.as_slice())?),
        ToClear::File(bytes) => Ok(read_seeds(alloc, &dated.plan, intervals, bytes.as_slice())?),
        ToClear::Failed => Ok(failed_places(alloc, &dated.plan, &dated.runs, report)?),
        ToClear::Nothing => Ok(Vec::new(alloc)),
    }
}

/// Keeps what a report has outside of these places and what follows from them. `Err` where the report isn't of this
/// graph and these runs (of this graph, where `what` is nothing), or at want of memory.
pub(crate) fn keep_outside<'a>(
    alloc: Global,
    dated: &'a DatedPlan,
    report: Report,
    what: &ToClear,
    places: &[Place],
) -> Result<Cleared<'a>, ClearFault>
    ensures ok { IfOk result (λ kept. MatchesFor what.now dated.entry.now.plan.dag
        dated.entry.now.runs report) }
    ensures kept { IfOk result (λ kept. AreKeptFor what.now dated.entry.now.plan.dag
        dated.entry.now.runs places.now report (kept_in kept)) }
    ensures follows { IfOk result (λ kept. AreDependents dated.entry.now.plan.dag places.now
        (length dated.entry.now.runs) kept.cleared) }
    ensures fit { IfOk result (λ kept. AreFit dated.entry.now.plan.dag (kept_in kept)) }
    ensures err { IfErr result (IsRefusedFor (MatchesFor what.now dated.entry.now.plan.dag
        dated.entry.now.runs report)) }
{
    match what {
        ToClear::Nothing => clear_places_by_ids(alloc, &dated.plan, &dated.runs, report, places),
        _ => clear_places(alloc, &dated.plan, &dated.runs, report, places),
    }
}

/// Keeps what a report has outside of `what` and all that follows from it. `Err` where a seed or line names nothing in
/// it, the report isn't of this graph and these runs (of this graph, where `what` is nothing), or memory runs out.
pub(crate) fn keep_uncleared<'a>(
    alloc: Global,
    dated: &'a DatedPlan,
    report: Report,
    what: &ToClear,
) -> Result<Cleared<'a>, CommandFault>
    ensures kept { IfOk result (λ kept. IsKeptOf dated.entry.now.plan.dag dated.entry.now.runs
        report what.now (kept_in kept)) }
    ensures fit { IfOk result (λ kept. AreFit dated.entry.now.plan.dag (kept_in kept)) }
    ensures following { IfOk result (λ kept. AreFollowing dated.entry.now.plan.dag
        dated.entry.now.runs report what.now kept.cleared) }
    ensures fault { IfErr result (IsUncleared dated.entry.now.plan.dag dated.entry.now.runs report
        what.now) }
{
    let places = places_to_clear(alloc, dated, &report, what)?;
    Ok(keep_outside(alloc, dated, report, what, places.as_slice())?)
}
