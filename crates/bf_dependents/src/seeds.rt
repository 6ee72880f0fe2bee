//! Seeds: what is to be cleared.
ghost use Rattle.std.specs.Prelude.{◌≡◌, ◌≤◌, ◌∷◌, [], length, IfOk, IfErr, Some, None};
ghost use Rattle.bf_dependents.specs.Seeds.{IsSeedFault, place_in, places_in, run_number, seed_fault, task_number};

use crate::fault::ClearFault;
use crate::place::{Place, add_place};
use bf_interval::Interval;
use bf_plan::Plan;
use bf_value::Text;
use jiff::Timestamp;
use std::alloc::Global;

/// A task, by its id, in the run of a logical date, or one instance of it: what a user asks to clear.
#[derive(Debug, Drop)]
pub struct Seed {
    /// The id of the task.
    pub task: Text,
    /// The logical date of the run.
    pub run: Timestamp,
    /// The map index of the one instance, -1 where the task isn't expanded; None for all instances.
    pub index: Option<i32>,
}

/// The number of the task that a seed names, from 0 in file order; None where the plan has no such task.
fn task_number_of(plan: &Plan, seed: &Seed) -> Option<u32>
    ensures { result ≡ task_number plan.now.dag seed.now }
{
    plan.graph().number_of(seed.task.as_str())
}

/// The number, from 0, of the run that a seed names: the place of the first data interval that starts at its logical
/// date. None where none does.
fn run_number_of(intervals: &[Interval], seed: &Seed) -> Option<usize>
    ensures { result ≡ run_number intervals.now seed.now }
{
    let run = seed.run;
    intervals.iter().position(|interval| interval.start == run)
}

/// The place that a seed names. `UnknownTask` where the plan lacks its task, else `UnknownRun` where its run is the
/// start of none of these data intervals; it never gives another fault.
pub fn place_of(plan: &Plan, intervals: &[Interval], seed: &Seed) -> Result<Place, ClearFault>
    requires few { length intervals.now ≤ 4_096 }
    ensures known { IfOk result (λ _. seed_fault plan.now.dag intervals.now (seed.now ∷ [])
        ≡ None) }
    ensures ok { IfOk result (λ place. place_in plan.now.dag intervals.now seed.now
        ≡ Some place) }
    ensures err { IfErr result (λ fault. seed_fault plan.now.dag intervals.now (seed.now ∷ [])
        ≡ Some fault) }
{
    let task = task_number_of(plan, seed).ok_or(ClearFault::UnknownTask)?;
    let run = run_number_of(intervals, seed).ok_or(ClearFault::UnknownRun)? as u32;
    Ok(Place {
        run,
        task,
        index: seed.index,
    })
}

/// The places that these seeds name, in order. `UnknownTask` where any names a task that the plan lacks, else
/// `UnknownRun` where any names a run that is the start of none of these data intervals; `OutOfMemory` where memory ran
/// out.
pub fn places_of(
    alloc: Global,
    plan: &Plan,
    intervals: &[Interval],
    seeds: &[Seed],
) -> Result<Vec<Place>, ClearFault>
    requires few { length intervals.now ≤ 4_096 }
    ensures known { IfOk result (λ _. seed_fault plan.now.dag intervals.now seeds.now ≡ None) }
    ensures ok { IfOk result (λ places. places.items
        ≡ places_in plan.now.dag intervals.now seeds.now) }
    ensures err { IfErr result (IsSeedFault plan.now.dag intervals.now seeds.now) }
{
    let mut places = Vec::new(alloc);
    let mut is_run_unknown = false;
    for seed in seeds {
        match place_of(plan, intervals, seed) {
            Ok(place) => add_place(&mut places, place)?,
            // a later seed may name an unknown task, which goes before
            Err(ClearFault::UnknownRun) => is_run_unknown = true,
            Err(fault) => return Err(fault),
        }
    }
    if is_run_unknown {
        return Err(ClearFault::UnknownRun);
    }
    Ok(places)
}
