//! The command `clear --plan`: what is cleared.
ghost use Rattle.std.specs.Prelude.{◌≡◌, ◌++◌, IfErr, IfOk, OnOk, length, option_copied, string_bytes};
ghost use Rattle.std.specs.List.{flat_map};
ghost use Rattle.bf_command_fault.specs.Refusal.{Leaves, Sends};
ghost use Rattle.bf_dependents.specs.Listing.{places_in};
ghost use Rattle.bf_device.specs.Device.{HasHalted};
ghost use Rattle.bf_commands.specs.Cleared.{IsUncleared};
ghost use Rattle.bf_commands.specs.Planned.{begins_run_in, begins_task_in, cleared_line, place_before_in, runs_in, sum_line, tasks_in, IsClearPlan, IsPlanText, ClearPlanFault};

use crate::cleared::{ToClear, keep_uncleared};
use crate::heading::cleared_tasks_of;
use bf_clear::Cleared;
use bf_command_fault::CommandFault;
use bf_dependents::{Place, dependents};
use bf_device::{Write, send};
use bf_journal::ClearedTask;
use bf_planning::DatedPlan;
use bf_report::Report;
use bf_value::OutOfMemory;
use std::alloc::Global;

/// Appends the line of a cleared task: the start of its run, its id, and its map index where only one instance is
/// cleared.
fn push_cleared(text: &mut String, cleared: &ClearedTask) -> Result<(), OutOfMemory>
    ensures { OnOk result (string_bytes text.new ≡ string_bytes text.old
        ++ cleared_line cleared.now) }
{
    let ClearedTask { task, run, index } = cleared;
    match index {
        Some(index) => writeln!(text, "{run} {task} {index}")?,
        None => writeln!(text, "{run} {task}")?,
    }
    Ok(())
}

/// Gives a line for each of these cleared tasks, in their order.
fn lines_of(alloc: Global, cleared: &[ClearedTask]) -> Result<String, OutOfMemory>
    ensures { IfOk result (λ text. string_bytes text ≡ flat_map cleared_line cleared.now) }
{
    let mut text = String::new(alloc);
    for one in cleared {
        push_cleared(&mut text, one)?;
    }
    Ok(text)
}

/// The place at index `place - 1`; None where `place` is 0, or greater than how many places there are.
fn place_before(places: &[Place], place: usize) -> Option<&Place>
    ensures { option_copied result ≡ place_before_in places.now place }
{
    if place == 0 {
        return None;
    }
    places.get(place - 1)
}

/// Whether `places[place]` is in another run than the place before it. True for the first place, and past the last.
fn begins_run(places: &[Place], place: usize) -> bool
    ensures { result ≡ begins_run_in places.now place }
{
    match (place_before(places, place), places.get(place)) {
        (Some(one), Some(other)) => one.run != other.run,
        _ => true,
    }
}

/// Whether `places[place]` is in another run, or of another task, than the place before it. True for the first place,
/// and past the last.
fn begins_task(places: &[Place], place: usize) -> bool
    ensures { result ≡ begins_task_in places.now place }
{
    match (place_before(places, place), places.get(place)) {
        (Some(one), Some(other)) => !(one.run == other.run && one.task == other.task),
        _ => true,
    }
}

/// Counts the runs of these places. Places of one run have to stand together, else it counts twice.
fn count_runs(places: &[Place]) -> usize
    ensures { result ≡ runs_in places.now }
{
    let mut count = 0;
    for place in 0..places.len() {
        count += usize::from(begins_run(places, place));
    }
    count
}

/// Counts the tasks in runs of these places. Places of one task in a run have to stand together, else it counts twice.
fn count_tasks(places: &[Place]) -> usize
    ensures { result ≡ tasks_in places.now }
{
    let mut count = 0;
    for place in 0..places.len() {
        count += usize::from(begins_task(places, place));
    }
    count
}

/// Appends the last line of a plan, with its line feed, such as `3 tasks in 2 runs`; the nouns stay plural for 1.
fn push_sum(text: &mut String, places: &[Place]) -> Result<(), OutOfMemory>
    ensures { OnOk result (string_bytes text.new ≡ string_bytes text.old ++ sum_line places.now) }
{
    let (tasks, runs) = (count_tasks(places), count_runs(places));
    writeln!(text, "{tasks} tasks in {runs} runs")?;
    Ok(())
}

/// Gives a line for each of these cleared places, and a last line that counts them.
fn lines_with_sum(alloc: Global, dated: &DatedPlan, places: &[Place]) -> Result<String, OutOfMemory>
    ensures { IfOk result (λ text. IsPlanText dated.now.plan.dag dated.now.runs places.now
        (string_bytes text)) }
{
    let cleared = cleared_tasks_of(alloc, &dated.plan, &dated.runs, places)?;
    let mut text = lines_of(alloc, cleared.as_slice())?;
    push_sum(&mut text, places)?;
    Ok(text)
}

/// Lists what `kept` says is cleared with all that follows: a line for each task in a run, and a last line that counts
/// them. `Err` only at want of memory.
fn followers_text(
    alloc: Global,
    dated: &DatedPlan,
    kept: &Cleared<'_>,
) -> Result<String, CommandFault>
    ensures text { IfOk result (λ text. IsPlanText dated.now.plan.dag dated.now.runs
        (places_in dated.now.plan.dag kept.now.cleared (length dated.now.runs))
        (string_bytes text)) }
    ensures memory { IfErr result (λ fault. fault ≡ CommandFault.OutOfMemory) }
{
    let runs = dated.runs.intervals().len() as u32;
    let places = kept.followers().places(alloc, &dated.plan, runs)?;
    Ok(lines_with_sum(alloc, dated, places.as_slice())?)
}

/// Lists what clearing `what` in a report clears with all that follows: a line for each task in a run, and a last line
/// that counts them. `Err` where the report isn't of this graph and these runs, `what` isn't in it, or memory runs out.
fn clear_plan_text(
    alloc: Global,
    dated: &DatedPlan,
    report: Report,
    what: &ToClear,
) -> Result<String, CommandFault>
    ensures ok { IfOk result (λ text. IsClearPlan dated.now.plan.dag dated.now.runs report what.now
        (string_bytes text)) }
    ensures fault { IfErr result (IsUncleared dated.now.plan.dag dated.now.runs report what.now) }
{
    let kept = keep_uncleared(alloc, dated, report, what)?;
    let text = followers_text(alloc, dated, &kept);
    drop(kept);
    text
}

/// Writes what clearing `what` in a report clears with all that follows: a line for each task in a run, by date and in
/// file order, or for each instance where only some of a task are cleared, and a last line that counts them. Runs
/// nothing. `Err` where report or `what` is refused, `out` fails, or memory runs out.
pub fn write_clear_plan<W: Write>(
    alloc: Global,
    dated: &DatedPlan,
    report: Report,
    what: &ToClear,
    out: &mut W,
) -> Result<(), CommandFault>
    ensures ok { OnOk result (Sends (IsClearPlan dated.now.plan.dag dated.now.runs report what.now)
        (W.written out.old) (W.written out.new)) }
    ensures fault { IfErr result (ClearPlanFault dated.now.plan.dag dated.now.runs report
        what.now) }
    ensures left { IfErr result (Leaves (HasHalted (W.failures out.old) (W.failures out.new)
        (W.interruptions out.old) (W.interruptions out.new))
        (IsClearPlan dated.now.plan.dag dated.now.runs report what.now)
        (W.written out.old) (W.written out.new)) }
{
    let text = clear_plan_text(alloc, dated, report, what)?;
    send(out, text.as_bytes())?;
    Ok(())
}
