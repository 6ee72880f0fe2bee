//! What is cleared with a task in a run, in a heading above the line that does it.
ghost use Rattle.std.specs.Prelude.{◌≡◌, ◌<◌, ◌≤◌, ◌++◌, IfOk, OnOk, filter, length, option_copied};
ghost use Rattle.bf_explain.specs.Clearing.{AreClearSections, IsClearSection, IsCleared, began_with_failure_in, clear_heading_of, has_failed_in, has_failure_in, is_of_single_in, last_run_of, place_text_of, place_told_of, places_to_clear_in, root_place_of, root_places_of};
ghost use Rattle.bf_explain.specs.Headings.{place_in};
ghost use Rattle.bf_explain.specs.Sections.{section};

use crate::began::other_run_text;
use crate::clear_line::clear_line;
use crate::headings::place_of;
use crate::paths::Paths;
use crate::sections::add_section;
use bf_dependents::{Place, dependents};
use bf_plan::Plan;
use bf_reason::Settled;
use bf_report::{InstanceReport, Report, RunReport, TaskReport};
use bf_roots::{Began, Root};
use bf_value::{OutOfMemory, Text};
use bf_wording::{add_lines, count_text, one_line};
use bf_xcom::Outcome;
use std::alloc::Global;

/// A clear command is shown for at most this many roots.
const MOST_PLACES: usize = 3;

/// How much is cleared: `tasks`, where a task in two runs counts twice, in `runs` runs in a row.
#[derive(Clone, Copy, Debug, PartialEq, Eq)]
struct ClearedCount {
    tasks: u64,
    runs: u64,
}

/// The place that is explained: task number `task` in run number `run`, or its instance of map index `index` where the
/// task ran expanded and an index is given.
fn place_told(run: u32, task: u32, told: &TaskReport, index: Option<i32>) -> Place
    ensures { result ≡ place_told_of run task told.now index }
{
    let index = match told {
        TaskReport::Mapped(_) => index,
        _ => None,
    };
    Place { run, task, index }
}

/// Whether there is an instance, and it failed.
fn has_failed(instance: Option<&InstanceReport>) -> Result<bool, OutOfMemory>
    ensures { IfOk result (λ failed. failed ≡ has_failed_in (option_copied instance.entry)) }
{
    match instance {
        Some(instance) => Ok(matches!(instance.result()?.outcome, Outcome::Failed)),
        None => Ok(false),
    }
}

/// Whether an instance of a task is failed or upstream_failed or has no status; where the task ran expanded and a place
/// is given, from 0, whether its instance there failed.
fn has_failure(told: &Settled<'_>, place: Option<usize>) -> Result<bool, OutOfMemory>
    ensures { IfOk result (λ failed. failed ≡ has_failure_in told.now place) }
{
    match (told.task_report(), place) {
        (TaskReport::Mapped(instances), Some(place)) => has_failed(instances.get(place)),
        _ => {
            let counts = told.counts();
            Ok(counts.failed + counts.upstream_failed + counts.blocked > 0)
        }
    }
}

/// Whether a failure is what began at a root.
fn began_with_failure(root: &Root) -> bool
    ensures { result ≡ began_with_failure_in root.now }
{
    matches!(root.began, Began::Failed)
}

/// The place of a root, with all its instances.
fn root_place(root: &Root) -> Place
    ensures { result ≡ root_place_of root.now }
{
    Place {
        run: root.run,
        task: root.task,
        index: None,
    }
}

/// The run of the last of these places; `run` where there are no places.
fn last_run(run: u32, places: &[Place]) -> u32
    ensures { result ≡ last_run_of run places.now }
{
    let mut last = run;
    for place in places {
        last = place.run;
    }
    last
}

/// How many tasks are cleared with `place`, itself included and counted in each run, and how many runs there are from
/// its own to the last of theirs. The report has `runs` runs.
fn count_cleared_with(
    alloc: Global,
    plan: &Plan,
    runs: u32,
    place: Place,
) -> Result<ClearedCount, OutOfMemory>
    ensures { IfOk result (IsCleared plan.now.dag runs place) }
{
    let all = dependents(alloc, plan, &[place], runs)?;
    let places = all.places(alloc, plan, runs)?;
    let last = last_run(place.run, places.as_slice());
    Ok(ClearedCount {
        tasks: places.len() as u64,
        runs: (u64::from(last) + 1).saturating_sub(u64::from(place.run)),
    })
}

/// The words ` ID` and, for another run than `run`, ` in the run of START`. Empty where the place is `task` in `run`,
/// the task explained.
fn place_text(
    alloc: Global,
    plan: &Plan,
    report: &Report,
    run: u32,
    task: u32,
    place: Place,
) -> Result<Text, OutOfMemory>
    ensures { IfOk result (λ text. text ≡ place_text_of plan.now.dag report.now run task place) }
{
    if place.run == run && place.task == task {
        return Text::copy_of(alloc, "");
    }
    let id = plan.dag().id_of(place.task);
    let there = other_run_text(alloc, report, run, place.run)?;
    Ok(Text::new(format!(in alloc; " {id}{there}")?))
}

/// The heading over a clear command, such as `clear load, with what follows from it: 3 tasks in 2 runs`. `place` names
/// what is cleared, with a space before it; it is empty for the task explained.
fn clear_heading(alloc: Global, place: &Text, cleared: ClearedCount) -> Result<Text, OutOfMemory>
    ensures { IfOk result (λ text. text ≡ clear_heading_of place.now cleared) }
{
    let tasks = count_text(alloc, cleared.tasks, "task")?;
    let runs = count_text(alloc, cleared.runs, "run")?;
    let text = format!(in alloc; "clear{place}, with what follows from it: {tasks} in {runs}")?;
    Ok(Text::new(text))
}

/// Whether a run's data interval ends where it starts, which is so only for a run of `backfill single`; true where
/// `run` is None.
fn is_of_single(run: Option<&RunReport>) -> bool
    ensures { result ≡ is_of_single_in (option_copied run.entry) }
{
    match run {
        Some(run) => run.interval.start == run.interval.end,
        None => true,
    }
}

/// The heading and the shell line that clear a place. Empty where the report lacks its run, or that was made by
/// `backfill single`, which no range has. `task` in `run` is the task explained.
fn clear_section(
    alloc: Global,
    paths: &Paths,
    plan: &Plan,
    report: &Report,
    run: u32,
    task: u32,
    place: Place,
) -> Result<Vec<Text>, OutOfMemory>
    requires { length report.now.runs ≤ 4_096 }
    ensures { IfOk result (λ lines. IsClearSection paths.now plan.now.dag report.now run task place
        lines.items) }
{
    let mut lines = Vec::new(alloc);
    if is_of_single(report.runs.get(place.run as usize)) {
        return Ok(lines);
    }
    let cleared = count_cleared_with(alloc, plan, report.runs.len() as u32, place)?;
    let there = place_text(alloc, plan, report, run, task, place)?;
    let heading = clear_heading(alloc, &there, cleared)?;
    let line = one_line(alloc, clear_line(alloc, paths, plan, report, place)?)?;
    add_section(alloc, &mut lines, heading.as_str(), line.as_slice())?;
    Ok(lines)
}

/// For each of these places, in order, the heading and the shell line that clear it; none for a place in a run of
/// `backfill single`. `task` in `run` is the task explained.
fn clear_sections(
    alloc: Global,
    paths: &Paths,
    plan: &Plan,
    report: &Report,
    run: u32,
    task: u32,
    places: &[Place],
) -> Result<Vec<Text>, OutOfMemory>
    requires { length report.now.runs ≤ 4_096 }
    ensures { IfOk result (λ lines. AreClearSections paths.now plan.now.dag report.now run task
        places.now lines.items) }
{
    let mut lines = Vec::new(alloc);
    for place in places {
        let more = clear_section(alloc, paths, plan, report, run, task, *place)?;
        add_lines(&mut lines, more)?;
    }
    Ok(lines)
}

/// The places of the first three roots, or of all where there are fewer.
fn root_places(alloc: Global, roots: &[Root]) -> Result<Vec<Place>, OutOfMemory>
    ensures { IfOk result (λ places. places.items ≡ root_places_of roots.now) }
{
    let mut places = Vec::new(alloc);
    for root in &roots[..roots.len().min(MOST_PLACES)] {
        places.push(root_place(root))?;
    }
    Ok(places)
}

/// The places of the first three roots at which a failure began it.
fn failed_root_places(alloc: Global, roots: &[Root]) -> Result<Vec<Place>, OutOfMemory>
    ensures { IfOk result (λ places. places.items
        ≡ root_places_of (filter began_with_failure_in roots.now)) }
{
    let failed: Vec<Root> = roots
        .iter()
        .copied()
        .filter(|root| began_with_failure(root))
        .collect(alloc)?;
    root_places(alloc, failed.as_slice())
}

/// The places to show a clear command for. Where `place`, which is explained, has a failure: those of the first three
/// roots, or itself where there are none. Else those of the first three roots at which a failure began it.
fn places_to_clear(
    alloc: Global,
    place: Place,
    has_failure: bool,
    roots: &[Root],
) -> Result<Vec<Place>, OutOfMemory>
    ensures { IfOk result (λ places. places.items
        ≡ places_to_clear_in place has_failure roots.now) }
{
    match (has_failure, roots) {
        (true, []) => Ok(vec![in alloc; place]?),
        (true, [_, ..]) => root_places(alloc, roots),
        (false, _) => failed_root_places(alloc, roots),
    }
}

/// Headings and shell lines that clear the places where it began that a task, `task` in `run`, or its instance of map
/// index `index`, has its state: at most three. Where there are none, those of the task or the instance itself. Empty
/// where nothing failed and nothing follows from a failure; a place in a run of `backfill single` has none.
pub(crate) fn clear_lines(
    alloc: Global,
    paths: &Paths,
    plan: &Plan,
    report: &Report,
    run: u32,
    task: u32,
    told: &Settled<'_>,
    index: Option<i32>,
    roots: &[Root],
) -> Result<Vec<Text>, OutOfMemory>
    requires { length report.now.runs ≤ 4_096 }
    ensures { IfOk result (λ lines. AreClearSections paths.now plan.now.dag report.now run task
        (places_to_clear_in (place_told_of run task told.now index)
        (has_failure_in told.now (place_in index)) roots.now) lines.items) }
{
    let place = place_told(run, task, told.task_report(), index);
    let has_failure = has_failure(told, place_of(index))?;
    let places = places_to_clear(alloc, place, has_failure, roots)?;
    clear_sections(alloc, paths, plan, report, run, task, places.as_slice())
}
