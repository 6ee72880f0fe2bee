//! Backfills of three runs that are driven by chance: by what comes next, and by events that may be refused.
use crate::chance::Chance;
use crate::graphs::{TASKS, graph_of};
use crate::looks::compare;
use bf_core::{Core, Event};
use bf_plan::Plan;
use bf_sched::Ready;
use bf_tests_graphs::{daily_runs, plan_of};
use bf_try::Outcome;
use bf_value::{JobName, OutOfMemory, Text, Values, Xval};
use bf_xcom::SharedValue;
use std::alloc::Global;
use std::process::Abort;
use std::test::Fail;

const RUNS: u32 = 3;

/// The most turns of a walk; each ends long before.
const MOST_EVENTS: u32 = 4_000;

/// Makes a value of the name of the task with this number.
fn task_name(alloc: Global, task: u32) -> Result<Xval, OutOfMemory> {
    let name = format!(in alloc; "t{task}")?;
    Ok(Xval::Text(Text::copy_of(alloc, name.as_str())?))
}

/// Makes a list of up to three names of tasks: they serve as items, and, where they are its downstreams, for a branch.
fn names(alloc: Global, chance: &mut Chance) -> Result<Xval, OutOfMemory> {
    let mut items = Vec::new(alloc);
    for _item in 0..chance.below(4) {
        items.push(task_name(alloc, 2 + chance.below(TASKS - 2))?)?;
    }
    Ok(Xval::List(Values::new(items)))
}

/// Makes a success that pushed this value.
fn success_with(alloc: Global, value: Xval) -> Result<Outcome, OutOfMemory> {
    Ok(Outcome::Success(SharedValue::new(alloc, Some(value))?))
}

/// Makes an outcome by chance.
fn outcome(alloc: Global, chance: &mut Chance) -> Result<Outcome, OutOfMemory> {
    match chance.below(8) {
        0 => Ok(Outcome::Skipped),
        1 | 2 => Ok(Outcome::Failed),
        3 => Ok(Outcome::Success(SharedValue::nothing())),
        4 => success_with(alloc, task_name(alloc, 2 + chance.below(TASKS - 2))?),
        _ => success_with(alloc, names(alloc, chance)?),
    }
}

/// Makes the name of a try by chance; there may be no such try.
fn name(chance: &mut Chance) -> JobName {
    JobName {
        run: chance.below(RUNS),
        task: chance.below(TASKS),
        index: chance.below(4) as i32 - 1,
        attempt: 1 + chance.below(3),
    }
}

/// Makes an event by chance, which the backfill may refuse.
fn stray(alloc: Global, chance: &mut Chance) -> Result<Event, OutOfMemory> {
    let run = chance.below(RUNS);
    let task = chance.below(TASKS);
    match chance.below(7) {
        0 => Ok(Event::Open),
        1 => Ok(Event::Settle { run, task }),
        2 => Ok(Event::Expand { run, task }),
        3 => Ok(Event::Begin(name(chance))),
        4 => Ok(Event::End(name(chance), outcome(alloc, chance)?)),
        5 => Ok(Event::Close { run }),
        _ => Ok(Event::Tick {
            moment: i64::from(chance.below(600)),
        }),
    }
}

/// Makes the end of one of the running tries; None where none runs.
fn end(
    alloc: Global,
    chance: &mut Chance,
    running: &[JobName],
) -> Result<Option<Event>, OutOfMemory> {
    let count = running.len().min(64) as u32;
    if count == 0 {
        return Ok(None);
    }
    match running.get(chance.below(count) as usize) {
        Some(name) => Ok(Some(Event::End(*name, outcome(alloc, chance)?))),
        None => Ok(None),
    }
}

/// Makes the event that comes next: a step, the begin of a try, the end of a running one, or the moment that is waited
/// for. None where nothing is left to come.
fn next(
    alloc: Global,
    chance: &mut Chance,
    ready: &Ready<'_>,
    running: &[JobName],
) -> Result<Option<Event>, OutOfMemory> {
    if let Some(step) = ready.next_step() {
        return Ok(Some(step));
    }
    if let Some(name) = ready.next_try() {
        return Ok(Some(Event::Begin(name)));
    }
    if let Some(event) = end(alloc, chance, running)? {
        return Ok(Some(event));
    }
    match ready.next_moment() {
        Some(moment) => Ok(Some(Event::Tick { moment })),
        None => Ok(None),
    }
}

/// Lets an event come, and keeps `running` up to date; does nothing where it is refused.
fn take(
    ready: &mut Ready<'_>,
    running: &mut Vec<JobName>,
    event: Event,
) -> Result<(), OutOfMemory> {
    let began = match &event {
        Event::Begin(name) => Some(*name),
        _ => None,
    };
    let ended = match &event {
        Event::End(name, _) => Some(*name),
        _ => None,
    };
    if ready.apply(event).is_err() {
        return Ok(());
    }
    if let Some(name) = began {
        running.push(name)?;
    }
    if let Some(name) = ended {
        running.retain(|other| *other != name);
    }
    Ok(())
}

/// Chooses by chance between a stray event and the one that comes next; None where the latter is chosen and nothing is
/// left to come.
fn chosen(
    alloc: Global,
    chance: &mut Chance,
    ready: &Ready<'_>,
    running: &[JobName],
) -> Result<Option<Event>, OutOfMemory> {
    if chance.is_one_in(2) {
        Ok(Some(stray(alloc, chance)?))
    } else {
        next(alloc, chance, ready, running)
    }
}

/// Drives a backfill to its end by chance, and compares before each event.
fn drive(
    rt: &impl Abort,
    alloc: Global,
    chance: &mut Chance,
    ready: &mut Ready<'_>,
) -> Result<(), Fail> {
    let mut running = Vec::new(alloc);
    for _turn in 0..MOST_EVENTS {
        compare(rt, alloc, ready)?;
        let Some(event) = chosen(alloc, chance, ready, running.as_slice())? else {
            break;
        };
        take(ready, &mut running, event)?;
    }
    assert!(rt; ready.core().is_ended());
    Ok(())
}

/// Drives a plan's backfill of three runs to its end by chance.
fn walk_over(rt: &impl Abort, alloc: Global, plan: &Plan, chance: &mut Chance) -> Result<(), Fail> {
    let runs = daily_runs(alloc, RUNS).ok_or("there are no such runs")?;
    let core = Core::new(alloc, plan, &runs)?;
    let mut ready = Ready::new(alloc, core)?;
    drive(rt, alloc, chance, &mut ready)
}

/// Drives a graph's backfill of three runs to its end by chance.
fn walk(rt: &impl Abort, alloc: Global, graph: &str, chance: &mut Chance) -> Result<(), Fail> {
    let plan = plan_of(alloc, graph)?;
    walk_over(rt, alloc, &plan, chance)
}

#[test]
fn what_is_kept_is_what_is_found(rt: HostRuntime) -> Result<(), Fail> {
    for seed in 0..200u64 {
        let mut chance = Chance::new(seed);
        let graph = graph_of(rt.alloc(), &mut chance)?;
        walk(&rt, rt.alloc(), graph.as_str(), &mut chance)?;
    }
    Ok(())
}
