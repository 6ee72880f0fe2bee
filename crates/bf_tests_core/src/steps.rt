//! Cores, driven by hand over one run.
use bf_core::{Core, Event, Illegal};
use bf_plan::Plan;
use bf_tests_graphs::{epoch_run, job, plan_of};
use bf_try::Outcome;
use bf_value::{OutOfMemory, Values, Xval};
use bf_xcom::SharedValue;
use std::alloc::Global;
use std::process::Abort;
use std::test::Fail;

/// How a try ends.
#[derive(Clone, Copy)]
pub(crate) enum End {
    /// It succeeds, and pushes nothing.
    Succeeds,
    Pushes(i64),
    PushesList(&'static [i64]),
    Fails,
    Skips,
}

/// An event in short: `Settle` and `Expand` name run and task; `Begin` and `End` name task, map index and try, in the
/// first run; `Close` names the run, `Tick` the moment.
#[derive(Clone, Copy)]
pub(crate) enum TestStep {
    Open,
    Settle(u32, u32),
    Expand(u32, u32),
    Begin(u32, i32, u32),
    End(u32, i32, u32, End),
    Close(u32),
    Tick(i64),
}

/// A step, and what the core must answer to it.
pub(crate) type Answered = (TestStep, Result<(), Illegal>);

/// Makes a list of these numbers.
pub(crate) fn list_of(alloc: Global, numbers: &[i64]) -> Result<Xval, OutOfMemory> {
    let mut items = Vec::new(alloc);
    for number in numbers {
        items.push(Xval::Int(*number))?;
    }
    Ok(Xval::List(Values::new(items)))
}

/// Makes a success that pushed this value.
fn success_with(alloc: Global, value: Xval) -> Result<Outcome, OutOfMemory> {
    Ok(Outcome::Success(SharedValue::new(alloc, Some(value))?))
}

/// Makes the outcome of a try that ends so.
fn outcome_of(alloc: Global, end: End) -> Result<Outcome, OutOfMemory> {
    match end {
        End::Succeeds => Ok(Outcome::Success(SharedValue::nothing())),
        End::Pushes(number) => success_with(alloc, Xval::Int(number)),
        End::PushesList(numbers) => success_with(alloc, list_of(alloc, numbers)?),
        End::Fails => Ok(Outcome::Failed),
        End::Skips => Ok(Outcome::Skipped),
    }
}

/// Makes the event of a step.
fn event_of(alloc: Global, step: TestStep) -> Result<Event, OutOfMemory> {
    match step {
        TestStep::Open => Ok(Event::Open),
        TestStep::Settle(run, task) => Ok(Event::Settle { run, task }),
        TestStep::Expand(run, task) => Ok(Event::Expand { run, task }),
        TestStep::Begin(task, index, attempt) => Ok(Event::Begin(job(task, index, attempt))),
        TestStep::End(task, index, attempt, end) => Ok(Event::End(
            job(task, index, attempt),
            outcome_of(alloc, end)?,
        )),
        TestStep::Close(run) => Ok(Event::Close { run }),
        TestStep::Tick(moment) => Ok(Event::Tick { moment }),
    }
}

/// Lets the steps come to the core in order, and checks what it answers to each.
pub(crate) fn take(
    rt: &impl Abort,
    alloc: Global,
    core: &mut Core<'_>,
    steps: &[Answered],
) -> Result<(), Fail> {
    for (place, (step, answer)) in steps.iter().enumerate() {
        let event = event_of(alloc, *step)?;
        assert_eq!(rt; core.apply(event), *answer, "of step {place}");
    }
    Ok(())
}

/// Makes the core of a plan's backfill of one run, before its first event.
pub(crate) fn core_of<'a>(alloc: Global, plan: &'a Plan) -> Result<Core<'a>, Fail> {
    let runs = epoch_run(alloc)?;
    Ok(Core::new(alloc, plan, &runs)?)
}

/// Makes the core of a plan's backfill of one run, after these steps.
pub(crate) fn core_after<'a>(
    rt: &impl Abort,
    alloc: Global,
    plan: &'a Plan,
    steps: &[Answered],
) -> Result<Core<'a>, Fail> {
    let mut core = core_of(alloc, plan)?;
    take(rt, alloc, &mut core, steps)?;
    Ok(core)
}

/// Takes these steps from the start of the plan's backfill of one run.
fn walk_over(rt: &impl Abort, alloc: Global, plan: &Plan, steps: &[Answered]) -> Result<(), Fail> {
    let mut core = core_of(alloc, plan)?;
    take(rt, alloc, &mut core, steps)
}

/// Takes these steps from the start of a graph's backfill of one run, and checks the answer to each.
pub(crate) fn walk(
    rt: &impl Abort,
    alloc: Global,
    graph: &str,
    steps: &[Answered],
) -> Result<(), Fail> {
    let plan = plan_of(alloc, graph)?;
    walk_over(rt, alloc, &plan, steps)
}
