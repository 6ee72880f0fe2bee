//! What follows from cleared tasks.
ghost use Rattle.std.specs.Prelude.{◌≡◌, ◌<◌, length, IfOk};
ghost use Rattle.std.specs.List.{list_any};
ghost use Rattle.bf_graph.specs.Order.{IsByRank, StandBehind};
ghost use Rattle.bf_graph.specs.Reach.{is_marked_in};
ghost use Rattle.bf_plan.specs.Plans.{shape_of};
ghost use Rattle.bf_dependents.specs.Marks.{follows_in};
ghost use Rattle.bf_dependents.specs.inner.Marks.{AreMarksFor, AreTouched};

use crate::marks::{is_marked, marks_before, seed_rows};
use crate::place::Place;
use bf_plan::{Dag, Plan};
use bf_value::{OutOfMemory, Sequence};
use std::alloc::Global;

/// Whether one of these tasks is marked in `marks`, the row of a run.
fn any_is_marked(marks: &[bool], tasks: &[u32]) -> bool
    ensures { result ≡ list_any (is_marked_in marks.now) tasks.now }
{
    tasks.iter().any(|task| is_marked(marks, *task))
}

/// Whether task number `task` has to be marked in a run: `seeded` marks it as a seed, it depends on its past and is
/// marked in `before`, the run before, or an upstream of it is marked in `marks`, this run. Each is a row of marks by
/// task number; a task that a row lacks is unmarked.
pub(crate) fn follows(
    dag: &Dag,
    task: u32,
    seeded: &[bool],
    before: &[bool],
    marks: &[bool],
) -> bool
    requires { task < length dag.now.tasks }
    ensures { result ≡ follows_in dag.now task seeded.now before.now marks.now }
{
    let considered = dag.task(task);
    is_marked(seeded, task)
        || (considered.depends_on_past && is_marked(before, task))
        || any_is_marked(marks, considered.upstreams.as_slice())
}

/// The marks of a run: the tasks that `seeded` marks as seeds, and all that follow from these and from `before`, the
/// marks of the run before, empty for the first. `order` has each task after its upstreams.
fn marks_of(
    alloc: Global,
    dag: &Dag,
    seeded: &[bool],
    before: &[bool],
    order: &[u32],
) -> Result<Sequence<bool>, OutOfMemory>
    requires by_rank { IsByRank (shape_of dag.now).upstreams order.now }
    requires behind { StandBehind (shape_of dag.now).upstreams order.now }
    ensures { IfOk result (AreMarksFor dag.now seeded.now before.now) }
{
    let mut marks = vec![in alloc; false; dag.tasks.len()]?;
    for task in order {
        let task = *task;
        let mark = follows(dag, task, seeded, before, marks.as_slice());
        marks[task as usize] = mark;
    }
    Ok(Sequence::from_vec(marks))
}

/// A row of marks for each of the first `runs` runs: the tasks of which at least one instance follows from the seeds.
pub(crate) fn touched_marks_of(
    alloc: Global,
    plan: &Plan,
    seeds: &[Place],
    runs: u32,
) -> Result<Sequence<Sequence<bool>>, OutOfMemory>
    ensures { IfOk result (AreTouched plan.now.dag seeds.now runs) }
{
    let order = plan.graph().by_rank(alloc)?;
    let seeded = seed_rows(alloc, seeds, runs, plan.dag().tasks.len())?;
    let mut rows = Vec::with_capacity(alloc, runs as usize)?;
    for run in 0..runs {
        let before = marks_before(rows.as_slice(), run);
        let seeded = seeded[run as usize].as_slice();
        let marks = marks_of(alloc, plan.dag(), seeded, before, order.as_slice())?;
        rows.push(marks)?;
    }
    Ok(Sequence::from_vec(rows))
}
