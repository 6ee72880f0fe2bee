//! The order of the rows.
ghost use Rattle.std.specs.Prelude.{◌≡◌, ◌<◌, ◌==◌, ℕ, List, [], ◌∷◌, ◌++◌, length, reverse, replicate, slice_set, true, false, IfOk, OnOk, IfSome, IfNone};
ghost use Rattle.std.specs.List.{list_any, list_all};
ghost use Rattle.bf_plan.specs.Plans.{task_of};
ghost use Rattle.bf_plan.specs.Sound.{IsSound};
ghost use Rattle.bf_marks.specs.RowOrder.{is_let_go_in, has_no_upstreams_in, order_of, stands, tasks_where};
ghost use Rattle.bf_marks.specs.inner.Walk.{GoesOnBy};

use bf_plan::Dag;
use bf_value::OutOfMemory;
use std::alloc::Global;

/// Whether task number `task` has no upstreams.
fn has_no_upstreams(dag: &Dag, task: u32) -> bool
    requires { task < length dag.now.tasks }
    ensures { result ≡ has_no_upstreams_in dag.now task }
{
    dag.task(task).upstreams.is_empty()
}

/// Whether `task` is one of these upstreams.
fn is_among(upstreams: &[u32], task: u32) -> bool
    ensures { result ≡ list_any (λ upstream. upstream == task) upstreams.now }
{
    upstreams.contains(&task)
}

/// Whether the order of rows already has task number `task`, by its flag in `standing`; false where it has no flag.
fn stands_in(standing: &[bool], task: u32) -> bool
    ensures { result ≡ stands standing.now task }
{
    match standing.get(task as usize) {
        Some(stands) => *stands,
        None => false,
    }
}

/// Flags task number `task` in `standing` as one that the order of rows has; does nothing where it has no flag.
fn mark_standing(standing: &mut Vec<bool>, task: u32)
    ensures { standing.new.items ≡ slice_set standing.old.items task true }
{
    if let Some(stands) = standing.get_mut(task as usize) {
        *stands = true;
    }
}

/// Whether the order of rows already has each of these upstreams, by their flags in `standing`; true for no upstreams.
fn all_stand(upstreams: &[u32], standing: &[bool]) -> bool
    ensures { result ≡ list_all (stands standing.now) upstreams.now }
{
    upstreams
        .iter()
        .all(|upstream| stands_in(standing, *upstream))
}

/// Whether `task` is directly upstream of `other`, and the order of rows already has all upstreams of `other`, by their
/// flags in `standing`.
fn is_released(dag: &Dag, standing: &[bool], task: u32, other: u32) -> bool
    requires { other < length dag.now.tasks }
    ensures { result ≡ is_let_go_in dag.now standing.now task other }
{
    let upstreams = dag.task(other).upstreams.as_slice();
    is_among(upstreams, task) && all_stand(upstreams, standing)
}

/// The tasks directly downstream of `task`, in file order, all of whose upstreams the order of rows already has, by
/// their flags in `standing`.
fn released_by(
    alloc: Global,
    dag: &Dag,
    standing: &[bool],
    task: u32,
) -> Result<Vec<u32>, OutOfMemory>
    requires { IsSound dag.now }
    ensures { IfOk result (λ tasks. tasks.items
        ≡ tasks_where dag.now (is_let_go_in dag.now standing.now task)) }
{
    let mut found = Vec::new(alloc);
    for other in 0..dag.tasks.len() as u32 {
        if is_released(dag, standing, task, other) {
            found.push(other)?;
        }
    }
    Ok(found)
}

/// The numbers of the tasks without upstreams, in file order.
fn tasks_without_upstreams(alloc: Global, dag: &Dag) -> Result<Vec<u32>, OutOfMemory>
    requires { IsSound dag.now }
    ensures { IfOk result (λ tasks.
        tasks.items ≡ tasks_where dag.now (has_no_upstreams_in dag.now)) }
{
    let mut found = Vec::new(alloc);
    for task in 0..dag.tasks.len() as u32 {
        if has_no_upstreams(dag, task) {
            found.push(task)?;
        }
    }
    Ok(found)
}

/// The state of the walk that orders the rows: the tasks that it has placed, as flags, and those that may come next,
/// the next one last.
#[derive(Drop)]
struct Walk {
    standing: Vec<bool>,
    left: Vec<u32>,
}

impl Walk {
    /// Takes the next task of the order, and puts the tasks that waited for no other before all that are left. None
    /// where no task is left.
    fn next(&mut self, alloc: Global, dag: &Dag) -> Result<Option<u32>, OutOfMemory>
        requires { IsSound dag.now }
        ensures none { IfOk result (λ next. IfNone next (reverse self.old.left.items ≡ [])) }
        ensures some { IfOk result (λ next. IfSome next (GoesOnBy dag.now self.old self.new)) }
    {
        let Some(task) = self.left.pop() else {
            return Ok(None);
        };
        mark_standing(&mut self.standing, task);
        let mut more = released_by(alloc, dag, self.standing.as_slice(), task)?;
        more.reverse();
        self.left.extend_from_slice(more.as_slice())?;
        Ok(Some(task))
    }
}

/// The walk before its first task: none is placed, and the tasks without upstreams are left, in file order.
fn first_walk(alloc: Global, dag: &Dag) -> Result<Walk, OutOfMemory>
    requires { IsSound dag.now }
    ensures standing { IfOk result
        (λ walk. walk.standing.items ≡ replicate (length dag.now.tasks) false) }
    ensures left { IfOk result (λ walk. reverse walk.left.items
        ≡ tasks_where dag.now (has_no_upstreams_in dag.now)) }
{
    let standing = vec![in alloc; false; dag.tasks.len()]?;
    let mut left = tasks_without_upstreams(alloc, dag)?;
    left.reverse();
    Ok(Walk { standing, left })
}

/// The tasks in the order of a grid's rows: those without upstreams in file order, and after each task its downstreams
/// that wait for no other. Each upstream stands before its downstreams.
pub fn tasks_in_order(alloc: Global, dag: &Dag) -> Result<Vec<u32>, OutOfMemory>
    requires { IsSound dag.now }
    ensures { IfOk result (λ order. order.items ≡ order_of dag.now) }
{
    let count = dag.tasks.len();
    let mut walk = first_walk(alloc, dag)?;
    let mut order = Vec::with_capacity(alloc, count)?;
    while order.len() < count {
        match walk.next(alloc, dag)? {
            Some(task) => order.push(task)?,
            None => return Ok(order),
        }
    }
    Ok(order)
}
