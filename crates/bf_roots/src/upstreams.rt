//! The upstreams that made the state of a task so.
ghost use Rattle.std.specs.Prelude.{◌≡◌, ◌<◌, IfOk, Some, filter, length};
ghost use Rattle.bf_core.specs.Deciding.{branch_is, branch_skips, is_blocked_in};
ghost use Rattle.bf_reason.specs.Settled.{value_among};
ghost use Rattle.bf_why.specs.Since.{has_instance_of};

use bf_plan::{Dag, Plan};
use bf_reason::{Settled, is_blocked, is_blocked_branch, is_skipping_branch};
use bf_why::{States, has_instance_in};
use std::alloc::{AllocError, Global};

/// The branches among `upstreams` that succeeded and don't follow `task`, in order. `settled` are the tasks of the run.
pub(crate) fn branches_that_skip(
    alloc: Global,
    plan: &Plan,
    settled: &[Settled<'_>],
    upstreams: &[u32],
    task: u32,
) -> Result<Vec<u32>, AllocError>
    requires { task < length plan.now.dag.tasks }
    ensures { IfOk result (λ found. found.items ≡ filter (λ u. branch_is plan.now.dag
        (branch_skips plan.now.dag task u) u (Some (value_among settled.now u))) upstreams.now) }
{
    upstreams
        .iter()
        .copied()
        .filter(|upstream| is_skipping_branch(plan, settled, *upstream, task))
        .collect(alloc)
}

/// The branches without a status among `upstreams`, in order. `settled` are the tasks of the run.
pub(crate) fn blocked_branches(
    alloc: Global,
    dag: &Dag,
    settled: &[Settled<'_>],
    upstreams: &[u32],
) -> Result<Vec<u32>, AllocError>
    ensures { IfOk result (λ found. found.items ≡ filter (λ u. branch_is dag.now is_blocked_in u
        (Some (value_among settled.now u))) upstreams.now) }
{
    upstreams
        .iter()
        .copied()
        .filter(|upstream| is_blocked_branch(dag, settled, *upstream))
        .collect(alloc)
}

/// The tasks without a status among `upstreams`, in order. `settled` are the tasks of the run.
pub(crate) fn blocked_tasks(
    alloc: Global,
    settled: &[Settled<'_>],
    upstreams: &[u32],
) -> Result<Vec<u32>, AllocError>
    ensures { IfOk result (λ found. found.items
        ≡ filter (λ u. is_blocked_in (value_among settled.now u)) upstreams.now) }
{
    upstreams
        .iter()
        .copied()
        .filter(|upstream| is_blocked(settled, *upstream))
        .collect(alloc)
}

/// The tasks among `upstreams` that have an instance in one of these states, in order. `settled` are the tasks of the
/// run.
pub(crate) fn tasks_in_states(
    alloc: Global,
    settled: &[Settled<'_>],
    upstreams: &[u32],
    states: States,
) -> Result<Vec<u32>, AllocError>
    ensures { IfOk result (λ found. found.items
        ≡ filter (has_instance_of settled.now states) upstreams.now) }
{
    upstreams
        .iter()
        .copied()
        .filter(|upstream| has_instance_in(settled, states, *upstream))
        .collect(alloc)
}
