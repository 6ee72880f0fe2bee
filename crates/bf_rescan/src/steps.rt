//! The step that comes next by itself.
ghost use Rattle.std.specs.Prelude.{◌≤◌, ℕ, IfSome, IfNone};
ghost use Rattle.bf_graph.specs.Order.{IsByRank};
ghost use Rattle.bf_plan.specs.Plans.{shape_of};
ghost use Rattle.bf_core.specs.Cores.{MayCome, deciding};
ghost use Rattle.bf_core.specs.declared.event.Event.{Event};
ghost use Rattle.bf_due.specs.Steps.{IsEarlier, IsNextStep, StandsBefore};

use bf_core::{Core, Event};
use bf_due::may_decide;

/// The first run, by its number, that may be closed; None where none may.
fn first_closable_run(core: &Core<'_>) -> Option<u32>
    ensures may_come { IfSome result (λ k. MayCome core.now (Event.Close k)) }
    ensures first { IfSome result (λ k. (j : ℕ) → MayCome core.now (Event.Close j) → k ≤ j) }
    ensures none { IfNone result ((j : ℕ) → ¬ (MayCome core.now (Event.Close j))) }
{
    for run in 0..core.run_count() {
        if core.may_close(run) {
            return Some(run);
        }
    }
    None
}

/// The first task of a run, in `order`, that may be decided, by its expansion where `expands`, else without one; None
/// where none may.
fn first_decidable_task(core: &Core<'_>, order: &[u32], run: u32, expands: bool) -> Option<u32>
    requires { IsByRank (shape_of core.now.dag).upstreams order.now }
    ensures may_come { IfSome result (λ t. MayCome core.now (deciding expands run t)) }
    ensures first { IfSome result (λ t. (u : ℕ) → MayCome core.now (deciding expands run u)
        → StandsBefore core.now.dag t u) }
    ensures none { IfNone result ((u : ℕ) → ¬ (MayCome core.now (deciding expands run u))) }
{
    for task in order {
        if may_decide(core, run, *task, expands) {
            return Some(*task);
        }
    }
    None
}

/// The first run with a task that may be decided, by its expansion where `expands`, else without one, and the first
/// such task in `order`; None where there is none.
fn first_decidable_run_and_task(core: &Core<'_>, order: &[u32], expands: bool) -> Option<(u32, u32)>
    requires { IsByRank (shape_of core.now.dag).upstreams order.now }
    ensures may_come { IfSome result (λ p. MayCome core.now (deciding expands p.0 p.1)) }
    ensures first { IfSome result (λ p. (k u : ℕ) → MayCome core.now (deciding expands k u)
        → IsEarlier core.now.dag p.0 p.1 k u) }
    ensures none { IfNone result ((k u : ℕ) → ¬ (MayCome core.now (deciding expands k u))) }
{
    for run in 0..core.run_count() {
        if let Some(task) = first_decidable_task(core, order, run, expands) {
            return Some((run, task));
        }
    }
    None
}

/// The first step that may come by itself: a close, an open, a settle or an expand, in this order of kinds, then by
/// run, by rank and in file order. None where none may come. `order` has the tasks by rank.
pub fn next_step(core: &Core<'_>, order: &[u32]) -> Option<Event>
    requires by_rank { IsByRank (shape_of core.now.dag).upstreams order.now }
    ensures { IsNextStep core.now result }
{
    if let Some(run) = first_closable_run(core) {
        Some(Event::Close { run })
    } else if core.may_open() {
        Some(Event::Open)
    } else if let Some((run, task)) = first_decidable_run_and_task(core, order, false) {
        Some(Event::Settle { run, task })
    } else if let Some((run, task)) = first_decidable_run_and_task(core, order, true) {
        Some(Event::Expand { run, task })
    } else {
        None
    }
}
