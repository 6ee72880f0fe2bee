//! The weight of a task, which says whose waiting instance begins first (Airflow's "Priority Weights").
ghost use Rattle.std.specs.Prelude.{◌≡◌, ◌+◌, ◌<◌, ◌≤◌, ◌^◌, ℕ, if◌then◌else◌, length, slice_index, All, IfOk};
ghost use Rattle.bf_graph.specs.Reach.{is_marked_in};
ghost use Rattle.bf_plan.specs.Sound.{demand_of};
ghost use Rattle.bf_pool.specs.Weights.{AreWeights, tasks_counting, weight_sum_of, total_weight_of};
ghost use Rattle.bf_pool.specs.inner.Weights.{AreSumsBelow};

use bf_graph::Graph;
use bf_plan::{Limits, Plan, WeightRule};
use bf_value::OutOfMemory;
use std::alloc::Global;

/// The distinct tasks whose weights count for a task beside its own, by its weight rule: its descendants, its
/// ancestors, or none.
fn tasks_counting_for(
    alloc: Global,
    graph: &Graph,
    rule: WeightRule,
    task: u32,
) -> Result<Vec<u32>, OutOfMemory>
    requires { task < length graph.now.upstreams }
    ensures { IfOk result (λ tasks. tasks.items ≡ tasks_counting rule graph.now.upstreams task) }
{
    graph.tasks_have_ranks();
    graph.upstreams_are_in_range();
    match rule {
        WeightRule::Downstream => graph.descendants(alloc, task),
        WeightRule::Upstream => graph.ancestors(alloc, task),
        WeightRule::Absolute => Ok(Vec::new(alloc)),
    }
}

/// The sum of the own weights of these tasks.
fn weight_sum(limits: &Limits, tasks: &[u32]) -> u32
    requires few { length tasks.now ≤ 2_000 }
    requires there { All (λ t. t < length limits.now.demands) tasks.now }
    requires light { (t : ℕ) → (demand_of limits.now t).weight ≤ 1_000_000 }
    ensures sum { result ≡ weight_sum_of limits.now tasks.now }
    ensures bound { result ≤ 2_000_000_000 }
{
    let mut total = 0;
    for task in tasks {
        total += limits.demands.items[*task as usize].weight;
    }
    total
}

/// The total priority weight of a task (Airflow's "Priority Weights"): its own, and by its weight rule those of all its
/// distinct descendants, of all its distinct ancestors, or of none.
pub fn total_weight(alloc: Global, plan: &Plan, task: u32) -> Result<u32, OutOfMemory>
    requires { task < length plan.now.dag.tasks }
    ensures { IfOk result (λ weight. weight ≡ total_weight_of plan.now.dag plan.now.limits task) }
{
    let _dag = plan.dag();
    let own = plan.demand(task);
    let tasks = tasks_counting_for(alloc, plan.graph(), own.weight_rule, task)?;
    Ok(own.weight + weight_sum(plan.limits(), tasks.as_slice()))
}

/// Adds a weight to the sum of each task that is marked.
fn add_where_marked(sums: &mut Vec<u32>, marks: &[bool], weight: u32)
    requires len { length marks.now ≡ length sums.old.items }
    requires room { (t : ℕ) → slice_index sums.old.items t + weight < 2 ^ 32 }
    ensures len { length sums.new.items ≡ length sums.old.items }
    ensures sums { (t : ℕ) → t < length sums.old.items → slice_index sums.new.items t
        ≡ slice_index sums.old.items t + (if is_marked_in marks.now t then weight else 0) }
{
    for (task, sum) in sums.iter_mut().enumerate() {
        *sum += if marks[task] { weight } else { 0 };
    }
}

/// For each task in file order, the sum of the own weights of its distinct descendants.
fn sums_below(alloc: Global, plan: &Plan) -> Result<Vec<u32>, OutOfMemory>
    ensures { IfOk result (λ sums. AreSumsBelow plan.now.dag plan.now.limits sums.items) }
{
    let graph = plan.graph();
    graph.tasks_have_ranks();
    let _limits = plan.limits();
    let tasks = plan.dag().tasks.len();
    let mut sums = vec![in alloc; 0; tasks]?;
    for task in 0..tasks {
        let own = plan.demand(task as u32);
        add_where_marked(&mut sums, graph.reaching(task as u32), own.weight);
    }
    Ok(sums)
}

/// The total weight of a task. `sums` has, for each task, the sum of its distinct descendants' own weights.
fn total_weight_over(
    alloc: Global,
    plan: &Plan,
    sums: &[u32],
    task: u32,
) -> Result<u32, OutOfMemory>
    requires task { task < length plan.now.dag.tasks }
    requires sums { AreSumsBelow plan.now.dag plan.now.limits sums.now }
    ensures { IfOk result (λ weight. weight ≡ total_weight_of plan.now.dag plan.now.limits task) }
{
    let _limits = plan.limits();
    let own = plan.demand(task);
    match own.weight_rule {
        WeightRule::Downstream => Ok(own.weight + sums[task as usize]),
        WeightRule::Upstream | WeightRule::Absolute => total_weight(alloc, plan, task),
    }
}

/// The total priority weights of all tasks in file order, as in `total_weight`.
pub fn total_weights_of(alloc: Global, plan: &Plan) -> Result<Vec<u32>, OutOfMemory>
    ensures len { IfOk result (λ ws. length ws.items ≡ length plan.now.dag.tasks) }
    ensures weights { IfOk result (λ ws. AreWeights plan.now.dag plan.now.limits ws.items) }
{
    let sums = sums_below(alloc, plan)?;
    let tasks = plan.dag().tasks.len();
    let mut weights = Vec::with_capacity(alloc, tasks)?;
    for task in 0..tasks {
        weights.push(total_weight_over(alloc, plan, sums.as_slice(), task as u32)?)?;
    }
    Ok(weights)
}
