//! Drafts of graphs.
ghost use Rattle.std.specs.Prelude.{◌≡◌, ◌≤◌};
ghost use Rattle.bf_read.specs.Drafts.{IsDraft, number_of_edges};
ghost use Rattle.bf_read.specs.Limits.{most_edges};

use bf_plan::{ContextVariable, TaskKind, WeightRule};
use bf_value::{Sequence, Text};

/// A word of a task's command, as a graph file gives it.
#[derive(Debug, Drop)]
pub enum WordDraft {
    Text(Text),
    Context(ContextVariable),
    /// What was pushed by the task with this id, which needn't exist.
    Pull(Text),
    /// The item of an instance of an expanded task.
    Item,
}

/// The pool of tasks that name none.
pub const DEFAULT_POOL: &str = "default_pool";

/// A pool, as a graph file gives it.
#[derive(Debug, Drop)]
pub struct PoolDraft {
    pub name: Text,
    pub slots: u32,
}

/// What a graph file says of a task, with the defaults filled in. Upstreams, rule, pool and source of items stand in it
/// by name, and need not exist.
#[derive(Debug, Drop)]
pub struct TaskDraft {
    pub id: Text,
    /// Distinct ids, in order of first use.
    pub upstreams: Sequence<Text>,
    pub rule: Text,
    pub kind: TaskKind,
    pub command: Sequence<WordDraft>,
    /// The id of the task over whose items it is expanded; None where it isn't.
    pub expand: Option<Text>,
    pub depends_on_past: bool,
    pub retries: u32,
    /// How many seconds the next try waits after a failed one.
    pub retry_delay: u32,
    pub pool: Text,
    pub pool_slots: u32,
    pub priority_weight: u32,
    pub weight_rule: WeightRule,
}

/// What a graph file says, with the defaults filled in, before it is checked as a plan.
#[derive(Debug, Drop)]
pub struct Draft {
    pub dag_id: Text,
    pub schedule: Text,
    pub zone: Text,
    pub max_active_runs: u32,
    /// The pools that the file names, by name in byte order.
    pub pools: Sequence<PoolDraft>,
    /// In the order of the file.
    pub tasks: Sequence<TaskDraft>,
    pub ghost within_limits: { IsDraft dag_id max_active_runs pools tasks },
}

/// Counts the edges of these tasks: the upstreams of each, which are distinct.
pub(crate) fn edge_count(tasks: &[TaskDraft]) -> usize
    requires { number_of_edges tasks.now ≤ most_edges }
    ensures { result ≡ number_of_edges tasks.now }
{
    tasks.iter().map(|task| task.upstreams.len()).sum()
}

impl Draft {
    /// Counts the distinct edges of the graph.
    pub fn edge_count(&self) -> usize
        ensures { result ≡ number_of_edges self.now.tasks }
    {
        edge_count(self.tasks.as_slice())
    }
}
