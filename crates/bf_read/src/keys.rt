//! The keys of a graph file.
ghost use Rattle.std.specs.Prelude.{◌≡◌};
ghost use Rattle.bf_read.specs.Keys.{graph_key_name, task_key_name, is_graph_key_in, is_task_key_in};

/// A key of a graph file's outer object.
#[derive(Clone, Copy, Debug, PartialEq, Eq)]
pub enum GraphKey {
    DagId,
    Schedule,
    Zone,
    MaxActiveRuns,
    Pools,
    Tasks,
}

/// A key of a task's object.
#[derive(Clone, Copy, Debug, PartialEq, Eq)]
pub enum TaskKey {
    Id,
    Upstream,
    Rule,
    Kind,
    Command,
    Expand,
    DependsOnPast,
    Retries,
    RetryDelay,
    Pool,
    PoolSlots,
    PriorityWeight,
    WeightRule,
}

/// All keys of a graph file's outer object, in the order in which they are read.
pub const GRAPH_KEYS: [GraphKey; 6] = [
    GraphKey::DagId,
    GraphKey::Schedule,
    GraphKey::Zone,
    GraphKey::MaxActiveRuns,
    GraphKey::Pools,
    GraphKey::Tasks,
];

/// All keys of a task's object, in the order in which they are read.
pub const TASK_KEYS: [TaskKey; 13] = [
    TaskKey::Id,
    TaskKey::Upstream,
    TaskKey::Rule,
    TaskKey::Kind,
    TaskKey::Command,
    TaskKey::Expand,
    TaskKey::DependsOnPast,
    TaskKey::Retries,
    TaskKey::RetryDelay,
    TaskKey::Pool,
    TaskKey::PoolSlots,
    TaskKey::PriorityWeight,
    TaskKey::WeightRule,
];

impl GraphKey {
    /// Gives the key as it stands in a file.
    pub fn name(self) -> &'static str
        ensures { result.now ≡ graph_key_name self }
    {
        match self {
            GraphKey::DagId => "dag_id",
            GraphKey::Schedule => "schedule",
            GraphKey::Zone => "zone",
            GraphKey::MaxActiveRuns => "max_active_runs",
            GraphKey::Pools => "pools",
            GraphKey::Tasks => "tasks",
        }
    }
}

impl TaskKey {
    /// Gives the key as it stands in a file.
    pub fn name(self) -> &'static str
        ensures { result.now ≡ task_key_name self }
    {
        match self {
            TaskKey::Id => "id",
            TaskKey::Upstream => "upstream",
            TaskKey::Rule => "rule",
            TaskKey::Kind => "kind",
            TaskKey::Command => "command",
            TaskKey::Expand => "expand",
            TaskKey::DependsOnPast => "depends_on_past",
            TaskKey::Retries => "retries",
            TaskKey::RetryDelay => "retry_delay",
            TaskKey::Pool => "pool",
            TaskKey::PoolSlots => "pool_slots",
            TaskKey::PriorityWeight => "priority_weight",
            TaskKey::WeightRule => "weight_rule",
        }
    }
}

/// Answers whether a graph file's outer object may have this key.
pub fn is_graph_key(name: &str) -> bool
    ensures { result ≡ is_graph_key_in name.now }
{
    GRAPH_KEYS.iter().any(|key| name == key.name())
}

/// Answers whether a task's object may have this key.
pub fn is_task_key(name: &str) -> bool
    ensures { result ≡ is_task_key_in name.now }
{
    TASK_KEYS.iter().any(|key| name == key.name())
}
