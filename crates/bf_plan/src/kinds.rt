//! What a graph file says by a name of its own.
ghost use Rattle.std.specs.Prelude.{◌≡◌};
ghost use Rattle.bf_plan.specs.Kinds.{kind_named, weight_rule_named, context_named};

/// What a task is.
#[derive(Clone, Copy, Debug, PartialEq, Eq)]
pub enum TaskKind {
    Program,
    /// Its pushed value names the direct downstreams to follow (Airflow's "Branching").
    Branch,
}

/// Whose weights a task's total weight takes in (Airflow's "Priority Weights").
#[derive(Clone, Copy, Debug, PartialEq, Eq)]
pub enum WeightRule {
    Downstream,
    Upstream,
    Absolute,
}

/// A context variable that a word of a command stands for (Airflow's "Templates reference").
#[derive(Clone, Copy, Debug, PartialEq, Eq)]
pub enum ContextVariable {
    LogicalDate,
    DataIntervalStart,
    DataIntervalEnd,
    DagId,
    TaskId,
    MapIndex,
    TryNumber,
}

impl TaskKind {
    /// The kind of task with this name in a graph file; None where no kind has it.
    #[tactic(auto, unfolding(crate::specs::Kinds::kind_named))]
    pub fn named(name: &str) -> Option<TaskKind>
        ensures { result ≡ kind_named name.now }
    {
        match name {
            "program" => Some(TaskKind::Program),
            "branch" => Some(TaskKind::Branch),
            _ => None,
        }
    }
}

impl WeightRule {
    /// The weight rule with this name in a graph file; None where no rule has it.
    #[tactic(auto, unfolding(crate::specs::Kinds::weight_rule_named))]
    pub fn named(name: &str) -> Option<WeightRule>
        ensures { result ≡ weight_rule_named name.now }
    {
        match name {
            "downstream" => Some(WeightRule::Downstream),
            "upstream" => Some(WeightRule::Upstream),
            "absolute" => Some(WeightRule::Absolute),
            _ => None,
        }
    }
}

impl ContextVariable {
    /// The context variable with this name in a graph file; None where no variable has it.
    #[tactic(auto, unfolding(crate::specs::Kinds::context_named))]
    pub fn named(name: &str) -> Option<ContextVariable>
        ensures { result ≡ context_named name.now }
    {
        match name {
            "logical_date" => Some(ContextVariable::LogicalDate),
            "data_interval_start" => Some(ContextVariable::DataIntervalStart),
            "data_interval_end" => Some(ContextVariable::DataIntervalEnd),
            "dag_id" => Some(ContextVariable::DagId),
            "task_id" => Some(ContextVariable::TaskId),
            "map_index" => Some(ContextVariable::MapIndex),
            "try_number" => Some(ContextVariable::TryNumber),
            _ => None,
        }
    }
}
