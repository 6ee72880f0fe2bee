//! The tasks of a graph file.
ghost use Rattle.std.specs.Prelude.{◌≡◌, ◌+◌, ◌≤◌, [], true, false, length, nat_le, IfOk, OnOk};
ghost use Rattle.std.specs.List.{list_any};
ghost use Rattle.std.specs.Str.{bytes_eq};
ghost use Rattle.serde_json.specs.Events.{items_len};
ghost use Rattle.serde_json.specs.View.{view, items_view};
ghost use Rattle.bf_value.specs.Distinct.{AreDistinct};
ghost use Rattle.bf_read.specs.Gives.{Gives};
ghost use Rattle.bf_plan.specs.Ids.{is_id_in};
ghost use Rattle.bf_read.specs.Drafts.{number_of_edges, pulled_in, AreTasks};
ghost use Rattle.bf_read.specs.inner.Drafts.{MayFollow};
ghost use Rattle.bf_read.specs.Fields.{task_member, refuse_beyond_limit_of};
ghost use Rattle.bf_read.specs.inner.Fields.{member_of};
ghost use Rattle.bf_read.specs.Reading.{refuse_seen_id_of, task_place_in, task_work_in, task_demand_in, task_in, tasks_from, tasks_in};
ghost use Rattle.bf_read.specs.Limits.{most_edges, most_tasks, most_words, most_pulls, most_retries, longest_retry_delay, most_slots, greatest_weight};

use crate::command::command_at;
use crate::draft::{DEFAULT_POOL, TaskDraft, WordDraft, edge_count};
use crate::fault::ReadFault;
use crate::fields::{
    Field, ObjectKind, TaskObject, count_at, expansion_source_at, flag_at, id_at, items_at,
    refuse_beyond_limit, refuse_other_object, text_or,
};
use crate::keys::TaskKey;
use crate::kinds::{kind_at, weight_rule_at};
use crate::limits::{
    GREATEST_WEIGHT, LONGEST_RETRY_DELAY, MOST_EDGES, MOST_RETRIES, MOST_SLOTS, MOST_TASKS,
};
use crate::path::Path;
use crate::texts::upstreams_at;
use bf_plan::{TaskKind, WeightRule};
use bf_value::{Sequence, Text};
use serde_json::Value;
use std::alloc::Global;

/// A task's id and the ids of the tasks directly upstream.
#[derive(Drop)]
struct TaskPlace {
    id: Text,
    upstreams: Sequence<Text>,
}

/// What a task does, and when.
#[derive(Drop)]
struct TaskWork {
    rule: Text,
    kind: TaskKind,
    command: Sequence<WordDraft>,
    expand: Option<Text>,
    depends_on_past: bool,
    retries: u32,
    retry_delay: u32,
}

/// What a try of a task takes of a pool while it runs, and the task's priority.
#[derive(Drop)]
struct TaskDemand {
    pool: Text,
    slots: u32,
    weight: u32,
    weight_rule: WeightRule,
}

/// Answers whether one of `tasks` has this id.
fn has_task_with_id(tasks: &[TaskDraft], id: &str) -> bool
    ensures { result ≡ list_any (λ task. bytes_eq id.now task.id) tasks.now }
{
    tasks.iter().any(|task| id == task.id.as_str())
}

/// Gives the id where none of `tasks`, those before it in the file, has it; else `DuplicateTask`.
#[tactic(auto, unfolding(crate::specs::Reading::refuse_seen_id_of))]
fn refuse_seen_id(tasks: &[TaskDraft], id: Text) -> Result<Text, ReadFault>
    ensures exact { Gives (λ id. id) result (refuse_seen_id_of tasks.now id) }
    ensures fresh { IfOk result (λ id. list_any (λ task. bytes_eq id task.id) tasks.now ≡ false) }
    ensures same { IfOk result (λ fresh. fresh ≡ id) }
{
    if has_task_with_id(tasks, id.as_str()) {
        return Err(ReadFault::DuplicateTask(id));
    }
    Ok(id)
}

/// Reads a task's id and upstreams from its object; `tasks` are those before it in the file. An Err, the first in the
/// order of keys, is for a bad or repeated id, upstreams that are no texts, or more edges than a file may have; or
/// `OutOfMemory`.
#[tactic(auto, unfolding(crate::specs::Reading::task_place_in))]
fn task_place_of(
    alloc: Global,
    tasks: &[TaskDraft],
    task: TaskObject,
) -> Result<TaskPlace, ReadFault>
    requires { number_of_edges tasks.now ≤ most_edges }
    ensures exact { Gives (λ p. p) result
        (task_place_in tasks.now (task_member task.entry.n (view task.entry.value.now))) }
    ensures fresh { IfOk result (λ p. list_any (λ task. bytes_eq p.id task.id) tasks.now ≡ false) }
    ensures id { IfOk result (λ p. is_id_in p.id ≡ true) }
    ensures distinct { IfOk result (λ p. AreDistinct p.upstreams) }
    ensures few { IfOk result (λ p. number_of_edges tasks.now + length p.upstreams ≤ most_edges) }
{
    let id = id_at(alloc, task.member_at(TaskKey::Id))?;
    let id = refuse_seen_id(tasks, id)?;
    let field = task.member_at(TaskKey::Upstream);
    let upstreams = upstreams_at(alloc, field)?;
    refuse_beyond_limit(
        field.path,
        upstreams.len() <= MOST_EDGES - edge_count(tasks),
    )?;
    Ok(TaskPlace {
        id,
        upstreams: Sequence::from_vec(upstreams),
    })
}

/// Reads from a task's object what it does: its rule, kind, command, source of items and retries, each with its default
/// where the key is missing. An Err is that of the first bad value, or `OutOfMemory`.
#[tactic(auto, unfolding(crate::specs::Reading::task_work_in))]
fn task_work_of(alloc: Global, task: TaskObject) -> Result<TaskWork, ReadFault>
    ensures exact { Gives (λ w. w) result
        (task_work_in (task_member task.entry.n (view task.entry.value.now))) }
    ensures few_words { IfOk result (λ w. length w.command ≤ most_words) }
    ensures few_pulls { IfOk result (λ w. length (pulled_in w.command) ≤ most_pulls) }
    ensures few_retries { IfOk result (λ w. w.retries ≤ most_retries) }
    ensures short_delay { IfOk result (λ w. w.retry_delay ≤ longest_retry_delay) }
{
    let rule = text_or(alloc, "all_success", task.member_at(TaskKey::Rule))?;
    let kind = kind_at(task.member_at(TaskKey::Kind))?;
    let source = task.member_at(TaskKey::Expand);
    let is_expanded = source.value.is_some();
    let command = command_at(alloc, is_expanded, task.member_at(TaskKey::Command))?;
    let expand = expansion_source_at(alloc, source)?;
    let depends_on_past = flag_at(task.member_at(TaskKey::DependsOnPast))?;
    let retries = count_at(0, 0, MOST_RETRIES, task.member_at(TaskKey::Retries))?;
    let retry_delay = count_at(
        0,
        0,
        LONGEST_RETRY_DELAY,
        task.member_at(TaskKey::RetryDelay),
    )?;
    Ok(TaskWork {
        rule,
        kind,
        command,
        expand,
        depends_on_past,
        retries,
        retry_delay,
    })
}

/// Reads from a task's object what it takes to run: its pool, its slots there and its priority, each with its default
/// where the key is missing. An Err is that of the first bad value, or `OutOfMemory`.
#[tactic(auto, unfolding(crate::specs::Reading::task_demand_in))]
fn task_demand_of(alloc: Global, task: TaskObject) -> Result<TaskDemand, ReadFault>
    ensures exact { Gives (λ d. d) result
        (task_demand_in (task_member task.entry.n (view task.entry.value.now))) }
    ensures some_slots { IfOk result (λ d. 1 ≤ d.slots) }
    ensures few_slots { IfOk result (λ d. d.slots ≤ most_slots) }
    ensures light { IfOk result (λ d. d.weight ≤ greatest_weight) }
{
    let pool = text_or(alloc, DEFAULT_POOL, task.member_at(TaskKey::Pool))?;
    let slots = count_at(1, 1, MOST_SLOTS, task.member_at(TaskKey::PoolSlots))?;
    let weight = count_at(
        1,
        0,
        GREATEST_WEIGHT,
        task.member_at(TaskKey::PriorityWeight),
    )?;
    let weight_rule = weight_rule_at(task.member_at(TaskKey::WeightRule))?;
    Ok(TaskDemand {
        pool,
        slots,
        weight,
        weight_rule,
    })
}

/// Reads a task that has `n` others, `tasks`, before it in the file. An Err is that of its first fault, or
/// `OutOfMemory`.
#[tactic(auto, unfolding(crate::specs::Reading::task_in))]
fn task_of(
    alloc: Global,
    tasks: &[TaskDraft],
    n: u32,
    value: &Value,
) -> Result<TaskDraft, ReadFault>
    requires { number_of_edges tasks.now ≤ most_edges }
    ensures exact { Gives (λ t. t) result (task_in tasks.now n (view value.now)) }
    ensures follows { IfOk result (MayFollow tasks.now) }
{
    refuse_other_object(ObjectKind::Task, Path::Task(n), value)?;
    let task = TaskObject { n, value };
    let place = task_place_of(alloc, tasks, task)?;
    let work = task_work_of(alloc, task)?;
    let demand = task_demand_of(alloc, task)?;
    Ok(TaskDraft {
        id: place.id,
        upstreams: place.upstreams,
        rule: work.rule,
        kind: work.kind,
        command: work.command,
        expand: work.expand,
        depends_on_past: work.depends_on_past,
        retries: work.retries,
        retry_delay: work.retry_delay,
        pool: demand.pool,
        pool_slots: demand.slots,
        priority_weight: demand.weight,
        weight_rule: demand.weight_rule,
    })
}

/// Reads the tasks of a graph, in file order. An Err is that of the first bad task, or `OutOfMemory`.
fn tasks_of(alloc: Global, items: &[Value]) -> Result<Vec<TaskDraft>, ReadFault>
    requires { length items.now ≤ most_tasks }
    ensures exact { Gives (λ v. v.items) result (tasks_from [] 0 (items_view items.now)) }
    ensures tasks { IfOk result (λ v. AreTasks v.items) }
{
    let mut tasks = Vec::new(alloc);
    for (n, item) in items.iter().enumerate() {
        let task = task_of(alloc, tasks.as_slice(), n as u32, item)?;
        tasks.push(task)?;
    }
    Ok(tasks)
}

/// Gives `LimitPassed` at `path` where there are more than `MOST_TASKS` items.
fn refuse_too_many_tasks(path: Path, items: &[Value]) -> Result<(), ReadFault>
    ensures exact { Gives (λ u. u) result
        (refuse_beyond_limit_of path (nat_le (items_len (items_view items.now)) most_tasks)) }
    ensures few { OnOk result (length items.now ≤ most_tasks) }
{
    refuse_beyond_limit(path, items.len() <= MOST_TASKS)
}

/// Reads the tasks of a graph file, in its order. `Shape` where the field is missing or no list, `LimitPassed` for too
/// many; else an Err is that of the first bad task, or `OutOfMemory`.
#[tactic(auto, unfolding(crate::specs::Reading::tasks_in))]
pub(crate) fn tasks_at(alloc: Global, field: Field) -> Result<Sequence<TaskDraft>, ReadFault>
    ensures exact { Gives (λ ts. ts) result (tasks_in (member_of field.entry)) }
    ensures tasks { IfOk result AreTasks }
{
    let items = items_at(field)?;
    refuse_too_many_tasks(field.path, items)?;
    let tasks = tasks_of(alloc, items)?;
    Ok(Sequence::from_vec(tasks))
}
