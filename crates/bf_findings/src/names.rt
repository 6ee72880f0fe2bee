//! Known names, and what Airflow calls them.
ghost use Rattle.std.specs.Prelude.{◌≡◌, map, option_map, IfOk};
ghost use Rattle.serde_json.specs.View.{view, members_view};
ghost use Rattle.bf_findings.specs.Names.{graph_key_meant_of, task_key_meant_of, rule_meant_of, schedule_meant_of, context_meant_of, meant_name_of, id_known, ids_of, pool_names_that_are_ids_of, pool_names_of, fixed_names_of, names_of};

use crate::fitting::{pools_in, tasks_in};
use crate::form::Form;
use bf_plan::is_id;
use bf_read::{DEFAULT_POOL, TaskKey};
use bf_value::OutOfMemory;
use serde_json::{Map, Value};
use std::alloc::Global;

/// Gives the graph file's key for what Airflow calls `name`, which is in lower case; None for any other name.
#[tactic(auto, unfolding(crate::specs::Names::graph_key_meant_of))]
fn graph_key_meant(name: &str) -> Option<&'static str>
    ensures { option_map (λ s. s.now) result ≡ graph_key_meant_of name.now }
{
    match name {
        "schedule_interval" | "timetable" => Some("schedule"),
        "timezone" => Some("zone"),
        _ => None,
    }
}

/// Gives the task's key for what Airflow's operators call `name`, which is in lower case; None for any other name.
#[tactic(auto, unfolding(crate::specs::Names::task_key_meant_of))]
fn task_key_meant(name: &str) -> Option<&'static str>
    ensures { option_map (λ s. s.now) result ≡ task_key_meant_of name.now }
{
    match name {
        "task_id" => Some("id"),
        "trigger_rule" => Some("rule"),
        "depends_on" | "upstream_task_ids" => Some("upstream"),
        "bash_command" => Some("command"),
        _ => None,
    }
}

/// Gives the trigger rule for the older name that Airflow has for it; None for any other name.
#[tactic(auto, unfolding(crate::specs::Names::rule_meant_of))]
fn rule_meant(name: &str) -> Option<&'static str>
    ensures { option_map (λ s. s.now) result ≡ rule_meant_of name.now }
{
    match name {
        "none_failed_or_skipped" => Some("none_failed_min_one_success"),
        "dummy" => Some("always"),
        _ => None,
    }
}

/// Gives the preset for what cron calls `@midnight` or `@annually`; None for any other name.
#[tactic(auto, unfolding(crate::specs::Names::schedule_meant_of))]
fn schedule_meant(name: &str) -> Option<&'static str>
    ensures { option_map (λ s. s.now) result ≡ schedule_meant_of name.now }
{
    match name {
        "@midnight" => Some("@daily"),
        "@annually" => Some("@yearly"),
        _ => None,
    }
}

/// Gives the context variable for the older or shorter name that Airflow has for it; None for any other name.
#[tactic(auto, unfolding(crate::specs::Names::context_meant_of))]
fn context_meant(name: &str) -> Option<&'static str>
    ensures { option_map (λ s. s.now) result ≡ context_meant_of name.now }
{
    match name {
        "execution_date" | "ts" => Some("logical_date"),
        "next_execution_date" => Some("data_interval_end"),
        _ => None,
    }
}

/// Gives the name used here for what Airflow or cron calls `name`, which is in lower case and stands where `form` may;
/// None for any other name.
pub(crate) fn meant_name(form: Form, name: &str) -> Option<&'static str>
    ensures { option_map (λ s. s.now) result ≡ meant_name_of form name.now }
{
    match form {
        Form::NoGraphKey => graph_key_meant(name),
        Form::NoTaskKey => task_key_meant(name),
        Form::Rule => rule_meant(name),
        Form::Schedule => schedule_meant(name),
        Form::Context => context_meant(name),
        _ => None,
    }
}

/// The names of all keys of a graph file's outer object.
const GRAPH_KEYS: [&str; 6] = [
    "dag_id",
    "schedule",
    "zone",
    "max_active_runs",
    "pools",
    "tasks",
];

/// The names of all keys of a task's object.
const TASK_KEYS: [&str; 13] = [
    "id",
    "upstream",
    "rule",
    "kind",
    "command",
    "expand",
    "depends_on_past",
    "retries",
    "retry_delay",
    "pool",
    "pool_slots",
    "priority_weight",
    "weight_rule",
];

/// The presets that a schedule may be.
const PRESETS: [&str; 6] = [
    "@hourly",
    "@daily",
    "@weekly",
    "@monthly",
    "@quarterly",
    "@yearly",
];

/// The names of all trigger rules.
const RULES: [&str; 11] = [
    "all_success",
    "all_failed",
    "all_skipped",
    "all_done",
    "one_success",
    "one_failed",
    "one_done",
    "none_failed",
    "none_failed_min_one_success",
    "none_skipped",
    "always",
];

/// The names of all context variables.
const CONTEXTS: [&str; 7] = [
    "logical_date",
    "data_interval_start",
    "data_interval_end",
    "dag_id",
    "task_id",
    "map_index",
    "try_number",
];

/// Gives the names that the format itself has for a form; none where it has no names for it.
fn fixed_names(form: Form) -> &'static [&'static str]
    ensures { map (λ s. s.now) result.now ≡ fixed_names_of form }
{
    match form {
        Form::NoGraphKey => &GRAPH_KEYS,
        Form::NoTaskKey => &TASK_KEYS,
        Form::Schedule => &PRESETS,
        Form::Zone => &["UTC", "file"],
        Form::Rule => &RULES,
        Form::Kind => &["program", "branch"],
        Form::WeightRule => &["downstream", "upstream", "absolute"],
        Form::Context => &CONTEXTS,
        _ => &[],
    }
}

/// Gives a task object's id; None where it is missing, or not an id.
fn known_id<'a>(task: &'a Value) -> Option<&'a str>
    ensures { option_map (λ s. s.now) result ≡ id_known (view task.entry.now) }
{
    let id = task.get(TaskKey::Id.name())?.as_str()?;
    if is_id(id) { Some(id) } else { None }
}

/// Gives the ids of the document's tasks, in order, without texts that are no ids.
fn ids_in<'a>(alloc: Global, document: &'a Value) -> Result<Vec<&'a str>, OutOfMemory>
    ensures { IfOk result (λ v. map (λ s. s.now) v.items ≡ ids_of (view document.entry.now)) }
{
    let mut found = Vec::new(alloc);
    for task in tasks_in(document) {
        if let Some(id) = known_id(task) {
            found.push(id)?;
        }
    }
    Ok(found)
}

/// Gives the names of these pools, without those that are no ids, which no task may name.
fn pool_names_that_are_ids<'a>(
    alloc: Global,
    pools: &'a Map<String, Value>,
) -> Result<Vec<&'a str>, OutOfMemory>
    ensures { IfOk result (λ v. map (λ s. s.now) v.items
        ≡ pool_names_that_are_ids_of (members_view pools.entry.now.entries)) }
{
    let mut names = Vec::new(alloc);
    for (name, _slots) in pools.iter() {
        if is_id(name.as_str()) {
            names.push(name.as_str())?;
        }
    }
    Ok(names)
}

/// Gives the names of the pools that a task may name: those of the document, and `default_pool`.
fn pool_names<'a>(alloc: Global, document: &'a Value) -> Result<Vec<&'a str>, OutOfMemory>
    ensures { IfOk result (λ v. map (λ s. s.now) v.items
        ≡ pool_names_of (view document.entry.now)) }
{
    let mut names = match pools_in(document) {
        Some(pools) => pool_names_that_are_ids(alloc, pools)?,
        None => Vec::new(alloc),
    };
    names.push(DEFAULT_POOL)?;
    Ok(names)
}

/// Gives the known names for a form: the document's own for tasks and pools, else those of the format, if any.
pub(crate) fn names_for<'a>(
    alloc: Global,
    document: &'a Value,
    form: Form,
) -> Result<Vec<&'a str>, OutOfMemory>
    ensures { IfOk result (λ v. map (λ s. s.now) v.items
        ≡ names_of (view document.entry.now) form) }
{
    match form {
        Form::TaskId => return ids_in(alloc, document),
        Form::PoolName => return pool_names(alloc, document),
        _ => {}
    }
    Ok(Vec::from_slice(alloc, fixed_names(form))?)
}
