//! The head of a journal.
ghost use Rattle.std.specs.Prelude.{◌≡◌, ◌∷◌, IfOk, map, string_bytes};
ghost use Rattle.bf_value.specs.Views.{list_of};
ghost use Rattle.bf_interval.specs.Intervals.{IsShownInterval};
ghost use Rattle.bf_journal.specs.Heads.{head_text, head_value, index_fields, interval_value, seed_value, task_value};

use crate::value::{moment_value, text_value};
use bf_interval::{Interval, Runs};
use bf_moment::Moment;
use bf_plan::{Dag, Plan, Task};
use bf_value::{OutOfMemory, Text, Values, Xval, text_of};
use std::alloc::Global;

/// The text that is the first field of a journal's head.
const WORDS: &str = "backfill journal";

/// The version of the journal's format, the second field of its head.
const VERSION: i64 = 1;

/// Makes a task's entry in the head: a list of its id and the ids of the tasks that it pulls from.
fn value_of_task(alloc: Global, dag: &Dag, task: &Task) -> Result<Xval, OutOfMemory>
    ensures { IfOk result (λ v. v ≡ task_value dag.now task.now) }
{
    let mut ids = Vec::new(alloc);
    ids.push(text_value(alloc, task.id.as_str())?)?;
    for pull in task.pulls.as_slice() {
        ids.push(text_value(alloc, dag.id_of(*pull))?)?;
    }
    Ok(Xval::List(Values::new(ids)))
}

/// Makes the head's list of the tasks, in file order.
fn value_of_tasks(alloc: Global, dag: &Dag) -> Result<Xval, OutOfMemory>
    ensures { IfOk result (λ v. v ≡ list_of (map (task_value dag.now) dag.now.tasks)) }
{
    let mut tasks = Vec::new(alloc);
    for task in dag.tasks.as_slice() {
        tasks.push(value_of_task(alloc, dag, task)?)?;
    }
    Ok(Xval::List(Values::new(tasks)))
}

/// Makes a data interval's entry in the head: a list of its start and its end.
fn value_of_interval(alloc: Global, interval: &Interval) -> Result<Xval, OutOfMemory>
    requires { IsShownInterval interval.now }
    ensures { IfOk result (λ v. v ≡ interval_value interval.now) }
{
    let start = moment_value(alloc, interval.start)?;
    let end = moment_value(alloc, interval.end)?;
    Ok(Xval::List(Values::new(vec![in alloc; start, end]?)))
}

/// Makes the head's list of the runs' data intervals, by date.
fn value_of_intervals(alloc: Global, runs: &Runs) -> Result<Xval, OutOfMemory>
    ensures { IfOk result (λ v. v ≡ list_of (map interval_value runs.now)) }
{
    let mut intervals = Vec::new(alloc);
    for interval in runs.intervals() {
        intervals.push(value_of_interval(alloc, interval)?)?;
    }
    Ok(Xval::List(Values::new(intervals)))
}

/// What is cleared: a task in the run that starts at `run`, or only its instance with this map index.
#[derive(Drop)]
pub struct ClearedTask {
    pub task: Text,
    pub run: Moment,
    pub index: Option<i32>,
}

/// Makes the fields of a cleared task: its id, its run, and its map index, which is left out for None.
fn fields_of_cleared_task(
    alloc: Global,
    task: Xval,
    run: Xval,
    index: Option<i32>,
) -> Result<Vec<Xval>, OutOfMemory>
    ensures { IfOk result (λ words. words.items ≡ task ∷ run ∷ index_fields index) }
{
    match index {
        Some(index) => Ok(vec![in alloc; task, run, Xval::Int(i64::from(index))]?),
        None => Ok(vec![in alloc; task, run]?),
    }
}

/// Makes a cleared task's entry in the head: its id, the start of its run and, where only one instance is cleared, its
/// map index.
fn value_of_cleared_task(alloc: Global, seed: &ClearedTask) -> Result<Xval, OutOfMemory>
    ensures { IfOk result (λ v. v ≡ seed_value seed.now) }
{
    let task = text_value(alloc, seed.task.as_str())?;
    let run = Xval::Text(Text::new(seed.run.to_string(alloc)?));
    let fields = fields_of_cleared_task(alloc, task, run, seed.index)?;
    Ok(Xval::List(Values::new(fields)))
}

/// Makes the head's list of what is cleared, in the order of `seeds`.
fn value_of_cleared_tasks(alloc: Global, seeds: &[ClearedTask]) -> Result<Xval, OutOfMemory>
    ensures { IfOk result (λ v. v ≡ list_of (map seed_value seeds.now)) }
{
    let mut entries = Vec::new(alloc);
    for seed in seeds {
        entries.push(value_of_cleared_task(alloc, seed)?)?;
    }
    Ok(Xval::List(Values::new(entries)))
}

/// Makes the head as one value: the graph, its runs and, unless `seeds` is empty, what is cleared.
fn value_of_head(
    alloc: Global,
    dag: &Dag,
    runs: &Runs,
    seeds: &[ClearedTask],
) -> Result<Xval, OutOfMemory>
    ensures { IfOk result (λ v. v ≡ head_value dag.now runs.now seeds.now) }
{
    let words = text_value(alloc, WORDS)?;
    let id = text_value(alloc, dag.id.as_str())?;
    let tasks = value_of_tasks(alloc, dag)?;
    let intervals = value_of_intervals(alloc, runs)?;
    let mut fields = vec![in alloc; words, Xval::Int(VERSION), id, tasks, intervals]?;
    if !seeds.is_empty() {
        fields.push(value_of_cleared_tasks(alloc, seeds)?)?;
    }
    Ok(Xval::List(Values::new(fields)))
}

/// Makes the first line of this backfill's journal, with its line feed. It is only compared, never parsed: a journal
/// that begins otherwise is of another backfill. `seeds` is what is cleared, empty where nothing is.
#[tactic(auto, unfolding(crate::specs::Heads::head_text))]
pub fn head_of(
    alloc: Global,
    plan: &Plan,
    runs: &Runs,
    seeds: &[ClearedTask],
) -> Result<String, OutOfMemory>
    ensures { IfOk result (λ head. string_bytes head ≡ head_text plan.now.dag runs.now seeds.now) }
{
    let value = value_of_head(alloc, plan.dag(), runs, seeds)?;
    let mut head = text_of(alloc, &value)?;
    head.push_str("\n")?;
    Ok(head)
}
