//! Graph files with what may stand in them, by chance: rules, a branch, expanded tasks, the past, pools, weights, retries
//! and their delays.
use crate::chance::Chance;
use bf_value::OutOfMemory;
use std::alloc::Global;

/// How many tasks each graph has: a source of items, a branch, two expanded tasks, and others behind them.
pub(crate) const TASKS: u32 = 9;

/// The rules for tasks that aren't expanded.
const RULES: [&str; 11] = [
    "all_success",
    "all_failed",
    "all_done",
    "all_skipped",
    "one_success",
    "one_failed",
    "one_done",
    "none_failed",
    "none_failed_min_one_success",
    "none_skipped",
    "always",
];

/// The rules for expanded tasks, which must wait until the upstreams are settled.
const WAITING_RULES: [&str; 3] = ["all_success", "all_done", "none_failed"];

/// Adds the ids of some of the tasks before this one, chosen by chance, with commas between them.
fn push_upstreams(text: &mut String, chance: &mut Chance, task: u32) -> Result<(), OutOfMemory> {
    let mut comma = "";
    for upstream in 0..task {
        if chance.is_one_in(3) {
            write!(text, "{comma}\"t{upstream}\"")?;
            comma = ",";
        }
    }
    Ok(())
}

/// Adds what makes task 0 the source of items, task 1 the branch, tasks 2 and 3 expanded ones, and others tasks behind
/// them: kind, upstreams, source and rule.
fn push_kind(text: &mut String, chance: &mut Chance, task: u32) -> Result<(), OutOfMemory> {
    match task {
        0 => Ok(()),
        1 => Ok(write!(text, ",\"kind\":\"branch\"")?),
        2 | 3 => {
            let rule = WAITING_RULES[chance.below(3) as usize];
            Ok(write!(
                text,
                ",\"upstream\":[\"t0\",\"t1\"],\"expand\":\"t0\",\"rule\":\"{rule}\""
            )?)
        }
        _ => {
            write!(text, ",\"upstream\":[")?;
            push_upstreams(text, chance, task)?;
            let rule = RULES[chance.below(11) as usize];
            Ok(write!(text, "],\"rule\":\"{rule}\"")?)
        }
    }
}

/// Adds the object of a task, with its keys chosen by chance.
fn push_task(text: &mut String, chance: &mut Chance, task: u32) -> Result<(), OutOfMemory> {
    let comma = if task == 0 { "" } else { "," };
    write!(text, "{comma}{{\"id\":\"t{task}\"")?;
    push_kind(text, chance, task)?;
    if chance.is_one_in(3) {
        write!(text, ",\"depends_on_past\":true")?;
    }
    if chance.is_one_in(2) {
        let slots = 1 + chance.below(2);
        write!(text, ",\"pool\":\"p\",\"pool_slots\":{slots}")?;
    }
    let retries = chance.below(3);
    let delay = 60 * chance.below(2);
    let weight = chance.below(4);
    Ok(write!(
        text,
        ",\"retries\":{retries},\"retry_delay\":{delay},\"priority_weight\":{weight}}}"
    )?)
}

/// Makes a graph file by chance.
pub(crate) fn graph_of(alloc: Global, chance: &mut Chance) -> Result<String, OutOfMemory> {
    let runs = 1 + chance.below(3);
    let mut text = format!(in alloc;
        "{{\"dag_id\":\"d\",\"schedule\":\"@daily\",\"max_active_runs\":{runs},\"pools\":{{\"p\":3}},\"tasks\":["
    )?;
    for task in 0..TASKS {
        push_task(&mut text, chance, task)?;
    }
    write!(text, "]}}")?;
    Ok(text)
}
