//! What a try was given, as JSON.
use bf_plan::{Dag, Task};
use bf_value::{OutOfMemory, Xval, text_of};
use bf_xcom::Given;
use std::alloc::Global;

/// Adds a value as compact JSON, or `null` for None. No contract covers this.
fn push_value(alloc: Global, text: &mut String, value: Option<&Xval>) -> Result<(), OutOfMemory> {
    match value {
        Some(value) => text.push_str(text_of(alloc, value)?.as_str())?,
        None => text.push_str("null")?,
    }
    Ok(())
}

/// Adds `"ID":` and, as JSON, what was pulled from the task with this id. No contract covers this.
fn push_pull(
    alloc: Global,
    text: &mut String,
    id: &str,
    value: Option<&Xval>,
) -> Result<(), OutOfMemory> {
    text.push_str("\"")?;
    text.push_str(id)?;
    text.push_str("\":")?;
    push_value(alloc, text, value)
}

/// Gives what the pull at this place, from 0, gave; None where nothing was pulled, or there is no such place. No
/// contract covers this.
fn pulled_at(given: &Given, place: usize) -> Option<&Xval> {
    match given.pulled.get(place) {
        Some(pulled) => pulled.get(),
        None => None,
    }
}

/// Makes the text of what a try was given, `{"item":..,"pulls":{"ID":..}}` without a line feed: the item of an instance
/// of an expanded task, and what was pulled from each task, `null` for nothing. No contract covers this.
pub(crate) fn given_text(
    alloc: Global,
    dag: &Dag,
    task: &Task,
    given: &Given,
) -> Result<String, OutOfMemory> {
    let mut text = String::from_str(alloc, "{\"item\":")?;
    push_value(alloc, &mut text, given.item.as_ref())?;
    text.push_str(",\"pulls\":{")?;
    for (place, source) in task.pulls.as_slice().iter().enumerate() {
        if place > 0 {
            text.push_str(",")?;
        }
        push_pull(
            alloc,
            &mut text,
            dag.id_of(*source),
            pulled_at(given, place),
        )?;
    }
    text.push_str("}}")?;
    Ok(text)
}
