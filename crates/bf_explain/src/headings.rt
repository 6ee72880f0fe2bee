//! What a task in a run, or one of its instances, is called, and its state.
ghost use Rattle.std.specs.Prelude.{◌≡◌, IfOk, Some, option_copied};
ghost use Rattle.bf_explain.specs.Headings.{has_index_in, heading_of_state, heading_at, instance_heading_of, instance_name_of, instance_in, place_in};
ghost use Rattle.bf_moment.specs.Moment.{IsShown};

use crate::beside::{outcome_word, state_text};
use bf_moment::Moment;
use bf_reason::Settled;
use bf_report::{InstanceReport, TaskReport};
use bf_value::{OutOfMemory, Text};
use jiff::Timestamp;
use std::alloc::Global;

/// Whether a task in a run has an instance of this map index: from 0 on where it ran expanded, else only -1. True where
/// `index` is None.
pub fn has_index(told: &TaskReport, index: Option<i32>) -> bool
    ensures { result ≡ has_index_in told.now index }
{
    match (told, index) {
        (_, None) => true,
        (TaskReport::Mapped(instances), Some(index)) => {
            index >= 0 && (index as usize) < instances.len()
        }
        (_, Some(index)) => index == -1,
    }
}

/// The place of map index `index` among the instances of an expanded task, from 0; None where `index` is None or
/// negative.
pub(crate) fn place_of(index: Option<i32>) -> Option<usize>
    ensures { result ≡ place_in index }
{
    match index {
        Some(index) if index >= 0 => Some(index as usize),
        _ => None,
    }
}

/// The heading `NAME in the run of START: STATE`, with the start in UTC.
fn heading_of(alloc: Global, name: &str, start: Timestamp, state: &str) -> Result<Text, OutOfMemory>
    requires { IsShown start.nanosecond }
    ensures { IfOk result (λ text. text ≡ heading_at name.now start.nanosecond state.now) }
{
    let start = Moment::new(start);
    Ok(Text::new(format!(in alloc; "{name} in the run of {start}: {state}")?))
}

/// The name of an expanded task's instance, `place` from 0, such as `load [2]`.
fn instance_name(alloc: Global, id: &str, place: usize) -> Result<Text, OutOfMemory>
    ensures { IfOk result (λ text. text ≡ instance_name_of id.now place) }
{
    Ok(Text::new(format!(in alloc; "{id} [{place}]")?))
}

/// The heading of an expanded task's instance, `place` from 0, in the run that starts at `start`. Where `instance` is
/// None, it names just the task, with `no_status`.
fn instance_heading(
    alloc: Global,
    id: &str,
    start: Timestamp,
    place: usize,
    instance: Option<&InstanceReport>,
) -> Result<Text, OutOfMemory>
    requires { IsShown start.nanosecond }
    ensures { IfOk result (λ text. text
        ≡ instance_heading_of id.now start.nanosecond place (option_copied instance.entry)) }
{
    let Some(instance) = instance else {
        return heading_of(alloc, id, start, "no_status");
    };
    let name = instance_name(alloc, id, place)?;
    let ended = instance.result()?;
    heading_of(alloc, name.as_str(), start, outcome_word(&ended.outcome))
}

/// The heading of a task in the run that starts at `start`, with its state; where the task ran expanded and a place
/// from 0 is given, the heading of its instance there.
pub(crate) fn first_heading(
    alloc: Global,
    id: &str,
    start: Timestamp,
    task: &Settled<'_>,
    place: Option<usize>,
) -> Result<Text, OutOfMemory>
    requires { IsShown start.nanosecond }
    ensures { IfOk result (λ text. text ≡ heading_of_state id.now start.nanosecond task.now place) }
{
    match (task.task_report(), place) {
        (TaskReport::Mapped(instances), Some(place)) => {
            instance_heading(alloc, id, start, place, instances.get(place))
        }
        _ => {
            let state = state_text(alloc, Some(task))?;
            heading_of(alloc, id, start, state.as_str())
        }
    }
}

/// The one instance to explain: the instance at `place`, from 0, of a task that ran expanded, or the only instance of
/// another task. None where the task has no such instance, or ran expanded and `place` is None.
pub(crate) fn instance_of(told: &TaskReport, place: Option<usize>) -> Option<&InstanceReport>
    ensures { option_copied result ≡ instance_in told.now place }
{
    match (told, place) {
        (TaskReport::Ran(instance), _) => Some(instance),
        (TaskReport::Mapped(instances), Some(place)) => instances.get(place),
        _ => None,
    }
}
