//! What is told of a task in a run, or of one of its instances, alone.
ghost use Rattle.std.specs.Prelude.{◌≡◌, ◌++◌, IfOk, OnOk, option_copied};
ghost use Rattle.bf_explain.specs.Beside.{given_lines_of, pushed_lines_of};
ghost use Rattle.bf_explain.specs.Tasks.{instances_lines_of, lines_if, own_sections};

use crate::given::{given_lines, pushed_lines};
use crate::headings::instance_of;
use crate::indexes::state_lines;
use crate::sections::add_section;
use bf_reason::Settled;
use bf_report::{InstanceReport, TaskReport};
use bf_value::{OutOfMemory, Text};
use std::alloc::Global;

/// A line for each state of an expanded task's instances, with their map indexes. Empty where the task didn't run
/// expanded, or just its instance at `place` is explained.
fn instances_lines(
    alloc: Global,
    told: &Settled<'_>,
    place: Option<usize>,
) -> Result<Vec<Text>, OutOfMemory>
    ensures { IfOk result (λ lines. lines.items ≡ instances_lines_of told.now place) }
{
    match (told.task_report(), place) {
        (TaskReport::Mapped(_), None) => state_lines(alloc, told.results(), &told.counts()),
        _ => Ok(Vec::new(alloc)),
    }
}

/// The one line of what an instance pushed. Empty where it pushed nothing or `instance` is None.
fn optional_pushed_lines(
    alloc: Global,
    instance: Option<&InstanceReport>,
) -> Result<Vec<Text>, OutOfMemory>
    ensures { IfOk result (λ lines. lines.items
        ≡ lines_if pushed_lines_of (option_copied instance.entry)) }
{
    match instance {
        Some(instance) => pushed_lines(alloc, instance),
        None => Ok(Vec::new(alloc)),
    }
}

/// The lines on what an instance was given. Empty where it was given nothing or `instance` is None.
fn optional_given_lines(
    alloc: Global,
    instance: Option<&InstanceReport>,
) -> Result<Vec<Text>, OutOfMemory>
    ensures { IfOk result (λ lines. lines.items
        ≡ lines_if given_lines_of (option_copied instance.entry)) }
{
    match instance {
        Some(instance) => given_lines(alloc, instance),
        None => Ok(Vec::new(alloc)),
    }
}

/// Adds the sections `instances`, `pushed` and `given` of a task, or of its instance at `place`, from 0, where one is
/// given. A section without lines is left out.
pub(crate) fn add_own_sections(
    alloc: Global,
    lines: &mut Vec<Text>,
    told: &Settled<'_>,
    place: Option<usize>,
) -> Result<(), OutOfMemory>
    ensures { OnOk result (lines.new.items ≡ lines.old.items ++ own_sections told.now place) }
{
    let instances = instances_lines(alloc, told, place)?;
    let pushed = optional_pushed_lines(alloc, instance_of(told.task_report(), place))?;
    let given = optional_given_lines(alloc, instance_of(told.task_report(), place))?;
    add_section(alloc, lines, "instances", instances.as_slice())?;
    add_section(alloc, lines, "pushed", pushed.as_slice())?;
    add_section(alloc, lines, "given", given.as_slice())
}
