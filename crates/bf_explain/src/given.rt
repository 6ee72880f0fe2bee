//! What an instance was given, and what it pushed.
ghost use Rattle.std.specs.Prelude.{◌≡◌, ◌++◌, IfOk, OnOk, map, option_copied};
ghost use Rattle.bf_explain.specs.Beside.{given_lines_of, item_lines, pull_line_of, pushed_lines_of};

use bf_report::{InstanceReport, Pull};
use bf_value::{OutOfMemory, Text, Xval};
use bf_wording::{add_moved_line, value_text};
use std::alloc::Global;

/// How many characters of a value a line shows.
const MOST_CHARACTERS: usize = 4_096;

/// Adds the line of an instance's item, as JSON cut to 4,096 characters; adds nothing where `item` is None.
fn add_item(alloc: Global, lines: &mut Vec<Text>, item: Option<&Xval>) -> Result<(), OutOfMemory>
    ensures { OnOk result (lines.new.items ≡ lines.old.items
        ++ item_lines (option_copied item.entry)) }
{
    let Some(item) = item else {
        return Ok(());
    };
    let value = value_text(alloc, Some(item), MOST_CHARACTERS)?;
    add_moved_line(lines, Text::new(format!(in alloc; "item  {value}")?))
}

/// The line of a pull: the task pulled from, and the value as JSON cut to 4,096 characters, or `nothing` where there
/// was none.
fn pull_line(alloc: Global, pull: &Pull) -> Result<Text, OutOfMemory>
    ensures { IfOk result (λ text. text ≡ pull_line_of pull.now) }
{
    let task = pull.task.as_str();
    let value = value_text(alloc, pull.value.get(), MOST_CHARACTERS)?;
    Ok(Text::new(format!(in alloc; "pulled {task}  {value}")?))
}

/// Adds a line for each of these pulls, in order.
fn add_pulls(alloc: Global, lines: &mut Vec<Text>, pulls: &[Pull]) -> Result<(), OutOfMemory>
    ensures { OnOk result (lines.new.items ≡ lines.old.items ++ map pull_line_of pulls.now) }
{
    for pull in pulls {
        lines.push(pull_line(alloc, pull)?)?;
    }
    Ok(())
}

/// Lines on what an instance was given: its item, where it has one, and each of its pulls. Values are JSON, cut to
/// 4,096 characters.
pub(crate) fn given_lines(
    alloc: Global,
    instance: &InstanceReport,
) -> Result<Vec<Text>, OutOfMemory>
    ensures { IfOk result (λ lines. lines.items ≡ given_lines_of instance.now) }
{
    let mut lines = Vec::new(alloc);
    add_item(alloc, &mut lines, instance.item())?;
    add_pulls(alloc, &mut lines, instance.pulls())?;
    Ok(lines)
}

/// The one line of what an instance pushed, as JSON cut to 4,096 characters. Empty where it pushed nothing.
pub(crate) fn pushed_lines(
    alloc: Global,
    instance: &InstanceReport,
) -> Result<Vec<Text>, OutOfMemory>
    ensures { IfOk result (λ lines. lines.items ≡ pushed_lines_of instance.now) }
{
    let ended = instance.result()?;
    let mut lines = Vec::new(alloc);
    if let Some(value) = ended.outcome.pushed() {
        lines.push(value_text(alloc, Some(value), MOST_CHARACTERS)?)?;
    }
    Ok(lines)
}
