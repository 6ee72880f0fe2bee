//! What stands above a grid.
ghost use Rattle.std.specs.Prelude.{◌≡◌, ◌++◌, OnOk};
ghost use Rattle.bf_grid.specs.Summary.{dates, each_line, head_line, left_out_line, many_line, shown_line, shown_of};

use bf_marks::{
    push, push_counted_noun, push_moment, push_number, push_painted, tally_of_run_states,
};
use bf_report::RunReport;
use bf_value::OutOfMemory;
use std::alloc::Global;

/// Adds two spaces and when the first and the last of these runs start, such as `2024-03-04 to 2024-03-06`; adds
/// nothing where there are no runs.
fn push_dates(text: &mut Vec<u8>, runs: &[RunReport]) -> Result<(), OutOfMemory>
    ensures { OnOk result (text.new.items ≡ text.old.items ++ dates runs.now) }
{
    let (Some(first), Some(last)) = (runs.first(), runs.last()) else {
        return Ok(());
    };
    push(text, b"  ")?;
    push_moment(text, first.interval.start)?;
    push(text, b" to ")?;
    push_moment(text, last.interval.start)
}

/// Adds the first line of a grid, with its line feed: the dag id, bold where `colored`, when the first and the last run
/// start, how many runs there are and how many of them failed.
pub(crate) fn push_head(
    alloc: Global,
    text: &mut Vec<u8>,
    colored: bool,
    dag_id: &str,
    runs: &[RunReport],
) -> Result<(), OutOfMemory>
    ensures { OnOk result (text.new.items ≡ text.old.items
        ++ head_line colored dag_id.now runs.now) }
{
    push_painted(text, colored, "1", dag_id.as_bytes())?;
    push_dates(text, runs)?;
    push(text, b"  ")?;
    push_counted_noun(alloc, text, runs.len() as u64, "run")?;
    push(text, b", ")?;
    push_number(alloc, text, tally_of_run_states(runs).failed)?;
    push(text, b" failed\n")
}

/// How many runs or tasks there are in all, and how many of them a grid shows.
#[derive(Clone, Copy)]
pub(crate) struct Shown {
    pub(crate) shown: usize,
    pub(crate) all: usize,
}

/// Adds how many of all are shown, such as `2 of 5 runs` where the noun is `run`.
fn push_shown_count(
    alloc: Global,
    text: &mut Vec<u8>,
    shown: Shown,
    noun: &str,
) -> Result<(), OutOfMemory>
    ensures { OnOk result (text.new.items ≡ text.old.items
        ++ shown_of shown.shown shown.all noun.now) }
{
    push_number(alloc, text, shown.shown as u64)?;
    push(text, b" of ")?;
    push_counted_noun(alloc, text, shown.all as u64, noun)
}

/// Adds the line on how many runs and tasks are shown, with its line feed, such as `shown: 2 of 5 runs, 3 of 7 tasks`.
fn push_shown_line(
    alloc: Global,
    text: &mut Vec<u8>,
    runs: Shown,
    tasks: Shown,
) -> Result<(), OutOfMemory>
    ensures { OnOk result (text.new.items ≡ text.old.items
        ++ shown_line runs.shown runs.all tasks.shown tasks.all) }
{
    push(text, b"shown: ")?;
    push_shown_count(alloc, text, runs, "run")?;
    push(text, b", ")?;
    push_shown_count(alloc, text, tasks, "task")?;
    push(text, b"\n")
}

/// Adds the line on how many runs and tasks are shown; adds nothing where all are.
pub(crate) fn push_left_out(
    alloc: Global,
    text: &mut Vec<u8>,
    runs: Shown,
    tasks: Shown,
) -> Result<(), OutOfMemory>
    ensures { OnOk result (text.new.items ≡ text.old.items
        ++ left_out_line runs.shown runs.all tasks.shown tasks.all) }
{
    if runs.shown == runs.all && tasks.shown == tasks.all {
        return Ok(());
    }
    push_shown_line(alloc, text, runs, tasks)
}

/// Adds the line, with its line feed, that a column stands for `each` runs and shows the worst of them.
fn push_runs_per_column_line(
    alloc: Global,
    text: &mut Vec<u8>,
    each: usize,
) -> Result<(), OutOfMemory>
    ensures { OnOk result (text.new.items ≡ text.old.items ++ many_line each) }
{
    let number = format!(in alloc; "{each}")?;
    push(text, b"a column is ")?;
    push(text, number.as_bytes())?;
    push(text, b" runs, and shows the worst of them\n")
}

/// Adds the line that a column stands for `each` runs; adds nothing where that is 1 or 0.
pub(crate) fn push_runs_per_column(
    alloc: Global,
    text: &mut Vec<u8>,
    each: usize,
) -> Result<(), OutOfMemory>
    ensures { OnOk result (text.new.items ≡ text.old.items ++ each_line each) }
{
    if each > 1 {
        return push_runs_per_column_line(alloc, text, each);
    }
    Ok(())
}
