//! What the marks of a grid mean.
ghost use Rattle.std.specs.Prelude.{◌≡◌, ◌++◌, filter, map, IfOk, OnOk};
ghost use Rattle.bf_grid.specs.Legend.{explained, has_mark_in, is_seen_in, legend, legend_lines, legend_of, meaning};

use crate::row::push_line;
use bf_marks::{Mark, push, push_painted, tally_at};
use bf_report::RunReport;
use bf_value::OutOfMemory;
use std::alloc::Global;

/// All marks, in the order of the legend.
const MARKS: [Mark; 6] = [
    Mark::Success,
    Mark::Retried,
    Mark::Failed,
    Mark::UpstreamFailed,
    Mark::Skipped,
    Mark::NoStatus,
];

/// The word that the legend has for a mark.
fn meaning_of(mark: Mark) -> &'static str
    ensures { result.now ≡ meaning mark }
{
    match mark {
        Mark::Success => "success",
        Mark::Retried => "retried",
        Mark::Failed => "failed",
        Mark::UpstreamFailed => "upstream_failed",
        Mark::Skipped => "skipped",
        Mark::NoStatus => "no_status",
    }
}

/// Whether task number `task` has this mark in one of these runs.
fn has_mark(runs: &[&RunReport], mark: Mark, task: u32) -> Result<bool, OutOfMemory>
    ensures { IfOk result (λ has_it. has_it
        ≡ has_mark_in (map (λ run. run.now) runs.now) mark task) }
{
    for run in runs {
        if Mark::of(tally_at(run, task)?).severity() == mark.severity() {
            return Ok(true);
        }
    }
    Ok(false)
}

/// Whether one of these tasks has this mark in one of these runs.
fn is_seen(runs: &[&RunReport], tasks: &[u32], mark: Mark) -> Result<bool, OutOfMemory>
    ensures { IfOk result (λ seen_it. seen_it
        ≡ is_seen_in (map (λ run. run.now) runs.now) tasks.now mark) }
{
    for task in tasks {
        if has_mark(runs, mark, *task)? {
            return Ok(true);
        }
    }
    Ok(false)
}

/// The marks, among these and in their order, that one of these tasks has in one of these runs.
fn seen_among(
    alloc: Global,
    runs: &[&RunReport],
    tasks: &[u32],
    marks: &[Mark],
) -> Result<Vec<Mark>, OutOfMemory>
    ensures { IfOk result (λ found. found.items
        ≡ filter (is_seen_in (map (λ run. run.now) runs.now) tasks.now) marks.now) }
{
    let mut found = Vec::new(alloc);
    for mark in marks {
        if is_seen(runs, tasks, *mark)? {
            found.push(*mark)?;
        }
    }
    Ok(found)
}

/// Adds a mark's letter, coloured where `colored`, and the word for it, such as `F failed`.
fn push_meaning(text: &mut Vec<u8>, colored: bool, mark: Mark) -> Result<(), OutOfMemory>
    ensures { OnOk result (text.new.items ≡ text.old.items ++ explained colored mark) }
{
    push_painted(text, colored, mark.color(), mark.letter().as_bytes())?;
    push(text, b" ")?;
    push(text, meaning_of(mark).as_bytes())
}

/// Adds the letter of each mark, coloured where `colored`, and the word for it, with two spaces between marks.
fn push_meanings(text: &mut Vec<u8>, colored: bool, marks: &[Mark]) -> Result<(), OutOfMemory>
    ensures { OnOk result (text.new.items ≡ text.old.items ++ legend colored marks.now) }
{
    for (place, mark) in marks.iter().enumerate() {
        push_meaning(text, colored, *mark)?;
        if place + 1 < marks.len() {
            push(text, b"  ")?;
        }
    }
    Ok(())
}

/// Adds an empty line and these marks, explained; nothing where there are none.
fn push_legend_lines(
    alloc: Global,
    text: &mut Vec<u8>,
    colored: bool,
    marks: &[Mark],
) -> Result<(), OutOfMemory>
    ensures { OnOk result (text.new.items ≡ text.old.items ++ legend_lines colored marks.now) }
{
    if marks.is_empty() {
        return Ok(());
    }
    let mut shown = Vec::new(alloc);
    push_meanings(&mut shown, colored, marks)?;
    push(text, b"\n")?;
    push_line(text, shown.as_slice())
}

/// Adds the legend behind an empty line: the letter of each mark that one of these tasks has in one of these runs,
/// coloured where `colored`, and the word for it. Nothing where they have none.
pub(crate) fn push_legend(
    alloc: Global,
    text: &mut Vec<u8>,
    colored: bool,
    runs: &[&RunReport],
    tasks: &[u32],
) -> Result<(), OutOfMemory>
    ensures { OnOk result (text.new.items ≡ text.old.items
        ++ legend_of colored (map (λ run. run.now) runs.now) tasks.now) }
{
    let marks = seen_among(alloc, runs, tasks, &MARKS)?;
    push_legend_lines(alloc, text, colored, marks.as_slice())
}
