//! Which instances of an expanded task are in which state.
ghost use Rattle.std.specs.Prelude.{◌≡◌, ◌<◌, ◌++◌, IfOk, OnOk, codes, length, option_copied, string_bytes};
ghost use Rattle.bf_explain.specs.Beside.{padded_of};
ghost use Rattle.bf_core.specs.Deciding.{counts_of_results_of};
ghost use Rattle.bf_explain.specs.Indexes.{index_text, indexes_text_of, is_at_index, is_before_index, is_in_state, range_end, state_line, state_lines_of, states_width_of, state_width_of};

use crate::beside::{outcome_word, padded};
use bf_rule::Counts;
use bf_value::{OutOfMemory, Text};
use bf_xcom::TaskResult;
use std::alloc::Global;

/// Whether an instance ended in the state that this word names, such as `failed`; false where `ended` is None.
fn has_state(state: &str, ended: Option<&TaskResult>) -> bool
    ensures { result ≡ is_in_state state.now (option_copied ended.entry) }
{
    match ended {
        Some(ended) => outcome_word(&ended.outcome) == state,
        None => false,
    }
}

/// Whether the instance of map index `index` ended in this state; false where there is no such instance.
fn has_state_at(state: &str, results: &[TaskResult], index: usize) -> bool
    ensures { result ≡ is_at_index state.now results.now index }
{
    has_state(state, results.get(index))
}

/// Whether the instance one map index below `index` ended in this state; false where there is no such instance.
fn has_state_before(state: &str, results: &[TaskResult], index: usize) -> bool
    ensures { result ≡ is_before_index state.now results.now index }
{
    index > 0 && has_state_at(state, results, index - 1)
}

/// Ends a range of map indexes at `index`, such as `-7`; adds nothing where the range goes on.
fn push_range_end(text: &mut String, goes_on: bool, index: usize) -> Result<(), OutOfMemory>
    ensures { OnOk result (string_bytes text.new ≡ string_bytes text.old
        ++ range_end goes_on index) }
{
    if !goes_on {
        write!(text, "-{index}")?;
    }
    Ok(())
}

/// Adds what `index` contributes to the ranges of a state: ` 5` where it starts a range, `-7` where it ends one of
/// several indexes, and nothing inside a range or where its instance isn't in the state.
fn push_index(
    text: &mut String,
    state: &str,
    results: &[TaskResult],
    index: usize,
) -> Result<(), OutOfMemory>
    requires { index < length results.now }
    ensures { OnOk result (string_bytes text.new ≡ string_bytes text.old
        ++ index_text state.now results.now index) }
{
    if !has_state_at(state, results, index) {
        return Ok(());
    }
    if has_state_before(state, results, index) {
        return push_range_end(text, has_state_at(state, results, index + 1), index);
    }
    write!(text, " {index}")?;
    Ok(())
}

/// Adds the map indexes of all instances in a state as ranges, each after a space, such as ` 0-3 5`.
fn push_indexes(text: &mut String, state: &str, results: &[TaskResult]) -> Result<(), OutOfMemory>
    ensures { OnOk result (string_bytes text.new ≡ string_bytes text.old
        ++ indexes_text_of state.now results.now) }
{
    for index in 0..results.len() {
        push_index(text, state, results, index)?;
    }
    Ok(())
}

/// The length of a state's word in bytes; 0 where `count`, how many instances are in it, is 0.
fn state_width(count: u32, state: &str) -> usize
    ensures { result ≡ state_width_of count state.now }
{
    if count == 0 { 0 } else { state.len() }
}

/// The length in bytes of the longest of the words `success`, `failed` and `skipped` whose state some instance is in; 0
/// where there is no instance.
fn states_width(counts: &Counts) -> usize
    ensures { result ≡ states_width_of counts.now }
{
    let success = state_width(counts.success, "success");
    let failed = state_width(counts.failed, "failed");
    let skipped = state_width(counts.skipped, "skipped");
    success.max(failed.max(skipped))
}

/// The line of a state, such as `failed  2 5-7`: its word, padded to `width` bytes, and the map indexes of its
/// instances as ranges.
fn indexes_line(
    alloc: Global,
    width: usize,
    results: &[TaskResult],
    state: &str,
) -> Result<Text, OutOfMemory>
    ensures { IfOk result (λ text. text ≡ padded_of width state.now
        ++ (codes " " ++ indexes_text_of state.now results.now)) }
{
    let name = padded(alloc, state, width)?;
    let mut text = format!(in alloc; "{name} ")?;
    push_indexes(&mut text, state, results)?;
    Ok(Text::new(text))
}

/// Adds the line of a state with the map indexes of its instances; adds nothing where `count`, how many they are, is 0.
fn add_state(
    alloc: Global,
    lines: &mut Vec<Text>,
    width: usize,
    results: &[TaskResult],
    state: &str,
    count: u32,
) -> Result<(), OutOfMemory>
    ensures { OnOk result (lines.new.items ≡ lines.old.items
        ++ state_line width results.now state.now count) }
{
    if count > 0 {
        lines.push(indexes_line(alloc, width, results, state)?)?;
    }
    Ok(())
}

/// A line for each of the states `success`, `failed` and `skipped`, in this order, with the map indexes of its
/// instances as ranges; a state without instances has no line.
pub(crate) fn state_lines(
    alloc: Global,
    results: &[TaskResult],
    counts: &Counts,
) -> Result<Vec<Text>, OutOfMemory>
    requires { counts.now ≡ counts_of_results_of results.now }
    ensures { IfOk result (λ lines. lines.items ≡ state_lines_of results.now) }
{
    let width = states_width(counts);
    let mut lines = Vec::new(alloc);
    add_state(alloc, &mut lines, width, results, "success", counts.success)?;
    add_state(alloc, &mut lines, width, results, "failed", counts.failed)?;
    add_state(alloc, &mut lines, width, results, "skipped", counts.skipped)?;
    Ok(lines)
}
