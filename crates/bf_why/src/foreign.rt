//! What the report has that doesn't follow from the graph, in sentences.
ghost use Rattle.std.specs.Prelude.{◌≡◌, ◌++◌, ◌∷◌, [], IfOk, OnOk, codes};
ghost use Rattle.std.specs.Char.{is_ascii_digit};
ghost use Rattle.bf_reason.specs.Letters.{letter_for};
ghost use Rattle.bf_why.specs.Why.{foreign, would_be_text_of, would_run_text_of};

use bf_reason::{Settled, StateCause, letter_by};
use bf_value::{OutOfMemory, Text};
use bf_wording::{add_lines, add_moved_line, count_text, one_line};
use std::alloc::Global;

/// The sentence that a task would have run by this graph: as `count` instances where it is expanded, else as one.
fn would_run_text(alloc: Global, is_expanded: bool, count: usize) -> Result<Text, OutOfMemory>
    ensures { IfOk result (λ text. text ≡ would_run_text_of is_expanded count) }
{
    if is_expanded {
        let instances = count_text(alloc, count as u64, "instance")?;
        let text = format!(in alloc; "By this graph it would have run, with {instances}:")?;
        Ok(Text::new(text))
    } else {
        Text::copy_of(alloc, "By this graph it would have run, as one instance:")
    }
}

/// The sentence on what this graph makes of a task for this cause, such as `By this graph it would be skipped:`.
fn would_be_text(alloc: Global, is_expanded: bool, cause: StateCause) -> Result<Text, OutOfMemory>
    ensures { IfOk result (λ text. text ≡ would_be_text_of is_expanded cause) }
{
    match cause {
        StateCause::NotFollowed | StateCause::RuleSkips | StateCause::HasNoItems => {
            Text::copy_of(alloc, "By this graph it would be skipped:")
        }
        StateCause::RuleFails | StateCause::ItemsAreMissing => {
            Text::copy_of(alloc, "By this graph it would be upstream_failed:")
        }
        StateCause::Runs(count) => would_run_text(alloc, is_expanded, count),
        StateCause::Waits
        | StateCause::BranchIsBlocked
        | StateCause::UpstreamIsBlocked
        | StateCause::PastHasNotPassed => Text::copy_of(
            alloc,
            "By this graph it would be no_status:",
        ),
    }
}

/// Whether `told`, the report of a task, isn't what this graph decides for this cause; the task's letter is then a
/// digit.
pub fn is_foreign(is_expanded: bool, cause: StateCause, told: &Settled<'_>) -> bool
    ensures { result ≡ is_ascii_digit (letter_for is_expanded cause told.now) }
{
    letter_by(is_expanded, cause, told).is_ascii_digit()
}

/// Two sentences: that the report of a task doesn't follow from this graph, and what would follow for this cause.
fn foreign_lines(
    alloc: Global,
    is_expanded: bool,
    cause: StateCause,
) -> Result<Vec<Text>, OutOfMemory>
    ensures { IfOk result (λ lines. lines.items
        ≡ codes "What the report has doesn't follow from this graph."
        ∷ would_be_text_of is_expanded cause ∷ []) }
{
    let first = Text::copy_of(alloc, "What the report has doesn't follow from this graph.")?;
    let mut lines = one_line(alloc, first)?;
    add_moved_line(&mut lines, would_be_text(alloc, is_expanded, cause)?)?;
    Ok(lines)
}

/// Adds two sentences where `told`, the report of a task, isn't what this graph decides for this cause: that it doesn't
/// follow, and what would. Adds nothing otherwise.
pub(crate) fn add_foreign(
    alloc: Global,
    lines: &mut Vec<Text>,
    is_expanded: bool,
    cause: StateCause,
    told: &Settled<'_>,
) -> Result<(), OutOfMemory>
    ensures { OnOk result (lines.new.items ≡ lines.old.items
        ++ foreign is_expanded cause told.now) }
{
    if is_foreign(is_expanded, cause, told) {
        add_lines(lines, foreign_lines(alloc, is_expanded, cause)?)
    } else {
        Ok(())
    }
}
