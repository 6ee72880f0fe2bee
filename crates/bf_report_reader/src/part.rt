//! What the lines behind that of an instance tell of what its tries were given.
ghost use Rattle.std.specs.Prelude.{◌≡◌, ◌++◌, ◌∷◌, IfOk, IfSome};
ghost use Rattle.std.specs.List.{list_any};
ghost use Rattle.std.specs.Str.{bytes_eq};
ghost use Rattle.bf_value.specs.Json.{json_of};
ghost use Rattle.bf_report.specs.Report.{pulled_word};
ghost use Rattle.bf_report_reader.specs.inner.Reads.{Spells, Finds};
ghost use Rattle.bf_report_reader.specs.Beginning.{most_told};
ghost use Rattle.bf_report_reader.specs.inner.Beginning.{takes_at};
ghost use Rattle.bf_report_reader.specs.Parts.{IsToldValue, IsToldItem, IsToldPulled, IsToldPull};
ghost use Rattle.bf_report_reader.specs.inner.Parts.{pull_words};

use crate::field::split_field;
use crate::value::value_if_spelled;
use bf_plan::is_id;
use bf_read::MOST_PULLS;
use bf_report::{InstanceReport, Pull, Version};
use bf_try::{LONGEST_VALUE, MOST_ITEMS};
use bf_value::{DEEPEST, OutOfMemory, Text, Xval, read_text};
use bf_xcom::SharedValue;
use std::alloc::Global;

/// An item or a pull that the tries of an instance were given. Each has a line of its own.
#[derive(Drop)]
pub(crate) enum GivenPart {
    Item(Xval),
    Pull(Pull),
}

/// How deep a pulled value may nest: one level deeper than a pushed one, since a pull from an expanded task gives the
/// list of what its instances pushed.
const DEEPEST_PULLED: usize = DEEPEST + 1;

/// The most bytes that a pulled value's JSON may have: a list of `MOST_ITEMS` pushed values of the greatest length,
/// each with a comma or bracket behind it, and the opening bracket.
const LONGEST_PULLED: usize = MOST_ITEMS * (LONGEST_VALUE + 1) + 1;

/// Reads a value from its compact JSON, of at most `longest` bytes and nested at most `deepest` deep; None for any
/// other text.
fn bounded_value_in(
    alloc: Global,
    text: &[u8],
    deepest: usize,
    longest: usize,
) -> Result<Option<Xval>, OutOfMemory>
    ensures some { IfOk result (λ o. IfSome o
        (Spells (IsToldValue deepest longest) json_of text.now)) }
    ensures every { IfOk result (Finds (Spells (IsToldValue deepest longest) json_of text.now)) }
{
    if text.len() > longest {
        return Ok(None);
    }
    let Ok(json) = std::str::from_utf8(text) else {
        return Ok(None);
    };
    match read_text(alloc, json, deepest)? {
        Some(value) => value_if_spelled(alloc, text, value),
        None => Ok(None),
    }
}

/// Reads an item from what follows `@item ` on its line; None where that is no compact JSON within the limits of a
/// pushed value.
pub(crate) fn item_in(alloc: Global, text: &[u8]) -> Result<Option<Xval>, OutOfMemory>
    ensures some { IfOk result (λ o. IfSome o (Spells IsToldItem json_of text.now)) }
    ensures every { IfOk result (Finds (Spells IsToldItem json_of text.now)) }
{
    bounded_value_in(alloc, text, DEEPEST, LONGEST_VALUE)
}

/// Reads a pulled value: `Some(None)` for `-`, which says that nothing was pushed. None for `null`, and for any text
/// that isn't compact JSON within the limits of a pulled value.
fn pulled_in(alloc: Global, text: &[u8]) -> Result<Option<Option<Xval>>, OutOfMemory>
    ensures some { IfOk result (λ o. IfSome o (Spells IsToldPulled pulled_word text.now)) }
    ensures every { IfOk result (Finds (Spells IsToldPulled pulled_word text.now)) }
{
    if text == b"-".as_slice() {
        return Ok(Some(None));
    }
    match bounded_value_in(alloc, text, DEEPEST_PULLED, LONGEST_PULLED)? {
        None | Some(Xval::Nil) => Ok(None),
        Some(value) => Ok(Some(Some(value))),
    }
}

/// Reads a pull from what follows `@pull ` on its line: a task's id, and its value or `-`. None where either is
/// malformed.
pub(crate) fn pull_in(alloc: Global, text: &[u8]) -> Result<Option<Pull>, OutOfMemory>
    ensures some { IfOk result (λ o. IfSome o (Spells IsToldPull pull_words text.now)) }
    ensures every { IfOk result (Finds (Spells IsToldPull pull_words text.now)) }
{
    let Some((id, value)) = split_field(text) else {
        return Ok(None);
    };
    let Ok(id) = std::str::from_utf8(id) else {
        return Ok(None);
    };
    if !is_id(id) {
        return Ok(None);
    }
    match pulled_in(alloc, value)? {
        Some(value) => Ok(Some(Pull {
            task: Text::copy_of(alloc, id)?,
            value: SharedValue::new(alloc, value)?,
        })),
        None => Ok(None),
    }
}

/// Gives the most pulls that a report of this version may have for an instance: none in version 1.
fn most_pulls(version: Version) -> usize
    ensures { result ≡ most_told version }
{
    match version {
        Version::One => 0,
        Version::Two => MOST_PULLS,
    }
}

/// Answers whether an instance has a pull from the task with this id.
fn has_pull(instance: &InstanceReport, id: &str) -> bool
    ensures { result ≡ list_any (λ pull. bytes_eq pull.task id.now) instance.now.pulls }
{
    instance.pulls().iter().any(|pull| pull.task.as_str() == id)
}

/// Answers whether an instance may take this item or pull next. An item only where one is missing (`is_given` is
/// false); a pull only where none is, the version allows one more, and no pull is from that task yet.
pub(crate) fn instance_may_take(
    version: Version,
    is_given: bool,
    instance: &InstanceReport,
    part: &GivenPart,
) -> bool
    ensures { result ≡ takes_at version is_given instance.now part.now }
{
    match part {
        GivenPart::Item(_) => !is_given,
        GivenPart::Pull(pull) => {
            is_given
                && instance.pulls().len() < most_pulls(version)
                && !has_pull(instance, pull.task.as_str())
        }
    }
}
