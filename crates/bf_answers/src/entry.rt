//! The entries of single tries, each added behind a text.
ghost use Rattle.std.specs.Prelude.{◌≡◌, ◌++◌, ◌∷◌, [], ◌<◌, true, OnOk, string_bytes};
ghost use Rattle.serde_json.specs.Data.{Members, object};
ghost use Rattle.serde_json.specs.Written.{compact_text, members_text, number_text};
ghost use Rattle.serde_json.specs.Find.{of_integer};
ghost use Rattle.bf_value.specs.Json.{json_of};
ghost use Rattle.bf_answers.specs.Answers.{entry_at, entries_for};
ghost use Rattle.bf_answers.specs.inner.Answers.{number_of};
ghost use Rattle.bf_answers.specs.inner.Pieces.{named_members};
ghost use Rattle.bf_answers.specs.TableText.{entry_line, entry_lines};

use bf_show::push_string;
use bf_value::{OutOfMemory, Xval, text_of};
use bf_xcom::Outcome;
use std::alloc::Global;

/// The exit status of a try that failed.
const FAILED: u8 = 1;

/// The exit status of a try that skipped its instance.
const SKIPPED: u8 = 99;

/// An instance, by the start of its run as a report writes it, the id of its task, and its map index, None where the
/// task isn't expanded.
#[derive(Clone, Copy)]
pub(crate) struct InstanceName<'a> {
    pub(crate) run: &'a str,
    pub(crate) task: &'a str,
    pub(crate) index: Option<usize>,
}

/// Adds a map index in decimal; -1 for None.
fn push_index(text: &mut String, index: Option<usize>) -> Result<(), OutOfMemory>
    ensures { OnOk result (string_bytes text.new ≡ string_bytes text.old
        ++ number_text (of_integer (number_of index))) }
{
    match index {
        Some(index) => write!(text, "{index}")?,
        None => text.push_str("-1")?,
    }
    Ok(())
}

/// Adds the beginning of the entry of try `attempt`, from 1: a comma, a line feed, and the members that name the try.
/// The JSON object stays open.
fn push_entry_start(
    alloc: Global,
    text: &mut String,
    name: &InstanceName<'_>,
    attempt: u32,
) -> Result<(), OutOfMemory>
    ensures { OnOk result ((members : Members) → string_bytes text.new ++ members_text true members
        ≡ string_bytes text.old ++ 44 ∷ 10 ∷ compact_text (object
        (named_members name.now.run.now name.now.task.now (number_of name.now.index) attempt
        members))) }
{
    text.push_str(",\n{\"task\":")?;
    push_string(alloc, text, name.task)?;
    text.push_str(",\"index\":")?;
    push_index(text, name.index)?;
    text.push_str(",\"run\":")?;
    push_string(alloc, text, name.run)?;
    text.push_str(",\"try\":")?;
    write!(text, "{attempt}")?;
    Ok(())
}

/// Adds the entry of try `attempt`, from 1, that ended with this exit status, which isn't 0.
fn push_status_entry(
    alloc: Global,
    text: &mut String,
    name: &InstanceName<'_>,
    attempt: u32,
    status: u8,
) -> Result<(), OutOfMemory>
    requires { 0 < status }
    ensures { OnOk result (string_bytes text.new ≡ string_bytes text.old
        ++ entry_line (entry_at name.now.run.now name.now.task.now (number_of name.now.index)
        attempt status [])) }
{
    push_entry_start(alloc, text, name, attempt)?;
    text.push_str(",\"status\":")?;
    write!(text, "{status}")?;
    text.push_str("}")?;
    Ok(())
}

/// Adds the entry of try `attempt`, from 1, that succeeded and pushed this value.
fn push_value_entry(
    alloc: Global,
    text: &mut String,
    name: &InstanceName<'_>,
    attempt: u32,
    value: &Xval,
) -> Result<(), OutOfMemory>
    ensures { OnOk result (string_bytes text.new ≡ string_bytes text.old
        ++ entry_line (entry_at name.now.run.now name.now.task.now (number_of name.now.index)
        attempt 0 (json_of value.now))) }
{
    push_entry_start(alloc, text, name, attempt)?;
    text.push_str(",\"out\":")?;
    push_string(alloc, text, text_of(alloc, value)?.as_str())?;
    text.push_str("}")?;
    Ok(())
}

/// Adds the entry of try `attempt`, from 1, that failed: it has the exit status 1.
pub(crate) fn push_failed_entry(
    alloc: Global,
    text: &mut String,
    name: &InstanceName<'_>,
    attempt: u32,
) -> Result<(), OutOfMemory>
    ensures { OnOk result (string_bytes text.new ≡ string_bytes text.old
        ++ entry_line (entry_at name.now.run.now name.now.task.now (number_of name.now.index)
        attempt 1 [])) }
{
    push_status_entry(alloc, text, name, attempt, FAILED)
}

/// Adds the entry by which try `attempt`, from 1, ends with this outcome; adds nothing for a success that pushed
/// nothing, since a try without an entry ends so.
pub(crate) fn push_outcome_entry(
    alloc: Global,
    text: &mut String,
    name: &InstanceName<'_>,
    attempt: u32,
    outcome: &Outcome,
) -> Result<(), OutOfMemory>
    ensures { OnOk result (string_bytes text.new ≡ string_bytes text.old
        ++ entry_lines (entries_for name.now.run.now name.now.task.now (number_of name.now.index)
        attempt outcome.now)) }
{
    match outcome {
        Outcome::Success(pushed) => match pushed.get() {
            Some(value) => push_value_entry(alloc, text, name, attempt, value),
            None => Ok(()),
        },
        Outcome::Failed => push_failed_entry(alloc, text, name, attempt),
        Outcome::Skipped => push_status_entry(alloc, text, name, attempt, SKIPPED),
    }
}
