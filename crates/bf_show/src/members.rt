//! The members of a line, each added behind a text.
ghost use Rattle.std.specs.Prelude.{◌≡◌, ◌++◌, ◌∷◌, [], true, OnOk, string_bytes, option_copied};
ghost use Rattle.json.specs.Print.{quoted};
ghost use Rattle.serde_json.specs.Data.{Members};
ghost use Rattle.serde_json.specs.Written.{compact_text, members_text};
ghost use Rattle.bf_report.specs.Report.{state_word};
ghost use Rattle.bf_show.specs.JsonLines.{value_members, pulled_data, pull_members, pulls_members, ended_members};
ghost use Rattle.bf_show.specs.Pieces.{key_word};
ghost use Rattle.bf_show.specs.inner.Pieces.{line_end};

use crate::key::{Key, push_key};
use bf_report::{InstanceReport, Pull};
use bf_value::{OutOfMemory, Text, Xval, text_of};
use bf_xcom::Outcome;
use std::alloc::Global;

/// Adds a text as a JSON string, in its quotes.
pub fn push_string(alloc: Global, text: &mut String, word: &str) -> Result<(), OutOfMemory>
    ensures { OnOk result (string_bytes text.new ≡ string_bytes text.old ++ quoted word.now) }
{
    let value = Xval::Text(Text::copy_of(alloc, word)?);
    text.push_str(text_of(alloc, &value)?.as_str())?;
    Ok(())
}

/// The word for how an instance ended as a JSON string, in its quotes.
fn state_string(outcome: &Outcome) -> &'static str
    ensures { result.now ≡ quoted (state_word outcome.now) }
{
    match outcome {
        Outcome::Success(_) => "\"success\"",
        Outcome::Failed => "\"failed\"",
        Outcome::Skipped => "\"skipped\"",
    }
}

/// Adds the member `key` with this value, after a comma; adds nothing where the value is None.
fn push_value(
    alloc: Global,
    text: &mut String,
    key: Key,
    value: Option<&Xval>,
) -> Result<(), OutOfMemory>
    ensures { OnOk result ((members : Members) → string_bytes text.new ++ line_end members
        ≡ string_bytes text.old ++ line_end
        (value_members (key_word key) (option_copied value.entry) members)) }
{
    let Some(value) = value else {
        return Ok(());
    };
    push_key(text, key)?;
    text.push_str(text_of(alloc, value)?.as_str())?;
    Ok(())
}

/// Adds the member of a pull: the id of the task pulled from, and the value, or null where there was none.
fn push_pull(alloc: Global, text: &mut String, pull: &Pull) -> Result<(), OutOfMemory>
    ensures { OnOk result (string_bytes text.new ≡ string_bytes text.old
        ++ (quoted pull.now.task ++ 58 ∷ compact_text (pulled_data pull.now.value))) }
{
    push_string(alloc, text, pull.task.as_str())?;
    text.push_str(":")?;
    match pull.value.get() {
        Some(value) => text.push_str(text_of(alloc, value)?.as_str())?,
        None => text.push_str("null")?,
    }
    Ok(())
}

/// Adds the members of the pulls after the first, each after a comma, and the brace that closes their object.
fn push_further(alloc: Global, text: &mut String, pulls: &[Pull]) -> Result<(), OutOfMemory>
    ensures { OnOk result (string_bytes text.new
        ≡ string_bytes text.old ++ members_text true (pull_members pulls.now)) }
{
    for pull in pulls {
        text.push_str(",")?;
        push_pull(alloc, text, pull)?;
    }
    text.push_str("}")?;
    Ok(())
}

/// Adds the member `pulls` where an instance has pulls, and ends its line with a brace and a line feed.
fn push_pulls(alloc: Global, text: &mut String, pulls: &[Pull]) -> Result<(), OutOfMemory>
    ensures { OnOk result (string_bytes text.new ≡ string_bytes text.old
        ++ line_end (pulls_members pulls.now)) }
{
    let Some((first, further)) = pulls.split_first() else {
        text.push_str("}\n")?;
        return Ok(());
    };
    push_key(text, Key::Pulls)?;
    text.push_str("{")?;
    push_pull(alloc, text, first)?;
    push_further(alloc, text, further)?;
    text.push_str("}\n")?;
    Ok(())
}

/// Adds how an instance ended, its tries, the value that it pushed and what it was given, and ends its line with a
/// brace and a line feed.
pub(crate) fn push_ended(
    alloc: Global,
    text: &mut String,
    instance: &InstanceReport,
) -> Result<(), OutOfMemory>
    ensures { OnOk result (string_bytes text.new ≡ string_bytes text.old
        ++ line_end (ended_members instance.now)) }
{
    let ended = instance.result()?;
    let tries = ended.tries;
    push_key(text, Key::State)?;
    text.push_str(state_string(&ended.outcome))?;
    push_key(text, Key::Tries)?;
    write!(text, "{tries}")?;
    push_value(alloc, text, Key::Value, ended.outcome.pushed())?;
    push_value(alloc, text, Key::Item, instance.item())?;
    push_pulls(alloc, text, instance.pulls())
}
