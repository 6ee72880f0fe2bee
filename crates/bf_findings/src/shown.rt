//! What stands at a place, as it is told.
ghost use Rattle.std.specs.Prelude.{◌≡◌, ◌++◌, codes, IfOk};
ghost use Rattle.serde_json.specs.View.{view};
ghost use Rattle.serde_json.specs.Data.{string};
ghost use Rattle.serde_json.specs.Written.{compact_text};
ghost use Rattle.bf_wording.specs.Values.{cut};
ghost use Rattle.bf_findings.specs.Shown.{is_no_whole_number_in, shown_value_of, shown_in};

use crate::place::DocumentPlace;
use bf_value::{OutOfMemory, Text};
use bf_wording::cut_text;
use serde_json::Value;
use std::alloc::Global;

/// The most characters of a text that a finding shows.
const MOST_SHOWN: usize = 200;

/// Gives a text as JSON, with its quotes, cut where it is long.
fn json_text_of(alloc: Global, text: &str) -> Result<Text, OutOfMemory>
    ensures { IfOk result (λ t. t ≡ cut 200 (compact_text (string text.now))) }
{
    let value = Value::String(String::from_str(alloc, text)?);
    let json = value.to_string(alloc)?;
    cut_text(alloc, json.as_str(), MOST_SHOWN)
}

/// Answers whether a value is a number, but no whole one that 64 bits hold with their sign.
fn is_no_whole_number(value: &Value) -> bool
    ensures { result ≡ is_no_whole_number_in (view value.now) }
{
    value.is_number() && value.as_i64().is_none()
}

/// Gives a value as a finding shows it: its JSON, cut where it is long, or for a list, an object and a number that isn't
/// whole only what it is, such as `a list`.
#[tactic(auto, using(crate::proofs::Plain::no_float))]
fn shown_value(alloc: Global, value: &Value) -> Result<Text, OutOfMemory>
    ensures { IfOk result (λ t. t ≡ shown_value_of (view value.now)) }
{
    if value.is_array() {
        return Text::copy_of(alloc, "a list");
    }
    if value.is_object() {
        return Text::copy_of(alloc, "an object");
    }
    if is_no_whole_number(value) {
        return Text::copy_of(alloc, "a number that isn't whole");
    }
    let json = value.to_string(alloc)?;
    cut_text(alloc, json.as_str(), MOST_SHOWN)
}

/// Gives an unknown key as a finding shows it, in the form `unknown key "size"`.
fn shown_unknown_key(alloc: Global, key: &str) -> Result<Text, OutOfMemory>
    ensures { IfOk result (λ t. t ≡ codes "unknown key "
        ++ cut 200 (compact_text (string key.now))) }
{
    let key = json_text_of(alloc, key)?;
    Ok(Text::new(format!(in alloc; "unknown key {key}")?))
}

/// Gives a pool's name and the value of its slots as a finding shows them, in the form `"gpu": 0`.
fn shown_pool(alloc: Global, name: &str, value: &Value) -> Result<Text, OutOfMemory>
    ensures { IfOk result (λ t. t ≡ cut 200 (compact_text (string name.now)) ++ codes ": "
        ++ shown_value_of (view value.now)) }
{
    let (name, slots) = (json_text_of(alloc, name)?, shown_value(alloc, value)?);
    Ok(Text::new(format!(in alloc; "{name}: {slots}")?))
}

/// Gives the value at a place as a finding shows it; for an unknown key only the key.
pub(crate) fn shown_at(
    alloc: Global,
    place: &DocumentPlace,
    value: &Value,
) -> Result<Text, OutOfMemory>
    ensures { IfOk result (λ t. t ≡ shown_in place.now (view value.now)) }
{
    match place {
        DocumentPlace::OtherKey(key) | DocumentPlace::OtherTaskKey(_, key) => shown_unknown_key(
            alloc,
            key.as_str(),
        ),
        DocumentPlace::Pool(name) => shown_pool(alloc, name.as_str(), value),
        _ => shown_value(alloc, value),
    }
}
