//! Members of JSON objects, by their types.
ghost use Rattle.std.specs.Prelude.{◌≡◌, ◌≤◌, string_bytes, true, IfOk, OnOk};
ghost use Rattle.std.specs.BTreeMap.{keys};
ghost use Rattle.std.specs.List.{list_all};
ghost use Rattle.serde_json.specs.View.{view, items_view, members_view};
ghost use Rattle.bf_read.specs.Gives.{Gives};
ghost use Rattle.bf_plan.specs.Ids.{is_id_in};
ghost use Rattle.bf_read.specs.Fields.{field_with_value_in, graph_member, task_member, text_of, text_or_in, expansion_source_in, id_in, id_of_text_in, is_key_in, has_known_keys_in, refuse_other_object_in, items_in, flag_in, whole_number_in, number_within_of, count_in, refuse_beyond_limit_of, members_in};
ghost use Rattle.bf_read.specs.inner.Fields.{member_of};

use crate::fault::ReadFault;
use crate::keys::{GraphKey, TaskKey, is_graph_key, is_task_key};
use crate::path::Path;
use bf_plan::is_id;
use bf_value::Text;
use serde_json::{Map, Value};
use std::alloc::Global;

/// Which kind of object of a graph file is meant.
#[derive(Clone, Copy, Debug, PartialEq, Eq)]
pub(crate) enum ObjectKind {
    Graph,
    Task,
}

/// A value and where it stands; None where the value is missing.
#[derive(Clone, Copy)]
pub(crate) struct Field<'a> {
    pub(crate) path: Path,
    pub(crate) value: Option<&'a Value>,
}

/// Makes the field of a value that stands at `path`.
pub(crate) fn field_with_value<'a>(path: Path, value: &'a Value) -> Field<'a>
    ensures { member_of result ≡ field_with_value_in path (view value.entry.now) }
{
    Field {
        path,
        value: Some(value),
    }
}

/// The object of the whole file.
#[derive(Clone, Copy)]
pub(crate) struct GraphObject<'a> {
    pub(crate) value: &'a Value,
}

/// The object of a task, which has `n` others before it in the file.
#[derive(Clone, Copy)]
pub(crate) struct TaskObject<'a> {
    pub(crate) n: u32,
    pub(crate) value: &'a Value,
}

impl<'a> GraphObject<'a> {
    /// Gives the field at this key of the graph's object; its value is None where the key is missing.
    pub(crate) fn member_at(self, key: GraphKey) -> Field<'a>
        ensures { member_of result ≡ graph_member (view self.entry.value.now) key }
    {
        Field {
            path: Path::Key(key),
            value: self.value.get(key.name()),
        }
    }
}

impl<'a> TaskObject<'a> {
    /// Gives the field at this key of the task's object; its value is None where the key is missing.
    pub(crate) fn member_at(self, key: TaskKey) -> Field<'a>
        ensures { member_of result
            ≡ task_member self.entry.n (view self.entry.value.now) key }
    {
        Field {
            path: Path::TaskKey(self.n, key),
            value: self.value.get(key.name()),
        }
    }
}

/// Answers whether an object of this kind may have this key.
fn is_key(kind: ObjectKind, name: &str) -> bool
    ensures { result ≡ is_key_in kind name.now }
{
    match kind {
        ObjectKind::Graph => is_graph_key(name),
        ObjectKind::Task => is_task_key(name),
    }
}

/// Answers whether an object of this kind may have all keys of `members`.
fn are_keys(kind: ObjectKind, members: &Map<String, Value>) -> bool
    ensures { result ≡ list_all (λ name. is_key_in kind (string_bytes name)) (keys members.now) }
{
    members.keys().all(|name| is_key(kind, name.as_str()))
}

/// Answers whether an object has only keys that its kind may have.
fn has_known_keys(kind: ObjectKind, members: &Map<String, Value>) -> bool
    ensures { result ≡ has_known_keys_in kind (members_view members.now.entries) }
{
    are_keys(kind, members)
}

/// Checks that a value is an object with only the keys that its kind may have; else `Shape` at `path`.
#[tactic(auto, unfolding(crate::specs::Fields::refuse_other_object_in))]
pub(crate) fn refuse_other_object(
    kind: ObjectKind,
    path: Path,
    value: &Value,
) -> Result<(), ReadFault>
    ensures { Gives (λ u. u) result (refuse_other_object_in kind path (view value.now)) }
{
    match value.as_object() {
        Some(members) if has_known_keys(kind, members) => Ok(()),
        _ => Err(ReadFault::Shape(path)),
    }
}

/// Gives a field's text; `Shape` where the field is missing or no text.
#[tactic(auto, unfolding(crate::specs::Fields::text_of))]
pub(crate) fn text_at<'a>(field: Field<'a>) -> Result<&'a str, ReadFault>
    ensures { Gives (λ s. s.now) result (text_of (member_of field.entry)) }
{
    field
        .value
        .and_then(|value| value.as_str())
        .ok_or(ReadFault::Shape(field.path))
}

/// Gives a field's text, or `default` where the field is missing. `Shape` where it is no text, `OutOfMemory` at want of
/// memory.
#[tactic(auto, unfolding(crate::specs::Fields::text_or_in))]
pub(crate) fn text_or(alloc: Global, default: &str, field: Field) -> Result<Text, ReadFault>
    ensures { Gives (λ s. s) result (text_or_in default.now (member_of field.entry)) }
{
    if field.value.is_none() {
        return Ok(Text::copy_of(alloc, default)?);
    }
    Ok(Text::copy_of(alloc, text_at(field)?)?)
}

/// Gives the id of the task over whose items a task is expanded; None where the field is missing. `Shape` where it is
/// no text, `OutOfMemory` at want of memory.
#[tactic(auto, unfolding(crate::specs::Fields::expansion_source_in))]
pub(crate) fn expansion_source_at(alloc: Global, field: Field) -> Result<Option<Text>, ReadFault>
    ensures { Gives (λ s. s) result (expansion_source_in (member_of field.entry)) }
{
    if field.value.is_none() {
        return Ok(None);
    }
    Ok(Some(Text::copy_of(alloc, text_at(field)?)?))
}

/// Copies a text that is an id. `BadName` at `path` where it is none, `OutOfMemory` at want of memory.
#[tactic(auto, unfolding(crate::specs::Fields::id_of_text_in))]
pub(crate) fn id_of_text(alloc: Global, path: Path, text: &str) -> Result<Text, ReadFault>
    ensures exact { Gives (λ s. s) result (id_of_text_in path text.now) }
    ensures same { IfOk result (λ s. s ≡ text.now) }
    ensures id { IfOk result (λ s. is_id_in s ≡ true) }
{
    if !is_id(text) {
        return Err(ReadFault::BadName(path));
    }
    Ok(Text::copy_of(alloc, text)?)
}

/// Gives a field's id. `Shape` where the field is missing or no text, `BadName` where it is no id, `OutOfMemory` at
/// want of memory.
#[tactic(auto, unfolding(crate::specs::Fields::id_in))]
pub(crate) fn id_at(alloc: Global, field: Field) -> Result<Text, ReadFault>
    ensures exact { Gives (λ s. s) result (id_in (member_of field.entry)) }
    ensures id { IfOk result (λ s. is_id_in s ≡ true) }
{
    let text = text_at(field)?;
    id_of_text(alloc, field.path, text)
}

/// Gives a field's truth value, false where the field is missing; `Shape` where it is no truth value.
#[tactic(auto, unfolding(crate::specs::Fields::flag_in))]
pub(crate) fn flag_at(field: Field) -> Result<bool, ReadFault>
    ensures { Gives (λ b. b) result (flag_in (member_of field.entry)) }
{
    match field.value {
        None => Ok(false),
        Some(value) => value.as_bool().ok_or(ReadFault::Shape(field.path)),
    }
}

/// Gives a field's whole number; `Shape` where the field is missing, or no whole number of 64 bits.
#[tactic(auto, unfolding(crate::specs::Fields::whole_number_in))]
pub(crate) fn whole_number_at(field: Field) -> Result<i64, ReadFault>
    ensures { Gives (λ z. z) result (whole_number_in (member_of field.entry)) }
{
    field
        .value
        .and_then(|value| value.as_i64())
        .ok_or(ReadFault::Shape(field.path))
}

/// Gives `number` where it lies from `least` to `most`, both included; else `LimitPassed` at `path`.
#[tactic(auto, unfolding(crate::specs::Fields::number_within_of))]
pub(crate) fn number_within(
    path: Path,
    least: u32,
    most: u32,
    number: i64,
) -> Result<u32, ReadFault>
    ensures exact { Gives (λ n. n) result (number_within_of path least most number) }
    ensures least { IfOk result (λ n. least ≤ n) }
    ensures most { IfOk result (λ n. n ≤ most) }
{
    if number < i64::from(least) || i64::from(most) < number {
        return Err(ReadFault::LimitPassed(path));
    }
    Ok(number as u32)
}

/// Gives a field's whole number, or `default` where the field is missing. `Shape` where it is no whole number,
/// `LimitPassed` where it doesn't lie from `least` to `most`, both included.
#[tactic(auto, unfolding(crate::specs::Fields::count_in))]
pub(crate) fn count_at(default: u32, least: u32, most: u32, field: Field) -> Result<u32, ReadFault>
    ensures exact { Gives (λ n. n) result (count_in default least most (member_of field.entry)) }
    ensures least { least ≤ default → IfOk result (λ n. least ≤ n) }
    ensures most { default ≤ most → IfOk result (λ n. n ≤ most) }
{
    if field.value.is_none() {
        return Ok(default);
    }
    let number = whole_number_at(field)?;
    number_within(field.path, least, most, number)
}

/// Gives `LimitPassed` at `path` unless `holds`, which says whether a limit is kept.
#[tactic(auto, unfolding(crate::specs::Fields::refuse_beyond_limit_of))]
pub(crate) fn refuse_beyond_limit(path: Path, holds: bool) -> Result<(), ReadFault>
    ensures exact { Gives (λ u. u) result (refuse_beyond_limit_of path holds) }
    ensures holds { OnOk result (holds ≡ true) }
{
    if !holds {
        return Err(ReadFault::LimitPassed(path));
    }
    Ok(())
}

/// Gives the items of a field that is a list; `Shape` where the field is missing or no list.
#[tactic(auto, unfolding(crate::specs::Fields::items_in))]
pub(crate) fn items_at<'a>(field: Field<'a>) -> Result<&'a [Value], ReadFault>
    ensures { Gives (λ items. items_view items.now) result (items_in (member_of field.entry)) }
{
    field
        .value
        .and_then(|value| value.as_array())
        .map(|items| items.as_slice())
        .ok_or(ReadFault::Shape(field.path))
}

/// Gives the members of a field that is an object; `Shape` where the field is missing or no object.
#[tactic(auto, unfolding(crate::specs::Fields::members_in))]
pub(crate) fn members_at<'a>(field: Field<'a>) -> Result<&'a Map<String, Value>, ReadFault>
    ensures { Gives (λ ms. members_view ms.now.entries) result
        (members_in (member_of field.entry)) }
{
    field
        .value
        .and_then(|value| value.as_object())
        .ok_or(ReadFault::Shape(field.path))
}
