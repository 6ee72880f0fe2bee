//! Reading tables of answers.
ghost use Rattle.std.specs.Prelude.{◌≡◌, ◌<◌, ◌^◌, length, option_map, string_bytes, Some, None, if◌then◌else◌};
ghost use Rattle.std.specs.BTreeMap.{keys};
ghost use Rattle.std.specs.List.{list_all};
ghost use Rattle.std.specs.Option.{ForSome};
ghost use Rattle.serde_json.specs.Events.{items_len};
ghost use Rattle.serde_json.specs.Find.{as_array, as_str};
ghost use Rattle.serde_json.specs.View.{view, items_view, members_view};
ghost use Rattle.bf_table.specs.Tables.{is_key_in, has_known_keys_in, is_entry_in, if_there, number_of, date_in, status_in, line_in, entry_of, entries_of, entries_from, json_of_file, table_in, table_with};
ghost use Rattle.bf_table.specs.inner.Tables.{Gives, Reads};

use crate::table::{TableEntry, TableFault};
use bf_moment::is_long_moment;
use bf_try::copy_of_bytes;
use bf_value::{Sequence, Text, last_line};
use serde_json::{Map, Value};
use std::alloc::Global;

/// The most bytes that a table file may have.
pub const LONGEST_TABLE: usize = 8_388_608;

/// Answers whether an entry of a table may have this key.
fn is_key(name: &str) -> bool
    ensures { result ≡ is_key_in name.now }
{
    matches!(name, "task" | "index" | "run" | "try" | "status" | "out")
}

/// Answers whether an entry of a table may have all these keys.
fn are_all_keys_known(members: &Map<String, Value>) -> bool
    ensures { result ≡ list_all (λ name. is_key_in (string_bytes name)) (keys members.now) }
{
    members.keys().all(|name| is_key(name.as_str()))
}

/// The same, by the object's members as contracts of JSON see them.
fn has_known_keys(members: &Map<String, Value>) -> bool
    ensures { result ≡ has_known_keys_in (members_view members.now.entries) }
{
    are_all_keys_known(members)
}

/// Answers whether a value is an object that has only keys that an entry of a table may have.
fn is_entry(value: &Value) -> bool
    ensures { result ≡ is_entry_in (view value.now) }
{
    match value.as_object() {
        Some(members) => has_known_keys(members),
        None => false,
    }
}

/// Checks that a value is an object with only the keys of an entry; else `BadTable`, for the entry `number`.
fn refuse_other_object(number: u32, value: &Value) -> Result<(), TableFault>
    ensures { Reads (Some number) (λ u. u) result
        (if is_entry_in (view value.now) then Some tt else None) }
{
    if is_entry(value) {
        Ok(())
    } else {
        Err(TableFault::BadTable(Some(number)))
    }
}

/// Gives the text that a value is; `BadTable`, for the entry `number`, where it is none.
fn text_at<'a>(number: u32, value: &'a Value) -> Result<&'a str, TableFault>
    ensures { Reads (Some number) (λ t. t.now) result (as_str (view value.entry.now)) }
{
    value.as_str().ok_or(TableFault::BadTable(Some(number)))
}

/// Gives the whole number that a value is; `BadTable`, for the entry `number`, where it is none.
fn number_at(number: u32, value: &Value) -> Result<i64, TableFault>
    ensures { Reads (Some number) (λ n. n) result (number_of (view value.now)) }
{
    value.as_i64().ok_or(TableFault::BadTable(Some(number)))
}

/// Gives the task id that an entry names; None where the key is missing. `BadTable`, for the entry `number`, where the
/// value is no text; `OutOfMemory` at want of memory.
fn task_if_named(
    alloc: Global,
    number: u32,
    value: Option<&Value>,
) -> Result<Option<Text>, TableFault>
    ensures { Reads (Some number) (λ t. t) result
        (if_there as_str (option_map (λ v. view v.now) value.entry)) }
{
    let Some(value) = value else {
        return Ok(None);
    };
    let text = text_at(number, value)?;
    Ok(Some(Text::copy_of(alloc, text)?))
}

/// Gives the map index or the try number that an entry names; None where the key is missing. `BadTable`, for the entry
/// `number`, where the value is no whole number.
fn number_if_named(number: u32, value: Option<&Value>) -> Result<Option<i64>, TableFault>
    ensures { Reads (Some number) (λ n. n) result
        (if_there number_of (option_map (λ v. view v.now) value.entry)) }
{
    let Some(value) = value else {
        return Ok(None);
    };
    Ok(Some(number_at(number, value)?))
}

/// Gives the moment that a value spells, in the form `2024-01-31T06:05:09Z`; `BadTable`, for the entry `number`, for
/// any other value.
fn date_at<'a>(number: u32, value: &'a Value) -> Result<&'a str, TableFault>
    ensures { Reads (Some number) (λ t. t.now) result (date_in (view value.entry.now)) }
{
    let text = text_at(number, value)?;
    if is_long_moment(text) {
        Ok(text)
    } else {
        Err(TableFault::BadTable(Some(number)))
    }
}

/// Gives the moment of the run that an entry names; None where the key is missing. `BadTable`, for the entry `number`,
/// where the value is no moment; `OutOfMemory` at want of memory.
fn run_if_named(
    alloc: Global,
    number: u32,
    value: Option<&Value>,
) -> Result<Option<Text>, TableFault>
    ensures { Reads (Some number) (λ t. t) result
        (if_there date_in (option_map (λ v. view v.now) value.entry)) }
{
    let Some(value) = value else {
        return Ok(None);
    };
    let date = date_at(number, value)?;
    Ok(Some(Text::copy_of(alloc, date)?))
}

/// Gives the last line of an entry's output; empty where the key is missing. `BadTable`, for the entry `number`, where
/// the value is no text; `OutOfMemory` at want of memory.
fn line_at(alloc: Global, number: u32, value: Option<&Value>) -> Result<Sequence<u8>, TableFault>
    ensures { Reads (Some number) (λ line. line) result
        (line_in (option_map (λ v. view v.now) value.entry)) }
{
    let Some(value) = value else {
        return Ok(Sequence::new(alloc));
    };
    let out = text_at(number, value)?;
    Ok(copy_of_bytes(alloc, last_line(out.as_bytes()))?)
}

/// Gives an entry's exit status; 0 where the key is missing. `BadTable`, for the entry `number`, where the value is no
/// whole number from 0 to 255.
fn status_at(number: u32, value: Option<&Value>) -> Result<u8, TableFault>
    ensures { Reads (Some number) (λ n. n) result
        (status_in (option_map (λ v. view v.now) value.entry)) }
{
    let Some(value) = value else {
        return Ok(0);
    };
    match value.as_i64() {
        Some(status @ 0..=255) => Ok(status as u8),
        _ => Err(TableFault::BadTable(Some(number))),
    }
}

/// Reads one entry of a table; `number` is its place, from 0. `BadTable(number)` where it is bad, `OutOfMemory` at want
/// of memory.
#[tactic(auto, unfolding(crate::specs::Tables::entry_of))]
fn entry_at(alloc: Global, number: u32, value: &Value) -> Result<TableEntry, TableFault>
    ensures { Reads (Some number) (λ e. e) result (entry_of (view value.now)) }
{
    refuse_other_object(number, value)?;
    let task = task_if_named(alloc, number, value.get("task"))?;
    let index = number_if_named(number, value.get("index"))?;
    let run = run_if_named(alloc, number, value.get("run"))?;
    let attempt = number_if_named(number, value.get("try"))?;
    let status = status_at(number, value.get("status"))?;
    let line = line_at(alloc, number, value.get("out"))?;
    Ok(TableEntry {
        task,
        index,
        run,
        attempt,
        status,
        line,
    })
}

/// Reads the entries of a table, in order; `BadTable` for the first bad one, `OutOfMemory` at want of memory.
fn entries_in(alloc: Global, items: &[Value]) -> Result<Vec<TableEntry>, TableFault>
    requires { length items.now < 2 ^ 32 }
    ensures { Gives (λ v. v.items) result (entries_from 0 (entries_of (items_view items.now))) }
{
    let mut entries = Vec::new(alloc);
    for (number, item) in items.iter().enumerate() {
        entries.push(entry_at(alloc, number as u32, item)?)?;
    }
    Ok(entries)
}

/// Parses the bytes of a table file; `BadTable(None)` where they are more than `LONGEST_TABLE` or no JSON,
/// `OutOfMemory` at want of memory.
#[tactic(auto, unfolding(crate::specs::Tables::json_of_file))]
fn json_of(alloc: Global, bytes: &[u8]) -> Result<Value, TableFault>
    ensures { Reads None (λ v. view v) result (json_of_file bytes.now) }
{
    if bytes.len() > LONGEST_TABLE {
        return Err(TableFault::BadTable(None));
    }
    match Value::from_slice(alloc, bytes) {
        Ok(json) => Ok(json),
        Err(e) => {
            if e.is_memory() {
                return Err(TableFault::OutOfMemory);
            }
            Err(TableFault::BadTable(None))
        }
    }
}

/// Reads the entries of a table, in order; `BadTable(None)` where the value is no list, `BadTable` for the first bad
/// entry, `OutOfMemory` at want of memory.
fn entries_of_json(alloc: Global, json: &Value) -> Result<Vec<TableEntry>, TableFault>
    requires { ForSome (as_array (view json.now)) (λ items. items_len items < 2 ^ 32) }
    ensures { Gives (λ v. v.items) result (table_with (as_array (view json.now))) }
{
    match json.as_array() {
        Some(items) => entries_in(alloc, items.as_slice()),
        None => Err(TableFault::BadTable(None)),
    }
}

/// Reads the entries of a table from its file's bytes, in order; `BadTable(None)` where these are too many or no JSON
/// list, `BadTable` for the first bad entry, `OutOfMemory` at want of memory.
#[tactic(auto, unfolding(crate::specs::Tables::table_in))]
pub(crate) fn entries_of_file(alloc: Global, bytes: &[u8]) -> Result<Vec<TableEntry>, TableFault>
    ensures { Gives (λ v. v.items) result (table_in bytes.now) }
{
    let json = json_of(alloc, bytes)?;
    entries_of_json(alloc, &json)
}
