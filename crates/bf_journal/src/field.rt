//! The fields of a record.
ghost use Rattle.std.specs.Prelude.{◌≡◌, ◌<◌, ◌^◌, FitsSigned, IfOk, Some, option_map, pos, map, slice_get};
ghost use Rattle.std.specs.Int.{w32};
ghost use Rattle.bf_value.specs.declared.xval.Xval.TheVariants.{Int, Text};
ghost use Rattle.bf_value.specs.Views.{list_of};
ghost use Rattle.bf_xcom.specs.Pulls.{pushed_by};
ghost use Rattle.bf_journal.specs.Records.{optional_value_of, outcome_word};
ghost use Rattle.bf_journal.specs.inner.Tells.{IsFound};

use bf_value::{OutOfMemory, Xval};
use bf_xcom::{Outcome, SharedValue};
use std::alloc::Global;

/// Gives the text in the field at this index, from 0; None where the field is no text, or missing.
pub(crate) fn text_at(fields: &[Xval], at: usize) -> Option<&str>
    ensures { IsFound (λ text. slice_get fields.now at ≡ Some (Text text))
        (option_map (λ t. t.now) result) }
{
    match fields.get(at) {
        Some(Xval::Text(text)) => Some(text.as_str()),
        _ => None,
    }
}

/// Gives the whole number in the field at this index, from 0; None where the field is no such number, or missing.
pub(crate) fn int_at(fields: &[Xval], at: usize) -> Option<i64>
    ensures { IsFound (λ n. slice_get fields.now at ≡ Some (Int n)) result }
{
    match fields.get(at) {
        Some(Xval::Int(n)) => Some(*n),
        _ => None,
    }
}

/// Converts a number to a map index; None where it doesn't fit 32 bits with a sign.
pub(crate) fn index_in(number: i64) -> Option<i32>
    ensures { IsFound (λ index. FitsSigned w32 index × (number ≡ index)) result }
{
    i32::try_from(number).ok()
}

/// Converts a number to that of a try; None where it is negative or doesn't fit 32 bits.
pub(crate) fn attempt_in(number: i64) -> Option<u32>
    ensures { IsFound (λ attempt. (attempt < 2 ^ 32) × (number ≡ pos attempt)) result }
{
    u32::try_from(number).ok()
}

/// Reads an optional value: `Some(None)` for the empty list, the value for a list of one; None for anything else.
fn optional_value_in(alloc: Global, value: &Xval) -> Result<Option<Option<Xval>>, OutOfMemory>
    ensures { IfOk result (IsFound (λ x. value.now ≡ optional_value_of x)) }
{
    let Xval::List(values) = value else {
        return Ok(None);
    };
    match values.as_slice() {
        [] => Ok(Some(None)),
        [value] => Ok(Some(Some(value.copy(alloc)?))),
        [_, _, ..] => Ok(None),
    }
}

/// Reads the optional value in the field at this index, from 0, as `optional_value_in` does; None also where there is
/// no such field.
pub(crate) fn optional_value_at(
    alloc: Global,
    fields: &[Xval],
    at: usize,
) -> Result<Option<Option<Xval>>, OutOfMemory>
    ensures { IfOk result (IsFound (λ x. slice_get fields.now at ≡ Some (optional_value_of x))) }
{
    match fields.get(at) {
        Some(value) => optional_value_in(alloc, value),
        None => Ok(None),
    }
}

/// Reads each of `values` as an optional pulled value, a list of one or the empty list for nothing; None where one of
/// them is neither.
fn pulled_values_of(alloc: Global, values: &[Xval]) -> Result<Option<Vec<SharedValue>>, OutOfMemory>
    ensures { IfOk result (λ o. IsFound (λ all. values.now ≡ map optional_value_of all)
        (option_map (λ v. v.items) o)) }
{
    let mut all = Vec::with_capacity(alloc, values.len())?;
    for value in values {
        match optional_value_in(alloc, value)? {
            Some(one) => all.push(SharedValue::new(alloc, one)?)?,
            None => return Ok(None),
        }
    }
    Ok(Some(all))
}

/// Reads a list of optional pulled values, each a list of one or the empty list for nothing; None for anything else.
fn pulled_values_in(alloc: Global, value: &Xval) -> Result<Option<Vec<SharedValue>>, OutOfMemory>
    ensures { IfOk result (λ o. IsFound (λ all. value.now ≡ list_of (map optional_value_of all))
        (option_map (λ v. v.items) o)) }
{
    let Xval::List(values) = value else {
        return Ok(None);
    };
    pulled_values_of(alloc, values.as_slice())
}

/// Reads the list of optional pulled values in the field at this index, from 0, as `pulled_values_in` does; None also
/// where there is no such field.
pub(crate) fn pulled_values_at(
    alloc: Global,
    fields: &[Xval],
    at: usize,
) -> Result<Option<Vec<SharedValue>>, OutOfMemory>
    ensures { IfOk result (λ o. IsFound
        (λ all. slice_get fields.now at ≡ Some (list_of (map optional_value_of all)))
        (option_map (λ v. v.items) o)) }
{
    match fields.get(at) {
        Some(value) => pulled_values_in(alloc, value),
        None => Ok(None),
    }
}

/// Makes an outcome from its word and from what the try pushed; None for an unknown word, and where a try that didn't
/// succeed pushed a value.
pub(crate) fn outcome_in(word: &str, pushed: SharedValue) -> Option<Outcome>
    ensures { IsFound (λ o. (word.now ≡ outcome_word o) × (pushed ≡ pushed_by o)) result }
{
    if word == "success" {
        return Some(Outcome::Success(pushed));
    }
    match pushed.get() {
        Some(_) => None,
        None if word == "failed" => Some(Outcome::Failed),
        None if word == "skipped" => Some(Outcome::Skipped),
        None => None,
    }
}
