//! What a line says of how an instance ended.
ghost use Rattle.std.specs.Prelude.{◌≡◌, ◌≢◌, IfOk, IfSome, IfNone, codes};
ghost use Rattle.bf_value.specs.Json.{json_of};
ghost use Rattle.bf_report_reader.specs.inner.Reads.{Spells, Finds};
ghost use Rattle.bf_report_reader.specs.Entries.{IsShownValue};
ghost use Rattle.bf_report_reader.specs.inner.Entries.{SaysOutcome};

use bf_try::LONGEST_VALUE;
use bf_value::{LineFault, OutOfMemory, Xval, read_line, text_of};
use bf_xcom::{Outcome, SharedValue};
use std::alloc::Global;

/// Gives the value where `text` is its compact JSON; None where the text spells it otherwise.
pub(crate) fn value_if_spelled(
    alloc: Global,
    text: &[u8],
    value: Xval,
) -> Result<Option<Xval>, OutOfMemory>
    ensures some { IfOk result (λ o.
        IfSome o (λ same. (same ≡ value) × (text.now ≡ json_of value))) }
    ensures none { IfOk result (λ o. IfNone o (text.now ≢ json_of value)) }
{
    if text_of(alloc, &value)?.as_bytes() == text {
        Ok(Some(value))
    } else {
        Ok(None)
    }
}

/// Reads a pushed value from its compact JSON; None for `null`, for more than `LONGEST_VALUE` bytes, and for any other
/// text.
fn value_in(alloc: Global, text: &[u8]) -> Result<Option<Xval>, OutOfMemory>
    ensures some { IfOk result (λ o. IfSome o (Spells IsShownValue json_of text.now)) }
    ensures every { IfOk result (Finds (Spells IsShownValue json_of text.now)) }
{
    if text.len() > LONGEST_VALUE {
        return Ok(None);
    }
    match read_line(alloc, text) {
        Ok(Some(value)) => value_if_spelled(alloc, text, value),
        Ok(None) | Err(LineFault::NotUtf8) => Ok(None),
        Err(LineFault::OutOfMemory) => Err(OutOfMemory),
    }
}

/// Reads how an instance that pushed nothing ended: `success`, `failed` or `skipped`; None for any other word.
fn bare_outcome_in(state: &[u8]) -> Option<Outcome>
    ensures some { IfSome result (SaysOutcome state.now (codes "-")) }
    ensures every { Finds (SaysOutcome state.now (codes "-")) result }
{
    if state == b"success".as_slice() {
        Some(Outcome::Success(SharedValue::nothing()))
    } else if state == b"failed".as_slice() {
        Some(Outcome::Failed)
    } else if state == b"skipped".as_slice() {
        Some(Outcome::Skipped)
    } else {
        None
    }
}

/// Gives the success of an instance that pushed the value in this field; None where the field holds no value.
fn pushing_outcome_in(alloc: Global, value: &[u8]) -> Result<Option<Outcome>, OutOfMemory>
    ensures some { IfOk result (λ o. IfSome o (SaysOutcome (codes "success") value.now)) }
    ensures every { IfOk result (λ o.
        value.now ≢ codes "-" → Finds (SaysOutcome (codes "success") value.now) o) }
{
    match value_in(alloc, value)? {
        Some(value) => {
            let pushed = SharedValue::new(alloc, Some(value))?;
            Ok(Some(Outcome::Success(pushed)))
        }
        None => Ok(None),
    }
}

/// Reads how an instance ended from its state word and the field of what it pushed, `-` for nothing; None where one is
/// malformed, or a value goes with another state than `success`.
pub(crate) fn outcome_in(
    alloc: Global,
    state: &[u8],
    value: &[u8],
) -> Result<Option<Outcome>, OutOfMemory>
    ensures some { IfOk result (λ o. IfSome o (SaysOutcome state.now value.now)) }
    ensures every { IfOk result (Finds (SaysOutcome state.now value.now)) }
{
    if value == b"-".as_slice() {
        return Ok(bare_outcome_in(state));
    }
    if state == b"success".as_slice() {
        return pushing_outcome_in(alloc, value);
    }
    Ok(None)
}
