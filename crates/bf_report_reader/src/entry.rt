//! What a line says of a task, behind the task's id.
ghost use Rattle.std.specs.Prelude.{◌≡◌, ℕ, List, IfOk, IfSome, IfNone, decimal};
ghost use Rattle.bf_report_reader.specs.inner.Reads.{Spells, Finds, AreFields};
ghost use Rattle.bf_report_reader.specs.Beginning.{never_report};
ghost use Rattle.bf_report_reader.specs.Entries.{IsTries};
ghost use Rattle.bf_report_reader.specs.inner.Entries.{IsIndex, index_text, IsEntry, entry_text, never_word, SaysNever, SaysResult};

use crate::field::{number_in, split_field};
use crate::value::outcome_in;
use bf_read::MOST_RETRIES;
use bf_report::TaskReport;
use bf_try::MOST_ITEMS;
use bf_value::OutOfMemory;
use bf_xcom::TaskResult;
use std::alloc::Global;

/// Why a task has no try.
#[derive(Clone, Copy, Debug, PartialEq, Eq)]
pub(crate) enum Untried {
    NoStatus,
    Skipped,
    UpstreamFailed,
}

impl Untried {
    /// Gives the report of a task that has no try for this reason.
    pub(crate) fn report(self) -> TaskReport
        ensures { result ≡ never_report self }
    {
        match self {
            Untried::NoStatus => TaskReport::NoStatus,
            Untried::Skipped => TaskReport::Skipped,
            Untried::UpstreamFailed => TaskReport::UpstreamFailed,
        }
    }
}

/// What a task's line says: why the task has no try, or an instance's map index, None for a task that isn't expanded,
/// with how its last try ended.
#[derive(Drop)]
pub(crate) enum Entry {
    Never(Untried),
    Tried(Option<u32>, TaskResult),
}

/// The most tries that an instance may have.
const MOST_TRIES: u32 = MOST_RETRIES + 1;

/// The four fields behind a task's id: map index, state, tries and value.
type Fields<'a> = (&'a [u8], &'a [u8], &'a [u8], &'a [u8]);

/// Splits `text`, a task's line after its id, into map index, state, tries and value; None where it has fewer than
/// three spaces. The value may have spaces.
fn fields_of(text: &[u8]) -> Option<Fields<'_>>
    ensures some { IfSome result (λ f. AreFields text.now f.0.now f.1.now f.2.now f.3.now) }
    ensures none { IfNone result ((index state tries value : List ℕ) →
        ¬ (AreFields text.now index state tries value)) }
{
    let (index, rest) = split_field(text)?;
    let (state, rest) = split_field(rest)?;
    let (tries, value) = split_field(rest)?;
    Some((index, state, tries, value))
}

/// Reads a map index: `Some(None)` for `-1`, which stands for a task that isn't expanded. None where the text is no
/// plain decimal number below `MOST_ITEMS`.
fn index_in(text: &[u8]) -> Option<Option<u32>>
    ensures some { IfSome result (Spells IsIndex index_text text.now) }
    ensures every { Finds (Spells IsIndex index_text text.now) result }
{
    if text == b"-1".as_slice() {
        return Some(None);
    }
    let index = number_in(text)?;
    if index as usize >= MOST_ITEMS {
        return None;
    }
    Some(Some(index))
}

/// Reads the state word of a task without a try: `no_status`, `skipped` or `upstream_failed`; None for any other word.
fn untried_state_in(state: &[u8]) -> Option<Untried>
    ensures some { IfSome result (λ u. state.now ≡ never_word u) }
    ensures every { Finds (λ u. state.now ≡ never_word u) result }
{
    if state == b"no_status".as_slice() {
        Some(Untried::NoStatus)
    } else if state == b"skipped".as_slice() {
        Some(Untried::Skipped)
    } else if state == b"upstream_failed".as_slice() {
        Some(Untried::UpstreamFailed)
    } else {
        None
    }
}

/// Reads why a task has no try from the four fields of its line, which must be `-1`, the state word, `0` and `-`; None
/// for any others.
fn untried_in(index: &[u8], state: &[u8], tries: &[u8], value: &[u8]) -> Option<Untried>
    ensures some { IfSome result (SaysNever index.now state.now tries.now value.now) }
    ensures every { Finds (SaysNever index.now state.now tries.now value.now) result }
{
    if index == b"-1".as_slice() && tries == b"0".as_slice() && value == b"-".as_slice() {
        return untried_state_in(state);
    }
    None
}

/// Reads how many tries an instance had, from 1 to `MOST_TRIES`; None for any other text.
fn tries_in(text: &[u8]) -> Option<u32>
    ensures some { IfSome result (Spells IsTries decimal text.now) }
    ensures every { Finds (Spells IsTries decimal text.now) result }
{
    let tries = number_in(text)?;
    if tries == 0 || tries > MOST_TRIES {
        return None;
    }
    Some(tries)
}

/// Reads how an instance ended from the last three fields of its line; None where one of them is malformed, or the
/// state doesn't go with the value.
fn result_in(
    alloc: Global,
    state: &[u8],
    tries: &[u8],
    value: &[u8],
) -> Result<Option<TaskResult>, OutOfMemory>
    ensures some { IfOk result (λ o. IfSome o (SaysResult state.now tries.now value.now)) }
    ensures every { IfOk result (Finds (SaysResult state.now tries.now value.now)) }
{
    let Some(tries) = tries_in(tries) else {
        return Ok(None);
    };
    match outcome_in(alloc, state, value)? {
        Some(outcome) => Ok(Some(TaskResult { outcome, tries })),
        None => Ok(None),
    }
}

/// Reads `text`, a task's line after its id; None where it isn't spelled as reports spell it.
pub(crate) fn entry_in(alloc: Global, text: &[u8]) -> Result<Option<Entry>, OutOfMemory>
    ensures some { IfOk result (λ o. IfSome o (Spells IsEntry entry_text text.now)) }
    ensures every { IfOk result (Finds (Spells IsEntry entry_text text.now)) }
{
    let Some((index, state, tries, value)) = fields_of(text) else {
        return Ok(None);
    };
    if let Some(untried) = untried_in(index, state, tries, value) {
        return Ok(Some(Entry::Never(untried)));
    }
    let Some(index) = index_in(index) else {
        return Ok(None);
    };
    match result_in(alloc, state, tries, value)? {
        Some(instance) => Ok(Some(Entry::Tried(index, instance))),
        None => Ok(None),
    }
}
