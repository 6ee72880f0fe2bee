//! Tries, read from the lines of a journal.
ghost use Rattle.std.specs.Prelude.{IfOk};
ghost use Rattle.bf_value.specs.Views.{list_of};
ghost use Rattle.bf_journal.specs.Tells.{Tells, TellsLine, TellsText};
ghost use Rattle.bf_journal.specs.inner.Tells.{IsFound, TellsEntry, TellsName, TellsOutcome};

use crate::bare::bare_try_in;
use crate::field::{
    attempt_in, index_in, int_at, optional_value_at, outcome_in, pulled_values_at, text_at,
};
use crate::record::DEEPEST_RECORD;
use crate::run::run_in;
use bf_interval::Runs;
use bf_plan::Plan;
use bf_try::Entry;
use bf_value::{JobName, OutOfMemory, Sequence, Xval, read_text};
use bf_xcom::{Given, Outcome, SharedGiven, SharedValue};
use std::alloc::Global;

/// How many fields a record has. The last, its stamp, isn't read.
const MEMBERS: usize = 9;

/// Reads a try's name from the fields of its record; None where the first four name no run, task, map index and try
/// number.
fn name_in(plan: &Plan, runs: &Runs, fields: &[Xval]) -> Option<JobName>
    ensures { IsFound (TellsName plan.now.dag runs.now fields.now) result }
{
    let run = run_in(runs, text_at(fields, 0)?)?;
    let task = plan.graph().number_of(text_at(fields, 1)?)?;
    let index = index_in(int_at(fields, 2)?)?;
    let attempt = attempt_in(int_at(fields, 3)?)?;
    Some(JobName {
        run,
        task,
        index,
        attempt,
    })
}

/// Reads how a try ended from the fields of its record; None where they hold no outcome.
fn outcome_of(alloc: Global, fields: &[Xval]) -> Result<Option<Outcome>, OutOfMemory>
    ensures { IfOk result (IsFound (TellsOutcome fields.now)) }
{
    let Some(word) = text_at(fields, 4) else {
        return Ok(None);
    };
    match optional_value_at(alloc, fields, 5)? {
        Some(pushed) => Ok(outcome_in(word, SharedValue::new(alloc, pushed)?)),
        None => Ok(None),
    }
}

/// Reads how a try ended and what it was given from the fields of its record; None where they don't say so.
fn entry_in(alloc: Global, fields: &[Xval]) -> Result<Option<Entry>, OutOfMemory>
    ensures { IfOk result (IsFound (TellsEntry fields.now)) }
{
    let Some(outcome) = outcome_of(alloc, fields)? else {
        return Ok(None);
    };
    let Some(item) = optional_value_at(alloc, fields, 6)? else {
        return Ok(None);
    };
    let Some(pulled) = pulled_values_at(alloc, fields, 7)? else {
        return Ok(None);
    };
    let pulled = Sequence::from_vec(pulled);
    let given = SharedGiven::new(alloc, Given { item, pulled })?;
    Ok(Some(Entry { given, outcome }))
}

/// Reads the try that a record's fields are of; None where there aren't nine, or they are of no try of this plan and
/// its runs.
fn read_record_fields(
    alloc: Global,
    plan: &Plan,
    runs: &Runs,
    fields: &[Xval],
) -> Result<Option<(JobName, Entry)>, OutOfMemory>
    ensures { IfOk result (IsFound
        (λ t. Tells plan.now.dag runs.now (list_of fields.now) t.0 t.1)) }
{
    let _dag = plan.dag();
    if fields.len() != MEMBERS {
        return Ok(None);
    }
    let Some(name) = name_in(plan, runs, fields) else {
        return Ok(None);
    };
    match entry_in(alloc, fields)? {
        Some(entry) => Ok(Some((name, entry))),
        None => Ok(None),
    }
}

/// Reads the try that a record's JSON text is of; None where it is of no try of this plan and its runs.
fn read_record_text(
    alloc: Global,
    plan: &Plan,
    runs: &Runs,
    text: &str,
) -> Result<Option<(JobName, Entry)>, OutOfMemory>
    ensures { IfOk result (IsFound (λ t. TellsText plan.now.dag runs.now text.now t.0 t.1)) }
{
    match read_text(alloc, text, DEEPEST_RECORD)? {
        Some(Xval::List(fields)) => read_record_fields(alloc, plan, runs, fields.as_slice()),
        _ => Ok(None),
    }
}

/// Reads the try that a journal's line, without its line feed, is the record of; None where it is of no try of this
/// plan and its runs.
pub(crate) fn read_record_line(
    alloc: Global,
    plan: &Plan,
    runs: &Runs,
    line: &[u8],
) -> Result<Option<(JobName, Entry)>, OutOfMemory>
    ensures { IfOk result (IsFound (λ t. TellsLine plan.now.dag runs.now line.now t.0 t.1)) }
{
    if let Some(tried) = bare_try_in(plan, runs, line) {
        return Ok(Some(tried));
    }
    match std::str::from_utf8(line) {
        Ok(text) => read_record_text(alloc, plan, runs, text),
        Err(_) => Ok(None),
    }
}
