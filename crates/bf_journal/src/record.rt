//! Tries as records.
ghost use Rattle.std.specs.Prelude.{◌≡◌, ◌<◌, ◌≤◌, length, IfOk, IfSome, IfNone, map, option_copied, string_bytes};
ghost use Rattle.bf_value.specs.Plain.{plain_depth};
ghost use Rattle.bf_value.specs.Views.{plain_of};
ghost use Rattle.bf_interval.specs.Intervals.{IsShownInterval};
ghost use Rattle.bf_journal.specs.Records.{exit_code, HasNoRecord, IsLineOf, IsRecord, optional_value_of, outcome_word, record_at, stamp_value};

use crate::run::interval_of_run;
use crate::stamp::Stamp;
use crate::value::{moment_value, text_value};
use bf_interval::{Interval, Runs};
use bf_plan::Plan;
use bf_try::{Done, Exit};
use bf_value::{OutOfMemory, Values, Xval, text_of};
use bf_xcom::{Outcome, SharedValue};
use std::alloc::Global;

/// How deep a record's lists may nest, which is as deep as JSON can be read back.
pub(crate) const DEEPEST_RECORD: usize = 127;

/// Makes the field of an optional value: a list of the value, or the empty list for None.
fn optional_value(alloc: Global, value: Option<&Xval>) -> Result<Xval, OutOfMemory>
    ensures { IfOk result (λ v. v ≡ optional_value_of (option_copied value.entry)) }
{
    let mut items = Vec::new(alloc);
    match value {
        Some(value) => {
            items.push(value.copy(alloc)?)?;
            Ok(Xval::List(Values::new(items)))
        }
        None => Ok(Xval::List(Values::new(items))),
    }
}

/// Makes the fields of pulled values: for each a list of the value, or the empty list for nothing.
fn optional_values(alloc: Global, values: &[SharedValue]) -> Result<Vec<Xval>, OutOfMemory>
    ensures { IfOk result (λ all. all.items ≡ map optional_value_of values.now) }
{
    let mut all = Vec::with_capacity(alloc, values.len())?;
    for value in values {
        all.push(optional_value(alloc, value.get())?)?;
    }
    Ok(all)
}

/// Gives a record's word for an outcome.
fn word_of(outcome: &Outcome) -> &'static str
    ensures { result.now ≡ outcome_word outcome.now }
{
    match outcome {
        Outcome::Success(_) => "success",
        Outcome::Failed => "failed",
        Outcome::Skipped => "skipped",
    }
}

/// Gives the exit status as a shell shows it: the exit code; 128 and the signal's number, or 128 where that isn't
/// known; and -1 for a program that wasn't started.
fn code_of(exit: Exit, signal: Option<i32>) -> i64
    ensures { result ≡ exit_code exit signal }
{
    match (exit, signal) {
        (Exit::Code(code), _) => i64::from(code),
        (Exit::Signal, Some(number)) => 128 + i64::from(number),
        (Exit::Signal, None) => 128,
        (Exit::NotStarted, _) => -1,
    }
}

/// Makes a record's stamp: when the try started and ended, in milliseconds since 1970, and its exit code (`code_of`).
fn stamp_of(alloc: Global, stamp: Stamp, exit: Exit) -> Result<Xval, OutOfMemory>
    ensures { IfOk result (λ v. v ≡ stamp_value stamp exit) }
{
    let start = Xval::Int(stamp.start);
    let end = Xval::Int(stamp.end);
    let code = Xval::Int(code_of(exit, stamp.signal));
    let numbers = vec![in alloc; start, end, code]?;
    Ok(Xval::List(Values::new(numbers)))
}

/// Makes the record, as a value, of the answered try `done`, which has this outcome; `run` is the data interval of its
/// run.
fn value_of_record(
    alloc: Global,
    plan: &Plan,
    run: &Interval,
    done: &Done,
    outcome: &Outcome,
    stamp: Stamp,
) -> Result<Xval, OutOfMemory>
    requires task { done.now.name.task < length plan.now.dag.tasks }
    requires shown { IsShownInterval run.now }
    ensures { IfOk result (λ v. v ≡ record_at plan.now.dag run.now done.now outcome.now stamp) }
{
    let name = done.name();
    let given = done.given();
    let run = moment_value(alloc, run.start)?;
    let task = text_value(alloc, plan.dag().task(name.task).id.as_str())?;
    let index = Xval::Int(i64::from(name.index));
    let attempt = Xval::Int(i64::from(name.attempt));
    let word = text_value(alloc, word_of(outcome))?;
    let pushed = optional_value(alloc, outcome.pushed())?;
    let item = optional_value(alloc, given.item.as_ref())?;
    let pulled = Xval::List(Values::new(optional_values(alloc, given.pulled.as_slice())?));
    let stamp = stamp_of(alloc, stamp, done.raw().exit)?;
    let fields = vec![in alloc;
        run, task, index, attempt, word, pushed, item, pulled, stamp,
    ]?;
    Ok(Xval::List(Values::new(fields)))
}

/// Makes a journal's line of a value, with its line feed; None where its lists nest deeper than `DEEPEST_RECORD`, so
/// that it couldn't be read back.
fn line_of(alloc: Global, value: &Xval) -> Result<Option<String>, OutOfMemory>
    ensures some { IfOk result (λ o. IfSome o (λ line. IsLineOf value.now (string_bytes line))) }
    ensures none { IfOk result (λ o. IfNone o (¬ (plain_depth (plain_of value.now) ≤ 127))) }
{
    value.value_is_sound();
    if !value.is_nested_within(DEEPEST_RECORD) {
        return Ok(None);
    }
    let mut line = text_of(alloc, value)?;
    line.push_str("\n")?;
    Ok(Some(line))
}

/// Makes the line of the record, with its line feed, of the answered try `done`, which has this outcome; `run` is the
/// data interval of its run. None where its lists nest too deep to be read back.
fn record_line_of(
    alloc: Global,
    plan: &Plan,
    run: &Interval,
    done: &Done,
    outcome: &Outcome,
    stamp: Stamp,
) -> Result<Option<String>, OutOfMemory>
    requires task { done.now.name.task < length plan.now.dag.tasks }
    requires shown { IsShownInterval run.now }
    ensures some { IfOk result (λ o. IfSome o (λ line.
        IsLineOf (record_at plan.now.dag run.now done.now outcome.now stamp) (string_bytes line))) }
    ensures none { IfOk result (λ o. IfNone o
        (¬ (plain_depth (plain_of (record_at plan.now.dag run.now done.now outcome.now stamp)) ≤
        127))) }
{
    let value = value_of_record(alloc, plan, run, done, outcome, stamp)?;
    line_of(alloc, &value)
}

/// Makes the line of the record, with its line feed, of the answered try `done`, which has this outcome. None where the
/// plan has no such task or run, or lists nest too deep to be read back, which those of programs never do.
pub fn record_of(
    alloc: Global,
    plan: &Plan,
    runs: &Runs,
    done: &Done,
    outcome: &Outcome,
    stamp: Stamp,
) -> Result<Option<String>, OutOfMemory>
    ensures some { IfOk result (λ o. IfSome o (λ line.
        IsRecord plan.now.dag runs.now done.now outcome.now stamp (string_bytes line))) }
    ensures none { IfOk result (λ o. IfNone o
        (HasNoRecord plan.now.dag runs.now done.now outcome.now stamp)) }
{
    let name = done.name();
    if name.task as usize >= plan.dag().tasks.len() {
        return Ok(None);
    }
    match interval_of_run(runs, name.run) {
        Some(run) => record_line_of(alloc, plan, run, done, outcome, stamp),
        None => Ok(None),
    }
}
