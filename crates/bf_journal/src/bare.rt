//! Bare records: of tries that were given nothing and pushed nothing. They are read as they are written; any other by `tried`.
ghost use Rattle.std.specs.Prelude.{◌≡◌, ◌++◌, FitsSigned, IfSome, IsUtf8, None, codes};
ghost use Rattle.std.specs.Fmt.{signed_decimal};
ghost use Rattle.std.specs.Int.{w64};
ghost use Rattle.std.specs.List.{list_all};
ghost use Rattle.json.specs.Print.{quoted};
ghost use Rattle.json.specs.Run.{is_plain as is_plain_byte};
ghost use Rattle.bf_xcom.specs.Pulls.{pushed_by};
ghost use Rattle.bf_journal.specs.inner.Bare.{BeginsRecord, IsStamp};
ghost use Rattle.bf_journal.specs.Records.{outcome_word};
ghost use Rattle.bf_journal.specs.Tells.{TellsLine};

use crate::field::{attempt_in, index_in};
use crate::part::{before, behind, split_comma};
use crate::run::run_in;
use bf_interval::Runs;
use bf_plan::Plan;
use bf_try::Entry;
use bf_value::JobName;
use bf_xcom::{Outcome, SharedGiven, SharedValue};
use itoa::Buffer;

/// Answers whether a byte stands for itself inside a JSON text: it isn't a quote, a backslash or a control character.
fn is_plain(byte: u8) -> bool
    ensures { result ≡ is_plain_byte byte }
{
    byte != b'"' && byte != b'\\' && byte >= 32
}

/// Answers whether each of these bytes stands for itself inside a JSON text (`is_plain`).
fn are_plain(bytes: &[u8]) -> bool
    ensures { result ≡ list_all is_plain_byte bytes.now }
{
    bytes.iter().all(|byte| is_plain(*byte))
}

/// Reads a JSON text in which nothing is escaped. None settles nothing: the full reading may still find a text.
#[tactic(auto, using(crate::proofs::Pieces::escape_plain))]
fn text_in(json: &[u8]) -> Option<&str>
    ensures text { IfSome result (λ t. json.now ≡ quoted t.now) }
    ensures utf8 { IfSome result (λ t. IsUtf8 t.now) }
{
    let bytes = before(behind(json, b"\"")?, b"\"")?;
    if !are_plain(bytes) {
        return None;
    }
    std::str::from_utf8(bytes).ok()
}

/// Reads a whole JSON number of 64 bits with a sign. None settles nothing: the full reading may still find one.
fn number_in(json: &[u8]) -> Option<i64>
    ensures { IfSome result (λ n. FitsSigned w64 n × (json.now ≡ signed_decimal n)) }
{
    let Ok(digits) = std::str::from_utf8(json) else {
        return None;
    };
    let Ok(number) = digits.parse::<i64>() else {
        return None;
    };
    if Buffer::new().format(number).as_bytes() != json {
        return None;
    }
    Some(number)
}

/// Reads the try's name from the front of a record's line, and gives it with the bytes that follow. None settles
/// nothing: the full reading may still find a record.
fn name_at_front<'l>(plan: &Plan, runs: &Runs, line: &'l [u8]) -> Option<(JobName, &'l [u8])>
    ensures { IfSome result (λ p. BeginsRecord plan.now.dag runs.now line.entry.now p.0 p.1.now) }
{
    let (run, fields) = split_comma(behind(line, b"[")?)?;
    let (task, fields) = split_comma(fields)?;
    let (index, fields) = split_comma(fields)?;
    let (attempt, fields) = split_comma(fields)?;
    let run = run_in(runs, text_in(run)?)?;
    let task = plan.graph().number_of(text_in(task)?)?;
    let index = index_in(number_in(index)?)?;
    let attempt = attempt_in(number_in(attempt)?)?;
    let name = JobName {
        run,
        task,
        index,
        attempt,
    };
    Some((name, fields))
}

/// Reads, from the bytes after a try's name, how a try ended that was given nothing and pushed nothing, and gives it
/// with the bytes that follow. None settles nothing: the record may be another kind.
fn bare_outcome_in(fields: &[u8]) -> Option<(Outcome, &[u8])>
    ensures pushed { IfSome result (λ p. pushed_by p.0 ≡ None) }
    ensures fields { IfSome result
        (λ p. fields.now ≡ quoted (outcome_word p.0) ++ (codes ",[],[],[]," ++ p.1.now)) }
{
    if let Some(stamp) = behind(fields, b"\"success\",[],[],[],") {
        return Some((Outcome::Success(SharedValue::nothing()), stamp));
    }
    if let Some(stamp) = behind(fields, b"\"failed\",[],[],[],") {
        return Some((Outcome::Failed, stamp));
    }
    let stamp = behind(fields, b"\"skipped\",[],[],[],")?;
    Some((Outcome::Skipped, stamp))
}

/// Reads the stamp that ends a record: start, end and exit code. None settles nothing: the full reading may still find
/// a stamp.
fn stamp_in(text: &[u8]) -> Option<(i64, i64, i64)>
    ensures { IfSome result (λ s. IsStamp text.now s.0 s.1 s.2) }
{
    let numbers = before(behind(text, b"[")?, b"]]")?;
    let (start, numbers) = split_comma(numbers)?;
    let (end, code) = split_comma(numbers)?;
    Some((number_in(start)?, number_in(end)?, number_in(code)?))
}

/// Reads a line that is the bare record of a try. None settles nothing: `read_record_line` then reads the line in full.
pub(crate) fn bare_try_in(plan: &Plan, runs: &Runs, line: &[u8]) -> Option<(JobName, Entry)>
    ensures { IfSome result (λ t. TellsLine plan.now.dag runs.now line.now t.0 t.1) }
{
    let (name, fields) = name_at_front(plan, runs, line)?;
    let (outcome, stamp) = bare_outcome_in(fields)?;
    let _numbers = stamp_in(stamp)?;
    let given = SharedGiven::nothing();
    Some((name, Entry { given, outcome }))
}
