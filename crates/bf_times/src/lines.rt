//! The records of a journal as lines of its times.
ghost use Rattle.std.specs.Prelude.{◌≡◌, ◌++◌, IfOk, OnOk, map, slice_get, string_bytes};
ghost use Rattle.std.specs.List.{flat_map};
ghost use Rattle.std.specs.Str.Lines.{lines as lines_in};
ghost use Rattle.bf_times.specs.Times.{line_times, numbers_of, record_times, three_numbers, word_before};

use bf_value::{OutOfMemory, Xval, read_text};
use std::alloc::{AllocError, Global};

/// How deep the lists of a record may nest: as deep as JSON is read.
const DEEPEST_RECORD: usize = 127;

/// The place of the times among the members of a record, from 0.
const TIMES: usize = 8;

/// How many members at the front of a record name its try: run, task, map index and number.
const NAME: usize = 4;

/// Adds a value and a space after it: a text as it is, a whole number in decimal, and just the space for any other
/// value.
fn push_word(text: &mut String, value: &Xval) -> Result<(), OutOfMemory>
    ensures { OnOk result (string_bytes text.new
        ≡ string_bytes text.old ++ word_before value.now) }
{
    match value {
        Xval::Text(word) => text.push_str(word.as_str())?,
        Xval::Int(number) => write!(text, "{number}")?,
        _ => (),
    }
    text.push_str(" ")?;
    Ok(())
}

/// Adds these values, each followed by a space, as `push_word` does.
fn push_words(text: &mut String, values: &[Xval]) -> Result<(), OutOfMemory>
    ensures { OnOk result (string_bytes text.new
        ≡ string_bytes text.old ++ flat_map word_before values.now) }
{
    for value in values {
        push_word(text, value)?;
    }
    Ok(())
}

/// The start and the end of a try, in milliseconds since 1970, and its exit code, from the values of its times; None
/// where these aren't three whole numbers.
fn numbers_in(values: &[Xval]) -> Option<(i64, i64, i64)>
    ensures { result ≡ three_numbers values.now }
{
    match values {
        [Xval::Int(start), Xval::Int(end), Xval::Int(code)] => Some((*start, *end, *code)),
        _ => None,
    }
}

/// The start and the end of a try, in milliseconds since 1970, and its exit code, from the members of its record; None
/// where its times aren't a list of three whole numbers.
fn times_in(fields: &[Xval]) -> Option<(i64, i64, i64)>
    ensures { result ≡ numbers_of (slice_get fields.now 8) }
{
    match fields.get(TIMES) {
        Some(Xval::List(times)) => numbers_in(times.as_slice()),
        _ => None,
    }
}

/// Adds the line of a record's times, with its line feed: the name of the try, its start, its end and its exit code.
/// Adds nothing where the record has no times.
fn push_times_of_record(text: &mut String, fields: &[Xval]) -> Result<(), OutOfMemory>
    ensures { OnOk result (string_bytes text.new
        ≡ string_bytes text.old ++ record_times fields.now) }
{
    let Some((start, end, code)) = times_in(fields) else {
        return Ok(());
    };
    push_words(text, &fields[..NAME])?;
    writeln!(text, "{start} {end} {code}")?;
    Ok(())
}

/// Adds the line of times of the record that a line of JSON holds; adds nothing where it isn't a list or has no times.
fn push_times_of_line(alloc: Global, text: &mut String, line: &str) -> Result<(), OutOfMemory>
    ensures { OnOk result (string_bytes text.new
        ≡ string_bytes text.old ++ line_times line.now) }
{
    match read_text(alloc, line, DEEPEST_RECORD)? {
        Some(Xval::List(fields)) => push_times_of_record(text, fields.as_slice()),
        _ => Ok(()),
    }
}

/// The lines of a text, without their ends.
fn lines_of(alloc: Global, records: &str) -> Result<Vec<&str>, AllocError>
    ensures { IfOk result (λ found. map (λ line. line.now) found.items ≡ lines_in records.now) }
{
    records.lines().collect(alloc)
}

/// Adds a line of times for each of these lines of JSON that holds a record with times, in order.
fn push_times_of_lines(alloc: Global, text: &mut String, lines: &[&str]) -> Result<(), OutOfMemory>
    ensures { OnOk result (string_bytes text.new ≡ string_bytes text.old
        ++ flat_map line_times (map (λ line. line.now) lines.now)) }
{
    for line in lines {
        push_times_of_line(alloc, text, line)?;
    }
    Ok(())
}

/// Adds a line of times for each line of `records` that holds a record with times, in order.
pub(crate) fn push_times_of_text(
    alloc: Global,
    text: &mut String,
    records: &str,
) -> Result<(), OutOfMemory>
    ensures { OnOk result (string_bytes text.new ≡ string_bytes text.old
        ++ flat_map line_times (lines_in records.now)) }
{
    let lines = lines_of(alloc, records)?;
    push_times_of_lines(alloc, text, lines.as_slice())
}
