//! Numbers, moments and lists of moments as people read them, each added behind a text.
ghost use Rattle.std.specs.Prelude.{◌≡◌, ◌++◌, IfOk, OnOk};
ghost use Rattle.bf_moment.specs.Moment.{IsShown};
ghost use Rattle.bf_wording.specs.Lists.{name_list_of};
ghost use Rattle.bf_wording.specs.Numbers.{number_text, count_text_of};
ghost use Rattle.bf_wording.specs.Moments.{short_moment_of};
ghost use Rattle.bf_marks.specs.Phrases.{short_moments};

use bf_moment::{Moment, moment_bytes};
use bf_value::{OutOfMemory, Text};
use bf_wording::{short_moment, without_midnight};
use jiff::Timestamp;
use std::alloc::Global;

/// Adds `bytes` to `text`.
pub fn push(text: &mut Vec<u8>, bytes: &[u8]) -> Result<(), OutOfMemory>
    ensures { OnOk result (text.new.items ≡ text.old.items ++ bytes.now) }
{
    text.extend_from_slice(bytes)?;
    Ok(())
}

/// Adds a number in decimal, with a comma before each three digits, such as `1,234`.
pub fn push_number(alloc: Global, text: &mut Vec<u8>, number: u64) -> Result<(), OutOfMemory>
    ensures { OnOk result (text.new.items ≡ text.old.items ++ number_text number) }
{
    let mut shown = String::new(alloc);
    bf_wording::push_number(alloc, &mut shown, number)?;
    push(text, shown.as_bytes())
}

/// Adds a number and a noun, which ends in `s` unless the number is 1, such as `1 run` or `2 runs`.
pub fn push_counted_noun(
    alloc: Global,
    text: &mut Vec<u8>,
    number: u64,
    noun: &str,
) -> Result<(), OutOfMemory>
    ensures { OnOk result (text.new.items ≡ text.old.items ++ count_text_of number noun.now) }
{
    let mut shown = String::new(alloc);
    bf_wording::push_count(alloc, &mut shown, number, noun)?;
    push(text, shown.as_bytes())
}

/// Adds a moment in UTC, such as `2024-01-25T06:00:00Z`; just the date, such as `2024-01-25`, where its time is
/// midnight.
pub fn push_moment(text: &mut Vec<u8>, moment: Timestamp) -> Result<(), OutOfMemory>
    requires { IsShown moment.nanosecond }
    ensures { OnOk result (text.new.items ≡ text.old.items ++ short_moment_of moment.nanosecond) }
{
    push(text, without_midnight(&moment_bytes(moment)))
}

/// The text of a moment in UTC, such as `2024-01-25T06:00:00Z`; just the date, such as `2024-01-25`, where its time is
/// midnight.
fn short_moment_text(alloc: Global, moment: Moment) -> Result<Text, OutOfMemory>
    ensures { IfOk result (λ name. name ≡ short_moment_of moment.at.nanosecond) }
{
    short_moment(alloc, moment.at)
}

/// The text of each of these moments in UTC, in order, such as `2024-01-25T06:00:00Z`; just the date where its time is
/// midnight.
fn short_moment_texts(alloc: Global, moments: &[Moment]) -> Result<Vec<Text>, OutOfMemory>
    ensures { IfOk result (λ names. names.items ≡ short_moments moments.now) }
{
    let mut names = Vec::with_capacity(alloc, moments.len())?;
    for moment in moments {
        names.push(short_moment_text(alloc, *moment)?)?;
    }
    Ok(names)
}

/// Adds a list of moments, such as `2024-01-25, 2024-01-31 and 2024-02-05`; of more than four, the first three and how
/// many more there are.
pub fn push_listed_moments(
    alloc: Global,
    text: &mut Vec<u8>,
    moments: &[Moment],
) -> Result<(), OutOfMemory>
    ensures { OnOk result (text.new.items
        ≡ text.old.items ++ name_list_of 3 (short_moments moments.now)) }
{
    let names = short_moment_texts(alloc, moments)?;
    let mut shown = String::new(alloc);
    bf_wording::push_name_list(alloc, &mut shown, names.as_slice(), 3)?;
    push(text, shown.as_bytes())
}
