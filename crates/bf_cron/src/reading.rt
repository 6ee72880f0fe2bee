//! The reading of a text as a schedule.
ghost use Rattle.std.specs.Prelude.{◌≡◌, ◌==◌, ◌<◌, ℕ, if◌then◌else◌, option_map, position, map, IfSome, IfOk, [], ◌∷◌};
ghost use Rattle.std.specs.List.{before_first};
ghost use Rattle.std.specs.Int.{bit_at};
ghost use Rattle.bf_cron.specs.Cron.{after, item_of, item_has, field_of, fields_of, preset, schedule_of_fields};
ghost use Rattle.bf_cron.specs.inner.Cron.{IsField, IsItem, IsSpec};

use crate::field::Field;
use crate::item::Item;
use crate::numbers;
use crate::spec::CronSpec;
use std::alloc::{AllocError, Global};

/// Finds the first byte `at`, by its index; None where there is none.
fn position_of_byte(text: &[u8], at: u8) -> Option<usize>
    ensures { result ≡ position (λ b. b == at) text.now }
{
    text.iter().position(|b| *b == at)
}

/// Splits a text at its first byte `at` into what stands before and after it; gives the whole text and None where there
/// is none.
fn split_at_byte(text: &[u8], at: u8) -> (&[u8], Option<&[u8]>)
    ensures before { result.0.now ≡ before_first (λ b. b == at) text.now }
    ensures rest { option_map (λ s. s.now) result.1 ≡ after at text.now }
{
    match position_of_byte(text, at) {
        Some(i) => (&text[..i], Some(&text[i + 1..])),
        None => (text, None),
    }
}

/// Reads an item of a field, such as `*/5`, `mon-fri` or `7`; None for any other text, such as `5/2` or `5-3`.
fn read_item(field: Field, text: &[u8]) -> Option<Item>
    ensures value { result ≡ item_of field text.now }
    ensures item { IfSome result IsItem }
{
    let (base, step) = split_at_byte(text, b'/');
    if base == b"*".as_slice() {
        let step = numbers::read_step(step)?;
        return Some(Item {
            low: field.least(),
            high: field.greatest(),
            step,
        });
    }
    let (first, last) = split_at_byte(base, b'-');
    match (last, step) {
        (None, None) => {
            let low = numbers::read_number(field, first)?;
            Some(Item {
                low,
                high: low,
                step: 1,
            })
        }
        (None, Some(_)) => None,
        (Some(last), step) => {
            let low = numbers::read_number(field, first)?;
            let high = numbers::read_number(field, last)?;
            let step = numbers::read_step(step)?;
            if low <= high {
                Some(Item { low, high, step })
            } else {
                None
            }
        }
    }
}

/// Gives `word` with the bits of the item's numbers set too, bit 0 for the number 0.
fn with_numbers(item: Item, word: u64) -> u64
    requires { IsItem item }
    ensures { (v : ℕ) → v < 64 → bit_at result v ≡ (if item_has v item then 1 else bit_at word v) }
{
    let mut all = word;
    for number in item.low..item.high + 1 {
        if (number - item.low) % item.step == 0 {
            all |= 1u64 << number;
        }
    }
    all
}

/// Reads a field, items joined by commas, as the set of its numbers, one bit each; None where an item is bad.
pub(crate) fn read_field(field: Field, text: &[u8]) -> Option<u64>
    ensures { IsField (field_of field text.now) result }
{
    let mut word = 0;
    for part in text.split(|b| *b == b',') {
        word = with_numbers(read_item(field, part)?, word);
    }
    Some(word)
}

/// Splits a text at spaces and tabs, and leaves out empty parts.
pub(crate) fn split_fields(alloc: Global, text: &[u8]) -> Result<Vec<&[u8]>, AllocError>
    ensures { IfOk result (λ v. map (λ s. s.now) v.items ≡ fields_of text.now) }
{
    text.split(|b| *b == b' ' || *b == b'\t')
        .filter(|part| !part.is_empty())
        .collect(alloc)
}

/// Gives the five fields that one of Airflow's presets, such as `@daily`, stands for; any other text unchanged.
pub(crate) fn expand_preset(text: &str) -> &str
    ensures { result.now ≡ preset text.now }
{
    match text {
        "@hourly" => "0 * * * *",
        "@daily" => "0 0 * * *",
        "@weekly" => "0 0 * * 0",
        "@monthly" => "0 0 1 * *",
        "@quarterly" => "0 0 1 */3 *",
        "@yearly" => "0 0 1 1 *",
        _ => text,
    }
}

/// Reads a schedule from the texts of its five fields; None where one of them is bad.
pub(crate) fn spec_of_fields(
    minute: &[u8],
    hour: &[u8],
    day: &[u8],
    month: &[u8],
    weekday: &[u8],
) -> Option<CronSpec>
    ensures { IsSpec (schedule_of_fields (minute.now ∷ hour.now ∷ day.now ∷ month.now ∷ weekday.now
        ∷ [])) result }
{
    Some(CronSpec {
        minutes: read_field(Field::Minute, minute)?,
        hours: read_field(Field::Hour, hour)?,
        days: read_field(Field::Day, day)?,
        months: read_field(Field::Month, month)?,
        weekdays: read_field(Field::Weekday, weekday)?,
        any_day: day == b"*".as_slice(),
        any_weekday: weekday == b"*".as_slice(),
    })
}
