//! Which field of a text is wrong.
ghost use Rattle.std.specs.Prelude.{◌≡◌, ◌∷◌, [], is_some, IfOk};
ghost use Rattle.bf_cron.specs.Cron.{field_of};
ghost use Rattle.bf_cron.specs.BadField.{bad_field_in, bad_field_of};

use crate::field::Field;
use crate::reading::{expand_preset, read_field, split_fields};
use std::alloc::{AllocError, Global};

/// Answers whether a text says a field: items joined by commas.
#[tactic(auto, using(crate::proofs::Items::reads))]
fn is_field(field: Field, text: &[u8]) -> bool
    ensures { result ≡ is_some (field_of field text.now) }
{
    read_field(field, text).is_some()
}

/// Gives the first of five fields whose text is none; None where each is one.
fn bad_field_among(
    minute: &[u8],
    hour: &[u8],
    day: &[u8],
    month: &[u8],
    weekday: &[u8],
) -> Option<Field>
    ensures { result ≡ bad_field_in (minute.now ∷ hour.now ∷ day.now ∷ month.now ∷ weekday.now
        ∷ []) }
{
    if !is_field(Field::Minute, minute) {
        return Some(Field::Minute);
    }
    if !is_field(Field::Hour, hour) {
        return Some(Field::Hour);
    }
    if !is_field(Field::Day, day) {
        return Some(Field::Day);
    }
    if !is_field(Field::Month, month) {
        return Some(Field::Month);
    }
    if !is_field(Field::Weekday, weekday) {
        return Some(Field::Weekday);
    }
    None
}

/// Gives the first field of a text that can't be read, where the text has five; None where each can, or it has another
/// number of them.
pub fn bad_field(alloc: Global, text: &str) -> Result<Option<Field>, AllocError>
    ensures { IfOk result (λ field. field ≡ bad_field_of text.now) }
{
    let fields = split_fields(alloc, expand_preset(text).as_bytes())?;
    match fields.as_slice() {
        [minute, hour, day, month, weekday] => {
            Ok(bad_field_among(minute, hour, day, month, weekday))
        }
        _ => Ok(None),
    }
}
