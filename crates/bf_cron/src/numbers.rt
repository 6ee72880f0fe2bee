//! The numbers, names and steps of items.
ghost use Rattle.std.specs.Prelude.{◌≡◌, ◌≤◌, ◌<◌, ◌+◌, option_map, position, map, length, IfSome};
ghost use Rattle.std.specs.Char.{to_ascii_lowercase};
ghost use Rattle.std.specs.Str.{bytes_eq};
ghost use Rattle.bf_cron.specs.declared.field.Field.TheVariants.{Month, Weekday};
ghost use Rattle.bf_cron.specs.Cron.{names, digit, small_number, number_of, step_of};

use crate::field::Field;

/// Gives the number of an ASCII digit; None for any other byte.
fn digit_of(byte: u8) -> Option<u8>
    ensures value { result ≡ digit byte }
    ensures small { IfSome result (λ n. n ≤ 9) }
{
    match byte {
        b'0'..=b'9' => Some(byte - b'0'),
        _ => None,
    }
}

/// Reads a number of one or two ASCII digits; None for any other text.
fn small_number_in(text: &[u8]) -> Option<u8>
    ensures { result ≡ small_number text.now }
{
    match text {
        [a] => digit_of(*a),
        [a, b] => Some(10 * digit_of(*a)? + digit_of(*b)?),
        _ => None,
    }
}

/// Gives a text of three letters in lower case.
fn lower_case_of(text: &[u8]) -> [u8; 3]
    requires { length text.now ≡ 3 }
    ensures { result ≡ map to_ascii_lowercase text.now }
{
    [
        text[0].to_ascii_lowercase(),
        text[1].to_ascii_lowercase(),
        text[2].to_ascii_lowercase(),
    ]
}

/// Gives the number of the month with this name of three lower-case letters, 1 for `jan`; None for any other name.
fn month_named(name: [u8; 3]) -> Option<u8>
    ensures value { result ≡ option_map (λ i. i + 1)
        (position (λ known. bytes_eq known name) (names Month)) }
    ensures small { IfSome result (λ n. n < 60) }
{
    match &name {
        b"jan" => Some(1),
        b"feb" => Some(2),
        b"mar" => Some(3),
        b"apr" => Some(4),
        b"may" => Some(5),
        b"jun" => Some(6),
        b"jul" => Some(7),
        b"aug" => Some(8),
        b"sep" => Some(9),
        b"oct" => Some(10),
        b"nov" => Some(11),
        b"dec" => Some(12),
        _ => None,
    }
}

/// Gives the number of the weekday with this name of three lower-case letters, 0 for `sun`; None for any other name.
fn weekday_named(name: [u8; 3]) -> Option<u8>
    ensures value { result ≡ option_map (λ i. i + 0)
        (position (λ known. bytes_eq known name) (names Weekday)) }
    ensures small { IfSome result (λ n. n < 60) }
{
    match &name {
        b"sun" => Some(0),
        b"mon" => Some(1),
        b"tue" => Some(2),
        b"wed" => Some(3),
        b"thu" => Some(4),
        b"fri" => Some(5),
        b"sat" => Some(6),
        _ => None,
    }
}

/// Reads a number of a field: one or two digits or, for months and weekdays, a name of three letters in any case. None
/// where the text is neither, or the field can't have the number.
pub(crate) fn read_number(field: Field, text: &[u8]) -> Option<u8>
    ensures value { result ≡ number_of field text.now }
    ensures small { IfSome result (λ n. n < 60) }
{
    if text.len() == 3 {
        let name = lower_case_of(text);
        return match field {
            Field::Month => month_named(name),
            Field::Weekday => weekday_named(name),
            _ => None,
        };
    }
    let value = small_number_in(text)?;
    if (field.least()..=field.greatest()).contains(&value) {
        Some(value)
    } else {
        None
    }
}

/// Reads an item's step, from 1 to 59; 1 where `text` is None, and None where it is no such number.
pub(crate) fn read_step(text: Option<&[u8]>) -> Option<u8>
    ensures value { result ≡ step_of (option_map (λ s. s.now) text.entry) }
    ensures above { IfSome result (λ n. 0 < n) }
{
    let Some(text) = text else {
        return Some(1);
    };
    match small_number_in(text) {
        Some(value) if (1..=59).contains(&value) => Some(value),
        _ => None,
    }
}
