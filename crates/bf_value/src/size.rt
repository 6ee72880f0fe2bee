//! How long the text of a value is, and how deep its lists nest: both without taking memory.
ghost use Rattle.std.specs.Prelude.{◌≡◌, ◌-◌, ◌≤◌, ◌↔◌, IsTrue, length, decimal, nat_lt};
ghost use Rattle.std.specs.Fmt.{signed_decimal};
ghost use Rattle.std.specs.Option.{SomeIff};
ghost use Rattle.json.specs.Print.{escape_byte, escape_letter, quoted};
ghost use Rattle.bf_value.specs.Json.{json_of};
ghost use Rattle.bf_value.specs.inner.Json.{list_text};
ghost use Rattle.bf_value.specs.Plain.{plain_depth, plains_depth};
ghost use Rattle.bf_value.specs.Views.{plain_of};

use crate::xval::{Values, Xval};

impl Xval {
    /// Whether the compact JSON text of the value, as `text_of` writes it, has at most `limit` bytes.
    pub fn has_text_within(&self, limit: usize) -> bool
        ensures { IsTrue result ↔ (length (json_of self.now) ≤ limit) }
    {
        room_after(limit, self).is_some()
    }

    /// Whether the lists of the value nest at most `deepest` deep. A value that is no list has depth 0, and a list
    /// without a list in it depth 1.
    #[cycle(nested)]
    pub fn is_nested_within(&self, deepest: usize) -> bool
        ensures { IsTrue result ↔ (plain_depth (plain_of self.now) ≤ deepest) }
    {
        match self {
            Xval::List(values) => are_nested_within(values, deepest),
            Xval::Flag(_) | Xval::Int(_) | Xval::Text(_) | Xval::Nil => true,
        }
    }
}

/// Whether a list of these items nests at most `deepest` deep, itself counted.
#[cycle(nested)]
fn are_nested_within(values: &Values, deepest: usize) -> bool
    ensures { IsTrue result ↔ (plains_depth values.now ≤ deepest) }
{
    if deepest == 0 {
        return false;
    }
    for item in &values.items {
        if !item.is_nested_within(deepest - 1) {
            return false;
        }
    }
    true
}

/// How many of `room` bytes the JSON text of a value leaves; None where it doesn't fit.
#[cycle(room)]
fn room_after(room: usize, value: &Xval) -> Option<usize>
    ensures { SomeIff result (length (json_of value.now)
        ≤ room) (room - length (json_of value.now)) }
{
    match value {
        Xval::Flag(true) | Xval::Nil => room.checked_sub(4),
        Xval::Flag(false) => room.checked_sub(5),
        Xval::Int(n) => room.checked_sub(integer_len(*n)),
        Xval::Text(text) => room_after_text(room, text.as_str()),
        Xval::List(values) => room_after_list(room, values),
    }
}

/// How many of `room` bytes the JSON text of a list leaves; None where it doesn't fit.
#[cycle(room)]
fn room_after_list(room: usize, values: &Values) -> Option<usize>
    ensures { SomeIff result (length (list_text values.now)
        ≤ room) (room - length (list_text values.now)) }
{
    if values.items.is_empty() {
        return room.checked_sub(2);
    }
    let mut left = room.checked_sub(1)?;
    for item in &values.items {
        // the comma or the bracket that follows it
        left = room_after(left, item)?.checked_sub(1)?;
    }
    Some(left)
}

/// How many of `room` bytes a text in JSON's quotes leaves, its escapes counted; None where it doesn't fit.
fn room_after_text(room: usize, text: &str) -> Option<usize>
    ensures { SomeIff result (length (quoted text.now) ≤ room) (room - length (quoted text.now)) }
{
    let mut left = room.checked_sub(2)?;
    for byte in text.as_bytes() {
        left = left.checked_sub(escaped_len(*byte))?;
    }
    Some(left)
}

/// Whether JSON escapes this byte by a backslash and one character.
fn has_short_escape(byte: u8) -> bool
    ensures { result ≡ nat_lt 0 (escape_letter byte) }
{
    matches!(
        byte,
        b'"' | b'\\' | b'\x08' | b'\x0c' | b'\n' | b'\r' | b'\t'
    )
}

/// How many bytes JSON writes for this byte of a text: 1, 2 or 6.
#[tactic(auto, using(crate::proofs::SizeLemmas::escape_lengths))]
fn escaped_len(byte: u8) -> usize
    ensures { result ≡ length (escape_byte byte) }
{
    if has_short_escape(byte) {
        2
    } else if byte < 32 {
        6
    } else {
        1
    }
}

/// How many characters the decimal text of a number has, with its sign.
fn integer_len(n: i64) -> usize
    ensures { result ≡ length (signed_decimal n) }
{
    let digits = digit_count(n.unsigned_abs());
    if n < 0 { digits + 1 } else { digits }
}

/// How many decimal digits a number has.
fn digit_count(n: u64) -> usize
    ensures digits { result ≡ length (decimal n) }
    ensures few { result ≤ 20 }
{
    if n == 0 {
        return 1;
    }
    n.ilog10() as usize + 1
}
