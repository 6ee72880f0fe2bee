//! Values in a sentence.
ghost use Rattle.std.specs.Prelude.{◌≡◌, ◌++◌, IfOk, OnOk, codes, encode_utf8, length, option_copied, string_bytes};
ghost use Rattle.std.specs.List.{flat_map};
ghost use Rattle.std.specs.Str.{chars};
ghost use Rattle.bf_wording.specs.Values.{cut, cut_text_with_count_of, value_text_of};

use crate::text::text_of_number;
use bf_quoted::push_shown_value;
use bf_value::{OutOfMemory, Text, Xval, text_of};
use std::alloc::Global;

/// Gives the characters of a text, in order.
pub fn chars_of(alloc: Global, shown: &str) -> Result<Vec<char>, OutOfMemory>
    ensures { IfOk result (λ all. all.items ≡ chars shown.now) }
{
    let mut all = Vec::new(alloc);
    for c in shown.chars() {
        all.push(c)?;
    }
    Ok(all)
}

/// Makes a text of these characters.
fn text_of_chars(alloc: Global, shown: &[char]) -> Result<Text, OutOfMemory>
    ensures { IfOk result (λ text. text ≡ flat_map encode_utf8 shown.now) }
{
    let mut text = String::new(alloc);
    for c in shown {
        text.push(*c)?;
    }
    Ok(Text::new(text))
}

/// Makes the text of the characters `first`, three dots, and `count`, the number of characters that the whole has:
/// `abc... (1,234 characters)`.
fn cut_text_with_count(alloc: Global, first: &[char], count: usize) -> Result<Text, OutOfMemory>
    ensures { IfOk result (λ text. text ≡ cut_text_with_count_of first.now count) }
{
    let first = text_of_chars(alloc, first)?;
    let count = text_of_number(alloc, count as u64)?;
    Ok(Text::new(format!(in alloc; "{first}... ({count} characters)")?))
}

/// Copies a text; where it has more than `most` characters, only the first `most`, with how many it has in all, as
/// `abc... (1,234 characters)`.
pub fn cut_text(alloc: Global, shown: &str, most: usize) -> Result<Text, OutOfMemory>
    ensures { IfOk result (λ text. text ≡ cut most shown.now) }
{
    let all = chars_of(alloc, shown)?;
    if all.len() <= most {
        return Text::copy_of(alloc, shown);
    }
    cut_text_with_count(alloc, &all[..most], all.len())
}

/// Gives a value as compact JSON, with escapes for what a terminal wouldn't show as itself, or `nothing` for None.
/// Where that has more than `most` characters, it gives the first `most`, and how many there are.
pub fn value_text(alloc: Global, value: Option<&Xval>, most: usize) -> Result<Text, OutOfMemory>
    ensures { IfOk result (λ text. text ≡ value_text_of most (option_copied value.entry)) }
{
    let Some(value) = value else {
        return Text::copy_of(alloc, "nothing");
    };
    let json = text_of(alloc, value)?;
    let mut shown = String::new(alloc);
    push_shown_value(&mut shown, json.as_str())?;
    cut_text(alloc, shown.as_str(), most)
}
