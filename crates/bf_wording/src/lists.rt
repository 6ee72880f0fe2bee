//! Lists of names.
ghost use Rattle.std.specs.Prelude.{◌≡◌, ◌++◌, ◌==◌, IfOk, OnOk, codes, if◌then◌else◌, string_bytes};
ghost use Rattle.std.specs.List.{join_by};
ghost use Rattle.bf_wording.specs.Lists.{joined, name_list_of, shortened_names_of};
ghost use Rattle.bf_wording.specs.Numbers.{number_text};

use crate::numbers::push_number;
use bf_value::{OutOfMemory, Text};
use std::alloc::Global;

/// Gives what goes before a name of a list that has `left` more names behind it: ` and ` for the last, else `, `.
fn separator(left: usize) -> &'static str
    ensures { result.now ≡ (if left == 0 then codes " and " else codes ", ") }
{
    if left == 0 { " and " } else { ", " }
}

/// Adds the names with commas between them, and ` and ` before the last; adds nothing where there are none.
fn push_joined(text: &mut String, names: &[Text]) -> Result<(), OutOfMemory>
    ensures { OnOk result (string_bytes text.new ≡ string_bytes text.old ++ joined names.now) }
{
    let [first, rest @ ..] = names else {
        return Ok(());
    };
    text.push_str(first.as_str())?;
    for (place, name) in rest.iter().enumerate() {
        text.push_str(separator(rest.len() - place - 1))?;
        text.push_str(name.as_str())?;
    }
    Ok(())
}

/// Copies all these names.
fn copies_of_names(alloc: Global, names: &[Text]) -> Result<Vec<Text>, OutOfMemory>
    ensures { IfOk result (λ copies. copies.items ≡ names.now) }
{
    let mut copies = Vec::with_capacity(alloc, names.len())?;
    for name in names {
        copies.push(name.copy(alloc)?)?;
    }
    Ok(copies)
}

/// Makes the words `N more`, with commas in the number.
fn more_text(alloc: Global, count: usize) -> Result<Text, OutOfMemory>
    ensures { IfOk result (λ text. text ≡ number_text count ++ codes " more") }
{
    let mut text = String::new(alloc);
    push_number(alloc, &mut text, count as u64)?;
    text.push_str(" more")?;
    Ok(Text::new(text))
}

/// Copies the names; of more than `most` + 1 names only the first `most`, followed by the words `N more`.
fn shortened_names(alloc: Global, names: &[Text], most: usize) -> Result<Vec<Text>, OutOfMemory>
    ensures { IfOk result (λ kept. kept.items ≡ shortened_names_of most names.now) }
{
    if names.len() <= most || names.len() - most == 1 {
        return copies_of_names(alloc, names);
    }
    let mut kept = copies_of_names(alloc, &names[..most])?;
    kept.push(more_text(alloc, names.len() - most)?)?;
    Ok(kept)
}

/// Adds names in the form `a`, `a and b` or `a, b and c`; nothing for none. Of more than `most` + 1 names it adds the
/// first `most` and how many more there are, as in `a, b and 3 more`.
pub fn push_name_list(
    alloc: Global,
    text: &mut String,
    names: &[Text],
    most: usize,
) -> Result<(), OutOfMemory>
    ensures { OnOk result (string_bytes text.new ≡ string_bytes text.old
        ++ name_list_of most names.now) }
{
    let kept = shortened_names(alloc, names, most)?;
    push_joined(text, kept.as_slice())
}

/// Adds the parts, in order, with `separator` between each two; adds nothing where there are none.
pub fn push_separated(text: &mut String, separator: &str, parts: &[Text]) -> Result<(), OutOfMemory>
    ensures { OnOk result (string_bytes text.new
        ≡ string_bytes text.old ++ join_by (λ part. part) separator.now parts.now) }
{
    let [first, rest @ ..] = parts else {
        return Ok(());
    };
    text.push_str(first.as_str())?;
    for part in rest {
        text.push_str(separator)?;
        text.push_str(part.as_str())?;
    }
    Ok(())
}
