//! Lines of a shell.
ghost use Rattle.std.specs.Prelude.{◌≡◌, ◌++◌, OnOk, string_bytes};
ghost use Rattle.bf_quoted.specs.Lines.{line_of};
ghost use Rattle.bf_quoted.specs.inner.Lines.{gap};

use crate::word::push_quoted;
use bf_value::{OutOfMemory, Text};
use std::alloc::Global;

/// Adds the space before the word at `place`, from 0, of a line; adds nothing before the first.
fn push_gap(text: &mut String, place: usize) -> Result<(), OutOfMemory>
    ensures { OnOk result (string_bytes text.new ≡ string_bytes text.old ++ gap place) }
{
    if place > 0 {
        text.push_str(" ")?;
    }
    Ok(())
}

/// Adds words as a line for a shell: each quoted where it must be, with a space between each two and no line feed.
pub fn push_line(alloc: Global, text: &mut String, words: &[Text]) -> Result<(), OutOfMemory>
    ensures { OnOk result (string_bytes text.new ≡ string_bytes text.old ++ line_of words.now) }
{
    for (place, word) in words.iter().enumerate() {
        push_gap(text, place)?;
        push_quoted(alloc, text, word.as_str())?;
    }
    Ok(())
}
