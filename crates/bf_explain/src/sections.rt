//! Headings, and what belongs to them.
ghost use Rattle.std.specs.Prelude.{◌≡◌, ◌++◌, ◌∷◌, IfOk, OnOk, codes, map, string_bytes};
ghost use Rattle.bf_explain.specs.Sections.{indented_of, lines_text_of, section};

use bf_value::{OutOfMemory, Text};
use bf_wording::add_line;
use std::alloc::Global;

/// The line with two spaces before it.
fn indented(alloc: Global, line: &Text) -> Result<Text, OutOfMemory>
    ensures { IfOk result (λ text. text ≡ indented_of line.now) }
{
    Ok(Text::new(format!(in alloc; "  {line}")?))
}

/// Adds the lines of `more`, each indented by two spaces.
fn add_indented(alloc: Global, lines: &mut Vec<Text>, more: &[Text]) -> Result<(), OutOfMemory>
    ensures { OnOk result (lines.new.items ≡ lines.old.items ++ map indented_of more.now) }
{
    for line in more {
        lines.push(indented(alloc, line)?)?;
    }
    Ok(())
}

/// Adds `heading` and below it the lines of `more`, each indented by two spaces; adds nothing where `more` is empty.
pub(crate) fn add_section(
    alloc: Global,
    lines: &mut Vec<Text>,
    heading: &str,
    more: &[Text],
) -> Result<(), OutOfMemory>
    ensures { OnOk result (lines.new.items ≡ lines.old.items ++ section heading.now more.now) }
{
    if more.is_empty() {
        return Ok(());
    }
    add_line(alloc, lines, heading)?;
    add_indented(alloc, lines, more)
}

/// The lines as one text, each ended by a line feed.
pub(crate) fn lines_text(alloc: Global, lines: &[Text]) -> Result<String, OutOfMemory>
    ensures { IfOk result (λ text. string_bytes text ≡ lines_text_of lines.now) }
{
    let mut text = String::new(alloc);
    for line in lines {
        text.push_str(line.as_str())?;
        text.push_str("\n")?;
    }
    Ok(text)
}
