//! Lines that are told, one behind the other.
ghost use Rattle.std.specs.Prelude.{◌≡◌, ◌++◌, ◌∷◌, [], IfOk, OnOk, if◌then◌else◌};

use bf_value::{OutOfMemory, Text};
use std::alloc::Global;

/// Makes a list of one line.
pub fn one_line(alloc: Global, line: Text) -> Result<Vec<Text>, OutOfMemory>
    ensures { IfOk result (λ lines. lines.items ≡ line ∷ []) }
{
    let mut lines = Vec::new(alloc);
    lines.push(line)?;
    Ok(lines)
}

/// Adds a copy of a line behind the others.
pub fn add_line(alloc: Global, lines: &mut Vec<Text>, line: &str) -> Result<(), OutOfMemory>
    ensures { OnOk result (lines.new.items ≡ lines.old.items ++ line.now ∷ []) }
{
    lines.push(Text::copy_of(alloc, line)?)?;
    Ok(())
}

/// Adds a line behind the others, without copying it.
pub fn add_moved_line(lines: &mut Vec<Text>, line: Text) -> Result<(), OutOfMemory>
    ensures { OnOk result (lines.new.items ≡ lines.old.items ++ line ∷ []) }
{
    lines.push(line)?;
    Ok(())
}

/// Adds lines, in order, behind the others.
pub fn add_lines(lines: &mut Vec<Text>, more: Vec<Text>) -> Result<(), OutOfMemory>
    ensures { OnOk result (lines.new.items ≡ lines.old.items ++ more.items) }
{
    for line in more {
        lines.push(line)?;
    }
    Ok(())
}

/// Adds a copy of a line behind the others where `holds`; else does nothing.
pub fn add_line_if(
    alloc: Global,
    lines: &mut Vec<Text>,
    holds: bool,
    line: &str,
) -> Result<(), OutOfMemory>
    ensures { OnOk result (lines.new.items ≡ lines.old.items
        ++ (if holds then line.now ∷ [] else [])) }
{
    if holds {
        add_line(alloc, lines, line)
    } else {
        Ok(())
    }
}
