//! The marks of the grid.
ghost use Rattle.std.specs.Prelude.{◌≡◌, ◌++◌, None, map, IfOk, OnOk};
ghost use Rattle.bf_marks.specs.CellMarks.{behind, between, color_code, color_end, color_start, colored_marks, column_mark, mark_letter, mark_of, marks_text, painted, severity, worse};

use crate::phrases::push;
use crate::tally::{Tally, tally_at};
use bf_report::RunReport;
use bf_value::OutOfMemory;

/// What became of a task in a run or in several, from the least bad to the worst.
#[derive(Clone, Copy, Debug, PartialEq, Eq)]
pub enum Mark {
    Skipped,
    Success,
    /// A success after failed tries.
    Retried,
    NoStatus,
    UpstreamFailed,
    Failed,
}

impl Mark {
    /// The mark for the worst state in a tally; `Skipped` for the tally of nothing, `Retried` for a success where
    /// something took more than one try.
    pub fn of(tally: Tally) -> Mark
        ensures { result ≡ mark_of tally }
    {
        if tally.failed > 0 {
            return Mark::Failed;
        }
        if tally.upstream_failed > 0 {
            return Mark::UpstreamFailed;
        }
        if tally.no_status > 0 {
            return Mark::NoStatus;
        }
        if tally.success == 0 {
            return Mark::Skipped;
        }
        if tally.retried {
            Mark::Retried
        } else {
            Mark::Success
        }
    }

    /// How bad a mark is, from 0 for `Skipped` to 5 for `Failed`.
    pub fn severity(self) -> u8
        ensures { result ≡ severity self }
    {
        match self {
            Mark::Skipped => 0,
            Mark::Success => 1,
            Mark::Retried => 2,
            Mark::NoStatus => 3,
            Mark::UpstreamFailed => 4,
            Mark::Failed => 5,
        }
    }

    /// The worse of both marks.
    pub fn worse(self, other: Mark) -> Mark
        ensures { result ≡ worse self other }
    {
        if self.severity() < other.severity() {
            other
        } else {
            self
        }
    }

    /// The character that a grid shows for this mark.
    pub fn letter(self) -> &'static str
        ensures { result.now ≡ mark_letter self }
    {
        match self {
            Mark::Skipped => "s",
            Mark::Success => ".",
            Mark::Retried => ":",
            Mark::NoStatus => "n",
            Mark::UpstreamFailed => "u",
            Mark::Failed => "F",
        }
    }

    /// The terminal code of this mark's colour, such as `32` for green; for the two worst marks with a background.
    pub fn color(self) -> &'static str
        ensures { result.now ≡ color_code self }
    {
        match self {
            Mark::Skipped => "35",
            Mark::Success | Mark::Retried => "32",
            Mark::NoStatus => "36",
            Mark::UpstreamFailed => "30;43",
            Mark::Failed => "1;97;41",
        }
    }
}

/// The escape sequence by which a terminal ends a colour.
const COLOR_END: &str = "\x1b[0m";

/// Adds the escape sequence by which a terminal begins the colour of this code.
fn push_color_start(text: &mut Vec<u8>, code: &str) -> Result<(), OutOfMemory>
    ensures { OnOk result (text.new.items ≡ text.old.items ++ color_start code.now) }
{
    push(text, b"\x1b[")?;
    push(text, code.as_bytes())?;
    push(text, b"m")
}

/// Adds `shown`, in the colour of this terminal code where `colored`, else plain.
pub fn push_painted(
    text: &mut Vec<u8>,
    colored: bool,
    code: &str,
    shown: &[u8],
) -> Result<(), OutOfMemory>
    ensures { OnOk result (text.new.items ≡ text.old.items ++ painted colored code.now shown.now) }
{
    if !colored {
        return push(text, shown);
    }
    push_color_start(text, code)?;
    push(text, shown)?;
    push(text, COLOR_END.as_bytes())
}

/// Adds the escape sequences that end the colour of `before`, None at the front, and begin that of `mark`; adds nothing
/// where both marks are the same.
fn push_color_change(
    text: &mut Vec<u8>,
    before: Option<Mark>,
    mark: Mark,
) -> Result<(), OutOfMemory>
    ensures { OnOk result (text.new.items ≡ text.old.items ++ between before mark) }
{
    if let Some(before) = before {
        if before.severity() == mark.severity() {
            return Ok(());
        }
        push(text, COLOR_END.as_bytes())?;
    }
    push_color_start(text, mark.color())
}

/// Adds the letter of each mark in its colour. Equal marks in a row share one pair of escape sequences.
fn push_colored_marks(text: &mut Vec<u8>, marks: &[Mark]) -> Result<(), OutOfMemory>
    ensures { OnOk result (text.new.items ≡ text.old.items ++ colored_marks None marks.now) }
{
    let mut before = None;
    for mark in marks {
        push_color_change(text, before, *mark)?;
        push(text, mark.letter().as_bytes())?;
        before = Some(*mark);
    }
    if before.is_some() {
        push(text, COLOR_END.as_bytes())?;
    }
    Ok(())
}

/// Adds the letter of each mark, in its colour where `colored`, else plain.
pub fn push_marks(text: &mut Vec<u8>, colored: bool, marks: &[Mark]) -> Result<(), OutOfMemory>
    ensures { OnOk result (text.new.items ≡ text.old.items ++ marks_text colored marks.now) }
{
    if colored {
        return push_colored_marks(text, marks);
    }
    for mark in marks {
        push(text, mark.letter().as_bytes())?;
    }
    Ok(())
}

/// The worst mark of task number `task` in these runs; `Skipped` where there are no runs. In a run without such a task
/// it is `NoStatus`.
pub fn mark_in(runs: &[&RunReport], task: u32) -> Result<Mark, OutOfMemory>
    ensures { IfOk result (λ mark. mark ≡ column_mark task (map (λ run. run.now) runs.now)) }
{
    let mut worst = Mark::Skipped;
    for run in runs {
        worst = worst.worse(Mark::of(tally_at(run, task)?));
    }
    Ok(worst)
}
