//! The rows of the grid.
ghost use Rattle.std.specs.Prelude.{◌≡◌, ◌≤◌, ◌<◌, ◌+◌, ◌*◌, ◌^◌, ◌++◌, map, IfOk, OnOk, length};
ghost use Rattle.bf_marks.specs.CellMarks.{column_mark};
ghost use Rattle.bf_grid.specs.GridRows.{by_column, column_of, column_state, line, row, state_mark_of, trimmed_of};

use bf_marks::{Mark, Tally, Widths, mark_in, push, push_cut_name, push_left_aligned, push_marks};
use bf_report::RunReport;
use bf_value::OutOfMemory;
use bf_xcom::RunState;
use std::alloc::Global;

/// The line without the spaces at its end.
fn trimmed(line: &[u8]) -> &[u8]
    ensures { result.now ≡ trimmed_of line.now }
{
    let mut end = line.len();
    while end > 0 && line[end - 1] == b' ' {
        end -= 1;
    }
    &line[..end]
}

/// Adds `shown` without the spaces at its end, and a line feed.
pub(crate) fn push_line(text: &mut Vec<u8>, shown: &[u8]) -> Result<(), OutOfMemory>
    ensures { OnOk result (text.new.items ≡ text.old.items ++ line shown.now) }
{
    push(text, trimmed(shown))?;
    push(text, b"\n")
}

/// The mark for the state of a run.
fn state_mark(state: RunState) -> Mark
    ensures { result ≡ state_mark_of state }
{
    match state {
        RunState::Success => Mark::Success,
        RunState::Failed => Mark::Failed,
    }
}

/// The mark for the worst state of these runs, those of one column; `Skipped` where there are none.
fn worst_state_mark(runs: &[&RunReport]) -> Mark
    ensures { result ≡ column_state (map (λ run. run.now) runs.now) }
{
    let mut worst = Mark::Skipped;
    for run in runs {
        worst = worst.worse(state_mark(run.state));
    }
    worst
}

/// The runs that a grid shows, in `count` columns of `each` runs; the last column may have fewer.
#[derive(Clone, Copy)]
pub(crate) struct Columns<'a> {
    pub(crate) runs: &'a [&'a RunReport],
    pub(crate) each: usize,
    pub(crate) count: usize,
    ghost all: { count * each < length runs.now + each },
}

impl<'a> Columns<'a> {
    /// The runs of the column at `place`, from 0.
    fn at(self, place: usize) -> &'a [&'a RunReport]
        requires { place < self.count }
        ensures { map (λ run. run.now) result.now
            ≡ column_of self.entry.each (map (λ run. run.now) self.entry.runs.now) place }
    {
        let first = place * self.each;
        let last = self.runs.len().min(first + self.each);
        &self.runs[first..last]
    }

    /// The worst mark of task number `task` in each column, in order.
    pub(crate) fn marks(self, alloc: Global, task: u32) -> Result<Vec<Mark>, OutOfMemory>
        ensures { IfOk result (λ marks. marks.items ≡ by_column self.entry.count self.entry.each
            (column_mark task) (map (λ run. run.now) self.entry.runs.now)) }
    {
        let mut marks = Vec::with_capacity(alloc, self.count)?;
        for place in 0..self.count {
            marks.push(mark_in(self.at(place), task)?)?;
        }
        Ok(marks)
    }

    /// The mark for the worst state of a run in each column, in order.
    pub(crate) fn states(self, alloc: Global) -> Result<Vec<Mark>, OutOfMemory>
        ensures { IfOk result (λ marks. marks.items ≡ by_column self.entry.count self.entry.each
            column_state (map (λ run. run.now) self.entry.runs.now)) }
    {
        let mut marks = Vec::with_capacity(alloc, self.count)?;
        for place in 0..self.count {
            marks.push(worst_state_mark(self.at(place)))?;
        }
        Ok(marks)
    }
}

/// How a grid is laid out: how many bytes wide names are, how wide the sums of each state, and whether marks are
/// coloured.
#[derive(Clone, Copy)]
pub(crate) struct Layout {
    pub(crate) names: usize,
    pub(crate) widths: Widths,
    pub(crate) colored: bool,
    ghost room: { 2 ≤ names },
    ghost few: { names + 2 < 2 ^ 64 },
}

impl Layout {
    /// Adds a row of the table, with its line feed: `name`, cut to its column, a character for each mark, and the sums
    /// of `tally`.
    pub(crate) fn push_row(
        self,
        alloc: Global,
        text: &mut Vec<u8>,
        name: &[u8],
        marks: &[Mark],
        tally: Tally,
    ) -> Result<(), OutOfMemory>
        ensures { OnOk result (text.new.items ≡ text.old.items
            ++ row self.names self.widths self.colored name.now marks.now tally) }
    {
        let mut shown = Vec::new(alloc);
        push_cut_name(&mut shown, self.names, name)?;
        let mut line = Vec::new(alloc);
        push_left_aligned(&mut line, self.names, shown.as_slice())?;
        push(&mut line, b"  ")?;
        push_marks(&mut line, self.colored, marks)?;
        push(&mut line, b"  ")?;
        self.widths.push_sums(alloc, &mut line, tally)?;
        push_line(text, line.as_slice())
    }
}
