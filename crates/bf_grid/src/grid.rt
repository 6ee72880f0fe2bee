//! A report as a grid.
ghost use Rattle.std.specs.Prelude.{◌≡◌, ◌≤◌, ◌<◌, ◌++◌, map, length, take, IfOk, OnOk, IfErr};
ghost use Rattle.bf_device.specs.Device.{sent, HasHalted, HasGoneOn};
ghost use Rattle.bf_plan.specs.Sound.{IsSound};
ghost use Rattle.bf_grid.specs.Grid.{body_if, body_text, grid_text, table_by, table_if, table_text, table_with};

use crate::failed_tasks::push_failing;
use crate::grid_table::Table;
use crate::row::{Columns, Layout};
use crate::selection::{name_width, shown_runs, shown_tasks, total_in};
use crate::summary::{Shown, push_head, push_left_out, push_runs_per_column};
use bf_device::{Cause, Write, WriteFault, send};
use bf_marks::{View, Widths, column_count_of, push, tally_of_shown_states, tasks_in_order};
use bf_plan::Dag;
use bf_report::{Report, RunReport};
use bf_value::OutOfMemory;
use std::alloc::Global;

/// A graph, and the runs of its report and the tasks that a grid shows.
#[derive(Clone, Copy)]
struct ShownParts<'a> {
    dag: &'a Dag,
    runs: &'a [&'a RunReport],
    tasks: &'a [u32],
}

impl ShownParts<'_> {
    /// Adds the table of marks, with `each` runs to a column, at least 1, and below it the tasks that failed.
    fn push_table_by(
        self,
        alloc: Global,
        text: &mut Vec<u8>,
        layout: Layout,
        each: usize,
    ) -> Result<(), OutOfMemory>
        requires { 0 < each }
        ensures { OnOk result (text.new.items ≡ text.old.items
            ++ table_by layout.colored self.entry.dag.now
            (map (λ run. run.now) self.entry.runs.now) self.entry.tasks.now layout.names
            layout.widths each) }
    {
        push_runs_per_column(alloc, text, each)?;
        push(text, b"\n")?;
        let columns = Columns {
            runs: self.runs,
            each,
            count: self.runs.len().div_ceil(each),
        };
        let table = Table {
            dag: self.dag,
            columns,
            tasks: self.tasks,
            layout,
        };
        table.push(alloc, text)?;
        push_failing(alloc, text, self.dag, self.runs, self.tasks)
    }

    /// Adds the table of marks, with as few runs to a column as fit into the view's width, and below it the tasks that
    /// failed. At least one run is shown.
    fn push_table(self, alloc: Global, text: &mut Vec<u8>, view: &View) -> Result<(), OutOfMemory>
        requires { 0 < length self.runs.now }
        ensures { OnOk result (text.new.items ≡ text.old.items
            ++ table_text view.now self.entry.dag.now
            (map (λ run. run.now) self.entry.runs.now) self.entry.tasks.now) }
    {
        let width = view.width as usize;
        let names = name_width(self.dag, self.tasks, width);
        let total = total_in(self.runs, self.tasks)?;
        let widths = Widths::of(alloc, total, tally_of_shown_states(self.runs))?;
        let each = self
            .runs
            .len()
            .div_ceil(column_count_of(width, names, widths));
        let layout = Layout {
            names,
            widths,
            colored: view.colored,
        };
        self.push_table_by(alloc, text, layout, each)
    }

    /// Adds the table of marks and below it the tasks that failed; adds nothing where no run is shown.
    fn push_table_if_runs(
        self,
        alloc: Global,
        text: &mut Vec<u8>,
        view: &View,
    ) -> Result<(), OutOfMemory>
        ensures { OnOk result (text.new.items ≡ text.old.items
            ++ table_if view.now self.entry.dag.now
            (map (λ run. run.now) self.entry.runs.now) self.entry.tasks.now) }
    {
        if self.runs.is_empty() {
            return Ok(());
        }
        self.push_table(alloc, text, view)
    }
}

/// Adds what stands below the first line of a grid: how many runs and tasks are shown where not all are, the table of
/// marks, and the tasks that failed. `all` are the runs of the report.
fn push_body(
    alloc: Global,
    text: &mut Vec<u8>,
    view: &View,
    dag: &Dag,
    all: &[RunReport],
) -> Result<(), OutOfMemory>
    requires { IsSound dag.now }
    ensures { OnOk result (text.new.items ≡ text.old.items ++ body_text view.now dag.now all.now) }
{
    let runs = shown_runs(alloc, view, all)?;
    let order = tasks_in_order(alloc, dag)?;
    let tasks = shown_tasks(alloc, view, runs.as_slice(), order.as_slice())?;
    let shown_of_runs = Shown {
        shown: runs.len(),
        all: all.len(),
    };
    let shown_of_tasks = Shown {
        shown: tasks.len(),
        all: dag.tasks.len(),
    };
    push_left_out(alloc, text, shown_of_runs, shown_of_tasks)?;
    let shows = ShownParts {
        dag,
        runs: runs.as_slice(),
        tasks: tasks.as_slice(),
    };
    shows.push_table_if_runs(alloc, text, view)
}

/// Adds what stands below the first line of a grid; adds nothing where `all`, the runs of the report, is empty.
fn push_body_if_runs(
    alloc: Global,
    text: &mut Vec<u8>,
    view: &View,
    dag: &Dag,
    all: &[RunReport],
) -> Result<(), OutOfMemory>
    requires { IsSound dag.now }
    ensures { OnOk result (text.new.items ≡ text.old.items ++ body_if view.now dag.now all.now) }
{
    if all.is_empty() {
        return Ok(());
    }
    push_body(alloc, text, view, dag, all)
}

/// The text of a grid, which shows a report of this graph as the view asks for it; just the first line where the report
/// has no runs.
fn text_of_grid(
    alloc: Global,
    view: &View,
    dag: &Dag,
    report: &Report,
) -> Result<Vec<u8>, OutOfMemory>
    requires { IsSound dag.now }
    ensures { IfOk result (λ text. text.items ≡ grid_text view.now dag.now report.now) }
{
    let runs = report.runs.as_slice();
    let mut text = Vec::new(alloc);
    push_head(alloc, &mut text, view.colored, dag.id.as_str(), runs)?;
    push_body_if_runs(alloc, &mut text, view, dag, runs)?;
    Ok(text)
}

/// Writes a report of this graph as a grid of characters: a row for each task, a column for each run or several. `Err`
/// tells how many bytes went out: none where memory ran out, since the whole text is made first; else those before a
/// write failed or took nothing, or before the 1,001st interruption.
pub fn write_grid<W: Write>(
    alloc: Global,
    view: &View,
    dag: &Dag,
    report: &Report,
    out: &mut W,
) -> Result<(), WriteFault>
    requires { IsSound dag.now }
    ensures ok { OnOk result (W.written out.new
        ≡ sent (W.written out.old) (grid_text view.now dag.now report.now)) }
    ensures part { IfErr result (λ fault.
        (fault.sent ≤ length (grid_text view.now dag.now report.now))
        × (W.written out.new ≡ sent (W.written out.old)
        (take fault.sent (grid_text view.now dag.now report.now)))) }
    ensures io { IfErr result (λ fault. fault.cause ≡ Cause.Io
        → HasHalted (W.failures out.old) (W.failures out.new)
        (W.interruptions out.old) (W.interruptions out.new)) }
    ensures went_on { OnOk result (HasGoneOn (W.failures out.old) (W.failures out.new)
        (W.interruptions out.old) (W.interruptions out.new)) }
    ensures memory { IfErr result (λ fault. fault.cause ≡ Cause.OutOfMemory → fault.sent ≡ 0) }
{
    match text_of_grid(alloc, view, dag, report) {
        Ok(text) => send(out, text.as_slice()),
        Err(_) => Err(WriteFault {
            sent: 0,
            cause: Cause::OutOfMemory,
        }),
    }
}
