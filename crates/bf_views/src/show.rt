//! The command `show`: a report as a grid.
ghost use Rattle.std.specs.Prelude.{◌≡◌, IfOk, IfErr, OnOk};
ghost use Rattle.bf_command_fault.specs.Refusal.{Leaves, Sends};
ghost use Rattle.bf_command_fault.specs.declared.status.Status.{Status};
ghost use Rattle.bf_device.specs.Device.{HasHalted, sent};
ghost use Rattle.bf_disk.specs.Files.{Files};
ghost use Rattle.bf_grid.specs.Grid.{grid_text};
ghost use Rattle.bf_views.specs.GridFaults.{IsGridFault};
ghost use Rattle.bf_views.specs.Grids.{IsGridAnswer, is_colored_in, view_asked};
ghost use Rattle.bf_views.specs.inner.ReadFor.{IsReadForGrid};
ghost use Rattle.bf_planning.specs.Wanting.{IsWanting};

use crate::bounds::Bounds;
use crate::canvas::Canvas;
use crate::matching::refuse_other_graph;
use crate::planned::{Planned, read_plan};
use bf_command_fault::{CommandFault, Status};
use bf_command_line::{Color, ShowAsked};
use bf_device::Write;
use bf_disk::Source;
use bf_grid::write_grid;
use bf_input::read_report_file;
use bf_marks::View;
use bf_plan::Plan;
use bf_report::Report;
use std::alloc::Global;

/// Whether a grid has colours: as the line says, or as the canvas does for `auto`.
fn is_colored(color: Color, canvas: Canvas) -> bool
    ensures { result ≡ is_colored_in color canvas.colored }
{
    match color {
        Color::Auto => canvas.colored,
        Color::Always => true,
        Color::Never => false,
    }
}

/// What a grid shows and how: the runs within `bounds`, only failures where the line says so, and the width and colours
/// of the line, or else of the canvas.
fn view_of(asked: &ShowAsked, bounds: &Bounds, canvas: Canvas) -> View
    ensures { result ≡ view_asked asked.now bounds.now canvas }
{
    View {
        from: bounds.from,
        to: bounds.to,
        failed: asked.failed,
        width: asked.width.unwrap_or(canvas.width),
        colored: is_colored(asked.color, canvas),
    }
}

/// Writes the grid of a report as `view` has it. `Err` where `out` fails, or at want of memory.
fn write_view<W: Write>(
    alloc: Global,
    view: &View,
    plan: &Plan,
    report: &Report,
    out: &mut W,
) -> Result<(), CommandFault>
    ensures grid { OnOk result (W.written out.new
        ≡ sent (W.written out.old) (grid_text view.now plan.now.dag report.now)) }
    ensures fault { IfErr result IsWanting }
    ensures left { IfErr result (Leaves (HasHalted (W.failures out.old) (W.failures out.new)
        (W.interruptions out.old) (W.interruptions out.new))
        (λ text. text ≡ grid_text view.now plan.now.dag report.now)
        (W.written out.old) (W.written out.new)) }
{
    write_grid(alloc, view, plan.dag(), report, out)?;
    Ok(())
}

/// Writes the grid of a report as `view` has it. `Err` where the report is of another graph, `out` fails, or memory
/// runs out.
fn write_grid_if_matching<W: Write>(
    alloc: Global,
    view: &View,
    planned: &Planned,
    report: &Report,
    out: &mut W,
) -> Result<Status, CommandFault>
    ensures answer { (files : Files) (asked : ShowAsked) (canvas : Canvas)
        → IsReadForGrid files asked canvas view.now planned.now report.now
        → IfOk result (λ status. Sends (λ text. IsGridAnswer canvas files asked text status)
        (W.written out.old) (W.written out.new)) }
    ensures fault { (files : Files) (asked : ShowAsked) (canvas : Canvas)
        → IsReadForGrid files asked canvas view.now planned.now report.now
        → IfErr result (IsGridFault files asked) }
    ensures left { (files : Files) (asked : ShowAsked) (canvas : Canvas)
        → IsReadForGrid files asked canvas view.now planned.now report.now
        → IfErr result (Leaves (HasHalted (W.failures out.old) (W.failures out.new)
        (W.interruptions out.old) (W.interruptions out.new))
        (λ text. (status : Status) × IsGridAnswer canvas files asked text status)
        (W.written out.old) (W.written out.new)) }
{
    refuse_other_graph(alloc, planned.timed.plan.dag(), report)?;
    write_view(alloc, view, &planned.timed.plan, report, out)?;
    Ok(Status::Success)
}

/// Does `show`: writes the grid of a report of the graph, of any range; `canvas` has width and colours where the line
/// doesn't. `Err` where a moment, the graph, the order of the moments, or the report is refused, checked in this order;
/// also where `out` fails or memory runs out. At `Err`, `out` got nothing but the bytes that `CannotWrite` counts.
pub fn answer_show<S: Source, W: Write>(
    alloc: Global,
    asked: ShowAsked,
    canvas: Canvas,
    files: &mut S,
    out: &mut W,
) -> Result<Status, CommandFault>
    ensures answer { IfOk result (λ status. Sends
        (λ text. IsGridAnswer canvas (S.file files.old) asked text status)
        (W.written out.old) (W.written out.new)) }
    ensures fault { IfErr result (IsGridFault (S.file files.old) asked) }
    ensures left { IfErr result (Leaves (HasHalted (W.failures out.old) (W.failures out.new)
        (W.interruptions out.old) (W.interruptions out.new))
        (λ text. (status : Status) × IsGridAnswer canvas (S.file files.old) asked text status)
        (W.written out.old) (W.written out.new)) }
{
    let bounds = Bounds::of(&asked)?;
    let view = view_of(&asked, &bounds, canvas);
    let planned = read_plan(alloc, asked.graph, files)?;
    bounds.refuse_reversed()?;
    let report = read_report_file(alloc, asked.report, files)?;
    let written = write_grid_if_matching(alloc, &view, &planned, &report, out);
    drop(report);
    drop(planned);
    written
}
