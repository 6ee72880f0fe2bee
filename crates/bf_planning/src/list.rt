//! The command `list`: the data intervals of a graph's schedule that start in a range.
ghost use Rattle.std.specs.Prelude.{◌≡◌, ◌++◌, IfOk, IfErr, OnOk, All, option_map, string_bytes};
ghost use Rattle.bf_device.specs.Device.{HasHalted};
ghost use Rattle.bf_command_fault.specs.Refusal.{Leaves, Sends};
ghost use Rattle.bf_planning.specs.Lists.{ListFault, IsListIn, interval_line, intervals_text};
ghost use Rattle.bf_planning.specs.inner.Lists.{IsSince1970};

use crate::plan::dated_plan_in;
use crate::range::RunRange;
use bf_command_fault::CommandFault;
use bf_device::{Write, send};
use bf_interval::Interval;
use bf_moment::Moment;
use bf_value::OutOfMemory;
use std::alloc::Global;

/// Appends the line of a data interval: its start, a space and its end, both in UTC.
fn push_interval(text: &mut String, interval: &Interval) -> Result<(), OutOfMemory>
    requires { IsSince1970 interval.now }
    ensures { OnOk result (string_bytes text.new ≡ string_bytes text.old
        ++ interval_line interval.now) }
{
    let (start, end) = (Moment::new(interval.start), Moment::new(interval.end));
    writeln!(text, "{start} {end}")?;
    Ok(())
}

/// Gives a line for each data interval: its start, a space and its end, both in UTC.
fn text_of_intervals(alloc: Global, intervals: &[Interval]) -> Result<String, OutOfMemory>
    requires { All IsSince1970 intervals.now }
    ensures { IfOk result (λ text. string_bytes text ≡ intervals_text intervals.now) }
{
    let mut text = String::new(alloc);
    for interval in intervals {
        push_interval(&mut text, interval)?;
    }
    Ok(text)
}

/// Writes a line for each data interval of the graph's schedule that starts in the range, its ends included, by date.
/// `Err` where the graph or the range is refused, `out` fails, or memory runs out. At `Err`, `out` got nothing but the
/// bytes that `CannotWrite` counts.
pub fn write_list<W: Write>(
    alloc: Global,
    graph: &[u8],
    zone_file: Option<&[u8]>,
    range: RunRange,
    out: &mut W,
) -> Result<(), CommandFault>
    ensures ok { OnOk result (Sends
        (IsListIn graph.now (option_map (λ s. s.now) zone_file.entry) range)
        (W.written out.old) (W.written out.new)) }
    ensures fault { IfErr result (ListFault graph.now (option_map (λ s. s.now) zone_file.entry)
        range) }
    ensures left { IfErr result (Leaves (HasHalted (W.failures out.old) (W.failures out.new)
        (W.interruptions out.old) (W.interruptions out.new))
        (IsListIn graph.now (option_map (λ s. s.now) zone_file.entry) range)
        (W.written out.old) (W.written out.new)) }
{
    let runs = dated_plan_in(alloc, graph, zone_file, range)?.runs;
    let text = text_of_intervals(alloc, runs.intervals())?;
    send(out, text.as_bytes())?;
    Ok(())
}
