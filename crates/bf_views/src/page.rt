//! The command `page`: a page that shows a report.
ghost use Rattle.std.specs.Prelude.{◌≡◌, ◌||◌, ◌<◌, [], IfOk, IfErr, OnOk, option_map, string_bytes, true, unwrap_or};
ghost use Rattle.bf_command_fault.specs.Refusal.{Leaves, Sends};
ghost use Rattle.bf_command_fault.specs.declared.status.Status.{Status};
ghost use Rattle.bf_device.specs.Device.{HasHalted};
ghost use Rattle.bf_report_reader.specs.Rules.{IsShownReport};
ghost use Rattle.bf_views.specs.Matching.{is_of_graph};
ghost use Rattle.bf_views.specs.PageFaults.{IsPageFault};
ghost use Rattle.bf_views.specs.Pages.{IsPage, IsPageAnswer, report_shown, words_asked};
ghost use Rattle.bf_views.specs.inner.ReadFor.{IsReadForPage};
ghost use Rattle.bf_planning.specs.Wanting.{IsWanting};

use crate::matching::refuse_other_graph;
use crate::planned::{Planned, read_plan};
use crate::report::report_bytes;
use crate::times::read_times;
use bf_cells::cells_of;
use bf_command_fault::{CommandFault, Status};
use bf_command_line::PageAsked;
use bf_device::Write;
use bf_disk::Source;
use bf_input::read_report_file;
use bf_page::{PageTexts, can_be_counted, write_page};
use bf_report::Report;
use bf_value::{OutOfMemory, Text};
use std::alloc::Global;
use std::marker::Model;

/// The longest report whose text is put on its page, in bytes.
const LONGEST_REPORT: usize = 134_217_728;

/// What a page says of its line: the paths as they stand there, empty for a zone file that isn't named, and whether
/// only states are shown.
#[derive(Drop)]
struct Words {
    graph: Text,
    report: Text,
    zone_file: Text,
    states_only: bool,
}

impl Model for Words {
    ghost use Rattle.std.specs.Coded.{codes};
    ghost use Rattle.bf_views.specs.Pages.{PageWords};

    ghost Value = { PageWords };

    ghost coded = { Prim.hlevel codes };

    ghost view = { λ w. record {
      graph_path = w.graph;
      report_path = w.report;
      zone_path = w.zone_file;
      states_only = w.states_only;
    } };
}

/// Copies a path; empty where none is named.
fn text_or_empty(alloc: Global, path: &Option<String>) -> Result<Text, OutOfMemory>
    ensures { IfOk result (λ text. text ≡ unwrap_or (option_map string_bytes path.now) []) }
{
    match path {
        Some(path) => Text::copy_of(alloc, path.as_str()),
        None => Ok(Text::new(String::new(alloc))),
    }
}

impl Words {
    /// Copies what the line puts on its page: the paths, empty for a zone file that isn't named, and whether the
    /// report's text is left out.
    fn of(alloc: Global, asked: &PageAsked) -> Result<Words, OutOfMemory>
        ensures { IfOk result (λ words. words ≡ words_asked asked.now) }
    {
        Ok(Words {
            graph: Text::copy_of(alloc, asked.graph.graph.as_str())?,
            report: Text::copy_of(alloc, asked.report.as_str())?,
            zone_file: text_or_empty(alloc, &asked.graph.zone_file)?,
            states_only: asked.states_only,
        })
    }

    /// Gives the report's text as the page has it: all of it, or nothing where only states are shown or it is longer
    /// than 134,217,728 bytes.
    fn report_as_shown<'a>(&self, report: &'a [u8]) -> &'a [u8]
        ensures { result.now ≡ report_shown self.now.states_only report.entry.now }
    {
        if self.states_only || report.len() > LONGEST_REPORT {
            &[]
        } else {
            report
        }
    }
}

/// Writes the page of a report with its plan and graph file. `times` is the text of a journal's times, empty for none.
/// `Err` where `out` fails, or `OutOfMemory` at want of memory or for a page too long to count its bytes.
fn write_report_page<W: Write>(
    alloc: Global,
    words: &Words,
    planned: &Planned,
    report: &Report,
    times: &str,
    out: &mut W,
) -> Result<(), CommandFault>
    requires rules { IsShownReport report.now }
    requires matches { is_of_graph planned.now.timed.plan.dag report.now ≡ true }
    ensures page { OnOk result (Sends
        (IsPage words.now planned.now.graph.items planned.now.timed.plan.dag report.now times.now)
        (W.written out.old) (W.written out.new)) }
    ensures fault { IfErr result IsWanting }
    ensures left { IfErr result (Leaves (HasHalted (W.failures out.old) (W.failures out.new)
        (W.interruptions out.old) (W.interruptions out.new))
        (IsPage words.now planned.now.graph.items planned.now.timed.plan.dag report.now times.now)
        (W.written out.old) (W.written out.new)) }
{
    let bytes = report_bytes(alloc, report)?;
    let cells = cells_of(alloc, &planned.timed.plan, report, bytes.len() as u64)?;
    let texts = PageTexts {
        graph_path: words.graph.as_str(),
        report_path: words.report.as_str(),
        zone_path: words.zone_file.as_str(),
        cells: cells.as_str(),
        graph: &planned.graph,
        report: words.report_as_shown(&bytes),
        times,
    };
    if !can_be_counted(&texts) {
        return Err(CommandFault::OutOfMemory);
    }
    write_page(&texts, out)?;
    Ok(())
}

/// Writes the page of a report, with the times of the journal at the path `journal` where one is named. `Err` where
/// report or journal is of another graph, the journal can't be read, `out` fails, or memory runs out.
fn write_page_if_matching<S: Source, W: Write>(
    alloc: Global,
    words: &Words,
    planned: &Planned,
    report: &Report,
    journal: Option<String>,
    files: &mut S,
    out: &mut W,
) -> Result<Status, CommandFault>
    requires { IsShownReport report.now }
    ensures answer { (asked : PageAsked) → IsReadForPage (S.file files.old) asked words.now
        planned.now report.now (option_map string_bytes journal)
        → IfOk result (λ status. Sends (λ text. IsPageAnswer (S.file files.old) asked text status)
        (W.written out.old) (W.written out.new)) }
    ensures fault { (asked : PageAsked) → IsReadForPage (S.file files.old) asked words.now
        planned.now report.now (option_map string_bytes journal)
        → IfErr result (IsPageFault (S.file files.old) asked) }
    ensures left { (asked : PageAsked) → IsReadForPage (S.file files.old) asked words.now
        planned.now report.now (option_map string_bytes journal)
        → IfErr result (Leaves (HasHalted (W.failures out.old) (W.failures out.new)
        (W.interruptions out.old) (W.interruptions out.new))
        (λ text. (status : Status) × IsPageAnswer (S.file files.old) asked text status)
        (W.written out.old) (W.written out.new)) }
{
    refuse_other_graph(alloc, planned.timed.plan.dag(), report)?;
    let times = read_times(alloc, journal, &planned.timed.plan, report, files)?;
    write_report_page(alloc, words, planned, report, times.as_str(), out)?;
    Ok(Status::Success)
}

/// Does `page`: writes a page that shows a report of the graph, of `single` or of any range, with the times of a
/// journal where one is named. `Err` where the graph, the report or the journal is refused, checked in this order; also
/// where `out` fails or memory runs out. At `Err`, `out` got nothing but the bytes that `CannotWrite` counts.
pub fn answer_page<S: Source, W: Write>(
    alloc: Global,
    asked: PageAsked,
    files: &mut S,
    out: &mut W,
) -> Result<Status, CommandFault>
    ensures answer { IfOk result (λ status. Sends
        (λ text. IsPageAnswer (S.file files.old) asked text status)
        (W.written out.old) (W.written out.new)) }
    ensures fault { IfErr result (IsPageFault (S.file files.old) asked) }
    ensures left { IfErr result (Leaves (HasHalted (W.failures out.old) (W.failures out.new)
        (W.interruptions out.old) (W.interruptions out.new))
        (λ text. (status : Status) × IsPageAnswer (S.file files.old) asked text status)
        (W.written out.old) (W.written out.new)) }
{
    let words = Words::of(alloc, &asked)?;
    let planned = read_plan(alloc, asked.graph, files)?;
    let report = read_report_file(alloc, asked.report, files)?;
    let written = write_page_if_matching(
        alloc,
        &words,
        &planned,
        &report,
        asked.journal,
        files,
        out,
    );
    drop(report);
    drop(planned);
    written
}
