//! The command `clear`: a backfill that goes on from its report, where some tasks in runs are cleared with all that follows from them. Where
//! nothing is, it is `run --keep` and `dry --keep`.
ghost use Rattle.std.specs.Prelude.{◌≡◌, ℕ, Bool, List, Some, IfOk, IfErr, OnOk, option_map, string_bytes};
ghost use Rattle.bf_device.specs.Device.{HasHalted};
ghost use Rattle.bf_table.specs.Tables.{table_in};
ghost use Rattle.bf_commands.specs.Cleared.{IsPrepared};
ghost use Rattle.bf_commands.specs.OverTable.{is_single_threaded_in};
ghost use Rattle.bf_process.specs.Words.{launching_of};
ghost use Rattle.bf_planning.specs.Clocks.{clocks_in};
ghost use Rattle.bf_commands.specs.Programs.{launched_in, with_clocks};
ghost use Rattle.bf_command_fault.specs.Refusal.{Leaves, Sends};
ghost use Rattle.bf_command_fault.specs.declared.status.Status.{Status};
ghost use Rattle.bf_disk.specs.Files.{AreReadable};
ghost use Rattle.bf_input.specs.Inputs.{OfFilesAndNamedTable, clear_paths, AreAlike, IsReadingFault, bytes_of};
ghost use Rattle.bf_backfills.specs.Commands.{IsClearAnswer, IsLaunchable, MeansRange, launcher_used_of, machine_of};
ghost use Rattle.bf_backfills.specs.CommandFaults.{IsClearFault};
ghost use Rattle.bf_input.specs.inner.Inputs.{IsReadOf};
ghost use Rattle.bf_backfills.specs.inner.CommandFaults.{IsFaultOfAsked};
ghost use Rattle.bf_backfills.specs.inner.Files.{IsFaultBeforeClearing, IsOfBytes, IsPreparingFault};
ghost use Rattle.bf_backfills.specs.inner.Journals.{IsFaultAfterBy, IsFaultSince, IsReportAfterBy};
ghost use Rattle.bf_backfills.specs.inner.Named.{IsReadFor, MeansNamed, path_of};

use crate::journaled::record_clearing;
use crate::launching::{launching_asked, path_named, refuse_unstartable_launcher, tells_asked};
use crate::named::{ToClearInRange, UnreadToClear, meaning_of, read_to_clear};
use bf_command_fault::{CommandFault, Status};
use bf_command_line::{ClearAsked, GraphAsked, JournalAsked};
use bf_commands::{
    Crew, Prepared, Screen, ToClear, clear_in_report, prepare_backfill, write_resumed_report,
};
use bf_device::Write;
use bf_disk::{Journals, Launchers, Source};
use bf_input::{GraphFiles, read_graph_files, read_named_table, read_report_file};
use bf_planning::DatedPlan;
use bf_process::Starter;
use bf_report::Report;
use bf_table::Table;
use std::alloc::Global;
use std::sync::Wait;
use std::thread::Threads;
use std::time::Clock;

/// The launcher that is named; None where there is none, or a table is named, since a table starts no program.
fn launcher_used<'a>(table: &Option<String>, launcher: &'a Option<String>) -> Option<&'a str>
    ensures { option_map (λ l. l.now) result ≡ launcher_used_of table.now launcher.entry.now }
{
    match table {
        Some(_) => None,
        None => path_named(launcher),
    }
}

/// Reads the moments of a `clear` line, and then checks that its launcher can be started, unless a table is named.
/// Reads no file. `Err` where a text is no moment, the launcher can't be started, or memory runs out.
fn check_asked<L: Launchers>(
    launchers: &L,
    alloc: Global,
    asked: &ClearAsked,
) -> Result<ToClearInRange, CommandFault>
    ensures range { IfOk result (λ meant. MeansRange asked.now.range meant.range) }
    ensures named { IfOk result (λ meant. MeansNamed asked.now.cleared meant.named) }
    ensures launchable { OnOk result (IsLaunchable (L.startable launchers.now)
        (launcher_used_of asked.now.table asked.now.launcher)) }
    ensures fault { IfErr result (IsFaultOfAsked (L.startable launchers.now) asked.now) }
{
    let meant = meaning_of(alloc, &asked.range, &asked.cleared)?;
    let launcher = launcher_used(&asked.table, &asked.launcher);
    refuse_unstartable_launcher(launchers, alloc, launcher)?;
    Ok(meant)
}

/// What was read for `clear`, unchecked: the graph, zone and table files, and what is to be cleared. The report isn't
/// read yet.
#[derive(Drop)]
struct ClearFiles {
    graph: GraphFiles,
    table: Option<Vec<u8>>,
    what: ToClear,
}

impl ClearFiles {
    /// The bytes of the table's file; None where none was named.
    fn table(&self) -> Option<&[u8]>
        ensures { option_map (λ s. s.now) result ≡ bytes_of self.now.table }
    {
        self.table.as_deref()
    }
}

/// Reads the graph file, and where they are named, in this order, the zone file, the table and the seeds file. Checks
/// nothing in them, and doesn't read the report. `Err` where one can't be read, or at want of memory.
fn read_clear_files<S: Source>(
    alloc: Global,
    graph: GraphAsked,
    table: Option<String>,
    named: UnreadToClear,
    files: &mut S,
) -> Result<ClearFiles, CommandFault>
    ensures alike { IfOk result (λ f. OfFilesAndNamedTable (S.file files.old) graph
        (option_map string_bytes table) (λ held zone other.
        AreAlike f.graph.graph.items held (bytes_of f.graph.zone_file) zone
        × (option_map table_in (bytes_of f.table) ≡ option_map table_in other))) }
    ensures what { IfOk result (λ f. IsReadFor (S.file files.old) named f.what) }
    ensures readable { OnOk result
        (AreReadable (S.file files.old)
        (clear_paths graph (option_map string_bytes table) (path_of named))) }
    ensures fault { IfErr result (IsReadingFault (S.file files.old)
        (clear_paths graph (option_map string_bytes table) (path_of named))) }
    ensures stays { (p : List ℕ) → S.file files.new p ≡ S.file files.old p }
{
    let graph = read_graph_files(alloc, graph, files)?;
    let table = read_named_table(alloc, table, files)?;
    let what = read_to_clear(alloc, named, files)?;
    Ok(ClearFiles { graph, table, what })
}

/// What is known before the report of a `clear` is read: the plan, its runs, the table's answers, and what is to be
/// cleared.
#[derive(Drop)]
struct PreparedToClear {
    prepared: Prepared,
    what: ToClear,
}

/// Reads the graph, zone, table and seeds files that are named, and then checks graph, table and range in this order.
/// Reads no report, and doesn't check what is to be cleared. `Err` at the first that is refused, where a file can't be
/// read, or at want of memory.
fn read_and_prepare<S: Source>(
    alloc: Global,
    graph: GraphAsked,
    table: Option<String>,
    meant: ToClearInRange,
    files: &mut S,
) -> Result<PreparedToClear, CommandFault>
    ensures said { IfOk result (λ p. IsOfBytes (S.file files.old) graph
        (option_map string_bytes table) (λ bytes zone entries.
        IsPrepared bytes zone entries meant.range p.prepared.dated.plan.dag p.prepared.dated.runs
        (clocks_in p.prepared.dated) p.prepared.answers)) }
    ensures what { IfOk result (λ p. IsReadFor (S.file files.old) meant.named p.what) }
    ensures readable { OnOk result
        (AreReadable (S.file files.old)
        (clear_paths graph (option_map string_bytes table) (path_of meant.named))) }
    ensures fault { IfErr result (IsPreparingFault (S.file files.old) graph
        (option_map string_bytes table) (path_of meant.named) meant.range) }
    ensures stays { (p : List ℕ) → S.file files.new p ≡ S.file files.old p }
{
    let read = read_clear_files(alloc, graph, table, meant.named, files)?;
    let prepared = prepare_backfill(
        alloc,
        &read.graph.graph,
        read.graph.zone_file(),
        read.table(),
        meant.range,
    )?;
    Ok(PreparedToClear {
        prepared,
        what: read.what,
    })
}

/// All that `clear` needs: the plan, its runs, the table's answers, what is to be cleared, and the report.
#[derive(Drop)]
pub(crate) struct ReadyToClear {
    pub(crate) prepared: Prepared,
    pub(crate) what: ToClear,
    pub(crate) report: Report,
}

/// Reads the graph, zone, table and seeds files that are named, checks graph, table and range, and then reads the file
/// at `report`. Doesn't check yet that what is to be cleared is in it. `Err` at the first that is refused, where a file
/// can't be read, or at want of memory.
pub(crate) fn read_with_report<S: Source>(
    alloc: Global,
    graph: GraphAsked,
    table: Option<String>,
    meant: ToClearInRange,
    report: String,
    files: &mut S,
) -> Result<ReadyToClear, CommandFault>
    ensures said { IfOk result (λ r. IsOfBytes (S.file files.old) graph
        (option_map string_bytes table) (λ bytes zone entries.
        IsPrepared bytes zone entries meant.range r.prepared.dated.plan.dag r.prepared.dated.runs
        (clocks_in r.prepared.dated) r.prepared.answers)) }
    ensures what { IfOk result (λ r. IsReadFor (S.file files.old) meant.named r.what) }
    ensures report { IfOk result (λ r. IsReadOf (S.file files.old (string_bytes report))
        r.report) }
    ensures readable { OnOk result
        (AreReadable (S.file files.old)
        (clear_paths graph (option_map string_bytes table) (path_of meant.named))) }
    ensures fault { IfErr result (IsFaultBeforeClearing (S.file files.old) graph
        (option_map string_bytes table) meant.named meant.range (string_bytes report)) }
{
    let ready = read_and_prepare(alloc, graph, table, meant, files)?;
    let report = read_report_file(alloc, report, files)?;
    Ok(ReadyToClear {
        prepared: ready.prepared,
        what: ready.what,
        report,
    })
}

/// Clears `what` in the report, then opens the journal, makes and records each try that neither keeps, and writes the
/// new report; true where every run succeeded. `answers` answers these tries; None starts programs. `Err` where the
/// report, what to clear, or the journal is refused, the backfill stops early, `out` fails, or memory runs out.
fn clear_and_record<RT, J: Journals, W: Write>(
    crew: &Crew<'_, RT>,
    dated: &DatedPlan,
    answers: Option<Table>,
    report: Report,
    what: ToClear,
    journal: JournalAsked,
    journals: &J,
    out: &mut W,
) -> Result<bool, CommandFault>
where
    RT: Starter + Screen + Threads + Wait + Clock + Sync,
    J::Device: Send,
    ensures ok { IfOk result (λ success. Sends
        (λ text. IsReportAfterBy (launched_in dated.now (launching_of crew.now.launching)
        (RT.may_hear crew.now.rt.now))
        (J.journal journals.now) (Some journal) answers dated.now.plan.dag dated.now.runs
        report what text success) (W.written out.old) (W.written out.new)) }
    ensures fault { IfErr result (IsFaultSince (launching_of crew.now.launching).logs
        (J.journal journals.now) dated.now.plan.dag dated.now.runs report what journal) }
    ensures left { IfErr result (Leaves (HasHalted (W.failures out.old) (W.failures out.new)
        (W.interruptions out.old) (W.interruptions out.new))
        (λ text. (success : Bool) × IsReportAfterBy
        (launched_in dated.now (launching_of crew.now.launching) (RT.may_hear crew.now.rt.now))
        (J.journal journals.now) (Some journal) answers dated.now.plan.dag dated.now.runs
        report what text success) (W.written out.old) (W.written out.new)) }
{
    let clearing = clear_in_report(crew.alloc, dated, report, what)?;
    record_clearing(crew, &clearing, answers, journal, journals, out)
}

/// Clears in the report what is asked for, makes the tries that aren't kept, in a journal where one is named, and
/// writes the new report; true where every run succeeded. `Err` where the report, what to clear, or the journal is
/// refused, the backfill stops early, `out` fails, or memory runs out.
fn resume_report<RT, J: Journals, W: Write>(
    crew: &Crew<'_, RT>,
    ready: ReadyToClear,
    journal: Option<JournalAsked>,
    journals: &J,
    out: &mut W,
) -> Result<bool, CommandFault>
where
    RT: Starter + Screen + Threads + Wait + Clock + Sync,
    J::Device: Send,
    ensures ok { IfOk result (λ success. Sends
        (λ text. IsReportAfterBy
        (launched_in ready.prepared.dated (launching_of crew.now.launching)
        (RT.may_hear crew.now.rt.now))
        (J.journal journals.now) journal ready.prepared.answers ready.prepared.dated.plan.dag
        ready.prepared.dated.runs ready.report ready.what text success) (W.written out.old)
        (W.written out.new)) }
    ensures fault { IfErr result (IsFaultAfterBy (is_single_threaded_in crew.now.progress)
        (with_clocks (launching_of crew.now.launching) (clocks_in ready.prepared.dated))
        (RT.may_lose crew.now.rt.now) (J.journal journals.now) journal
        ready.prepared.answers ready.prepared.dated.plan.dag ready.prepared.dated.runs
        ready.report ready.what) }
    ensures left { IfErr result (Leaves (HasHalted (W.failures out.old) (W.failures out.new)
        (W.interruptions out.old) (W.interruptions out.new))
        (λ text. (success : Bool) × IsReportAfterBy
        (launched_in ready.prepared.dated (launching_of crew.now.launching)
        (RT.may_hear crew.now.rt.now))
        (J.journal journals.now) journal ready.prepared.answers ready.prepared.dated.plan.dag
        ready.prepared.dated.runs ready.report ready.what text success) (W.written out.old)
        (W.written out.new)) }
{
    let ReadyToClear {
        prepared,
        what,
        report,
    } = ready;
    match journal {
        Some(journal) => {
            let Prepared { dated, answers } = prepared;
            clear_and_record(crew, &dated, answers, report, what, journal, journals, out)
        }
        None => write_resumed_report(crew, prepared, report, what, out),
    }
}

/// Does `clear`, or `run --keep` and `dry --keep`, which clear nothing: makes the tries that aren't kept, records them
/// where a journal is named, and writes the new report. `Err` where a moment is bad, the launcher can't be started, a
/// file other than the report can't be read, or the graph, the table, the range, the report's lines, what to clear, a
/// report of another graph or range, or the journal is refused, checked in this order; also where the backfill stops
/// early, `out` fails, or memory runs out. At `Err`, `out` got nothing but the bytes that `CannotWrite` counts.
pub fn answer_clear<
    RT: Starter + Screen + Threads + Wait + Clock + Sync,
    J: Journals + Launchers,
    S: Source,
    W: Write,
>(
    rt: &RT,
    alloc: Global,
    asked: ClearAsked,
    files: &mut S,
    journals: &J,
    out: &mut W,
) -> Result<Status, CommandFault>
where
    J::Device: Send,
    ensures answer { IfOk result (λ status. Sends
        (λ text. IsClearAnswer (RT.may_hear rt.now) (S.file files.old)
        (machine_of (J.journal journals.now) (J.startable journals.now)) asked text status)
        (W.written out.old) (W.written out.new)) }
    ensures fault { IfErr result (IsClearFault (RT.may_lose rt.now) (S.file files.old)
        (machine_of (J.journal journals.now) (J.startable journals.now)) asked) }
    ensures left { IfErr result (Leaves (HasHalted (W.failures out.old) (W.failures out.new)
        (W.interruptions out.old) (W.interruptions out.new))
        (λ text. (status : Status)
        × IsClearAnswer (RT.may_hear rt.now) (S.file files.old)
        (machine_of (J.journal journals.now) (J.startable journals.now)) asked text status)
        (W.written out.old) (W.written out.new)) }
{
    let meant = check_asked(journals, alloc, &asked)?;
    let ready = read_with_report(alloc, asked.graph, asked.table, meant, asked.report, files)?;
    let (launcher, logs) = (asked.launcher, asked.logs);
    let by_programs = ready.prepared.answers.is_none();
    let tells = tells_asked(rt, by_programs, asked.quiet, asked.progress, logs.is_some());
    let crew = Crew::new(rt, alloc, asked.workers, asked.progress).with_launching(
        launching_asked(&launcher, &logs),
        tells,
    );
    resume_report(&crew, ready, asked.journal, journals, out).map(Status::of_runs)
}
