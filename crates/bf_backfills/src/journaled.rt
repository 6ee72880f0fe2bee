//! Backfills that record their tries in a journal, which is opened before the first of them.
ghost use Rattle.std.specs.Prelude.{◌≡◌, [], Bool, IfErr, IfOk, option_map, string_bytes};
ghost use Rattle.bf_clear.specs.Keeping.{kept_in};
ghost use Rattle.bf_kept.specs.Kept.{AreFit, nothing};
ghost use Rattle.bf_journal.specs.Heads.{head_text};
ghost use Rattle.bf_process.specs.Words.{MayAnswer, launching_of};
ghost use Rattle.bf_device.specs.Device.{HasHalted};
ghost use Rattle.bf_command_fault.specs.Refusal.{Leaves, Sends};
ghost use Rattle.bf_commands.specs.Cleared.{MayAnswerBy};
ghost use Rattle.bf_commands.specs.Programs.{launched_in};
ghost use Rattle.bf_backfills.specs.Commands.{IsRunReportBy, OfJournal};
ghost use Rattle.bf_input.specs.Inputs.{bytes_of};
ghost use Rattle.bf_backfills.specs.inner.Journals.{IsFaultOfJournaledBackfill, IsFaultOfOpening, IsFaultOfReadRun, IsFaultOfRecordedRun, IsReportOver, journaled_fault, of_open};

use bf_command_fault::{CommandFault, StopFault};
use bf_command_line::JournalAsked;
use bf_commands::{
    Clearing, Crew, Journal, Recorded, Screen, record_programs, record_resumed_report, run_programs,
};
use bf_device::Write;
use bf_disk::{Journals, OpenFault};
use bf_input::GraphFiles;
use bf_journal::{ClearedTask, Cuttable, JournalFault, head_of};
use bf_planning::{DatedPlan, RunRange, dated_plan_in};
use bf_process::Starter;
use bf_table::Table;
use bf_value::Text;
use std::alloc::Global;
use std::sync::Wait;
use std::thread::Threads;
use std::time::Clock;

/// Gives the command's fault where the journal at `path` can't be opened: unreadable, in use, of another backfill, or
/// want of memory.
fn fault_of_opening(path: String, fault: OpenFault) -> CommandFault
    ensures { result ≡ of_open (string_bytes path) fault }
{
    match fault {
        OpenFault::CannotRead => CommandFault::CannotRead(Text::new(path)),
        OpenFault::InUse => CommandFault::JournalInUse,
        OpenFault::OfAnother => CommandFault::Journal(JournalFault::Mismatch),
        OpenFault::OutOfMemory => CommandFault::OutOfMemory,
    }
}

/// Names the journal's `path` in a fault: a try that can't be recorded becomes `CannotWriteFile(path)`; any other fault
/// stays as it is.
fn fault_at_journal(fault: CommandFault, path: String) -> CommandFault
    ensures { result ≡ journaled_fault (string_bytes path) fault }
{
    match fault {
        CommandFault::Stopped(StopFault::CannotRecord) => {
            CommandFault::CannotWriteFile(Text::new(path))
        }
        fault => fault,
    }
}

/// An open journal, and its path as the line spells it.
#[derive(Drop)]
struct NamedJournal<D: Cuttable + Drop> {
    journal: Journal<D>,
    path: String,
}

/// Opens the journal that is asked for, or makes it, locks it, and reads all that it holds, its head first. `Err` where it
/// can't be opened, locked or read, has another head, another backfill has it open, or memory runs out.
fn open_named_journal<J: Journals>(
    journals: &J,
    alloc: Global,
    asked: JournalAsked,
    head: &[u8],
) -> Result<NamedJournal<J::Device>, CommandFault>
    ensures held { IfOk result (λ named. OfJournal (J.journal journals.now) asked
        (λ held. named.journal.held.items ≡ held)) }
    ensures stop_after { IfOk result (λ named. named.journal.stop_after ≡ asked.stop_after) }
    ensures retry_failed { IfOk result (λ named. named.journal.retry_failed ≡ asked.retry_failed) }
    ensures path { IfOk result (λ named. string_bytes named.path ≡ string_bytes asked.path) }
    ensures fault { IfErr result (IsFaultOfOpening (J.journal journals.now) asked head.now) }
{
    let JournalAsked {
        path,
        stop_after,
        retry_failed,
    } = asked;
    match journals.open_journal(alloc, path.as_str(), head) {
        Ok(opened) => Ok(NamedJournal {
            journal: Journal {
                held: opened.held,
                device: opened.device,
                stop_after,
                retry_failed,
            },
            path,
        }),
        Err(fault) => Err(fault_of_opening(path, fault)),
    }
}

/// Opens the journal that is asked for, as `open_named_journal` does, for a backfill that clears these tasks.
fn open_journal_of<J: Journals>(
    journals: &J,
    alloc: Global,
    asked: JournalAsked,
    dated: &DatedPlan,
    cleared: &[ClearedTask],
) -> Result<NamedJournal<J::Device>, CommandFault>
    ensures held { IfOk result (λ named. OfJournal (J.journal journals.now) asked
        (λ held. named.journal.held.items ≡ held)) }
    ensures stop_after { IfOk result (λ named. named.journal.stop_after ≡ asked.stop_after) }
    ensures retry_failed { IfOk result (λ named. named.journal.retry_failed ≡ asked.retry_failed) }
    ensures path { IfOk result (λ named. string_bytes named.path ≡ string_bytes asked.path) }
    ensures fault { IfErr result (IsFaultOfOpening (J.journal journals.now) asked
        (head_text dated.now.plan.dag dated.now.runs cleared.now)) }
{
    let head = head_of(alloc, &dated.plan, &dated.runs, cleared)?;
    open_named_journal(journals, alloc, asked, head.as_bytes())
}

/// Opens the journal, starts the programs of the tries that it doesn't keep, records these, and writes the report; true
/// where every run succeeded. `Err` where the journal is refused, the backfill stops early, `out` fails, or memory runs
/// out.
fn record_dated_run<RT, J: Journals, W>(
    crew: &Crew<'_, RT>,
    dated: &DatedPlan,
    asked: JournalAsked,
    journals: &J,
    out: &mut W,
) -> Result<bool, CommandFault>
where
    RT: Starter + Screen + Threads + Wait + Clock + Sync,
    J::Device: Send,
    W: Write,
    ensures ok { IfOk result (λ success. Sends
        (λ text. IsReportOver (J.journal journals.now) asked nothing []
        (MayAnswer (launched_in dated.now (launching_of crew.now.launching)
        (RT.may_hear crew.now.rt.now)) dated.now.plan.dag dated.now.runs)
        dated.now.plan.dag dated.now.runs text success) (W.written out.old) (W.written out.new)) }
    ensures fault { IfErr result (IsFaultOfJournaledBackfill (J.journal journals.now) asked nothing
        [] (launching_of crew.now.launching).logs dated.now.plan.dag dated.now.runs) }
    ensures left { IfErr result (Leaves (HasHalted (W.failures out.old) (W.failures out.new)
        (W.interruptions out.old) (W.interruptions out.new))
        (λ text. (success : Bool) × IsReportOver (J.journal journals.now) asked nothing []
        (MayAnswer (launched_in dated.now (launching_of crew.now.launching)
        (RT.may_hear crew.now.rt.now)) dated.now.plan.dag dated.now.runs)
        dated.now.plan.dag dated.now.runs text success) (W.written out.old) (W.written out.new)) }
{
    let opened = open_journal_of(journals, crew.alloc, asked, dated, &[])?;
    let NamedJournal { journal, path } = opened;
    let Recorded { report, device: _ } = record_programs(crew, dated, journal, out);
    match report {
        Ok(success) => Ok(success),
        Err(fault) => Err(fault_at_journal(fault, path)),
    }
}

/// Does `run` with a journal, which it opens only once graph and range are found good: starts programs, records their
/// tries, and writes the report; true where every run succeeded. `Err` where graph, range or journal is refused, the
/// backfill stops early, `out` fails, or memory runs out.
fn record_run<RT, J: Journals, W>(
    crew: &Crew<'_, RT>,
    files: &GraphFiles,
    range: RunRange,
    asked: JournalAsked,
    journals: &J,
    out: &mut W,
) -> Result<bool, CommandFault>
where
    RT: Starter + Screen + Threads + Wait + Clock + Sync,
    J::Device: Send,
    W: Write,
    ensures ok { IfOk result (λ success. Sends
        (λ text. IsRunReportBy (launching_of crew.now.launching) (RT.may_hear crew.now.rt.now)
        (J.journal journals.now) (Some asked) range files.now.graph.items
        (bytes_of files.now.zone_file) text success)
        (W.written out.old) (W.written out.new)) }
    ensures fault { IfErr result (IsFaultOfRecordedRun (launching_of crew.now.launching).logs
        (J.journal journals.now) asked range
        files.now.graph.items (bytes_of files.now.zone_file)) }
    ensures left { IfErr result (Leaves (HasHalted (W.failures out.old) (W.failures out.new)
        (W.interruptions out.old) (W.interruptions out.new))
        (λ text. (success : Bool) × IsRunReportBy (launching_of crew.now.launching)
        (RT.may_hear crew.now.rt.now)
        (J.journal journals.now) (Some asked) range files.now.graph.items
        (bytes_of files.now.zone_file) text success)
        (W.written out.old) (W.written out.new)) }
{
    let dated = dated_plan_in(crew.alloc, &files.graph, files.zone_file(), range)?;
    record_dated_run(crew, &dated, asked, journals, out)
}

/// Does `run` over files that were read: starts programs, records their tries where a journal is named, and writes the
/// report; true where every run succeeded. `Err` where graph, range or journal is refused, the backfill stops early,
/// `out` fails, or memory runs out.
pub(crate) fn write_run_report<RT, J: Journals, W>(
    crew: &Crew<'_, RT>,
    files: &GraphFiles,
    range: RunRange,
    journal: Option<JournalAsked>,
    journals: &J,
    out: &mut W,
) -> Result<bool, CommandFault>
where
    RT: Starter + Screen + Threads + Wait + Clock + Sync,
    J::Device: Send,
    W: Write,
    ensures ok { IfOk result (λ success. Sends
        (λ text. IsRunReportBy (launching_of crew.now.launching) (RT.may_hear crew.now.rt.now)
        (J.journal journals.now) journal range files.now.graph.items (bytes_of files.now.zone_file)
        text success)
        (W.written out.old) (W.written out.new)) }
    ensures fault { IfErr result (IsFaultOfReadRun (launching_of crew.now.launching)
        (RT.may_lose crew.now.rt.now)
        (J.journal journals.now) journal range files.now.graph.items
        (bytes_of files.now.zone_file)) }
    ensures left { IfErr result (Leaves (HasHalted (W.failures out.old) (W.failures out.new)
        (W.interruptions out.old) (W.interruptions out.new))
        (λ text. (success : Bool) × IsRunReportBy (launching_of crew.now.launching)
        (RT.may_hear crew.now.rt.now)
        (J.journal journals.now) journal range files.now.graph.items (bytes_of files.now.zone_file)
        text success)
        (W.written out.old) (W.written out.new)) }
{
    match journal {
        Some(journal) => record_run(crew, files, range, journal, journals, out),
        None => run_programs(crew, &files.graph, files.zone_file(), range, out),
    }
}

/// Opens the journal, takes each try from it or else from what is kept of the report, makes and records the others, and
/// writes the new report; true where every run succeeded. `answers` answers them; None starts programs. `Err` where the
/// journal is refused, the backfill stops early, `out` fails, or memory runs out.
pub(crate) fn record_clearing<RT, J: Journals, W>(
    crew: &Crew<'_, RT>,
    clearing: &Clearing<'_>,
    answers: Option<Table>,
    asked: JournalAsked,
    journals: &J,
    out: &mut W,
) -> Result<bool, CommandFault>
where
    RT: Starter + Screen + Threads + Wait + Clock + Sync,
    J::Device: Send,
    W: Write,
    requires { AreFit clearing.now.dated.now.plan.dag (kept_in clearing.now.kept) }
    ensures ok { IfOk result (λ success. Sends (λ text. IsReportOver (J.journal journals.now) asked
        (kept_in clearing.now.kept) clearing.now.cleared.items
        (MayAnswerBy (launched_in clearing.now.dated.now (launching_of crew.now.launching)
        (RT.may_hear crew.now.rt.now)) answers clearing.now.dated.now.plan.dag
        clearing.now.dated.now.runs)
        clearing.now.dated.now.plan.dag clearing.now.dated.now.runs text success)
        (W.written out.old) (W.written out.new)) }
    ensures fault { IfErr result (IsFaultOfJournaledBackfill (J.journal journals.now) asked
        (kept_in clearing.now.kept) clearing.now.cleared.items
        (launching_of crew.now.launching).logs
        clearing.now.dated.now.plan.dag clearing.now.dated.now.runs) }
    ensures left { IfErr result (Leaves (HasHalted (W.failures out.old) (W.failures out.new)
        (W.interruptions out.old) (W.interruptions out.new))
        (λ text. (success : Bool) × IsReportOver (J.journal journals.now) asked
        (kept_in clearing.now.kept) clearing.now.cleared.items
        (MayAnswerBy (launched_in clearing.now.dated.now (launching_of crew.now.launching)
        (RT.may_hear crew.now.rt.now)) answers clearing.now.dated.now.plan.dag
        clearing.now.dated.now.runs)
        clearing.now.dated.now.plan.dag clearing.now.dated.now.runs text success)
        (W.written out.old) (W.written out.new)) }
{
    let opened = open_journal_of(
        journals,
        crew.alloc,
        asked,
        clearing.dated,
        &clearing.cleared,
    )?;
    let NamedJournal { journal, path } = opened;
    let Recorded { report, device: _ } = record_resumed_report(
        crew, clearing, answers, journal, out,
    );
    match report {
        Ok(success) => Ok(success),
        Err(fault) => Err(fault_at_journal(fault, path)),
    }
}
