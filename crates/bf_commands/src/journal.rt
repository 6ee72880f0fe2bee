//! The journal of a backfill: what is kept of it, and what stands in it when the first try begins.
ghost use Rattle.std.specs.Prelude.{◌≡◌, IfErr, IfOk};
ghost use Rattle.std.specs.FinMap;
ghost use Rattle.bf_kept.specs.Kept.{AreFit};
ghost use Rattle.bf_journal.specs.Heads.{head_text};
ghost use Rattle.bf_journal.specs.Left.{IsLeftPart, IsMadeWhole};
ghost use Rattle.bf_commands.specs.Journaled.{HasTries};
ghost use Rattle.bf_commands.specs.inner.Journaled.{IsFaultOfJournal};

use crate::telling::tell_found;
use bf_command_fault::{CommandFault, StopFault};
use bf_interval::Runs;
use bf_journal::{ClearedTask, Cuttable, head_of, read_journal, try_make_whole};
use bf_plan::Plan;
use bf_progress::Screen;
use bf_try::Ledger;
use std::alloc::Global;

/// An open journal, and how a backfill uses it.
#[derive(Drop)]
pub struct Journal<D: Cuttable + Drop> {
    /// The journal's bytes when it was opened.
    pub held: Vec<u8>,
    /// Appends to the journal.
    pub device: D,
    /// After how many failed tries no further one begins; None for any number.
    pub stop_after: Option<u32>,
    /// Whether recorded tries that failed are made again.
    pub retry_failed: bool,
}

/// Reads a journal's tries and mends its file: cuts off an unfinished last line, or writes the head where no line is
/// whole. Tells on the screen what it found. `Err` where the journal is of another backfill, a whole line is no record,
/// its device fails, or memory runs out.
pub(crate) fn read_and_mend_journal<RT: Screen, D: Cuttable + Drop>(
    rt: &RT,
    alloc: Global,
    plan: &Plan,
    runs: &Runs,
    cleared: &[ClearedTask],
    journal: &mut Journal<D>,
) -> Result<Ledger, CommandFault>
    ensures tries { IfOk result (λ tries. HasTries plan.now.dag runs.now cleared.now
        journal.old.held.items (FinMap.get tries)) }
    ensures fit { IfOk result (λ tries. AreFit plan.now.dag (FinMap.get tries)) }
    ensures fault { IfErr result (IsFaultOfJournal plan.now.dag runs.now cleared.now
        journal.old.held.items) }
    ensures made_whole { IfOk result
        (λ tries. IsMadeWhole plan.now.dag runs.now (head_text plan.now.dag runs.now cleared.now)
        journal.old.held.items (FinMap.get tries) (D.written journal.old.device)
        (D.written journal.new.device)) }
    ensures part { IfErr result (λ _. IsLeftPart (head_text plan.now.dag runs.now cleared.now)
        journal.old.held.items (D.written journal.old.device) (D.written journal.new.device)) }
    ensures stop_after { journal.new.stop_after ≡ journal.old.stop_after }
    ensures retry_failed { journal.new.retry_failed ≡ journal.old.retry_failed }
{
    let head = head_of(alloc, plan, runs, cleared)?;
    let found = read_journal(alloc, plan, runs, head.as_bytes(), &journal.held)?;
    if !try_make_whole(&mut journal.device, head.as_bytes(), &found) {
        return Err(CommandFault::Stopped(StopFault::CannotRecord));
    }
    tell_found(rt, alloc, &journal.held, &found);
    Ok(found.tries)
}
