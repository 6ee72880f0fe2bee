//! What is found of a journal.
ghost use Rattle.std.specs.Prelude.{◌≡◌, ◌≢◌, ◌<◌, ◌≤◌, ◌+◌, ◌++◌, ℕ, List, length, IfOk, IfErr};
ghost use Rattle.std.specs.FinMap;
ghost use Rattle.bf_kept.specs.Kept.{AreFit};
ghost use Rattle.bf_journal.specs.Found.{IsCutHead, IsFault, IsGoneOnWith};

use crate::fault::JournalFault;
use crate::last::last_of;
use crate::part::behind;
use crate::told::{Told, tries_told_in};
use bf_interval::Runs;
use bf_plan::Plan;
use bf_try::Ledger;
use std::alloc::Global;

/// What a journal holds: its tries, the number of bytes in its whole lines, and the number of bytes behind them, of a
/// line that was cut short.
#[derive(Drop)]
pub struct Found {
    pub tries: Ledger,
    pub whole: usize,
    pub torn: usize,
}

/// Judges a journal that doesn't begin with the head: no tries and no whole line where it is a cut-short beginning of
/// the head, else `Mismatch`, since it is of another backfill.
#[tactic(auto, using(crate::proofs::Heading::begins))]
fn read_cut_head(alloc: Global, head: &[u8], bytes: &[u8]) -> Result<Found, JournalFault>
    ensures ok { IfOk result (λ f. IsCutHead head.now bytes.now f.whole (FinMap.get f.tries)) }
    ensures torn { IfOk result (λ f. f.torn ≡ length bytes.now) }
    ensures err { IfErr result (λ fault. (fault ≡ JournalFault.Mismatch)
        × ((rest : List ℕ) → head.now ≢ bytes.now ++ rest)) }
{
    match behind(head, bytes) {
        Some(_rest) => Ok(Found {
            tries: Ledger::new(alloc),
            whole: 0,
            torn: bytes.len(),
        }),
        None => Err(JournalFault::Mismatch),
    }
}

/// Reads a journal, whose head must be `head`, that of the plan and its runs. Of each name it keeps the last try whose
/// outcome fits the plan. A cut-short head gives no tries and no whole line; `Mismatch` for another head, `BadRecord`
/// for the first whole line that is no record, `OutOfMemory` at want of memory.
pub fn read_journal(
    alloc: Global,
    plan: &Plan,
    runs: &Runs,
    head: &[u8],
    bytes: &[u8],
) -> Result<Found, JournalFault>
    ensures begun { IfOk result (λ f. f.whole < length head.now
        → IsCutHead head.now bytes.now f.whole (FinMap.get f.tries)) }
    ensures whole { IfOk result (λ f. length head.now ≤ f.whole
        → IsGoneOnWith plan.now.dag runs.now head.now bytes.now f.whole (FinMap.get f.tries)) }
    ensures torn { IfOk result (λ f. f.whole + f.torn ≡ length bytes.now) }
    ensures fit { IfOk result (λ f. AreFit plan.now.dag (FinMap.get f.tries)) }
    ensures refused { IfErr result (IsFault plan.now.dag runs.now head.now bytes.now) }
{
    let Some(records) = behind(bytes, head) else {
        return read_cut_head(alloc, head, bytes);
    };
    let Told { tries, torn } = tries_told_in(alloc, plan, runs, records)?;
    let tries = last_of(alloc, plan, tries)?;
    let whole = bytes.len() - torn;
    Ok(Found { tries, whole, torn })
}
