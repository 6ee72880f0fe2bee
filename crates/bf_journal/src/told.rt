//! The tries that the lines of a journal tell.
ghost use Rattle.std.specs.Prelude.{IfOk, IfErr};
ghost use Rattle.bf_journal.specs.Found.{AreRead};
ghost use Rattle.bf_journal.specs.inner.Found.{IsFaultBehind};

use crate::fault::JournalFault;
use crate::lines::first_line;
use crate::tried::read_record_line;
use bf_interval::Runs;
use bf_plan::Plan;
use bf_try::Entry;
use bf_value::JobName;
use std::alloc::Global;

/// The tries that a journal's whole lines record, in order, and how many bytes follow the last line feed.
#[derive(Drop)]
pub(crate) struct Told {
    pub(crate) tries: Vec<(JobName, Entry)>,
    pub(crate) torn: usize,
}

/// Reads the tries that the lines behind a journal's head record, in order. `BadRecord` for the first line that is no
/// record, counted from the head as line 1; `OutOfMemory` at want of memory. Bytes after the last line feed are only
/// counted.
#[tactic(auto, using(crate::proofs::Passing::nothing_read, crate::proofs::Passing::more_read, crate::proofs::Passing::all_read))]
pub(crate) fn tries_told_in(
    alloc: Global,
    plan: &Plan,
    runs: &Runs,
    bytes: &[u8],
) -> Result<Told, JournalFault>
    ensures ok { IfOk result (λ told. AreRead plan.now.dag runs.now bytes.now told.tries.items
        told.torn) }
    ensures err { IfErr result (IsFaultBehind plan.now.dag runs.now bytes.now) }
{
    let mut tries = Vec::new(alloc);
    let mut rest = bytes;
    while let Some((line, more)) = first_line(rest) {
        match read_record_line(alloc, plan, runs, line)? {
            Some(tried) => tries.push(tried)?,
            None => return Err(JournalFault::BadRecord(tries.len() as u64 + 2)),
        }
        rest = more;
    }
    let torn = rest.len();
    Ok(Told { tries, torn })
}
