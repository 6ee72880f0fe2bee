//! The times of a journal.
ghost use Rattle.std.specs.Prelude.{IfOk, IfErr, string_bytes};
ghost use Rattle.bf_times.specs.Times.{AreTimesOf, IsTimesFault, IsTextOf};

use crate::head::{first_line, is_head};
use crate::lines::push_times_of_text;
use bf_interval::Runs;
use bf_journal::{JournalFault, read_journal};
use bf_plan::Plan;
use bf_value::OutOfMemory;
use std::alloc::Global;

/// The text of the times in `records`, the whole lines after a journal's head: a head of its own, and a line for each
/// record with times. Just the head where `records` isn't UTF-8.
fn text_of_times(alloc: Global, records: &[u8]) -> Result<String, OutOfMemory>
    ensures { IfOk result (λ text. IsTextOf records.now (string_bytes text)) }
{
    let mut text = String::new(alloc);
    text.push_str("@times 1\n")?;
    if let Ok(records) = std::str::from_utf8(records) {
        push_times_of_text(alloc, &mut text, records)?;
    }
    Ok(text)
}

/// The text of the times in the bytes of a journal of this plan and these runs, whatever its head says is cleared; an
/// unfinished last line is dropped. `Mismatch` where it begins with no such head, `BadRecord` where a whole line after
/// that is no record of a try, `OutOfMemory` where memory ran out.
pub fn times_of(
    alloc: Global,
    plan: &Plan,
    runs: &Runs,
    bytes: &[u8],
) -> Result<String, JournalFault>
    ensures ok { IfOk result (λ text. AreTimesOf plan.now.dag runs.now bytes.now
        (string_bytes text)) }
    ensures err { IfErr result (IsTimesFault plan.now.dag runs.now bytes.now) }
{
    let Some(head) = first_line(bytes) else {
        return Err(JournalFault::Mismatch);
    };
    if !is_head(alloc, plan, runs, head)? {
        return Err(JournalFault::Mismatch);
    }
    let found = read_journal(alloc, plan, runs, head, bytes)?;
    let whole = found.whole.max(head.len());
    Ok(text_of_times(alloc, &bytes[head.len()..whole])?)
}
