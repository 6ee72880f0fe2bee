//! The head of a journal that a backfill of a graph and of these runs began, whatever it cleared.
ghost use Rattle.std.specs.Prelude.{◌≡◌, ◌==◌, [], IfOk, option_map, position};
ghost use Rattle.bf_journal.specs.Heads.{head_text};
ghost use Rattle.bf_times.specs.Times.{first_line_of, front_in, is_head_like};

use bf_interval::Runs;
use bf_journal::head_of;
use bf_plan::Plan;
use bf_value::OutOfMemory;
use std::alloc::Global;

/// The place of the first line feed, from 0; None where there is none.
fn line_feed_in(bytes: &[u8]) -> Option<usize>
    ensures { result ≡ position (λ b. b == 10) bytes.now }
{
    bytes.iter().position(|byte| *byte == b'\n')
}

/// The first line, with its line feed; None where there is no line feed.
pub(crate) fn first_line(bytes: &[u8]) -> Option<&[u8]>
    ensures { option_map (λ line. line.now) result ≡ first_line_of bytes.now }
{
    match line_feed_in(bytes) {
        Some(at) => Some(&bytes[..at + 1]),
        None => None,
    }
}

/// Whether `line` is a journal's head like `head`, which clears nothing, whatever it says is cleared: it is the same up
/// to the bracket that ends the list, and has a bracket or a comma there.
fn is_line_like(line: &[u8], head: &[u8]) -> bool
    ensures { result ≡ is_head_like head.now line.now }
{
    let front = head.len().saturating_sub(2);
    line.len() > front
        && (line[..front] == head[..front] && (line[front] == b']' || line[front] == b','))
}

/// The bytes with which each journal of this plan and these runs begins, whatever its head says is cleared.
pub fn front_of(alloc: Global, plan: &Plan, runs: &Runs) -> Result<Vec<u8>, OutOfMemory>
    ensures { IfOk result (λ front. front.items
        ≡ front_in (head_text plan.now.dag runs.now [])) }
{
    let head = head_of(alloc, plan, runs, &[])?;
    let front = head.len().saturating_sub(2);
    Ok(head.as_bytes()[..front].to_vec(alloc)?)
}

/// Whether a line is the head of a journal of this plan and these runs, whatever it says is cleared.
pub(crate) fn is_head(
    alloc: Global,
    plan: &Plan,
    runs: &Runs,
    line: &[u8],
) -> Result<bool, OutOfMemory>
    ensures { IfOk result (λ is. is ≡ is_head_like (head_text plan.now.dag runs.now []) line.now) }
{
    let head = head_of(alloc, plan, runs, &[])?;
    Ok(is_line_like(line, head.as_bytes()))
}
