//! Where the walk has been.
ghost use Rattle.std.specs.Prelude.{◌≡◌, false, true, IfOk, slice_index_or};
ghost use Rattle.bf_roots.specs.Walks.{is_seen_in, nothing_seen, with_seen};

use bf_value::{OutOfMemory, Sequence};
use std::alloc::Global;

/// A row of `tasks` flags for each of `runs` runs, none of them set.
pub(crate) fn unseen_rows(
    alloc: Global,
    runs: usize,
    tasks: usize,
) -> Result<Vec<Sequence<bool>>, OutOfMemory>
    ensures { IfOk result (λ seen. seen.items ≡ nothing_seen runs tasks) }
{
    let mut seen = Vec::with_capacity(alloc, runs)?;
    for _ in 0..runs {
        seen.push(Sequence::from_vec(vec![in alloc; false; tasks]?))?;
    }
    Ok(seen)
}

/// Whether task number `task` is marked as seen in run number `run`; true where `seen` has no such task or run, so that
/// the walk passes it by.
pub(crate) fn is_seen(seen: &[Sequence<bool>], run: u32, task: u32) -> bool
    ensures { result ≡ is_seen_in seen.now run task }
{
    match seen.get(run as usize) {
        Some(row) => is_seen_in_row(row.as_slice(), task),
        None => true,
    }
}

/// Whether task number `task` is marked as seen in `row`, that of its run; true where the row has no such task.
fn is_seen_in_row(row: &[bool], task: u32) -> bool
    ensures { result ≡ slice_index_or row.now task true }
{
    match row.get(task as usize) {
        Some(is_seen) => *is_seen,
        None => true,
    }
}

/// Marks task number `task` in run number `run` as seen. `seen` has its flag, which isn't set yet.
pub(crate) fn mark_seen(seen: &mut Vec<Sequence<bool>>, run: u32, task: u32)
    requires { is_seen_in seen.old.items run task ≡ false }
    ensures { seen.new.items ≡ with_seen seen.old.items run task }
{
    let row = &mut seen[run as usize];
    row.replace(task as usize, true);
}
