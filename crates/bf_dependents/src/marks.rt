//! Marks of tasks, a row for each run.
ghost use Rattle.std.specs.Prelude.{◌≡◌, IfOk};
ghost use Rattle.bf_graph.specs.Reach.{is_marked_in, row_at};
ghost use Rattle.bf_dependents.specs.Marks.{marks_before_in};
ghost use Rattle.bf_dependents.specs.inner.Marks.{with_mark, AreSeeded, AreUnmarked};

use crate::place::Place;
use bf_value::{OutOfMemory, Sequence};
use std::alloc::Global;

/// Whether task number `task` is marked in `marks`, the row of a run; false where the row has no such task.
pub(crate) fn is_marked(marks: &[bool], task: u32) -> bool
    ensures { result ≡ is_marked_in marks.now task }
{
    match marks.get(task as usize) {
        Some(mark) => *mark,
        None => false,
    }
}

/// The row of the run before run number `run`; empty for run 0, and where there is no such row.
pub(crate) fn marks_before(rows: &[Sequence<bool>], run: u32) -> &[bool]
    ensures { result.now ≡ marks_before_in rows.now run }
{
    if run == 0 {
        return &[];
    }
    match rows.get(run as usize - 1) {
        Some(marks) => marks.as_slice(),
        None => &[],
    }
}

/// The row of run number `run`, from 0; empty where there is no such row.
pub(crate) fn marks_at(rows: &[Sequence<bool>], run: u32) -> &[bool]
    ensures { result.now ≡ row_at rows.now run }
{
    match rows.get(run as usize) {
        Some(marks) => marks.as_slice(),
        None => &[],
    }
}

/// A row of `tasks` marks for each of `runs` runs, none of them set.
fn unmarked_rows(alloc: Global, runs: u32, tasks: usize) -> Result<Vec<Sequence<bool>>, OutOfMemory>
    ensures { IfOk result (λ rows. AreUnmarked runs tasks rows.items) }
{
    let mut rows = Vec::with_capacity(alloc, runs as usize)?;
    for _ in 0..runs {
        rows.push(Sequence::from_vec(vec![in alloc; false; tasks]?))?;
    }
    Ok(rows)
}

/// Marks the task of `place` in the row of its run, whatever its map index; does nothing where there is no such run or
/// task.
fn mark(rows: &mut Vec<Sequence<bool>>, place: Place)
    ensures { rows.new.items ≡ with_mark rows.old.items place }
{
    let run = place.run as usize;
    let task = place.task as usize;
    if run < rows.len() && task < rows[run].len() {
        let row = &mut rows[run];
        row.replace(task, true);
    }
}

/// A row of `tasks` marks for each of `runs` runs, in which the tasks of the seeds are marked, whatever their map
/// index.
pub(crate) fn seed_rows(
    alloc: Global,
    seeds: &[Place],
    runs: u32,
    tasks: usize,
) -> Result<Vec<Sequence<bool>>, OutOfMemory>
    ensures { IfOk result (λ rows. AreSeeded seeds.now runs tasks rows.items) }
{
    let mut rows = unmarked_rows(alloc, runs, tasks)?;
    for seed in seeds {
        mark(&mut rows, *seed);
    }
    Ok(rows)
}
