//! The tasks that failed themselves.
ghost use Rattle.std.specs.Prelude.{◌≡◌, ◌≤◌, ◌++◌, length, map, codes, IfOk, OnOk};
ghost use Rattle.std.specs.List.{flat_map};
ghost use Rattle.bf_grid.specs.FailedTasks.{failed_starts_of, failing_of, failing_line, failing_text, further_line, id_width_of, placed};
ghost use Rattle.bf_wording.specs.Numbers.{count_text_of};
ghost use Rattle.bf_grid.specs.inner.FoundTasks.{first_fewer, pair_of};

use bf_marks::{
    push, push_counted_noun, push_left_aligned, push_listed_moments, push_number,
    push_right_aligned, tally_at,
};
use bf_moment::Moment;
use bf_plan::Dag;
use bf_report::RunReport;
use bf_value::OutOfMemory;
use std::alloc::Global;

/// How many failed tasks get a line of their own.
const MOST_TOLD: usize = 20;

/// A task, and the starts of the runs in which an instance of it failed.
#[derive(Drop)]
pub(crate) struct Failing {
    task: u32,
    starts: Vec<Moment>,
}

/// The starts of the runs, among these, in which an instance of task number `task` failed, in order.
fn failed_starts(alloc: Global, runs: &[&RunReport], task: u32) -> Result<Vec<Moment>, OutOfMemory>
    ensures { IfOk result (λ starts. map (λ start. start.at.nanosecond) starts.items
        ≡ failed_starts_of (map (λ run. run.now) runs.now) task) }
{
    let mut starts = Vec::new(alloc);
    for run in runs {
        if tally_at(run, task)?.failed > 0 {
            starts.push(Moment::new(run.interval.start))?;
        }
    }
    Ok(starts)
}

/// The place in `found`, from 0, of the first task that failed in fewer than `count` runs; the length of `found` where
/// there is none.
fn place_of(found: &[Failing], count: usize) -> usize
    ensures place { result ≡ first_fewer count found.now }
    ensures within { result ≤ length found.now }
{
    for (place, other) in found.iter().enumerate() {
        if other.starts.len() < count {
            return place;
        }
    }
    found.len()
}

/// Inserts a task before the first one in `found` that failed in fewer runs, or at the end where there is none.
fn insert_failing(found: &mut Vec<Failing>, failing: Failing) -> Result<(), OutOfMemory>
    ensures { OnOk result (map pair_of found.new.items
        ≡ placed (pair_of failing) (map pair_of found.old.items)) }
{
    let place = place_of(found.as_slice(), failing.starts.len());
    found.insert(place, failing)?;
    Ok(())
}

/// The tasks, among these, that failed in at least one of these runs, ordered by how many such runs they have, the most
/// first; tasks with equally many keep their order.
fn failing_among(
    alloc: Global,
    runs: &[&RunReport],
    tasks: &[u32],
) -> Result<Vec<Failing>, OutOfMemory>
    ensures { IfOk result (λ found. map pair_of found.items
        ≡ failing_of (map (λ run. run.now) runs.now) tasks.now) }
{
    let mut found = Vec::new(alloc);
    for task in tasks {
        let starts = failed_starts(alloc, runs, *task)?;
        if !starts.is_empty() {
            insert_failing(
                &mut found,
                Failing {
                    task: *task,
                    starts,
                },
            )?;
        }
    }
    Ok(found)
}

/// The length in bytes of the longest id of these failed tasks; 0 where there are none.
fn id_width(dag: &Dag, found: &[Failing]) -> usize
    ensures { result ≡ id_width_of dag.now (map pair_of found.now) }
{
    let mut longest = 0;
    for failing in found {
        longest = longest.max(dag.id_of(failing.task).len());
    }
    longest
}

/// The length in bytes of the text for `count` runs, such as `1 run` or `2 runs`.
fn runs_width(alloc: Global, count: usize) -> Result<usize, OutOfMemory>
    ensures { IfOk result (λ width. width ≡ length (count_text_of count (codes "run"))) }
{
    let mut text = Vec::new(alloc);
    push_counted_noun(alloc, &mut text, count as u64, "run")?;
    Ok(text.len())
}

impl Failing {
    /// Adds the line of a failed task, with its line feed: its id, padded to `longest` bytes, the count of runs in
    /// which it failed, right-aligned in `widest` bytes, and when these runs start.
    fn push_line(
        &self,
        alloc: Global,
        text: &mut Vec<u8>,
        dag: &Dag,
        longest: usize,
        widest: usize,
    ) -> Result<(), OutOfMemory>
        ensures { OnOk result (text.new.items ≡ text.old.items
            ++ failing_line dag.now longest widest (pair_of self.now)) }
    {
        let mut count = Vec::new(alloc);
        push_counted_noun(alloc, &mut count, self.starts.len() as u64, "run")?;
        push(text, b"  ")?;
        push_left_aligned(text, longest, dag.id_of(self.task).as_bytes())?;
        push(text, b"  ")?;
        push_right_aligned(text, widest, count.as_slice())?;
        push(text, b"  ")?;
        push_listed_moments(alloc, text, self.starts.as_slice())?;
        push(text, b"\n")
    }
}

/// Adds a line for each of these failed tasks, with their ids in one column and their counts of runs, right-aligned, in
/// another of `widest` bytes.
fn push_lines(
    alloc: Global,
    text: &mut Vec<u8>,
    dag: &Dag,
    widest: usize,
    found: &[Failing],
) -> Result<(), OutOfMemory>
    ensures { OnOk result (text.new.items ≡ text.old.items ++ flat_map
        (failing_line dag.now (id_width_of dag.now (map pair_of found.now)) widest)
        (map pair_of found.now)) }
{
    let longest = id_width(dag, found);
    for failing in found {
        failing.push_line(alloc, text, dag, longest, widest)?;
    }
    Ok(())
}

/// Adds the line on how many of `count` failed tasks come after the 20 that have a line; adds nothing where none does.
fn push_further(alloc: Global, text: &mut Vec<u8>, count: usize) -> Result<(), OutOfMemory>
    ensures { OnOk result (text.new.items ≡ text.old.items ++ further_line count) }
{
    if count <= MOST_TOLD {
        return Ok(());
    }
    push(text, b"  and ")?;
    push_number(alloc, text, (count - MOST_TOLD) as u64)?;
    push(text, b" more\n")
}

/// Adds a heading and a line for each of these tasks that failed in these runs, for at most 20, those with the most
/// such runs first, and how many more there are. Adds nothing where none failed.
pub(crate) fn push_failing(
    alloc: Global,
    text: &mut Vec<u8>,
    dag: &Dag,
    runs: &[&RunReport],
    tasks: &[u32],
) -> Result<(), OutOfMemory>
    ensures { OnOk result (text.new.items ≡ text.old.items
        ++ failing_text dag.now (failing_of (map (λ run. run.now) runs.now) tasks.now)) }
{
    let found = failing_among(alloc, runs, tasks)?;
    let Some(first) = found.first() else {
        return Ok(());
    };
    let widest = runs_width(alloc, first.starts.len())?;
    push(text, b"\ntasks that failed themselves\n")?;
    let told = found.len().min(MOST_TOLD);
    push_lines(alloc, text, dag, widest, &found[..told])?;
    push_further(alloc, text, found.len())
}
