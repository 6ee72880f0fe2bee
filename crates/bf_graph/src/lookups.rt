//! Lists of tasks that a graph keeps or gives.
ghost use Rattle.std.specs.Prelude.{◌≡◌, ◌+◌, ◌^◌, ◌<◌, ◌≤◌, ◌==◌, ◌⊎◌, ℕ, true, List, All, Contains, length, map, [], IfOk, OnOk};
ghost use Rattle.std.specs.List.Sorted.{IsStrictlyIncreasing};
ghost use Rattle.bf_graph.specs.Edges.{lists, AreInRange};
ghost use Rattle.bf_graph.specs.Reach.{is_marked_in};
ghost use Rattle.bf_graph.specs.Lookups.{IsRisingListOf, IsLeaf, AreDownstreams};
ghost use Rattle.bf_graph.specs.inner.Lookups.{AreDownstreamsBelow};

use bf_value::OutOfMemory;
use std::alloc::Global;

/// Appends `task` to rising `tasks`, none of which is greater, unless it is the last of them already.
fn push_if_absent(tasks: &mut Vec<u32>, task: u32) -> Result<(), OutOfMemory>
    requires rising { IsStrictlyIncreasing tasks.old.items }
    requires last { All (λ t. t ≤ task) tasks.old.items }
    ensures { OnOk result (IsRisingListOf (λ t. Contains tasks.old.items t
        ⊎ (t ≡ task)) tasks.new.items) }
{
    if let Some(last) = tasks.last() {
        if *last == task {
            return Ok(());
        }
    }
    tasks.push(task)?;
    Ok(())
}

/// Appends `task` to the list in `found` of each of its direct upstreams, once to each. Until then the lists have only
/// lower tasks.
fn push_as_downstream(
    edges: &[Vec<u32>],
    found: &mut Vec<Vec<u32>>,
    task: u32,
) -> Result<(), OutOfMemory>
    requires in_range { AreInRange (lists edges.now) }
    requires within { task < length edges.now }
    requires below { AreDownstreamsBelow (lists edges.now) task (lists found.old.items) }
    ensures { OnOk result (AreDownstreamsBelow (lists edges.now) (task + 1)
        (lists found.new.items)) }
{
    for u in edges[task as usize].as_slice() {
        push_if_absent(&mut found[*u as usize], task)?;
    }
    Ok(())
}

/// The direct downstreams of each task, in file order, each once. `edges` has each task's upstreams.
pub(crate) fn downstreams_of(
    alloc: Global,
    edges: &[Vec<u32>],
) -> Result<Vec<Vec<u32>>, OutOfMemory>
    requires in_range { AreInRange (lists edges.now) }
    requires few { length edges.now < 2 ^ 32 }
    ensures { IfOk result (λ found. AreDownstreams (lists edges.now) (lists found.items)) }
{
    let mut found = empty_lists(alloc, edges.len())?;
    for t in 0..edges.len() {
        push_as_downstream(edges, &mut found, t as u32)?;
    }
    Ok(found)
}

/// `n` empty lists.
pub(crate) fn empty_lists<T: Drop>(alloc: Global, n: usize) -> Result<Vec<Vec<T>>, OutOfMemory>
    ensures len { IfOk result (λ made. length made.items ≡ n) }
    ensures empty { IfOk result (λ made. All (λ list. list.items ≡ []) made.items) }
{
    let mut made = Vec::with_capacity(alloc, n)?;
    for _made in 0..n {
        made.push(Vec::new(alloc))?;
    }
    Ok(made)
}

/// For each list, whether it is empty.
fn marks_of_empty_lists(alloc: Global, lists: &[Vec<u32>]) -> Result<Vec<bool>, OutOfMemory>
    ensures { IfOk result (λ marks. marks.items ≡ map (λ v. length v.items == 0) lists.now) }
{
    Ok(lists.iter().map(|list| list.is_empty()).collect(alloc)?)
}

/// The indexes at which `marks` is true, in order.
pub(crate) fn marked_places(alloc: Global, marks: &[bool]) -> Result<Vec<u32>, OutOfMemory>
    requires { length marks.now < 2 ^ 32 }
    ensures { IfOk result (λ places. IsRisingListOf (λ t. is_marked_in marks.now t
        ≡ true) places.items) }
{
    let mut places = Vec::new(alloc);
    for t in 0..marks.len() {
        if marks[t] {
            places.push(t as u32)?;
        }
    }
    Ok(places)
}

/// The tasks whose list of downstreams is empty, in file order.
pub(crate) fn leaves_of(alloc: Global, downstreams: &[Vec<u32>]) -> Result<Vec<u32>, OutOfMemory>
    requires { length downstreams.now < 2 ^ 32 }
    ensures { IfOk result (λ leaves. (ups : List (List ℕ))
        → AreDownstreams ups (lists downstreams.now)
        → IsRisingListOf (IsLeaf ups) leaves.items) }
{
    let are_leaves = marks_of_empty_lists(alloc, downstreams)?;
    marked_places(alloc, are_leaves.as_slice())
}

/// Whether the mark at the index `place` is set.
fn is_marked_at(marks: &[bool], place: usize) -> bool
    requires { place < length marks.now }
    ensures { result ≡ is_marked_in marks.now place }
{
    marks[place]
}

/// The mark of each row at the index `place`, in the order of the rows.
pub(crate) fn column(
    alloc: Global,
    rows: &[Vec<bool>],
    place: usize,
) -> Result<Vec<bool>, OutOfMemory>
    requires { All (λ row. place < length row.items) rows.now }
    ensures { IfOk result (λ marks. marks.items
        ≡ map (λ row. is_marked_in row.items place) rows.now) }
{
    Ok(
        rows.iter()
            .map(|row| is_marked_at(row.as_slice(), place))
            .collect(alloc)?,
    )
}
