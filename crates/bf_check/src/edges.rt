//! The tasks of a draft as a graph.
ghost use Rattle.std.specs.Prelude.{◌≡◌, ◌<◌, ℕ, [], length, map, option_map, position, slice_index_or, Contains, IfOk, IfErr, IfSome, OnOk};
ghost use Rattle.std.specs.Str.{bytes_eq};
ghost use Rattle.bf_graph.specs.Edges.{lists};
ghost use Rattle.bf_graph.specs.Ranks.{Ranking};
ghost use Rattle.bf_graph.specs.Shape.{texts};
ghost use Rattle.bf_check.specs.Checking.{ids_of, shape_in};
ghost use Rattle.bf_check.specs.inner.Looks.{numbers_in};
ghost use Rattle.bf_check.specs.Refusals.{HasNoneBelow, IsFaultOf};

use crate::fault::{CheckFault, TaskFault};
use crate::looks::DraftUnderCheck;
use bf_graph::{Graph, GraphFault, Ids};
use bf_read::{Draft, TaskDraft};
use bf_value::{OutOfMemory, Sequence, Text};
use std::alloc::Global;

/// Copies the ids of the tasks, in order, as strings.
fn id_strings_of(alloc: Global, tasks: &[TaskDraft]) -> Result<Vec<String>, OutOfMemory>
    ensures { IfOk result (λ v. texts v.items ≡ ids_of tasks.now) }
{
    let mut ids = Vec::new(alloc);
    for task in tasks {
        ids.push(String::from_str(alloc, task.id.as_str())?)?;
    }
    Ok(ids)
}

/// Gives the ids of the draft's tasks, in order, so that each id leads to its number.
pub(crate) fn task_ids_of(alloc: Global, draft: &Draft) -> Result<Ids, OutOfMemory>
    ensures { IfOk result (λ ids. ids ≡ ids_of draft.now.tasks) }
{
    Ids::from_distinct(alloc, id_strings_of(alloc, draft.tasks.as_slice())?)
}

/// Finds an id among `ids`, by its index; None where it is none of them.
pub(crate) fn place_of(ids: &[Text], id: &str) -> Option<usize>
    ensures place { result ≡ position (bytes_eq id.now) ids.now }
    ensures within { IfSome result (λ n. n < length ids.now) }
{
    ids.iter().position(|other| id == other.as_str())
}

/// Gives the numbers of the tasks with the ids `names`, in order; None where one of these is no task's.
pub(crate) fn numbers_of(
    alloc: Global,
    ids: &Ids,
    names: &[Text],
) -> Result<Option<Vec<u32>>, OutOfMemory>
    ensures { IfOk result (λ found. option_map (λ v. v.items) found
        ≡ numbers_in ids.now names.now) }
{
    let mut numbers = Vec::new(alloc);
    for name in names {
        match ids.number_of(name.as_str()) {
            Some(number) => numbers.push(number)?,
            None => return Ok(None),
        }
    }
    Ok(Some(numbers))
}

/// Copies the ids of the tasks with these numbers, in their order.
fn ids_at(alloc: Global, tasks: &[TaskDraft], numbers: &[u32]) -> Result<Vec<Text>, OutOfMemory>
    requires { (t : ℕ) → Contains numbers.now t → t < length tasks.now }
    ensures { IfOk result (λ v. v.items
        ≡ map (λ t. slice_index_or (ids_of tasks.now) t []) numbers.now) }
{
    let mut names = Vec::new(alloc);
    for number in numbers {
        names.push(tasks[*number as usize].id.copy(alloc)?)?;
    }
    Ok(names)
}

/// Gives the numbers of each task's upstreams; None for a task that has an upstream which is no task.
fn numbers_of_upstreams(
    alloc: Global,
    ids: &Ids,
    tasks: &[TaskDraft],
) -> Result<Vec<Option<Vec<u32>>>, OutOfMemory>
    ensures { IfOk result (λ found. map (option_map (λ v. v.items)) found.items
        ≡ map (λ task. numbers_in ids.now task.upstreams) tasks.now) }
{
    let mut found = Vec::new(alloc);
    for task in tasks {
        found.push(numbers_of(alloc, ids, task.upstreams.as_slice())?)?;
    }
    Ok(found)
}

impl DraftUnderCheck<'_> {
    /// Gives the numbers of each task's upstreams. Err for an upstream that is no task (refusal 6), or at want of
    /// memory.
    fn check_upstreams(&self, alloc: Global) -> Result<Vec<Vec<u32>>, CheckFault>
        ensures upstreams { IfOk result (λ upstreams. lists upstreams.items
            ≡ (shape_in self.now.draft.now.tasks).upstreams) }
        ensures ok { OnOk result (HasNoneBelow self.now.draft.now 7) }
        ensures err { IfErr result (IsFaultOf self.now.draft.now
            (option_map (λ s. s.now) self.now.zone_file)) }
    {
        let found = numbers_of_upstreams(alloc, self.ids, self.draft.tasks.as_slice())?;
        self.unwrap_or_refuse(alloc, TaskFault::UnknownUpstream, found)
    }

    /// Makes the graph of the tasks with these upstreams. Err for a cycle (refusal 7), which it names, or at want of
    /// memory.
    fn check_cycles(&self, alloc: Global, upstreams: Vec<Vec<u32>>) -> Result<Graph, CheckFault>
        requires upstreams { lists upstreams.items ≡ (shape_in self.now.draft.now.tasks).upstreams }
        requires below { HasNoneBelow self.now.draft.now 7 }
        ensures graph { IfOk result (λ graph. graph ≡ shape_in self.now.draft.now.tasks) }
        ensures ranking { OnOk result (Ranking (shape_in self.now.draft.now.tasks).upstreams) }
        ensures ok { OnOk result (HasNoneBelow self.now.draft.now 8) }
        ensures err { IfErr result (IsFaultOf self.now.draft.now
            (option_map (λ s. s.now) self.now.zone_file)) }
    {
        let tasks = self.draft.tasks.as_slice();
        match Graph::build(alloc, id_strings_of(alloc, tasks)?, upstreams) {
            Ok(graph) => {
                graph.tasks_have_ranks();
                Ok(graph)
            }
            Err(GraphFault::Cycle(cycle)) => {
                let names = ids_at(alloc, tasks, cycle.as_slice())?;
                Err(CheckFault::Cycle(Sequence::from_vec(names)))
            }
            Err(GraphFault::OutOfMemory) => Err(CheckFault::OutOfMemory),
        }
    }

    /// Makes the graph of the draft's tasks. Err for an unknown upstream (refusal 6), a cycle (refusal 7), or at want
    /// of memory.
    pub(crate) fn check_graph(&self, alloc: Global) -> Result<Graph, CheckFault>
        ensures graph { IfOk result (λ graph. graph ≡ shape_in self.now.draft.now.tasks) }
        ensures ranking { OnOk result (Ranking (shape_in self.now.draft.now.tasks).upstreams) }
        ensures ok { OnOk result (HasNoneBelow self.now.draft.now 8) }
        ensures err { IfErr result (IsFaultOf self.now.draft.now
            (option_map (λ s. s.now) self.now.zone_file)) }
    {
        let upstreams = self.check_upstreams(alloc)?;
        self.check_cycles(alloc, upstreams)
    }
}
