//! Graph files, read as drafts.
ghost use Rattle.std.specs.Prelude.{◌≡◌};
ghost use Rattle.serde_json.specs.View.{view};
ghost use Rattle.bf_read.specs.Gives.{Gives};
ghost use Rattle.bf_read.specs.Fields.{graph_member};
ghost use Rattle.bf_read.specs.Reading.{draft_of_entry, draft_in, graph_in, graph_file_of};

use crate::draft::Draft;
use crate::fault::ReadFault;
use crate::fields::{
    GraphObject, ObjectKind, count_at, id_at, refuse_beyond_limit, refuse_other_object, text_at,
    text_or,
};
use crate::keys::GraphKey;
use crate::limits::{MOST_ACTIVE_RUNS, MOST_BYTES};
use crate::path::Path;
use crate::pools::pools_at;
use crate::tasks::tasks_at;
use bf_value::Text;
use serde_json::Value;
use std::alloc::Global;

/// Reads a draft from the outer object of a graph file, whose keys are known. An Err is that of the first bad key, in
/// the order of `GraphKey`, or `OutOfMemory`.
#[tactic(auto, unfolding(crate::specs::Reading::draft_of_entry))]
fn draft_of_object(alloc: Global, graph: GraphObject) -> Result<Draft, ReadFault>
    ensures { Gives graph_file_of result
        (draft_of_entry (graph_member (view graph.entry.value.now))) }
{
    let dag_id = id_at(alloc, graph.member_at(GraphKey::DagId))?;
    let schedule = text_at(graph.member_at(GraphKey::Schedule))?;
    let schedule = Text::copy_of(alloc, schedule)?;
    let zone = text_or(alloc, "UTC", graph.member_at(GraphKey::Zone))?;
    let runs = graph.member_at(GraphKey::MaxActiveRuns);
    let max_active_runs = count_at(16, 1, MOST_ACTIVE_RUNS, runs)?;
    let pools = pools_at(alloc, graph.member_at(GraphKey::Pools))?;
    let tasks = tasks_at(alloc, graph.member_at(GraphKey::Tasks))?;
    Ok(Draft {
        dag_id,
        schedule,
        zone,
        max_active_runs,
        pools,
        tasks,
    })
}

/// Reads a draft from a JSON value. `Shape` where it is no object or has an unknown key; else an Err is that of the
/// first bad key, or `OutOfMemory`.
#[tactic(auto, unfolding(crate::specs::Reading::draft_in))]
fn draft_of(alloc: Global, value: &Value) -> Result<Draft, ReadFault>
    ensures { Gives graph_file_of result (draft_in (view value.now)) }
{
    refuse_other_object(ObjectKind::Graph, Path::Top, value)?;
    draft_of_object(alloc, GraphObject { value })
}

/// Reads a draft from the bytes of a graph file. Err, in this order: `LimitPassed` for too many bytes, `NotJson` where
/// they are no JSON in UTF-8, then the first fault of the value. `OutOfMemory` comes at want of memory.
#[tactic(auto, unfolding(crate::specs::Reading::graph_in))]
pub fn read_graph(alloc: Global, bytes: &[u8]) -> Result<Draft, ReadFault>
    ensures { Gives graph_file_of result (graph_in bytes.now) }
{
    refuse_beyond_limit(Path::Bytes, bytes.len() <= MOST_BYTES)?;
    match Value::from_slice(alloc, bytes) {
        Ok(value) => draft_of(alloc, &value),
        Err(e) if e.is_memory() => Err(ReadFault::OutOfMemory),
        Err(_) => Err(ReadFault::NotJson),
    }
}
