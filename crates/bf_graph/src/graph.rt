//! Graphs of tasks, and what is looked up in them.
ghost use Rattle.std.specs.Prelude.{◌≡◌, ◌↔◌, ℕ, ◌<◌, ◌+◌, ◌^◌, length, IsTrue, None, position, slice_get, Some, map, unwrap_or, MatchOption, IfOk, IfErr, OnOk};
ghost use Rattle.std.specs.Str.{bytes_eq};
ghost use Rattle.std.specs.List.Sorted.{IsPermutation, IsSorted};
ghost use Rattle.bf_graph.specs.Edges.{lists, upstreams_of, AreInRange, IsUpstream, IsRank, IsAcyclic};
ghost use Rattle.bf_value.specs.Distinct.{AreDistinct};
ghost use Rattle.bf_graph.specs.Shape.{texts};
ghost use Rattle.bf_graph.specs.Ranks.{Ranking};
ghost use Rattle.bf_graph.specs.inner.Climbs.{AreAllFound};
ghost use Rattle.bf_graph.specs.Reach.{IsRow, Reaches};
ghost use Rattle.bf_graph.specs.Lookups.{IsRisingListOf, IsLeaf};
ghost use Rattle.bf_graph.specs.Order.{IsByRank, StandBehind};
ghost use Rattle.bf_graph.specs.inner.Order.{pair_cmp, ranked_tasks};

use crate::climb::find_ranks_and_reach;
use crate::cycles::shortest_cycle_from_earliest;
use crate::ids::Ids;
use crate::lookups::{column, downstreams_of, leaves_of, marked_places};
use crate::ranking::Found;
use bf_value::{OutOfMemory, Sequence};
use std::alloc::Global;
use std::marker::Model;
use thiserror::Error;

/// Tasks with their upstreams, and no cycle. A task is known by its number in file order, a `u32`.
#[derive(Drop)]
pub struct Graph {
    ids: Ids,
    edges: Vec<Vec<u32>>,
    downstreams: Vec<Vec<u32>>,
    leaves: Vec<u32>,
    ranks: Vec<u32>,
    /// For each task, which tasks reach it.
    rows: Vec<Vec<bool>>,
}

impl Model for Graph {
    ghost use Rattle.bf_graph.specs.Shape.{Shape, IsKept};
    ghost use Rattle.bf_graph.specs.Edges.{lists};

    ghost Value = { Shape };

    ghost view = { λ g. record { ids = g.ids; upstreams = lists g.edges.items } };

    ghost invariant = { λ g. IsKept g.ids g.edges.items g.downstreams.items g.leaves.items
        g.ranks.items g.rows.items };
}

impl Graph {
    /// The number of the task with an id, from 0 in file order; None where no task has it.
    pub fn number_of(&self, id: &str) -> Option<u32>
        ensures { result ≡ position (bytes_eq id.now) self.now.ids }
    {
        self.ids.number_of(id)
    }

    /// The id of the task with this number, from 0 in file order.
    pub fn task(&self, task: u32) -> &str
        requires { task < length self.now.upstreams }
        ensures { slice_get self.now.ids task ≡ Some result.now }
    {
        self.ids.get(task)
    }

    /// How many tasks there are.
    pub fn len(&self) -> usize
        ensures tasks { result ≡ length self.now.upstreams }
        ensures ids { result ≡ length self.now.ids }
        ensures few { result + 1 < 2 ^ 32 }
    {
        self.edges.len()
    }

    /// The direct upstreams of a task, in the order in which `build` was given them.
    pub fn upstreams(&self, task: u32) -> &[u32]
        requires { task < length self.now.upstreams }
        ensures { result.now ≡ upstreams_of self.now.upstreams task }
    {
        self.edges[task as usize].as_slice()
    }

    /// The direct downstreams of a task, in file order, each once.
    pub fn downstreams(&self, task: u32) -> &[u32]
        requires { task < length self.now.upstreams }
        ensures { IsRisingListOf (IsUpstream self.now.upstreams task) result.now }
    {
        self.downstreams[task as usize].as_slice()
    }

    /// The tasks without downstreams, in file order.
    pub fn leaves(&self) -> &[u32]
        ensures { IsRisingListOf (IsLeaf self.now.upstreams) result.now }
    {
        self.leaves.as_slice()
    }

    /// The rank of a task: the number of edges of the longest path that ends in it, so 0 for a task without upstreams.
    pub fn rank(&self, task: u32) -> u32
        requires { task < length self.now.upstreams }
        ensures { IsRank self.now.upstreams task result }
    {
        self.ranks[task as usize]
    }

    /// For each task in file order, whether a path of one edge or more leads from it down to `task`.
    pub fn reaching(&self, task: u32) -> &[bool]
        requires { task < length self.now.upstreams }
        ensures { IsRow self.now.upstreams (length self.now.upstreams) task result.now }
    {
        self.rows[task as usize].as_slice()
    }

    /// Whether a path of one edge or more leads from the task `from` down to the task `to`.
    pub fn reaches(&self, from: u32, to: u32) -> bool
        requires from { from < length self.now.upstreams }
        requires to { to < length self.now.upstreams }
        ensures { IsTrue result ↔ Reaches self.now.upstreams from to }
    {
        self.rows[to as usize][from as usize]
    }

    /// The tasks that can be reached from a task by one edge or more, in file order.
    pub fn descendants(&self, alloc: Global, task: u32) -> Result<Vec<u32>, OutOfMemory>
        requires { task < length self.now.upstreams }
        ensures { IfOk result (λ tasks. IsRisingListOf
            (Reaches self.now.upstreams task) tasks.items) }
    {
        let reached = column(alloc, self.rows.as_slice(), task as usize)?;
        marked_places(alloc, reached.as_slice())
    }

    /// The tasks from which a task can be reached by one edge or more, in file order.
    pub fn ancestors(&self, alloc: Global, task: u32) -> Result<Vec<u32>, OutOfMemory>
        requires { task < length self.now.upstreams }
        ensures { IfOk result (λ tasks. IsRisingListOf
            (λ a. Reaches self.now.upstreams a task) tasks.items) }
    {
        marked_places(alloc, self.rows[task as usize].as_slice())
    }

    /// All tasks, sorted by rank, and those of one rank in file order.
    pub fn by_rank(&self, alloc: Global) -> Result<Vec<u32>, OutOfMemory>
        ensures order { IfOk result (λ tasks. IsByRank self.now.upstreams tasks.items) }
        ensures behind { IfOk result (λ tasks. StandBehind self.now.upstreams tasks.items) }
    {
        let ranked = rank_and_task_pairs(alloc, self.ranks.as_slice())?;
        let sorted = sorted_by_rank(ranked);
        tasks_of(alloc, sorted.as_slice())
    }

    /// A law: ranks rise along edges.
    pub fn ranks_rise(&self)
        ensures { (t u q r : ℕ) → IsRank self.now.upstreams u q → IsRank self.now.upstreams t r
            → IsUpstream self.now.upstreams u t → q < r }
    {}

    /// A law: each upstream is the number of a task.
    pub fn upstreams_are_in_range(&self)
        ensures { AreInRange self.now.upstreams }
    {
        let _edges = &self.edges;
    }

    /// A law: every task has a rank, no higher than there are tasks, and ranks rise along edges.
    pub fn tasks_have_ranks(&self)
        ensures { Ranking self.now.upstreams }
    {
        let _ranks = &self.ranks;
    }

    /// A law: the graph has no cycle.
    pub fn edges_are_acyclic(&self)
        ensures { IsAcyclic self.now.upstreams }
    {
        let _edges = &self.edges;
    }

    /// A law: no two tasks have one id.
    pub fn ids_are_distinct(&self)
        ensures { AreDistinct self.now.ids }
    {
        let _ids = &self.ids;
    }
}

/// Why there is no graph.
#[derive(Debug, Drop, Error)]
pub enum GraphFault {
    /// The edges have a cycle: each of these tasks is a direct upstream of the next, and the last of the first.
    /// It begins with the earliest task that lies on a cycle, and is the first of the shortest from there.
    #[error("there is a cycle")]
    Cycle(Sequence<u32>),
    #[error("out of memory")]
    OutOfMemory,
}

impl From<OutOfMemory> for GraphFault {
    ghost use Rattle.bf_graph.specs.declared.graph.GraphFault.TheVariants.{OutOfMemory};

    ghost from_gives = { λ _ e. e ≡ OutOfMemory };

    /// Want of memory is the fault `OutOfMemory`.
    fn from(_e: OutOfMemory) -> GraphFault {
        GraphFault::OutOfMemory
    }
}

/// The rank of each task; 0 would stand for a missing one.
fn unwrapped_ranks(alloc: Global, ranks: &[Option<u32>]) -> Result<Vec<u32>, OutOfMemory>
    ensures { IfOk result (λ v. v.items ≡ map (λ r. unwrap_or r 0) ranks.now) }
{
    Ok(ranks.iter().map(|r| r.unwrap_or(0)).collect(alloc)?)
}

impl Graph {
    ghost use Rattle.bf_graph.specs.Faults.{IsRightFault};

    /// Builds the graph of the tasks with these ids, in file order; `upstreams` has the numbers of each one's
    /// upstreams. `Cycle` where the edges have a cycle, which it names; `OutOfMemory` at want of memory.
    pub fn build(
        alloc: Global,
        ids: Vec<String>,
        upstreams: Vec<Vec<u32>>,
    ) -> Result<Graph, GraphFault>
        requires distinct { AreDistinct (texts ids.items) }
        requires same { length ids.items ≡ length upstreams.items }
        requires few { length ids.items + 1 < 2 ^ 32 }
        requires in_range { AreInRange (lists upstreams.items) }
        ensures ok { IfOk result (λ g. g ≡ record {
          ids = texts ids.items;
          upstreams = lists upstreams.items;
        }) }
        ensures acyclic { OnOk result (IsAcyclic (lists upstreams.items)) }
        ensures cycle { IfErr result (λ e. IsRightFault (lists upstreams.items) e) }
    {
        let Some(found) = find_ranks_and_reach(alloc, upstreams.as_slice())? else {
            let cycle = shortest_cycle_from_earliest(alloc, upstreams.as_slice())?;
            return Err(GraphFault::Cycle(Sequence::from_vec(cycle)));
        };
        Ok(Graph::from_ranks_and_reach(alloc, ids, upstreams, found)?)
    }

    /// Builds the graph of the tasks with these ids and upstreams, which have no cycle; `found` has their ranks and
    /// reach.
    fn from_ranks_and_reach(
        alloc: Global,
        ids: Vec<String>,
        edges: Vec<Vec<u32>>,
        found: Found,
    ) -> Result<Graph, OutOfMemory>
        requires distinct { AreDistinct (texts ids.items) }
        requires same { length ids.items ≡ length edges.items }
        requires few { length ids.items + 1 < 2 ^ 32 }
        requires in_range { AreInRange (lists edges.items) }
        requires found { AreAllFound edges.items found }
        ensures ok { IfOk result (λ g. g ≡ record {
          ids = texts ids.items;
          upstreams = lists edges.items;
        }) }
        ensures acyclic { OnOk result (IsAcyclic (lists edges.items)) }
    {
        let ranks = unwrapped_ranks(alloc, found.ranks.as_slice())?;
        let ids = Ids::from_distinct(alloc, ids)?;
        let downstreams = downstreams_of(alloc, edges.as_slice())?;
        let leaves = leaves_of(alloc, downstreams.as_slice())?;
        Ok(Graph {
            ids,
            edges,
            downstreams,
            leaves,
            ranks,
            rows: found.rows,
        })
    }
}

/// For each task, in file order, the pair of its rank and its number.
fn rank_and_task_pairs(alloc: Global, ranks: &[u32]) -> Result<Vec<(u32, u32)>, OutOfMemory>
    requires { length ranks.now < 2 ^ 32 }
    ensures { IfOk result (λ pairs. pairs.items ≡ ranked_tasks ranks.now) }
{
    Ok(
        ranks
            .iter()
            .enumerate()
            .map(|(task, rank)| (*rank, task as u32))
            .collect(alloc)?,
    )
}

/// These pairs of a rank and a task, sorted by rank, and those of one rank by task.
fn sorted_by_rank(mut pairs: Vec<(u32, u32)>) -> Vec<(u32, u32)>
    ensures same { IsPermutation pairs.items result.items }
    ensures sorted { IsSorted pair_cmp result.items }
{
    pairs.sort_unstable();
    pairs
}

/// The tasks of these pairs of a rank and a task, in the same order.
fn tasks_of(alloc: Global, pairs: &[(u32, u32)]) -> Result<Vec<u32>, OutOfMemory>
    ensures { IfOk result (λ tasks. tasks.items ≡ map (λ p. p.1) pairs.now) }
{
    Ok(pairs.iter().map(|pair| pair.1).collect(alloc)?)
}
