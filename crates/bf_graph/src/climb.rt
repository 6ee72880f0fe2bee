//! Ranks, found by climbing from each task to its upstreams.
ghost use Rattle.std.specs.Prelude.{◌≡◌, ℕ, ◌+◌, ◌^◌, ◌<◌, List, None, Vec, length, Contains, MatchBool, MatchOption, IfOk};
ghost use Rattle.std.specs.declared.alloc.Global.{Global};
ghost use Rattle.bf_graph.specs.Edges.{lists, AreInRange};
ghost use Rattle.bf_graph.specs.inner.Ranks.{rank_at};
ghost use Rattle.bf_graph.specs.inner.Climbs.{AreAllFound, AreRankedBetween, IsFirstUnranked, IsDown, HasClimbed};
ghost use Rattle.bf_graph.specs.inner.Cycles.{HasCycle};

use crate::ranking::Found;
use crate::reach::row_without_marks;
use bf_value::OutOfMemory;
use std::alloc::Global;

/// The ranks found so far, and a path that climbs from a task to an upstream without a rank, from there to the next,
/// and so on.
#[derive(Drop)]
struct Climb {
    found: Found,
    path: Vec<u32>,
    /// Which tasks the path has come to.
    seen: Vec<bool>,
    /// How many of each task's upstreams are known to have ranks, so that none is looked at twice.
    passed: Vec<usize>,
}

/// The index in `upstreams`, at or after `from`, of the first task without a rank in `ranks`; None where all from there
/// on have one.
fn first_unranked_from(ranks: &[Option<u32>], upstreams: &[u32], from: usize) -> Option<usize>
    requires { (u : ℕ) → Contains upstreams.now u → u < length ranks.now }
    ensures { MatchOption result
        (AreRankedBetween ranks.now upstreams.now from (length upstreams.now))
        (IsFirstUnranked ranks.now upstreams.now from) }
{
    for place in from..upstreams.len() {
        if ranks[upstreams[place] as usize].is_none() {
            return Some(place);
        }
    }
    None
}

impl Climb {
    /// A climb of a graph with `n` tasks, in which no rank is found yet.
    fn new(alloc: Global, n: usize) -> Result<Climb, OutOfMemory>
        ensures { IfOk result (λ c. (edges : List (Vec ℕ Global)) → length edges ≡ n
            → IsDown edges c) }
    {
        Ok(Climb {
            found: Found::new(alloc, n)?,
            path: Vec::new(alloc),
            seen: row_without_marks(alloc, n)?,
            passed: vec![in alloc; 0; n]?,
        })
    }

    /// Gives ranks to the task `start`, which has none yet, and to its ancestors that have none, and answers true;
    /// false where the edges have a cycle.
    fn rank_with_ancestors(
        &mut self,
        alloc: Global,
        edges: &[Vec<u32>],
        start: u32,
    ) -> Result<bool, OutOfMemory>
        requires in_range { AreInRange (lists edges.now) }
        requires few { length edges.now + 1 < 2 ^ 32 }
        requires down { IsDown edges.now self.old }
        requires within { start < length edges.now }
        requires unranked { rank_at self.old.found.ranks.items start ≡ None }
        ensures { IfOk result (λ is_ranked. MatchBool is_ranked
            (HasClimbed edges.now start self.old self.new) (HasCycle (lists edges.now))) }
    {
        self.path.push(start)?;
        self.seen[start as usize] = true;
        'climb: while let Some(task) = self.path.pop() {
            let upstreams = edges[task as usize].as_slice();
            let passed = self.passed[task as usize];
            let found = first_unranked_from(self.found.ranks.as_slice(), upstreams, passed);
            let Some(place) = found else {
                self.found.set_rank_of(alloc, edges, task)?;
                continue;
            };
            let above = upstreams[place];
            if self.seen[above as usize] {
                return Ok(false);
            }
            self.passed[task as usize] = place;
            self.path.push(task)?;
            self.path.push(above)?;
            self.seen[above as usize] = true;
        }
        Ok(true)
    }
}

/// The rank of each task, and which tasks reach it; None where the edges have a cycle. `edges` has each task's
/// upstreams.
pub(crate) fn find_ranks_and_reach(
    alloc: Global,
    edges: &[Vec<u32>],
) -> Result<Option<Found>, OutOfMemory>
    requires in_range { AreInRange (lists edges.now) }
    requires few { length edges.now + 1 < 2 ^ 32 }
    ensures { IfOk result (λ found. MatchOption found (HasCycle (lists edges.now))
        (AreAllFound edges.now)) }
{
    let mut climb = Climb::new(alloc, edges.len())?;
    for t in 0..edges.len() {
        let rank = climb.found.ranks[t];
        if rank.is_none() && !climb.rank_with_ancestors(alloc, edges, t as u32)? {
            return Ok(None);
        }
    }
    Ok(Some(climb.found))
}
