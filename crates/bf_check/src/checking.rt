//! Drafts, checked as plans.
ghost use Rattle.std.specs.Prelude.{◌≡◌, map, option_map, IfOk, IfErr, OnOk};
ghost use Rattle.bf_graph.specs.Ranks.{Ranking};
ghost use Rattle.bf_check.specs.Checking.{dag_of, limits_in, rule_of, shape_in};
ghost use Rattle.bf_check.specs.inner.Looks.{AllMayPull, AreFoundIn};
ghost use Rattle.bf_check.specs.Refusals.{HasNoFault, HasNoneBelow, IsAccepted, IsFaultOf};
ghost use Rattle.bf_check.specs.Schedules.{Fires, IsScheduled, IsZoneFor};

use crate::edges::task_ids_of;
use crate::fault::CheckFault;
use crate::looks::DraftUnderCheck;
use crate::pools::limits_of;
use crate::pulls::Pulls;
use crate::tasks::tasks_of;
use bf_cron::CronSpec;
use bf_graph::Graph;
use bf_plan::{Dag, Limits, Plan};
use bf_read::Draft;
use bf_rule::Rule;
use bf_value::{OutOfMemory, Sequence};
use bf_zone::Zone;
use std::alloc::Global;

/// What the check finds of each task, in file order: its rule, what it pulls from, and its source of items.
#[derive(Drop)]
struct Found {
    rules: Vec<Rule>,
    pulls: Vec<Pulls>,
    sources: Vec<Option<u32>>,
}

/// What the check finds after the graph and the limits.
#[derive(Drop)]
struct Rest {
    schedule: CronSpec,
    zone: Zone,
    found: Found,
}

/// What the check finds of a draft.
#[derive(Drop)]
struct Parts {
    graph: Graph,
    limits: Limits,
    rest: Rest,
}

// A look that refuses drops all that is held. So each of these holds little of it.
impl DraftUnderCheck<'_> {
    /// Finds the limits of a draft that has no refusal below 8 (docs/FORMATS.md). Err for an unknown pool (8), slots
    /// beyond it (9), or at want of memory.
    pub(crate) fn check_limits(&self, alloc: Global) -> Result<Limits, CheckFault>
        requires { HasNoneBelow self.now.draft.now 8 }
        ensures limits { IfOk result (λ limits. limits ≡ limits_in self.now.draft.now) }
        ensures ok { OnOk result (HasNoneBelow self.now.draft.now 10) }
        ensures err { IfErr result (IsFaultOf self.now.draft.now
            (option_map (λ s. s.now) self.now.zone_file)) }
    {
        let demands = self.check_pools_and_demands(alloc)?;
        Ok(limits_of(alloc, self.draft, demands)?)
    }

    /// Finds the rule, pulls and source of each task of a draft that has no refusal below 14 (docs/FORMATS.md) and
    /// whose `rules` were found. Err for the refusals 14 to 17, of pulls and expansions, or at want of memory.
    fn check_tasks(
        &self,
        alloc: Global,
        graph: &Graph,
        rules: Vec<Rule>,
    ) -> Result<Found, CheckFault>
        requires graph { graph.now ≡ shape_in self.now.draft.now.tasks }
        requires rules { rules.items ≡ map rule_of self.now.draft.now.tasks }
        requires below { HasNoneBelow self.now.draft.now 14 }
        requires scheduled { IsScheduled self.now.draft.now
            (option_map (λ s. s.now) self.now.zone_file) }
        ensures found { IfOk result (AreFoundIn self.now.draft.now.tasks graph.now) }
        ensures settled { OnOk result (AllMayPull self.now.draft.now) }
        ensures ok { OnOk result (HasNoFault self.now.draft.now) }
        ensures err { IfErr result (IsFaultOf self.now.draft.now
            (option_map (λ s. s.now) self.now.zone_file)) }
    {
        let pulls = self.check_pulls(alloc, graph, rules.as_slice())?;
        let sources = self.check_expansions(alloc, graph, rules.as_slice())?;
        Ok(Found {
            rules,
            pulls,
            sources,
        })
    }

    /// Finds the schedule, the zone, and the rule, pulls and source of each task, for a draft that has no refusal below
    /// 10 (docs/FORMATS.md). Err for the refusals 10 to 17, of rules, schedule, zone, pulls and expansions, or at want
    /// of memory.
    fn check_behind_limits(&self, alloc: Global, graph: &Graph) -> Result<Rest, CheckFault>
        requires graph { graph.now ≡ shape_in self.now.draft.now.tasks }
        requires below { HasNoneBelow self.now.draft.now 10 }
        ensures found { IfOk result (λ rest. AreFoundIn self.now.draft.now.tasks graph.now
            rest.found) }
        ensures schedule { IfOk result (λ rest. Fires self.now.draft.now.schedule rest.schedule) }
        ensures zone { IfOk result (λ rest. IsZoneFor self.now.draft.now.zone
            (option_map (λ s. s.now) self.now.zone_file) rest.zone) }
        ensures settled { OnOk result (AllMayPull self.now.draft.now) }
        ensures ok { OnOk result (HasNoFault self.now.draft.now) }
        ensures err { IfErr result (IsFaultOf self.now.draft.now
            (option_map (λ s. s.now) self.now.zone_file)) }
    {
        let rules = self.check_rules(alloc)?;
        let (schedule, zone) = self.check_schedule_and_zone(alloc)?;
        let found = self.check_tasks(alloc, graph, rules)?;
        Ok(Rest {
            schedule,
            zone,
            found,
        })
    }

    /// Finds all that a plan needs beside the draft. Err for the draft's refusal of the least number (docs/FORMATS.md),
    /// or at want of memory.
    fn check_all(&self, alloc: Global) -> Result<Parts, CheckFault>
        ensures found { IfOk result (λ parts. AreFoundIn self.now.draft.now.tasks parts.graph
            parts.rest.found) }
        ensures limits { IfOk result (λ parts. parts.limits ≡ limits_in self.now.draft.now) }
        ensures schedule { IfOk result (λ parts. Fires self.now.draft.now.schedule
            parts.rest.schedule) }
        ensures zone { IfOk result (λ parts. IsZoneFor self.now.draft.now.zone
            (option_map (λ s. s.now) self.now.zone_file) parts.rest.zone) }
        ensures ranking { OnOk result (Ranking (shape_in self.now.draft.now.tasks).upstreams) }
        ensures ok { OnOk result (HasNoFault self.now.draft.now) }
        ensures settled { OnOk result (AllMayPull self.now.draft.now) }
        ensures err { IfErr result (IsFaultOf self.now.draft.now
            (option_map (λ s. s.now) self.now.zone_file)) }
    {
        let graph = self.check_graph(alloc)?;
        let limits = self.check_limits(alloc)?;
        let rest = self.check_behind_limits(alloc, &graph)?;
        Ok(Parts {
            graph,
            limits,
            rest,
        })
    }
}

/// Makes the dag of a plan: the draft's id, and its tasks with what was found of each.
fn dag_of_found(
    alloc: Global,
    draft: Draft,
    graph: &Graph,
    found: Found,
) -> Result<Dag, OutOfMemory>
    requires { AreFoundIn draft.tasks graph.now found }
    ensures { IfOk result (λ dag. dag ≡ dag_of draft) }
{
    let pulls = found.pulls;
    let tasks = tasks_of(
        alloc,
        draft.tasks,
        graph,
        found.rules.as_slice(),
        pulls,
        found.sources.as_slice(),
    )?;
    Ok(Dag {
        id: draft.dag_id,
        tasks: Sequence::from_vec(tasks),
    })
}

/// Makes the plan of a draft without faults from what the check found, and gives it with the zone of its schedule.
fn plan_of_parts(alloc: Global, draft: Draft, parts: Parts) -> Result<(Plan, Zone), OutOfMemory>
    requires found { AreFoundIn draft.tasks parts.graph parts.rest.found }
    requires limits { parts.limits ≡ limits_in draft }
    requires ranking { Ranking (shape_in draft.tasks).upstreams }
    requires ok { HasNoFault draft }
    requires settled { AllMayPull draft }
    ensures dag { IfOk result (λ both. both.0.dag ≡ dag_of draft) }
    ensures limits { IfOk result (λ both. both.0.limits ≡ limits_in draft) }
    ensures schedule { IfOk result (λ both. both.0.schedule ≡ parts.rest.schedule) }
    ensures zone { IfOk result (λ both. both.1 ≡ parts.rest.zone) }
{
    let rest = parts.rest;
    let dag = dag_of_found(alloc, draft, &parts.graph, rest.found)?;
    let plan = Plan::new(dag, parts.limits, rest.schedule, parts.graph);
    Ok((plan, rest.zone))
}

/// Checks a draft and gives what a plan needs beside it. Err for the refusal of the least number (docs/FORMATS.md), or
/// at want of memory. `zone_file` has the bytes for the zone `file`.
fn check_draft(alloc: Global, draft: &Draft, zone_file: Option<&[u8]>) -> Result<Parts, CheckFault>
    ensures found { IfOk result (λ parts. AreFoundIn draft.now.tasks parts.graph parts.rest.found) }
    ensures limits { IfOk result (λ parts. parts.limits ≡ limits_in draft.now) }
    ensures schedule { IfOk result (λ parts. Fires draft.now.schedule parts.rest.schedule) }
    ensures zone { IfOk result (λ parts. IsZoneFor draft.now.zone
        (option_map (λ s. s.now) zone_file.entry) parts.rest.zone) }
    ensures ranking { OnOk result (Ranking (shape_in draft.now.tasks).upstreams) }
    ensures ok { OnOk result (HasNoFault draft.now) }
    ensures settled { OnOk result (AllMayPull draft.now) }
    ensures err { IfErr result (IsFaultOf draft.now (option_map (λ s. s.now) zone_file.entry)) }
{
    let ids = task_ids_of(alloc, draft)?;
    let looks = DraftUnderCheck {
        ids: &ids,
        draft,
        zone_file,
    };
    looks.check_all(alloc)
}

/// Makes the plan of a draft, and gives it with the zone of its schedule. Err for the refusal of the least number
/// (docs/FORMATS.md), with the first task in the file that has it, or at want of memory. `zone_file` has the bytes for
/// the zone `file`; no other zone needs them.
pub fn check(
    alloc: Global,
    draft: Draft,
    zone_file: Option<&[u8]>,
) -> Result<(Plan, Zone), CheckFault>
    ensures dag { IfOk result (λ checked. checked.0.dag ≡ dag_of draft) }
    ensures limits { IfOk result (λ checked. checked.0.limits ≡ limits_in draft) }
    ensures schedule { IfOk result (λ checked. Fires draft.schedule checked.0.schedule) }
    ensures zone { IfOk result (λ checked. IsZoneFor draft.zone
        (option_map (λ s. s.now) zone_file.entry) checked.1) }
    ensures accepted { OnOk result (IsAccepted draft (option_map (λ s. s.now) zone_file.entry)) }
    ensures fault { IfErr result (IsFaultOf draft (option_map (λ s. s.now) zone_file.entry)) }
{
    let parts = check_draft(alloc, &draft, zone_file)?;
    Ok(plan_of_parts(alloc, draft, parts)?)
}
