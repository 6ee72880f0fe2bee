//! Which instances follow from seeds, once it is worked out.
ghost use Rattle.std.specs.Prelude.{◌≡◌, ◌<◌, length, None, IfOk};
ghost use Rattle.bf_graph.specs.Reach.{is_marked_in, row_at};
ghost use Rattle.bf_dependents.specs.Dependents.{has_instance_in, has_seed_in, is_led_to_in, AreDependents};
ghost use Rattle.bf_dependents.specs.Listing.{is_whole_in};
ghost use Rattle.bf_dependents.specs.inner.Seeded.{HoldSeeds};

use crate::following::{follows, touched_marks_of};
use crate::marks::{is_marked, marks_at, marks_before};
use crate::place::Place;
use bf_plan::{Dag, Plan};
use bf_value::{OutOfMemory, Sequence};
use std::alloc::Global;
use std::collections::BTreeSet;
use std::marker::Model;

/// The seeds as a set, each once.
fn seed_set_of(alloc: Global, seeds: &[Place]) -> Result<BTreeSet<Place>, OutOfMemory>
    ensures { IfOk result (λ held. HoldSeeds seeds.now held.keys) }
{
    let mut held = BTreeSet::new(alloc);
    for seed in seeds {
        held.insert(*seed)?;
    }
    Ok(held)
}

/// The instances that follow from seeds, the seeds among them: a row of marks for each run, of the tasks of which an
/// instance follows, and the seeds themselves. Contracts see both.
#[derive(Drop)]
pub struct Followers {
    touched: Sequence<Sequence<bool>>,
    seeds: BTreeSet<Place>,
}

impl Model for Followers {
    ghost use Rattle.std.specs.Coded.{codes};
    ghost use Rattle.bf_dependents.specs.contracts.place.Place;
    ghost use Rattle.bf_dependents.specs.Dependents.{Following};

    ghost Value = { Following };

    ghost coded = { Prim.hlevel (codes, Place.the_row.coded) };

    ghost view = { λ d. record { touched = d.touched; seeds = d.seeds.keys } };
}

impl Followers {
    /// The instances that follow from these seeds; `touched` marks in each run the tasks of which an instance follows.
    pub(crate) fn new(
        alloc: Global,
        touched: Sequence<Sequence<bool>>,
        seeds: &[Place],
    ) -> Result<Followers, OutOfMemory>
        ensures touched { IfOk result (λ all. all.touched ≡ touched) }
        ensures seeds { IfOk result (λ all. HoldSeeds seeds.now all.seeds) }
    {
        let seeds = seed_set_of(alloc, seeds)?;
        Ok(Followers { touched, seeds })
    }

    /// The seeds that all these instances follow from, themselves among them.
    pub(crate) fn seeds(&self) -> &BTreeSet<Place>
        ensures { result.now.keys ≡ self.now.seeds }
    {
        &self.seeds
    }

    /// Whether an instance of task number `task` follows in run number `run`; false where there is no such run or task.
    pub(crate) fn has_task(&self, run: u32, task: u32) -> bool
        ensures { result ≡ is_marked_in (row_at self.now.touched run) task }
    {
        is_marked(marks_at(self.touched.as_slice(), run), task)
    }

    /// Whether a task in a run is a seed: as a whole where `index` is None, else its instance of that map index.
    fn has_seed(&self, run: u32, task: u32, index: Option<i32>) -> bool
        ensures { result ≡ has_seed_in self.now.seeds run task index }
    {
        self.seeds.contains(&Place { run, task, index })
    }

    /// Whether all instances of a task follow in a run, given that one does: the task is a seed without a map index, or
    /// it follows from others.
    pub(crate) fn has_whole_task(&self, dag: &Dag, run: u32, task: u32) -> bool
        requires { task < length dag.now.tasks }
        ensures { result ≡ is_whole_in dag.now self.now run task }
    {
        let rows = self.touched.as_slice();
        self.has_seed(run, task, None)
            || follows(dag, task, &[], marks_before(rows, run), marks_at(rows, run))
    }

    /// Whether an instance of a task follows in a run, given that one does: it is a seed itself, or the whole task is a
    /// seed or follows from others.
    // (most follow from others, which is seen sooner than a seed is found)
    fn follows_if_touched(&self, dag: &Dag, run: u32, task: u32, index: i32) -> bool
        requires { task < length dag.now.tasks }
        ensures { result ≡ is_led_to_in dag.now self.now run task index }
    {
        let rows = self.touched.as_slice();
        follows(dag, task, &[], marks_before(rows, run), marks_at(rows, run))
            || self.has_seed(run, task, None)
            || self.has_seed(run, task, Some(index))
    }

    /// Whether the instance of map index `index` of task number `task` follows in run number `run`; false where there
    /// is no such run. Takes time over the task's direct upstreams.
    pub fn has_instance(&self, dag: &Dag, run: u32, task: u32, index: i32) -> bool
        requires { task < length dag.now.tasks }
        ensures { result ≡ has_instance_in dag.now self.now run task index }
    {
        self.has_task(run, task) && self.follows_if_touched(dag, run, task, index)
    }
}

/// The instances of the first `runs` runs that follow from the seeds, these among them: downstream in their run and,
/// for tasks that depend on their past, in later runs (Airflow's "Clear", downstream and future). Takes time over the
/// tasks and upstreams of each run, and once over the seeds.
pub fn dependents(
    alloc: Global,
    plan: &Plan,
    seeds: &[Place],
    runs: u32,
) -> Result<Followers, OutOfMemory>
    ensures { IfOk result (AreDependents plan.now.dag seeds.now runs) }
{
    let _sound = plan.dag();
    let touched = touched_marks_of(alloc, plan, seeds, runs)?;
    Followers::new(alloc, touched, seeds)
}
