//! What follows, task by task.
ghost use Rattle.std.specs.Prelude.{◌≡◌, ◌<◌, ◌≤◌, ◌++◌, length, filter, IfOk, OnOk};
ghost use Rattle.bf_dependents.specs.Listing.{is_whole_in, places_of_task, places_in, places_of_run};
ghost use Rattle.bf_dependents.specs.Marks.{is_of};

use crate::found::Followers;
use crate::place::Place;
use bf_plan::{Dag, Plan};
use bf_value::OutOfMemory;
use std::alloc::{AllocError, Global};

impl Followers {
    /// The seeds of task number `task` in run number `run`, with or without a map index, in order.
    fn seeds_at(&self, alloc: Global, run: u32, task: u32) -> Result<Vec<Place>, AllocError>
        ensures { IfOk result (λ found. found.items ≡ filter (is_of run task) self.now.seeds) }
    {
        self.seeds()
            .iter()
            .copied()
            .filter(|seed| seed.run == run && seed.task == task)
            .collect(alloc)
    }

    /// What follows of a task in a run: the whole task, as one place without a map index, or else the instances that
    /// are seeds. Empty where nothing of it follows.
    fn places_at(
        &self,
        alloc: Global,
        dag: &Dag,
        run: u32,
        task: u32,
    ) -> Result<Vec<Place>, OutOfMemory>
        requires { task < length dag.now.tasks }
        ensures { IfOk result (λ found. found.items ≡ places_of_task dag.now self.now run task) }
    {
        if !self.has_task(run, task) {
            return Ok(Vec::new(alloc));
        }
        if self.has_whole_task(dag, run, task) {
            let index = None;
            return Ok(vec![in alloc; Place { run, task, index }]?);
        }
        Ok(self.seeds_at(alloc, run, task)?)
    }

    /// Adds to `places` what follows of the first `tasks` tasks in run number `run`, in file order.
    fn add_run(
        &self,
        alloc: Global,
        dag: &Dag,
        run: u32,
        tasks: u32,
        places: &mut Vec<Place>,
    ) -> Result<(), OutOfMemory>
        requires { tasks ≤ length dag.now.tasks }
        ensures { OnOk result (places.new.items ≡ places.old.items
            ++ places_of_run dag.now self.now tasks run) }
    {
        for task in 0..tasks {
            let found = self.places_at(alloc, dag, run, task)?;
            places.extend_from_slice(found.as_slice())?;
        }
        Ok(())
    }

    /// What follows in the first `runs` runs, by run and by task in file order: a place without a map index where all
    /// instances of a task follow, else a place for each of its instances that is a seed. For each task of the latter
    /// kind it takes time over all seeds.
    pub fn places(&self, alloc: Global, plan: &Plan, runs: u32) -> Result<Vec<Place>, OutOfMemory>
        ensures { IfOk result (λ places. places.items ≡ places_in plan.now.dag self.now runs) }
    {
        let dag = plan.dag();
        let tasks = dag.tasks.len() as u32;
        let mut places = Vec::new(alloc);
        for run in 0..runs {
            self.add_run(alloc, dag, run, tasks, &mut places)?;
        }
        Ok(places)
    }
}
