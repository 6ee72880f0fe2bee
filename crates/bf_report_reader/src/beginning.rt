//! A report as far as it was read.
ghost use Rattle.std.specs.Prelude.{◌≡◌, ◌++◌, [], if◌then◌else◌, true, false, IfOk, OnOk, Some, None};
ghost use Rattle.bf_report_reader.specs.Beginning.{never_report, opened_by, has_its_item_at, is_new_id_in, is_next_id_at, ids_with, with_task, with_open, is_next_instance_at, with_further, with_entry};
ghost use Rattle.bf_report_reader.specs.inner.Beginning.{so_far, last_run, run_count_of, is_whole_in, is_whole_at, may_begin_in, with_run, may_take_part_in, with_part};

use crate::entry::{Entry, Untried};
use crate::ids::TaskIds;
use crate::open::OpenRun;
use crate::part::GivenPart;
use bf_interval::{Interval, MOST_RUNS};
use bf_plan::is_id;
use bf_read::MOST_TASKS;
use bf_report::{Report, RunReport, Version};
use bf_value::{OutOfMemory, Sequence, Text};
use bf_xcom::TaskResult;
use std::alloc::Global;

/// Adds `run`, whose lines were all read, at the end of `runs`; does nothing for None.
fn add_closed(runs: &mut Sequence<RunReport>, run: Option<OpenRun>) -> Result<(), OutOfMemory>
    ensures { OnOk result (runs.new ≡ runs.old ++ last_run run) }
{
    if let Some(open) = run {
        runs.push(open.into_run())?;
    }
    Ok(())
}

/// A report as far as it was read. Its first run gives the ids of the tasks, which are the same in all runs.
#[derive(Drop)]
pub(crate) struct ReportSoFar {
    pub(crate) version: Version,
    pub(crate) dag_id: Text,
    pub(crate) tasks: TaskIds,
    /// The runs before the one whose tasks are read.
    pub(crate) runs: Sequence<RunReport>,
    pub(crate) run: Option<OpenRun>,
}

impl ReportSoFar {
    /// Makes the report of which only the head line was read: it has no run yet.
    pub(crate) fn new(alloc: Global, version: Version, dag_id: Text) -> ReportSoFar
        ensures { result ≡ record {
          version = version;
          dag_id = dag_id;
          tasks = [];
          runs = [];
          run = None;
        } }
    {
        ReportSoFar {
            version,
            dag_id,
            tasks: TaskIds::new(alloc),
            runs: Sequence::new(alloc),
            run: None,
        }
    }

    /// Counts the runs read so far, with the one whose tasks are being read.
    pub(crate) fn run_count(&self) -> usize
        ensures { result ≡ run_count_of self.now }
    {
        // a slice has so few items that one more can be counted
        match self.run {
            Some(_) => self.runs.as_slice().len() + 1,
            None => self.runs.len(),
        }
    }

    /// Answers whether the instance read last has its item. True too where it needs none: its task isn't expanded, the
    /// report's version has no items, or no instance was read.
    fn has_needed_item(&self) -> bool
        ensures { result ≡ has_its_item_at self.now }
    {
        match &self.run {
            Some(open) => open.has_needed_item(self.version),
            None => true,
        }
    }

    /// Answers whether the last run has as many tasks as the first run; true before the first run.
    fn has_all_tasks(&self) -> bool
        ensures { result ≡ is_whole_in self.now.run self.now.tasks }
    {
        match &self.run {
            Some(open) => open.task_count() == self.tasks.len(),
            None => true,
        }
    }

    /// Answers whether the report may end here, or a new run begin: the last run has all tasks, and its last instance
    /// the item that it needs. True before the first run.
    pub(crate) fn is_whole(&self) -> bool
        ensures { result ≡ is_whole_at self.now }
    {
        self.has_needed_item() && self.has_all_tasks()
    }

    /// Answers whether a run of this data interval may come next: the report is whole so far (`is_whole`), it has fewer
    /// than `MOST_RUNS` runs, and its last run starts before this one.
    fn may_begin(&self, interval: Interval) -> bool
        ensures { result ≡ may_begin_in self.now interval }
    {
        if !self.is_whole() || self.run_count() >= MOST_RUNS {
            return false;
        }
        match &self.run {
            Some(open) => open.starts_before(interval),
            None => true,
        }
    }

    /// Adds a run that has no tasks yet, and answers true; false, with nothing added, where it may not come next
    /// (`may_begin`).
    pub(crate) fn add_run(&mut self, run: RunReport) -> Result<bool, OutOfMemory>
        requires { run.tasks ≡ [] }
        ensures added { IfOk result (λ taken.
            with_run self.old run ≡ (if taken then Some self.new else None)) }
        ensures refused { IfOk result (λ taken. taken ≡ false → self.new ≡ self.old) }
    {
        if !self.may_begin(run.interval) {
            return Ok(false);
        }
        add_closed(&mut self.runs, self.run.replace(OpenRun::new(run)))?;
        Ok(true)
    }

    /// Answers whether the first run may take a task with this id next: `id` is a valid id, no task of the run has it,
    /// and the run has fewer than `MOST_TASKS` tasks.
    fn is_new_id(&self, id: &[u8]) -> bool
        ensures { result ≡ is_new_id_in self.now.tasks id.now }
    {
        let Ok(id) = std::str::from_utf8(id) else {
            return false;
        };
        is_id(id) && self.tasks.len() < MOST_TASKS && !self.tasks.contains(id)
    }

    /// Answers whether a task with this id may come next in the last run: in the first run any new id (`is_new_id`), in
    /// later runs only the id that the first run has at that place. False before the first run, and while an item is
    /// missing.
    fn is_next_id(&self, id: &[u8]) -> bool
        ensures { result ≡ is_next_id_at self.now id.now }
    {
        let Some(open) = &self.run else {
            return false;
        };
        if !open.has_needed_item(self.version) {
            return false;
        }
        if self.runs.is_empty() {
            return self.is_new_id(id);
        }
        self.tasks.has_id_at(open.task_count(), id)
    }

    /// Adds the id of a task of the first run to `tasks`. Does nothing in later runs, whose ids are known already.
    fn add_id(&mut self, alloc: Global, id: &[u8]) -> Result<(), OutOfMemory>
        requires { is_next_id_at self.old id.now ≡ true }
        ensures { OnOk result (self.new ≡ record self.old {
          tasks = ids_with self.old.runs self.old.tasks id.now;
        }) }
    {
        if !self.runs.is_empty() {
            return Ok(());
        }
        let Ok(id) = std::str::from_utf8(id) else {
            unreachable!();
        };
        self.tasks.add(alloc, id)
    }

    /// Adds a task without a try, for the reason `untried`, and answers true; false, with nothing added, where a task
    /// with this id may not come next (`is_next_id`).
    fn add_untried_task(
        &mut self,
        alloc: Global,
        id: &[u8],
        untried: Untried,
    ) -> Result<bool, OutOfMemory>
        ensures added { IfOk result (λ taken. with_task self.old id.now (never_report untried)
            ≡ (if taken then Some self.new else None)) }
        ensures refused { IfOk result (λ taken. taken ≡ false → self.new ≡ self.old) }
    {
        if !self.is_next_id(id) {
            return Ok(false);
        }
        self.add_id(alloc, id)?;
        if let Some(open) = &mut self.run {
            open.add_untried_task(untried)?;
        }
        Ok(true)
    }

    /// Adds a task with its first instance, which ended as `first`, and answers true; false, with nothing added, where
    /// a task with this id may not come next (`is_next_id`).
    #[inline(always)]
    fn add_open_task(
        &mut self,
        alloc: Global,
        id: &[u8],
        is_expanded: bool,
        first: TaskResult,
    ) -> Result<bool, OutOfMemory>
        ensures added { IfOk result (λ taken.
            with_open self.old id.now (opened_by is_expanded first)
            ≡ (if taken then Some self.new else None)) }
        ensures refused { IfOk result (λ taken. taken ≡ false → self.new ≡ self.old) }
    {
        if !self.is_next_id(id) {
            return Ok(false);
        }
        self.add_id(alloc, id)?;
        if let Some(open) = &mut self.run {
            open.add_open_task(alloc, is_expanded, first)?;
        }
        Ok(true)
    }

    /// Answers whether an instance with this id and map index may come next: the task read last has this id, is
    /// expanded and has exactly `index` instances so far, and no item is missing.
    fn is_next_instance(&self, id: &[u8], index: u32) -> bool
        ensures { result ≡ is_next_instance_at self.now id.now index }
    {
        let Some(open) = &self.run else {
            return false;
        };
        if !open.has_needed_item(self.version) || !open.is_next_instance(index) {
            return false;
        }
        self.tasks.has_id_at(open.task_count() - 1, id)
    }

    /// Adds a further instance, which ended as `ended`, to the task read last, and answers true; false, with nothing
    /// added, where the instance may not come next (`is_next_instance`).
    fn add_instance(
        &mut self,
        alloc: Global,
        id: &[u8],
        index: u32,
        ended: TaskResult,
    ) -> Result<bool, OutOfMemory>
        ensures added { IfOk result (λ taken.
            with_further self.old id.now index ended ≡ (if taken then Some self.new else None)) }
        ensures refused { IfOk result (λ taken. taken ≡ false → self.new ≡ self.old) }
    {
        if !self.is_next_instance(id, index) {
            return Ok(false);
        }
        if let Some(open) = &mut self.run {
            open.add_instance(alloc, ended)?;
        }
        Ok(true)
    }

    /// Adds what the line of the task `id` says, and answers true; false, with nothing added, where that line may not
    /// come next.
    #[tactic(auto, unfolding(crate::specs::Beginning::with_entry))]
    pub(crate) fn add_entry(
        &mut self,
        alloc: Global,
        id: &[u8],
        entry: Entry,
    ) -> Result<bool, OutOfMemory>
        ensures added { IfOk result (λ taken.
            with_entry self.old id.now entry ≡ (if taken then Some self.new else None)) }
        ensures refused { IfOk result (λ taken. taken ≡ false → self.new ≡ self.old) }
    {
        match entry {
            Entry::Never(untried) => self.add_untried_task(alloc, id, untried),
            Entry::Tried(None, ended) => self.add_open_task(alloc, id, false, ended),
            Entry::Tried(Some(0), first) => self.add_open_task(alloc, id, true, first),
            Entry::Tried(Some(index), ended) => self.add_instance(alloc, id, index, ended),
        }
    }

    /// Answers whether this item or pull may come next, for the instance read last; false before the first run.
    fn may_take_part(&self, part: &GivenPart) -> bool
        ensures { result ≡ may_take_part_in self.now.version self.now.run part.now }
    {
        match &self.run {
            Some(open) => open.may_take_part(self.version, part),
            None => false,
        }
    }

    /// Adds an item or a pull to the instance read last, and answers true; false, with nothing added, where it may not
    /// come next (`may_take_part`).
    pub(crate) fn add_part(&mut self, alloc: Global, part: GivenPart) -> Result<bool, OutOfMemory>
        ensures added { IfOk result (λ taken.
            with_part self.old part ≡ (if taken then Some self.new else None)) }
        ensures refused { IfOk result (λ taken. taken ≡ false → self.new ≡ self.old) }
    {
        if !self.may_take_part(&part) {
            return Ok(false);
        }
        if let Some(open) = &mut self.run {
            open.add_part(alloc, part)?;
        }
        Ok(true)
    }

    /// Turns what was read into the report, with the run read last as its last run. The report is as whole as what was
    /// read: nothing is checked here.
    pub(crate) fn into_report(self, alloc: Global) -> Result<Report, OutOfMemory>
        ensures { IfOk result (λ report. report ≡ so_far self) }
    {
        let ReportSoFar {
            version,
            dag_id,
            tasks,
            mut runs,
            run,
        } = self;
        add_closed(&mut runs, run)?;
        Ok(Report {
            version,
            dag_id,
            tasks: tasks.into_texts(alloc)?,
            runs,
        })
    }
}
