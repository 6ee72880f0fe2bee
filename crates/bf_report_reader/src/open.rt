//! The run whose tasks are read, of which the last may have more lines.
//!
//! What hands a task on is inlined, here and in `beginning`: else each call moves it.
ghost use Rattle.std.specs.Prelude.{◌≡◌, ◌∷◌, ◌++◌, [], ℕ, true, IfOk, OnOk, OnErr, IfSome, IfNone, Some, None, int_lt};
ghost use Rattle.bf_report_reader.specs.Parting.{open_by};
ghost use Rattle.bf_report_reader.specs.inner.Lasts.{told_instances, told_task, further_task, at_last};
ghost use Rattle.bf_report_reader.specs.Beginning.{never_report, opened_by, task_count_of, closed, is_further_task, is_given_task, put_task, put_open, put_further};
ghost use Rattle.bf_report_reader.specs.inner.Beginning.{with_told, takes_task, put_part};

use crate::entry::Untried;
use crate::part::{GivenPart, instance_may_take};
use bf_interval::Interval;
use bf_report::{InstanceReport, Pull, RunReport, TaskReport, Version};
use bf_value::{OutOfMemory, Sequence};
use bf_xcom::TaskResult;
use std::alloc::Global;
use std::marker::Model;

/// Answers whether the last instance of a task has its item. True too where it needs none: the task isn't expanded or
/// has no instance, or the version has no items.
fn has_needed_item(version: Version, task: &TaskReport) -> bool
    ensures { result ≡ is_given_task version (open_by task.now) }
{
    match (version, task) {
        (Version::Two, TaskReport::Mapped(instances)) => match instances.as_slice().last() {
            Some(instance) => instance.item().is_some(),
            None => true,
        },
        _ => true,
    }
}

/// Answers whether the last instance of a task may take this item or pull next; false where it has no instance.
fn task_may_take(version: Version, task: &TaskReport, part: &GivenPart) -> bool
    ensures { result ≡ takes_task version (open_by task.now) part.now }
{
    let is_given = has_needed_item(version, task);
    match task {
        TaskReport::Ran(instance) => instance_may_take(version, is_given, instance, part),
        TaskReport::Mapped(instances) => match instances.as_slice().last() {
            Some(instance) => instance_may_take(version, is_given, instance, part),
            None => false,
        },
        TaskReport::NoStatus | TaskReport::Skipped | TaskReport::UpstreamFailed => false,
    }
}

/// Answers whether `index` is the next map index of an expanded task: it has that many instances, at least one. False
/// for any other task.
fn is_next_index(task: &TaskReport, index: u32) -> bool
    ensures { result ≡ is_further_task (open_by task.now) index }
{
    match task {
        TaskReport::Mapped(instances) => index > 0 && instances.len() == index as usize,
        _ => false,
    }
}

/// Adds an item, which replaces the one before, or a pull, which goes behind the others, to an instance.
fn add_part_to_instance(
    alloc: Global,
    instance: &mut InstanceReport,
    part: GivenPart,
) -> Result<(), OutOfMemory>
    ensures ok { OnOk result (instance.new ≡ with_told instance.old part) }
    ensures err { OnErr result (instance.new ≡ instance.old) }
{
    match part {
        GivenPart::Item(item) => instance.set_item(alloc, item),
        GivenPart::Pull(pull) => instance.add_pull(alloc, pull),
    }
}

/// Gives the same pull, meant for the last of these instances. Where the instance before pulled an equal value at that
/// place, the pull shares its memory, which contracts don't see.
fn share_known_value(instances: &[InstanceReport], pull: Pull) -> Result<Pull, OutOfMemory>
    ensures { IfOk result (λ same. same ≡ pull) }
{
    let [.., before, last] = instances else {
        return Ok(pull);
    };
    match before.pulls().get(last.pulls().len()) {
        Some(known) if known.value.is_same(&pull.value) => Ok(Pull {
            task: pull.task,
            value: known.value.share()?,
        }),
        _ => Ok(pull),
    }
}

/// Gives the same item or pull, meant for the last of these instances. A pull shares memory with an equal one of the
/// instance before, which contracts don't see.
fn share_known_part(instances: &[InstanceReport], part: GivenPart) -> Result<GivenPart, OutOfMemory>
    ensures { IfOk result (λ same. same ≡ part) }
{
    match part {
        GivenPart::Pull(pull) => Ok(GivenPart::Pull(share_known_value(instances, pull)?)),
        GivenPart::Item(item) => Ok(GivenPart::Item(item)),
    }
}

/// Adds an item or a pull to the last of these instances; does nothing where there are none.
fn add_part_to_last_instance(
    alloc: Global,
    instances: &mut Sequence<InstanceReport>,
    part: GivenPart,
) -> Result<(), OutOfMemory>
    ensures ok { OnOk result (instances.new ≡ told_instances part instances.old) }
    ensures err { OnErr result (instances.new ≡ instances.old) }
{
    let Some(instance) = instances.items.last_mut() else {
        return Ok(());
    };
    add_part_to_instance(alloc, instance, part)
}

/// Adds an item or a pull to the last instance of a task; does nothing to a task without a try.
fn add_part_to_task(
    alloc: Global,
    task: &mut TaskReport,
    part: GivenPart,
) -> Result<(), OutOfMemory>
    ensures ok { OnOk result (task.new ≡ told_task part task.old) }
    ensures err { OnErr result (task.new ≡ task.old) }
{
    match task {
        TaskReport::Ran(instance) => add_part_to_instance(alloc, instance, part),
        TaskReport::Mapped(instances) => {
            let part = share_known_part(instances.as_slice(), part)?;
            add_part_to_last_instance(alloc, instances, part)
        }
        TaskReport::NoStatus | TaskReport::Skipped | TaskReport::UpstreamFailed => Ok(()),
    }
}

/// Adds an item or a pull to the last instance of the last of these tasks; does nothing where there is none.
fn add_part_to_last_task(
    alloc: Global,
    tasks: &mut Sequence<TaskReport>,
    part: GivenPart,
) -> Result<(), OutOfMemory>
    ensures ok { OnOk result (tasks.new ≡ at_last (told_task part) tasks.old) }
    ensures err { OnErr result (tasks.new ≡ tasks.old) }
{
    let Some(task) = tasks.items.last_mut() else {
        return Ok(());
    };
    add_part_to_task(alloc, task, part)
}

/// Adds a further instance, which ended as `ended`, to an expanded task; does nothing to any other.
fn add_instance_to_task(
    alloc: Global,
    task: &mut TaskReport,
    ended: TaskResult,
) -> Result<(), OutOfMemory>
    ensures ok { OnOk result (task.new ≡ further_task ended task.old) }
    ensures err { OnErr result (task.new ≡ task.old) }
{
    match task {
        TaskReport::Mapped(instances) => instances.push(InstanceReport::new_bare(alloc, ended)?),
        _ => Ok(()),
    }
}

/// Adds a further instance, which ended as `ended`, to the last of these tasks if that is expanded; else does nothing.
fn add_instance_to_last_task(
    alloc: Global,
    tasks: &mut Sequence<TaskReport>,
    ended: TaskResult,
) -> Result<(), OutOfMemory>
    ensures ok { OnOk result (tasks.new ≡ at_last (further_task ended) tasks.old) }
    ensures err { OnErr result (tasks.new ≡ tasks.old) }
{
    let Some(task) = tasks.items.last_mut() else {
        return Ok(());
    };
    add_instance_to_task(alloc, task, ended)
}

/// Adds an item or a pull to the last instance of the last task of a run; does nothing where there is none.
fn add_part_to_run(alloc: Global, run: &mut RunReport, part: GivenPart) -> Result<(), OutOfMemory>
    ensures ok { OnOk result (run.new
        ≡ record run.old { tasks = at_last (told_task part) run.old.tasks }) }
    ensures err { OnErr result (run.new ≡ run.old) }
{
    add_part_to_last_task(alloc, &mut run.tasks, part)
}

/// Adds a further instance, which ended as `ended`, to the last task of a run if that is expanded; else does nothing.
fn add_instance_to_run(
    alloc: Global,
    run: &mut RunReport,
    ended: TaskResult,
) -> Result<(), OutOfMemory>
    ensures ok { OnOk result (run.new
        ≡ record run.old { tasks = at_last (further_task ended) run.old.tasks }) }
    ensures err { OnErr result (run.new ≡ run.old) }
{
    add_instance_to_last_task(alloc, &mut run.tasks, ended)
}

/// Adds a task at the end of a run.
#[inline(always)]
fn push_task(run: &mut RunReport, task: TaskReport) -> Result<(), OutOfMemory>
    ensures { OnOk result (run.new ≡ record run.old { tasks = run.old.tasks ++ task ∷ [] }) }
{
    run.tasks.push(task)
}

/// Makes the report of a task with its first instance, which ended as `first`; an expanded one may get further
/// instances.
#[inline(always)]
fn open_task_of(
    alloc: Global,
    is_expanded: bool,
    first: TaskResult,
) -> Result<TaskReport, OutOfMemory>
    ensures { IfOk result (λ task. open_by task ≡ Some (opened_by is_expanded first)) }
{
    let instance = InstanceReport::new_bare(alloc, first)?;
    if !is_expanded {
        return Ok(TaskReport::Ran(instance));
    }
    let mut instances = Sequence::new(alloc);
    instances.push(instance)?;
    Ok(TaskReport::Mapped(instances))
}

/// The run whose tasks are being read. Contracts see its last task apart from the others where that has an instance,
/// since further lines may belong to it.
#[derive(Drop)]
pub(crate) struct OpenRun {
    run: RunReport,
}

impl Model for OpenRun {
    ghost use Rattle.std.specs.Coded.{codes};
    ghost use Rattle.bf_report.specs.contracts.report.InstanceReport;
    ghost use Rattle.bf_report.specs.contracts.report.RunReport;
    ghost use Rattle.bf_report_reader.specs.Open.{RunSoFar};

    ghost Value = { RunSoFar };

    ghost coded = { Prim.hlevel (codes, InstanceReport.the_row.coded, RunReport.the_row.coded) };

    ghost use Rattle.bf_report_reader.specs.Parting.{run_so_far};

    ghost view = { λ o. run_so_far o.run };
}

impl OpenRun {
    /// Makes the run of which only the `@run` line was read.
    pub(crate) fn new(run: RunReport) -> OpenRun
        requires { run.tasks ≡ [] }
        ensures { result ≡ record { run = run; task = None } }
    {
        OpenRun { run }
    }

    /// Answers whether this run's data interval starts before that one.
    pub(crate) fn starts_before(&self, interval: Interval) -> bool
        ensures { result ≡ int_lt self.now.run.interval.start.nanosecond interval.start.nanosecond }
    {
        self.run.interval.start < interval.start
    }

    /// Counts the tasks read so far.
    pub(crate) fn task_count(&self) -> usize
        ensures { result ≡ task_count_of self.now }
    {
        self.run.tasks.len()
    }

    /// Adds a task without a try, for the reason `untried`, at the end of the run.
    pub(crate) fn add_untried_task(&mut self, untried: Untried) -> Result<(), OutOfMemory>
        ensures { OnOk result (put_task (Some self.old) (never_report untried) ≡ Some self.new) }
    {
        push_task(&mut self.run, untried.report())
    }

    /// Adds a task with its first instance, which ended as `first`, at the end of the run; an expanded one may get
    /// further instances.
    #[inline(always)]
    pub(crate) fn add_open_task(
        &mut self,
        alloc: Global,
        is_expanded: bool,
        first: TaskResult,
    ) -> Result<(), OutOfMemory>
        ensures { OnOk result (put_open (Some self.old) (opened_by is_expanded first)
            ≡ Some self.new) }
    {
        push_task(&mut self.run, open_task_of(alloc, is_expanded, first)?)
    }

    /// Gives the task read last; None before the first.
    fn last(&self) -> Option<&TaskReport>
        ensures some { IfSome result (λ task. open_by task.now ≡ self.now.task) }
        ensures none { IfNone result (self.now.task ≡ None) }
    {
        self.run.tasks.as_slice().last()
    }

    /// Answers whether the instance read last has its item. True too where it needs none, or no task was read yet.
    pub(crate) fn has_needed_item(&self, version: Version) -> bool
        ensures { result ≡ is_given_task version self.now.task }
    {
        match self.last() {
            Some(task) => has_needed_item(version, task),
            None => true,
        }
    }

    /// Answers whether an instance with this map index may come next for the task read last; false where that isn't
    /// expanded.
    pub(crate) fn is_next_instance(&self, index: u32) -> bool
        ensures { result ≡ is_further_task self.now.task index }
    {
        match self.last() {
            Some(task) => is_next_index(task, index),
            None => false,
        }
    }

    /// Adds an instance, which ended as `ended`, to the task read last, which must be expanded. `Err` changes nothing.
    pub(crate) fn add_instance(
        &mut self,
        alloc: Global,
        ended: TaskResult,
    ) -> Result<(), OutOfMemory>
        requires { (index : ℕ) × (is_further_task self.old.task index ≡ true) }
        ensures ok { OnOk result (put_further (Some self.old) ended ≡ Some self.new) }
        ensures err { OnErr result (self.new ≡ self.old) }
    {
        add_instance_to_run(alloc, &mut self.run, ended)
    }

    /// Answers whether the instance read last may take this item or pull next; false where there is none.
    pub(crate) fn may_take_part(&self, version: Version, part: &GivenPart) -> bool
        ensures { result ≡ takes_task version self.now.task part.now }
    {
        match self.last() {
            Some(task) => task_may_take(version, task, part),
            None => false,
        }
    }

    /// Adds an item or a pull to the instance read last; does nothing where there is none. `Err` changes nothing.
    pub(crate) fn add_part(&mut self, alloc: Global, part: GivenPart) -> Result<(), OutOfMemory>
        ensures ok { OnOk result (put_part (Some self.old) part ≡ Some self.new) }
        ensures err { OnErr result (self.new ≡ self.old) }
    {
        add_part_to_run(alloc, &mut self.run, part)
    }

    /// Gives the run, after its last line.
    pub(crate) fn into_run(self) -> RunReport
        ensures { result ≡ closed self }
    {
        let OpenRun { run } = self;
        run
    }
}
