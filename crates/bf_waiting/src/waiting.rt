//! The tries that wait, kept over the events of a backfill: which begins next, and which moment is waited for.
ghost use Rattle.std.specs.Prelude.{◌≡◌, ◌<◌, ◌+◌, ◌↔◌, Bool, length, slice_index, IfSome, IfNone, MatchOption, OnOk, ℕ, IfOk, IsTrue, slice_get, None, Some, Contains};
ghost use Rattle.bf_value.specs.declared.name.JobName.{JobName};
ghost use Rattle.bf_plan.specs.Sound.{demand_of};
ghost use Rattle.bf_pool.specs.Weights.{AreWeights};
ghost use Rattle.bf_xcom.specs.declared.values.Outcome.{Outcome};
ghost use Rattle.bf_core.specs.declared.event.Event.{Event};
ghost use Rattle.bf_core.specs.Cores.{Backfill, deciding};
ghost use Rattle.bf_core.specs.Events.{has_room_in};
ghost use Rattle.bf_waiting.specs.inner.Keeping.{IsOfPlace};
ghost use Rattle.bf_waiting.specs.Kept.{HasRoomFor, HasRoomOf, KeepsTries, KeepsTriesOver, IsClassOf};
ghost use Rattle.bf_waiting.specs.Choices.{IsNextMoment, IsNextTry};
ghost use Rattle.bf_waiting.specs.inner.Filling.{AreClassedTo, AreEmpty, AreFilled};
ghost use Rattle.bf_waiting.specs.inner.Heaps.{Leads};
ghost use Rattle.bf_waiting.specs.Looks.{earlier_moment_of};
ghost use Rattle.bf_waiting.specs.inner.Looks.{IsBestOf, IsLeading, IsSoonestOf, IsTryOfBatch, MayTake};
ghost use Rattle.bf_waiting.specs.declared.waiting.Waiting.{Waiting};
ghost use Rattle.bf_waiting.specs.declared.batches.Batch.{Batch};

use crate::batches::Batch;
use crate::class::SlotClass;
use crate::instances::instances_of;
use bf_core::{Core, Event, name_of, place_of};
use bf_plan::Plan;
use bf_pool::total_weights_of;
use bf_value::{JobName, OutOfMemory};
use std::alloc::Global;

/// The tries of a backfill that wait, for room in a pool or for a later moment, kept up to date over its events.
#[derive(Drop)]
pub struct Waiting {
    /// The total weight of each task.
    pub(crate) weights: Vec<u32>,
    /// The place of each task's class.
    pub(crate) class_of: Vec<usize>,
    /// The tasks by pool and slots: of one class all have room, or none has.
    pub(crate) classes: Vec<SlotClass>,
}

/// Whether two tasks take the same number of slots of the same pool.
fn take_same_slots(plan: &Plan, one: u32, other: u32) -> bool
    requires one { one < length plan.now.dag.tasks }
    requires other { other < length plan.now.dag.tasks }
    ensures { IsTrue result ↔
        (((demand_of plan.now.limits one).pool ≡ (demand_of plan.now.limits other).pool)
        × ((demand_of plan.now.limits one).slots ≡ (demand_of plan.now.limits other).slots)) }
{
    let one = plan.demand(one);
    let other = plan.demand(other);
    one.pool == other.pool && one.slots == other.slots
}

/// The place, from 0, of the first class whose tasks take the same slots as `task`; None where there is none. No clause
/// says that it is the first, or when it is None.
fn find_class_for(plan: &Plan, classes: &[SlotClass], task: u32) -> Option<usize>
    requires task { task < length plan.now.dag.tasks }
    requires empty { AreEmpty plan.now.dag classes.now }
    ensures { IfSome result (λ j. IsClassOf plan.now.dag plan.now.limits classes.now j task) }
{
    for (place, class) in classes.iter().enumerate() {
        if take_same_slots(plan, class.task, task) {
            return Some(place);
        }
    }
    None
}

/// The place in `classes`, from 0, of the class whose tasks take the same slots as `task`. Adds that class where it is
/// missing.
fn find_or_add_class(
    alloc: Global,
    plan: &Plan,
    classes: &mut Vec<SlotClass>,
    task: u32,
) -> Result<usize, OutOfMemory>
    requires task { task < length plan.now.dag.tasks }
    requires empty { AreEmpty plan.now.dag classes.old.items }
    ensures class { IfOk result (λ j. IsClassOf plan.now.dag plan.now.limits classes.new.items j
        task) }
    ensures kept { (i u : ℕ) → IsClassOf plan.now.dag plan.now.limits classes.old.items i u
        → IsClassOf plan.now.dag plan.now.limits classes.new.items i u }
    ensures empty { OnOk result (AreEmpty plan.now.dag classes.new.items) }
    ensures few { IfOk result (λ j. j < length classes.new.items) }
{
    if let Some(class) = find_class_for(plan, classes.as_slice(), task) {
        return Ok(class);
    }
    let class = classes.len();
    classes.push(SlotClass::new(alloc, task))?;
    Ok(class)
}

impl Waiting {
    /// Finds the tries that wait in a core now: for a worker, for room in a pool, or for a moment.
    pub fn new(alloc: Global, core: &Core<'_>) -> Result<Waiting, OutOfMemory>
        ensures { IfOk result (λ w. KeepsTries core.now w) }
    {
        let mut waiting = Waiting::empty(alloc, core.plan())?;
        waiting.fill(core)?;
        Ok(waiting)
    }

    /// The classes of the plan's tasks, in which no instance waits yet.
    fn empty(alloc: Global, plan: &Plan) -> Result<Waiting, OutOfMemory>
        ensures weights { IfOk result (λ w. AreWeights plan.now.dag plan.now.limits
            w.weights.items) }
        ensures classes { IfOk result (λ w. AreClassedTo plan.now.dag plan.now.limits
            (length plan.now.dag.tasks) w.class_of.items w.classes.items) }
    {
        let weights = total_weights_of(alloc, plan)?;
        let tasks = plan.dag().tasks.len();
        let mut class_of = Vec::with_capacity(alloc, tasks)?;
        let mut classes = Vec::new(alloc);
        for task in 0..tasks {
            class_of.push(find_or_add_class(alloc, plan, &mut classes, task as u32)?)?;
        }
        Ok(Waiting {
            weights,
            class_of,
            classes,
        })
    }

    /// Adds all instances in the core that wait.
    fn fill(&mut self, core: &Core<'_>) -> Result<(), OutOfMemory>
        requires { AreFilled core.now self.old 0 0 }
        ensures { OnOk result (KeepsTries core.now self.new) }
    {
        let _replayed = core.journal();
        for run in 0..core.run_count() {
            self.fill_run(core, run)?;
        }
        Ok(())
    }

    /// Adds all instances of a run that wait.
    fn fill_run(&mut self, core: &Core<'_>, run: u32) -> Result<(), OutOfMemory>
        requires { AreFilled core.now self.old run 0 }
        ensures { OnOk result (AreFilled core.now self.new (run + 1) 0) }
    {
        let _replayed = core.journal();
        for task in 0..core.plan().dag().tasks.len() {
            self.fill_task(core, run, task as u32)?;
        }
        Ok(())
    }

    /// Adds the instances of a task in a run that wait.
    fn fill_task(&mut self, core: &Core<'_>, run: u32, task: u32) -> Result<(), OutOfMemory>
        requires task { task < length core.now.dag.tasks }
        requires filled { AreFilled core.now self.old run task }
        ensures { OnOk result (AreFilled core.now self.new run (task + 1)) }
    {
        match self.class_at(task) {
            None => Ok(()),
            Some(class) => {
                let class = &mut self.classes[class];
                class.take_up_all(core, self.weights.as_slice(), run, task)
            }
        }
    }

    /// The place of the class of a task, from 0; None where there is no such task or class.
    fn class_at(&self, task: u32) -> Option<usize>
        ensures some { IfSome result (λ j. (j ≡ slice_index self.now.class_of.items task)
            × (j < length self.now.classes.items) × (task < length self.now.class_of.items)) }
        ensures none { IfNone result (task < length self.now.class_of.items
            → ¬ (slice_index self.now.class_of.items task < length self.now.classes.items)) }
    {
        let class = *self.class_of.get(task as usize)?;
        if class < self.classes.len() {
            Some(class)
        } else {
            None
        }
    }
}

/// Whether a task is there, and its slots fit its pool beside those that are occupied.
fn has_room(core: &Core<'_>, task: u32) -> bool
    ensures { IsTrue result ↔ ((task < length core.now.dag.tasks)
        × IsTrue (has_room_in core.now.limits core.now.state task)) }
{
    let tasks = core.plan().dag().tasks.len();
    (task as usize) < tasks && core.has_room(task)
}

/// The greater of two batches, of which either may be missing; None where both are.
fn greater_batch(best: Option<Batch>, found: Option<Batch>) -> Option<Batch>
    ensures { IsLeading best found result }
{
    match (best, found) {
        (None, found) => found,
        (Some(best), None) => Some(best),
        (Some(best), Some(found)) => Some(best.max(found)),
    }
}

/// The greatest batch of a class; None where it has none, or the pool has no room for its tasks.
fn first_batch_with_room(core: &Core<'_>, class: &SlotClass) -> Option<Batch>
    ensures some { IfSome result (λ x. MayTake core.now class.now
        × (Some x ≡ slice_get class.now.batches.items 0)) }
    ensures first { IfSome result (λ x. (y : Batch) → Contains class.now.batches.items y
        → Leads x y) }
    ensures none { IfNone result (MayTake core.now class.now → slice_get class.now.batches.items 0
        ≡ None) }
{
    if has_room(core, class.task) {
        class.first()
    } else {
        None
    }
}

/// The greatest batch of those classes whose pools have room for their tasks; None where these have none.
fn greatest_batch_of(classes: &[SlotClass], core: &Core<'_>) -> Option<Batch>
    ensures { IsBestOf core.now classes.now result }
{
    let mut best = None;
    for class in classes {
        best = greater_batch(best, first_batch_with_room(core, class));
    }
    best
}

/// The present try of the first instance of a batch; None where that isn't there.
fn first_try_of_batch(core: &Core<'_>, batch: Batch) -> Option<JobName>
    ensures { IsTryOfBatch core.now batch result }
{
    let place = batch.first.0 as usize;
    let instance = instances_of(core, batch.run.0, batch.task.0).get(place)?;
    let dag = core.plan().dag();
    Some(name_of(dag, batch.run.0, batch.task.0, place, instance.attempt))
}

/// The earlier of two moments, of which either may be missing; None where both are.
pub fn earlier_moment(soonest: Option<i64>, found: Option<i64>) -> Option<i64>
    ensures { result ≡ earlier_moment_of soonest found }
{
    match (soonest, found) {
        (None, found) => found,
        (Some(soonest), None) => Some(soonest),
        (Some(soonest), Some(found)) => Some(soonest.min(found)),
    }
}

/// The earliest moment for which a try of these classes waits, in seconds since 1970; None where none waits for one.
fn earliest_moment_of(classes: &[SlotClass]) -> Option<i64>
    ensures { IsSoonestOf classes.now result }
{
    let mut soonest = None;
    for class in classes {
        soonest = earlier_moment(soonest, class.earliest_moment());
    }
    soonest
}

impl Waiting {
    /// The try to begin next: of those that may begin now, the one of the greatest total weight, and among equals the
    /// first by run, in file order and by map index. None where none may begin now.
    pub fn next_try(&self, core: &Core<'_>) -> Option<JobName>
        ensures { KeepsTries core.now self.now → IsNextTry core.now result }
    {
        match greatest_batch_of(self.classes.as_slice(), core) {
            None => None,
            Some(batch) => first_try_of_batch(core, batch),
        }
    }

    /// The earliest moment still to come for which a try waits, in seconds since 1970; None where no try waits for one.
    pub fn next_moment(&self) -> Option<i64>
        ensures { (b : Backfill) → KeepsTries b self.now → IsNextMoment b result }
    {
        earliest_moment_of(self.classes.as_slice())
    }
}

/// The task of which an event may let an instance wait: the one that it decides, or of which it ends a try. None for
/// other events.
fn task_to_make_room_for(event: &Event) -> Option<u32>
    ensures { (w : Waiting) → MatchOption result (HasRoomFor event.now w)
        (λ t. HasRoomOf t w → HasRoomFor event.now w) }
{
    match event {
        Event::Settle { task, .. } | Event::Expand { task, .. } => Some(*task),
        Event::End(name, _) => Some(name.task),
        Event::Open | Event::Begin(_) | Event::Close { .. } | Event::Tick { .. } => None,
    }
}

impl Waiting {
    /// Makes room for the instances that `event` may let wait; called before the event comes. What waits stays up to
    /// date, at `Err` too.
    pub fn make_room(&mut self, event: &Event) -> Result<(), OutOfMemory>
        ensures kept { (b : Backfill) → KeepsTries b self.old → KeepsTries b self.new }
        ensures room { OnOk result (HasRoomFor event.now self.new) }
    {
        let Some(task) = task_to_make_room_for(event) else {
            return Ok(());
        };
        self.make_room_of(task)
    }

    /// Makes room for one more instance of a task that waits; does nothing where there is no such task. What waits
    /// stays up to date, at `Err` too.
    fn make_room_of(&mut self, task: u32) -> Result<(), OutOfMemory>
        ensures kept { (b : Backfill) → KeepsTries b self.old → KeepsTries b self.new }
        ensures room { OnOk result (HasRoomOf task self.new) }
    {
        match self.class_at(task) {
            None => Ok(()),
            Some(class) => {
                let class = &mut self.classes[class];
                class.make_room()
            }
        }
    }

    /// Keeps what waits up to date after an event that has come to the core, for which `make_room` made room. It
    /// takes no memory.
    pub fn on_event(&mut self, core: &Core<'_>, event: &Event)
        requires { HasRoomFor event.now self.old }
        ensures { KeepsTriesOver event.now core.now self.old self.new }
    {
        match event {
            Event::Open | Event::Close { .. } => {}
            Event::Settle { run, task } | Event::Expand { run, task } => {
                self.on_decision(core, *run, *task);
            }
            Event::Begin(name) => self.on_begin(core, name.task),
            Event::End(name, _) => {
                let place = place_of(core.plan().dag(), *name);
                self.on_end(core, name.run, name.task, place);
            }
            Event::Tick { moment } => self.on_tick(core, *moment),
        }
    }

    /// Keeps what waits up to date after a task was decided in a run.
    fn on_decision(&mut self, core: &Core<'_>, run: u32, task: u32)
        requires { HasRoomOf task self.old }
        ensures { (expands : Bool) → KeepsTriesOver (deciding expands run task) core.now self.old
            self.new }
    {
        if let Some(class) = self.class_at(task) {
            let class = &mut self.classes[class];
            class.on_decision(core, self.weights.as_slice(), run, task);
        }
    }

    /// Keeps what waits up to date after a try of a task began.
    fn on_begin(&mut self, core: &Core<'_>, task: u32)
        ensures { (n : JobName) → n.task ≡ task
            → KeepsTriesOver (Event.Begin n) core.now self.old self.new }
    {
        if let Some(class) = self.class_at(task) {
            let class = &mut self.classes[class];
            class.on_begin(core);
        }
    }

    /// Keeps what waits up to date after a try of the instance at `place`, from 0, of a task in a run ended.
    fn on_end(&mut self, core: &Core<'_>, run: u32, task: u32, place: u32)
        requires { HasRoomOf task self.old }
        ensures { (n : JobName) (o : Outcome) → IsOfPlace core.now.dag n run task place
            → KeepsTriesOver (Event.End n o) core.now self.old self.new }
    {
        if let Some(class) = self.class_at(task) {
            let class = &mut self.classes[class];
            class.on_end(core, self.weights.as_slice(), run, task, place);
        }
    }

    /// Keeps what waits up to date after the clock moved to `now`, in seconds since 1970.
    fn on_tick(&mut self, core: &Core<'_>, now: i64)
        ensures { KeepsTriesOver (Event.Tick now) core.now self.old self.new }
    {
        for class in self.classes.iter_mut() {
            class.on_tick(core, self.weights.as_slice(), now);
        }
    }
}
