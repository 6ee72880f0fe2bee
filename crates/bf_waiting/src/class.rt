//! The tasks that wait for the same slots: what waits of them, and how that is kept over events.
ghost use Rattle.std.specs.Prelude.{◌≡◌, ◌≤◌, ◌≤ℤ◌, ◌<ℤ◌, [], ◌∷◌, ◌<◌, Contains, slice_get, IfSome, IfNone, OnOk, ℕ, Bool, List, length, slice_index};
ghost use Rattle.std.specs.List.Sorted.{IsPermutation};
ghost use Rattle.bf_value.specs.declared.name.JobName.{JobName};
ghost use Rattle.bf_xcom.specs.declared.values.Outcome.{Outcome};
ghost use Rattle.bf_core.specs.Cores.{deciding};
ghost use Rattle.bf_core.specs.declared.event.Event.{Event};
ghost use Rattle.bf_waiting.specs.Classes.{HasRoom, IsRoomy};
ghost use Rattle.bf_waiting.specs.inner.Classes.{AreReleased, batch_of, batch_to};
ghost use Rattle.bf_waiting.specs.inner.Heaps.{Leads};
ghost use Rattle.bf_waiting.specs.Keeping.{IsCleaned};
ghost use Rattle.bf_waiting.specs.inner.Keeping.{Anywhere, At, HasDelayed, HasTakenUp, IsOfPlace, KeepsOver};
ghost use Rattle.bf_waiting.specs.Standings.{IsReadyAt};
ghost use Rattle.bf_waiting.specs.inner.Filling.{TakesIn};
ghost use Rattle.bf_waiting.specs.declared.batches.Batch.{Batch};
ghost use Rattle.bf_waiting.specs.declared.delays.Delay.{Delay};

use crate::batches::{Batch, Batches};
use crate::delays::{Delay, Delays};
use crate::instances::{Standing, instances_of, is_ready, standing_at};
use crate::weight::weight_of;
use bf_core::Core;
use bf_value::OutOfMemory;
use std::alloc::Global;
use std::cmp::Reverse;
use std::marker::Model;

/// The tasks that take the same number of slots of one pool, so that all have room or none has, and their instances
/// that wait.
#[derive(Drop)]
pub(crate) struct SlotClass {
    /// One of the tasks.
    pub task: u32,
    pub(crate) batches: Batches,
    delays: Delays,
}

impl Model for SlotClass {
    ghost use Rattle.bf_waiting.specs.Classes.{IsRoomy, Waits};
    ghost use Rattle.bf_waiting.specs.contracts.batches.Batch;
    ghost use Rattle.bf_waiting.specs.contracts.delays.Delay;
    ghost use Rattle.std.specs.Coded.{codes};

    ghost Value = { Waits };

    ghost coded = { Prim.hlevel (codes, Batch.the_row.coded, Delay.the_row.coded) };

    ghost view = { λ c. record { task = c.task; batches = c.batches; delays = c.delays } };

    ghost invariant = { λ c. IsRoomy c.batches c.delays };
}

/// A batch of a single instance: the one at `place`, from 0, of a task in a run. `weights` has the total weight of each
/// task.
fn batch_of_one(weights: &[u32], run: u32, task: u32, place: u32) -> Batch
    ensures { result ≡ batch_of weights.now run task place }
{
    Batch {
        weight: weight_of(weights, task),
        run: Reverse(run),
        task: Reverse(task),
        first: Reverse(place),
        last: place,
    }
}

/// A batch of a task's instances in a run, from the first to the one at `place`, from 0, both included. `weights` has
/// the total weight of each task.
fn batch_to_place(weights: &[u32], run: u32, task: u32, place: usize) -> Batch
    requires { place ≤ 1_024 }
    ensures { result ≡ batch_to weights.now run task place }
{
    Batch {
        first: Reverse(0),
        ..batch_of_one(weights, run, task, place as u32)
    }
}

/// Moves the delays whose moment is at most `now`, in seconds since 1970, to the batches, each as a batch of its own.
/// `weights` has the total weight of each task.
fn batch_due_delays(batches: &mut Batches, delays: &mut Delays, weights: &[u32], now: i64)
    requires { IsRoomy batches.old delays.old }
    ensures roomy { IsRoomy batches.new delays.new }
    ensures released { AreReleased now weights.now batches.old.items delays.old.items
        batches.new.items delays.new.items }
    ensures later { (d : Delay) → Contains delays.new.items d → now <ℤ d.moment.0 }
{
    while let Some(delay) = delays.first() {
        if now < delay.moment.0 {
            return;
        }
        let _ = delays.take_first();
        batches.add(batch_of_one(weights, delay.run, delay.task, delay.place));
    }
}

/// The place, from 0, of the first instance of a batch that waits for nothing but room in its pool; None where none
/// does.
fn first_ready(core: &Core<'_>, batch: Batch) -> Option<u32>
    ensures ready { IfSome result (λ i. IsReadyAt core.now batch.run.0 batch.task.0 i) }
    ensures within { IfSome result (λ i. (batch.first.0 ≤ i) × (i ≤ batch.last)) }
    ensures first { IfSome result (λ i. (j : ℕ) → batch.first.0 ≤ j
        → IsReadyAt core.now batch.run.0 batch.task.0 j → i ≤ j) }
    ensures none { IfNone result ((j : ℕ) → batch.first.0 ≤ j → j ≤ batch.last
        → ¬ (IsReadyAt core.now batch.run.0 batch.task.0 j)) }
{
    for place in batch.first.0..=batch.last {
        if is_ready(core, batch.run.0, batch.task.0, place) {
            return Some(place);
        }
    }
    None
}

/// Takes instances that aren't ready off the front of the batches, until the greatest batch begins with a ready one
/// or none is left. A ready instance waits for nothing but room in its pool.
fn pass_over_unready(batches: &mut Batches, core: &Core<'_>)
    requires { length batches.old.items ≤ batches.old.room }
    ensures cleaned { IsCleaned core.now batches.old.items batches.new.items }
    ensures fewer { length batches.new.items ≤ length batches.old.items }
    ensures room { batches.old.room ≤ batches.new.room }
{
    while let Some(batch) = batches.first() {
        let ready = first_ready(core, batch);
        if ready == Some(batch.first.0) {
            return;
        }
        let _ = batches.take_first();
        if let Some(place) = ready {
            batches.add(Batch {
                first: Reverse(place),
                ..batch
            });
        }
    }
}

impl SlotClass {
    /// The class of the tasks that take the same slots as `task`. No instance waits in it.
    pub(crate) fn new(alloc: Global, task: u32) -> SlotClass
        ensures task { result.task ≡ task }
        ensures batches { result.batches.items ≡ [] }
        ensures delays { result.delays.items ≡ [] }
    {
        SlotClass {
            task,
            batches: Batches::new(alloc),
            delays: Delays::new(alloc),
        }
    }

    /// The greatest batch of the class; None where it has none.
    pub(crate) fn first(&self) -> Option<Batch>
        ensures top { result ≡ slice_get self.now.batches.items 0 }
        ensures first { IfSome result (λ x. (y : Batch) → Contains self.now.batches.items y
            → Leads x y) }
    {
        self.batches.first()
    }

    /// The earliest moment for which an instance of the class waits, in seconds since 1970; None where none waits for
    /// one.
    pub(crate) fn earliest_moment(&self) -> Option<i64>
        ensures one { IfSome result (λ m. (d : Delay) × Contains self.now.delays.items d
            × (d.moment.0 ≡ m)) }
        ensures first { IfSome result (λ m. (d : Delay) → Contains self.now.delays.items d
            → m ≤ℤ d.moment.0) }
        ensures none { IfNone result (self.now.delays.items ≡ []) }
    {
        match self.delays.first() {
            Some(delay) => Some(delay.moment.0),
            None => None,
        }
    }

    /// Makes room for one more instance that waits. What waits stays as it is, at `Err` too.
    pub(crate) fn make_room(&mut self) -> Result<(), OutOfMemory>
        ensures task { self.new.task ≡ self.old.task }
        ensures batches { self.new.batches.items ≡ self.old.batches.items }
        ensures delays { self.new.delays.items ≡ self.old.delays.items }
        ensures room { OnOk result (HasRoom self.new) }
    {
        self.batches.make_room(self.delays.len() + 1)?;
        self.delays.make_room(1)
    }

    /// Adds a batch, for which there is room.
    fn add_batch(&mut self, batch: Batch)
        requires { HasRoom self.old }
        ensures task { self.new.task ≡ self.old.task }
        ensures gained { IsPermutation (batch ∷ self.old.batches.items) self.new.batches.items }
        ensures delays { self.new.delays.items ≡ self.old.delays.items }
    {
        self.batches.add(batch);
    }

    /// Adds a delay, for which there is room.
    fn add_delay(&mut self, delay: Delay)
        requires { HasRoom self.old }
        ensures task { self.new.task ≡ self.old.task }
        ensures batches { self.new.batches.items ≡ self.old.batches.items }
        ensures gained { IsPermutation (delay ∷ self.old.delays.items) self.new.delays.items }
    {
        self.delays.add(delay);
    }

    /// Moves the instances whose moment is at most `now`, in seconds since 1970, from the delays to the batches.
    /// `weights` has the total weight of each task.
    fn batch_due_delays(&mut self, weights: &[u32], now: i64)
        ensures task { self.new.task ≡ self.old.task }
        ensures released { AreReleased now weights.now self.old.batches.items self.old.delays.items
            self.new.batches.items self.new.delays.items }
        ensures later { (d : Delay) → Contains self.new.delays.items d → now <ℤ d.moment.0 }
    {
        batch_due_delays(&mut self.batches, &mut self.delays, weights, now);
    }

    /// Takes instances that aren't ready off the front of the class's batches, until the greatest begins with a ready
    /// one or none is left. A ready instance waits for nothing but room in its pool.
    fn pass_over_unready(&mut self, core: &Core<'_>)
        ensures task { self.new.task ≡ self.old.task }
        ensures cleaned { IsCleaned core.now self.old.batches.items self.new.batches.items }
        ensures delays { self.new.delays.items ≡ self.old.delays.items }
    {
        pass_over_unready(&mut self.batches, core);
    }

    /// Adds all instances that a task has in a run as one batch, whether they are ready or not; nothing where it has
    /// none. `weights` has the total weight of each task.
    fn batch_all(&mut self, core: &Core<'_>, weights: &[u32], run: u32, task: u32)
        requires { HasRoom self.old }
        ensures task { self.new.task ≡ self.old.task }
        ensures taken { HasTakenUp core.now weights.now run task Anywhere self.old.batches.items
            self.new.batches.items }
        ensures delays { self.new.delays.items ≡ self.old.delays.items }
    {
        let count = instances_of(core, run, task).len();
        if count > 0 {
            self.add_batch(batch_to_place(weights, run, task, count - 1));
        }
    }

    /// Adds the instance at `place`, from 0, of a task in a run: to the batches where it waits for nothing but room
    /// in its pool, to the delays where it waits for a later moment, else to neither.
    fn take_up_instance(
        &mut self,
        core: &Core<'_>,
        weights: &[u32],
        run: u32,
        task: u32,
        place: u32,
    )
        requires { HasRoom self.old }
        ensures task { self.new.task ≡ self.old.task }
        ensures taken { HasTakenUp core.now weights.now run task (At place) self.old.batches.items
            self.new.batches.items }
        ensures delayed { HasDelayed core.now run task (At place) self.old.delays.items
            self.new.delays.items }
    {
        match standing_at(core, run, task, place) {
            Standing::Away => {}
            Standing::Ready => self.add_batch(batch_of_one(weights, run, task, place)),
            Standing::Delayed(moment) => self.add_delay(Delay {
                moment: Reverse(moment),
                run,
                task,
                place,
            }),
        }
    }

    /// Adds the instance at `place`, from 0, of a task in a run to the delays, if it waits for a later moment.
    fn delay_instance(
        &mut self,
        core: &Core<'_>,
        run: u32,
        task: u32,
        place: u32,
    ) -> Result<(), OutOfMemory>
        ensures task { self.new.task ≡ self.old.task }
        ensures batches { self.new.batches.items ≡ self.old.batches.items }
        ensures delayed { OnOk result (HasDelayed core.now run task (At place) self.old.delays.items
            self.new.delays.items) }
    {
        self.make_room()?;
        if let Standing::Delayed(moment) = standing_at(core, run, task, place) {
            self.add_delay(Delay {
                moment: Reverse(moment),
                run,
                task,
                place,
            });
        }
        Ok(())
    }

    /// Adds those instances of a task in a run that wait for a later moment to the delays.
    fn delay_all(&mut self, core: &Core<'_>, run: u32, task: u32) -> Result<(), OutOfMemory>
        ensures task { self.new.task ≡ self.old.task }
        ensures batches { self.new.batches.items ≡ self.old.batches.items }
        ensures delayed { OnOk result (HasDelayed core.now run task Anywhere self.old.delays.items
            self.new.delays.items) }
    {
        let count = instances_of(core, run, task).len() as u32;
        for place in 0..count {
            self.delay_instance(core, run, task, place)?;
        }
        Ok(())
    }

    /// Adds all instances that a task has in a run: to the batches, and those that wait for a later moment to the
    /// delays too. Then takes instances that aren't ready off the front of the batches. `weights` has the total weight
    /// of each task. At `Err` a part may have been added.
    pub(crate) fn take_up_all(
        &mut self,
        core: &Core<'_>,
        weights: &[u32],
        run: u32,
        task: u32,
    ) -> Result<(), OutOfMemory>
        ensures task { self.new.task ≡ self.old.task }
        ensures keeps { OnOk result (TakesIn core.now weights.now run task self.old self.new) }
    {
        self.make_room()?;
        self.batch_all(core, weights, run, task);
        self.delay_all(core, run, task)?;
        self.pass_over_unready(core);
        Ok(())
    }
}

impl SlotClass {
    /// Keeps what waits up to date after a task of the class was decided in a run.
    pub(crate) fn on_decision(&mut self, core: &Core<'_>, weights: &[u32], run: u32, task: u32)
        requires { HasRoom self.old }
        ensures task { self.new.task ≡ self.old.task }
        ensures keeps { (expands : Bool) (class_of : List ℕ) (class : ℕ) → slice_index class_of task
            ≡ class → KeepsOver (deciding expands run task) core.now weights.now class_of class
            self.old self.new }
    {
        self.batch_all(core, weights, run, task);
        self.pass_over_unready(core);
    }

    /// Keeps what waits up to date after a try of the class began.
    pub(crate) fn on_begin(&mut self, core: &Core<'_>)
        ensures task { self.new.task ≡ self.old.task }
        ensures keeps { (n : JobName) (weights class_of : List ℕ) (class : ℕ)
            → KeepsOver (Event.Begin n) core.now weights class_of class self.old self.new }
    {
        self.pass_over_unready(core);
    }

    /// Keeps what waits up to date after a try of the instance at `place`, from 0, of a task in a run ended.
    pub(crate) fn on_end(
        &mut self,
        core: &Core<'_>,
        weights: &[u32],
        run: u32,
        task: u32,
        place: u32,
    )
        requires { HasRoom self.old }
        ensures task { self.new.task ≡ self.old.task }
        ensures keeps { (n : JobName) (o : Outcome) (class_of : List ℕ) (class : ℕ)
            → IsOfPlace core.now.dag n run task place → slice_index class_of task ≡ class →
            KeepsOver (Event.End n o) core.now weights.now class_of class self.old self.new }
    {
        self.take_up_instance(core, weights, run, task, place);
        self.pass_over_unready(core);
    }

    /// Keeps what waits up to date after the clock moved to `now`, in seconds since 1970.
    pub(crate) fn on_tick(&mut self, core: &Core<'_>, weights: &[u32], now: i64)
        ensures task { self.new.task ≡ self.old.task }
        ensures keeps { (class_of : List ℕ) (class : ℕ)
            → KeepsOver (Event.Tick now) core.now weights.now class_of class self.old self.new }
    {
        self.batch_due_delays(weights, now);
        self.pass_over_unready(core);
    }
}
