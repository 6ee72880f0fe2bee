//! How far a run has come, as far as it was looked at: cursors that pass what stays as it is, so that nothing is looked at twice.
ghost use Rattle.std.specs.Prelude.{◌≡◌, ◌<◌, ◌≤◌, ◌↔◌, ℕ, false, is_some, length, slice_index, IsTrue, IfSome, IfOk};
ghost use Rattle.bf_core.specs.Terms.{task_of};
ghost use Rattle.bf_core.specs.Events.{IsDecidable, cell_at, value_in};
ghost use Rattle.bf_core.specs.Cores.{Backfill, MayCome};
ghost use Rattle.bf_core.specs.declared.event.Event.{Event};
ghost use Rattle.bf_core.specs.declared.state.Cell.{Cell};
ghost use Rattle.bf_due.specs.Cursors.{AreFinished, ArePassed, IsFinished, IsNoted, has_early_rule_in, lets};
ghost use Rattle.bf_due.specs.inner.Cursors.{Awaits};
ghost use Rattle.bf_due.specs.inner.Stirring.{all_settled};

use bf_core::{Cell, Core, Instance, Phase};
use bf_value::OutOfMemory;
use std::alloc::Global;

/// How far a run is known to have come. Nothing is known of a task for which a list is too short.
#[derive(Drop)]
pub(crate) struct Cursors {
    /// For each task, how many of its upstreams let it be decided, from the first on.
    pub passed: Vec<u32>,
    /// For each task, how many of its upstreams are settled, from the first on.
    pub settled_upstreams: Vec<u32>,
    /// For each task, how many of its instances have finished, from the first on.
    pub finished: Vec<u32>,
    /// How many tasks are settled, from the first on.
    pub settled: u32,
}

/// The number at the place `at`, from 0; 0 where there is no such place.
fn number_at(numbers: &[u32], at: u32) -> u32
    ensures { result ≡ slice_index numbers.now at }
{
    match numbers.get(at as usize) {
        Some(number) => *number,
        None => 0,
    }
}

/// Whether an instance in this phase is finished: its last try has ended.
fn is_finished(phase: &Phase) -> bool
    ensures { IsTrue result ↔ IsFinished phase.now }
{
    matches!(phase, Phase::Finished(_))
}

/// The place, from 0, of the first unfinished instance, looking from the place `from` on; the number of instances where
/// none is unfinished there.
fn first_unfinished(instances: &[Instance], from: usize) -> usize
    ensures finished { AreFinished (Cell.Ran instances.now) from
        → AreFinished (Cell.Ran instances.now) result }
    ensures unfinished { result < length instances.now
        → is_some (value_in (Cell.Ran instances.now)) ≡ false }
    ensures within { result ≤ length instances.now }
{
    for place in from..instances.len() {
        if !is_finished(&instances[place].phase) {
            return place;
        }
    }
    instances.len()
}

/// The instances of a task in a run, by map index; None where it has none, as before it is decided.
fn instances_of<'c>(core: &'c Core<'_>, run: u32, task: u32) -> Option<&'c [Instance]>
    ensures some { IfSome result (λ xs. cell_at core.now.state run task ≡ Cell.Ran xs.now) }
    ensures few { IfSome result (λ xs. length xs.now ≤ 1_024) }
{
    match core.cell(run, task) {
        Some(Cell::Ran(instances)) => Some(instances.as_slice()),
        _ => None,
    }
}

/// The upstreams of a task, in the order of the plan.
fn upstreams_of<'a>(core: &Core<'a>, task: u32) -> &'a [u32]
    requires { task < length core.now.dag.tasks }
    ensures upstreams { result.now ≡ (task_of core.now.dag task).upstreams }
    ensures few { length result.now ≤ 20_000 }
{
    core.plan().dag().task(task).upstreams.as_slice()
}

/// Whether a task's rule may decide it before all its upstreams are settled.
fn has_early_rule(core: &Core<'_>, task: u32) -> bool
    requires { task < length core.now.dag.tasks }
    ensures { result ≡ has_early_rule_in core.now.dag task }
{
    !core.plan().dag().task(task).rule.waits_until_settled()
}

impl Cursors {
    /// Cursors of a run of which nothing is known, and in which nothing can be noted of any task. They take no memory.
    pub(crate) fn unknown(alloc: Global) -> Cursors
        ensures { (b : Backfill) (k : ℕ) → IsNoted b k result }
    {
        Cursors {
            passed: Vec::new(alloc),
            settled_upstreams: Vec::new(alloc),
            finished: Vec::new(alloc),
            settled: 0,
        }
    }

    /// Cursors of a run of `tasks` tasks, of which nothing is known yet.
    pub(crate) fn new(alloc: Global, tasks: usize) -> Result<Cursors, OutOfMemory>
        ensures { IfOk result (λ row. (b : Backfill) (k : ℕ) → IsNoted b k row) }
    {
        Ok(Cursors {
            passed: vec![in alloc; 0; tasks]?,
            settled_upstreams: vec![in alloc; 0; tasks]?,
            finished: vec![in alloc; 0; tasks]?,
            settled: 0,
        })
    }

    /// Notes that the first `finished` instances of a task have finished; does nothing where the task has no cursor.
    fn note_finished(&mut self, task: u32, finished: u32)
        ensures reached { (b : Backfill) (k : ℕ) → IsNoted b k self.old
            → AreFinished (cell_at b.state k task) finished → IsNoted b k self.new }
        ensures settled { self.new.settled ≡ self.old.settled }
    {
        if (task as usize) < self.finished.len() {
            self.finished[task as usize] = finished;
        }
    }

    /// Notes that the first `passed` upstreams of a task don't keep it from being decided; does nothing where the task
    /// has no cursor.
    fn note_passed(&mut self, task: u32, passed: u32)
        ensures { (b : Backfill) (k : ℕ) → IsNoted b k self.old
            → ArePassed (has_early_rule_in b.dag task) b.dag b.state k task passed
            → IsNoted b k self.new }
    {
        if (task as usize) < self.passed.len() {
            self.passed[task as usize] = passed;
        }
    }

    /// Notes that the first `settled` upstreams of a task are settled; does nothing where the task has no cursor.
    fn note_settled(&mut self, task: u32, settled: u32)
        ensures { (b : Backfill) (k : ℕ) → IsNoted b k self.old
            → ArePassed false b.dag b.state k task settled → IsNoted b k self.new }
    {
        if (task as usize) < self.settled_upstreams.len() {
            self.settled_upstreams[task as usize] = settled;
        }
    }

    /// Whether all these instances of a task have finished. Moves the task's cursor past the first ones that have, where
    /// there are several.
    fn have_finished(&mut self, instances: &[Instance], task: u32) -> bool
        requires { length instances.now ≤ 1_024 }
        ensures finished { (b : Backfill) (k : ℕ) → IsNoted b k self.old → cell_at b.state k task
            ≡ Cell.Ran instances.now → result
            ≡ is_some (value_in (Cell.Ran instances.now)) }
        ensures reached { (b : Backfill) (k : ℕ) → IsNoted b k self.old → cell_at b.state k task
            ≡ Cell.Ran instances.now → IsNoted b k self.new }
        ensures settled { self.new.settled ≡ self.old.settled }
    {
        if let [only] = instances {
            return is_finished(&only.phase);
        }
        let from = number_at(self.finished.as_slice(), task);
        let finished = first_unfinished(instances, from as usize);
        self.note_finished(task, finished as u32);
        instances.len() <= finished
    }

    /// Whether a task is settled in a run. Moves the task's cursor past its first instances that have finished.
    pub(crate) fn is_settled(&mut self, core: &Core<'_>, run: u32, task: u32) -> bool
        ensures settled { IsNoted core.now run self.old → result
            ≡ is_some (value_in (cell_at core.now.state run task)) }
        ensures reached { IsNoted core.now run self.old → IsNoted core.now run self.new }
        ensures same { self.new.settled ≡ self.old.settled }
    {
        match instances_of(core, run, task) {
            Some(instances) => self.have_finished(instances, task),
            None => core.is_settled(run, task),
        }
    }

    /// Whether it is noted that each upstream of a task lets it be decided in a run; false where that isn't noted.
    pub(crate) fn have_passed_all(&self, core: &Core<'_>, task: u32) -> bool
        requires { task < length core.now.dag.tasks }
        ensures { (k : ℕ) → IsNoted core.now k self.now → IsTrue result → ArePassed
            (has_early_rule_in core.now.dag task) core.now.dag core.now.state k task
            (length (task_of core.now.dag task).upstreams) }
    {
        upstreams_of(core, task).len() <= number_at(self.passed.as_slice(), task) as usize
    }

    /// Whether a task needn't wait for an upstream in a run: it is settled, or it is no branch and the task's rule is
    /// `early`. Moves the upstream's cursor past its first finished instances.
    fn lets_decide(&mut self, core: &Core<'_>, run: u32, upstream: u32, early: bool) -> bool
        ensures lets { IsNoted core.now run self.old → result
            ≡ lets early core.now.dag core.now.state run upstream }
        ensures reached { IsNoted core.now run self.old → IsNoted core.now run self.new }
    {
        self.is_settled(core, run, upstream) || (early && !core.plan().dag().is_branch(upstream))
    }

    /// The place, from 0, of the first upstream from the place `from` on that isn't settled; where `early`, one that is
    /// no branch counts as settled. How many upstreams there are, where there is none. Moves the upstreams' cursors past
    /// their first finished instances.
    fn first_awaited(
        &mut self,
        core: &Core<'_>,
        run: u32,
        task: u32,
        from: usize,
        early: bool,
    ) -> usize
        requires { task < length core.now.dag.tasks }
        ensures passed { IsNoted core.now run self.old
            → ArePassed early core.now.dag core.now.state run task from
            → ArePassed early core.now.dag core.now.state run task result }
        ensures awaits { IsNoted core.now run self.old
            → result < length (task_of core.now.dag task).upstreams
            → Awaits early core.now.dag core.now.state run task result }
        ensures reached { IsNoted core.now run self.old → IsNoted core.now run self.new }
        ensures within { result ≤ length (task_of core.now.dag task).upstreams }
    {
        let upstreams = upstreams_of(core, task);
        for place in from..upstreams.len() {
            if !self.lets_decide(core, run, upstreams[place], early) {
                return place;
            }
        }
        upstreams.len()
    }

    /// False only where an upstream keeps a task from being decided in a run. Moves the task's cursor past its first
    /// upstreams that don't.
    pub(crate) fn is_free_to_decide(&mut self, core: &Core<'_>, run: u32, task: u32) -> bool
        requires { task < length core.now.dag.tasks }
        ensures awaits { IsNoted core.now run self.old → result ≡ false
            → ¬ (IsDecidable core.now.dag core.now.state run task) }
        ensures reached { IsNoted core.now run self.old → IsNoted core.now run self.new }
    {
        let upstreams = upstreams_of(core, task);
        let from = number_at(self.passed.as_slice(), task);
        let early = has_early_rule(core, task);
        let passed = self.first_awaited(core, run, task, from as usize, early);
        self.note_passed(task, passed as u32);
        upstreams.len() <= passed
    }

    /// False only where an upstream of a task isn't settled in a run. Moves the task's cursor past its first
    /// upstreams that are.
    pub(crate) fn are_upstreams_settled(&mut self, core: &Core<'_>, run: u32, task: u32) -> bool
        requires { task < length core.now.dag.tasks }
        ensures unsettled { IsNoted core.now run self.old → result ≡ false
            → all_settled core.now.dag core.now.state run task ≡ false }
        ensures reached { IsNoted core.now run self.old → IsNoted core.now run self.new }
    {
        let upstreams = upstreams_of(core, task);
        let from = number_at(self.settled_upstreams.as_slice(), task);
        let settled = self.first_awaited(core, run, task, from as usize, false);
        self.note_settled(task, settled as u32);
        upstreams.len() <= settled
    }

    /// False only where a task isn't settled, and so the run may not be closed. Moves the run's cursor past its first
    /// tasks that are settled.
    pub(crate) fn is_run_settled(&mut self, core: &Core<'_>, run: u32) -> bool
        ensures unsettled { IsNoted core.now run self.old → result ≡ false
            → ¬ (MayCome core.now (Event.Close run)) }
        ensures reached { IsNoted core.now run self.old → IsNoted core.now run self.new }
    {
        let _replayed = core.journal();
        let tasks = core.plan().dag().tasks.len() as u32;
        for task in self.settled..tasks {
            if !self.is_settled(core, run, task) {
                return false;
            }
            self.settled = task + 1;
        }
        true
    }
}
