//! What callers ask of a core: what it has, and which events may come now. Nothing here takes memory.
ghost use Rattle.std.specs.Prelude.{◌≡◌, ◌<◌, ◌≤◌, ◌↔◌, length, is_some, IsTrue, IfSome, IfNone, OnSome, option_copied, IsSome, Some};
ghost use Rattle.std.specs.FinMap;
ghost use Rattle.bf_core.specs.Events.{cell_at, value_in, goes_on_in, instance_of, place_in, given_in, IsPresent, IsDecidable, has_room_in, next_run, entry_in, occupied};
ghost use Rattle.bf_core.specs.Running.{running_now};
ghost use Rattle.bf_core.specs.Cores.{GoesOn, IsThere, MayCome, deciding, IsReplay};
ghost use Rattle.bf_core.specs.Terms.{Ledger as Tried, Phase, pool_size};
ghost use Rattle.bf_core.specs.Agreement.{Holds, Agrees};
ghost use Rattle.bf_core.specs.Clocks.{IsTimely};
ghost use Rattle.bf_core.specs.Few.{AreFew};

use crate::decision::{decides_to_wait, goes_on_to_expansion, is_undecided, task_verdict};
use crate::event::Event;
use crate::machine::Core;
use crate::names::{Unfinished, instance_at, place_of, unfinished_instance};
use crate::state::{Cell, Instance, is_closable};
use crate::upstreams::is_settled;
use bf_plan::Plan;
use bf_try::EndedTries;
use bf_value::JobName;

impl<'a> Core<'a> {
    /// The plan that is backfilled.
    pub fn plan(&self) -> &'a Plan
        ensures dag { result.now.dag ≡ self.now.dag }
        ensures limits { result.now.limits ≡ self.now.limits }
    {
        self.plan
    }

    /// How many runs there are.
    pub fn run_count(&self) -> u32
        ensures runs { result ≡ length self.now.state.runs }
        ensures few { result ≤ 4_096 }
    {
        self.runs
    }

    /// How many runs were opened so far, which is also the next run to open, from 0.
    pub fn opened_runs(&self) -> u32
        ensures next { result ≡ next_run self.now.state }
        ensures within { result ≤ length self.now.state.runs }
        ensures few { result ≤ 4_096 }
    {
        self.opened_runs
    }

    /// The tries that have ended.
    pub fn ledger(&self) -> &EndedTries
        ensures { result.now ≡ self.now.state.ledger }
    {
        &self.state.ledger
    }

    /// The events that came so far.
    pub fn journal(&self) -> &[Event]
        ensures journal { result.now ≡ self.now.journal }
        ensures replayed { IsReplay self.now }
    {
        self.journal.as_slice()
    }

    /// The cell of a task in a run, with at most 1,024 instances; None where the run or the task isn't there. What the
    /// cell says so far is the recursion's over every ledger that holds the entries so far.
    pub fn cell(&self, run: u32, task: u32) -> Option<&Cell>
        ensures there { IsSome result ↔ IsThere self.now.dag self.now.state run task }
        ensures cell { IfSome result (λ c. c.now ≡ cell_at self.now.state run task) }
        ensures few { AreFew self.now.state }
        ensures agrees { (ledger : Tried) → Holds ledger (entry_in self.now.state.ledger)
            → Agrees self.now.dag self.now.state ledger }
    {
        self.state.cell(run, task)
    }

    /// Whether a task in a run is settled: decided, and each of its instances finished; false where it isn't there.
    pub fn is_settled(&self, run: u32, task: u32) -> bool
        ensures { result ≡ is_some (value_in (cell_at self.now.state run task)) }
    {
        is_settled(&self.state, run, task)
    }

    /// The instance at the place of a name (`place_of`), whichever of its tries is named; None where there is none now.
    /// Whether the map index suits the task isn't looked at.
    pub fn instance(&self, name: JobName) -> Option<&Instance>
        ensures { option_copied result
            ≡ instance_of (cell_at self.now.state name.run name.task) (place_in self.now.dag name) }
    {
        let place = place_of(self.plan.dag(), name) as usize;
        instance_at(&self.state, name.run, name.task, place)
    }

    /// The instance of a try that runs now; None where the try doesn't run.
    pub fn running_instance(&self, name: JobName) -> Option<&Instance>
        ensures present { OnSome result (IsPresent self.now.dag self.now.state name Phase.Running) }
        ensures given { IfSome result (λ x. given_in (cell_at self.now.state name.run name.task)
            (place_in self.now.dag name) ≡ x.now.given) }
        ensures none { IfNone result (¬
            (IsPresent self.now.dag self.now.state name Phase.Running)) }
    {
        unfinished_instance(self.plan.dag(), &self.state, name, Unfinished::Running)
    }

    /// The moment for which a try waits, in seconds since 1970, where that is later than what the clock shows, so
    /// that the clock may come to it; None where it has come, or the try waits for none.
    pub fn later_moment_of(&self, name: JobName) -> Option<i64>
        ensures moment { IfSome result (λ m. FinMap.get self.now.clock.moments name ≡ Some m) }
        ensures may_come { IfSome result (λ m. MayCome self.now (Event.Tick m)) }
        ensures none { IfNone result (IsTimely self.now.clock (Event.Begin name)) }
    {
        self.clock.later_moment_of(name)
    }

    /// How many slots of a pool are occupied: those of the instances that run in it, never more than the pool has.
    pub fn occupied(&self, pool: u32) -> u32
        requires { pool < length self.now.limits.pools }
        ensures slots { result ≡ occupied self.now.limits self.now.state pool }
        ensures within { result ≤ pool_size self.now.limits pool }
    {
        self.pools.occupied(pool)
    }

    /// Whether the task's pool has enough slots free for one more try of the task.
    pub fn has_room(&self, task: u32) -> bool
        requires { task < length self.now.dag.tasks }
        ensures { result ≡ has_room_in self.now.limits self.now.state task }
    {
        let demand = self.plan.demand(task);
        self.pools.occupied(demand.pool) + demand.slots <= self.pools.size(demand.pool)
    }
}

impl<'a> Core<'a> {
    /// Whether the next run may be opened.
    pub fn may_open(&self) -> bool
        ensures { IsTrue result ↔ MayCome self.now Event.Open }
    {
        self.next_to_open().is_some()
    }

    /// The event that decides a task now: `Expand` where its expansion decides it, else `Settle`. None where the task
    /// can't be decided now, or isn't there.
    pub fn decision_event(&self, run: u32, task: u32) -> Option<Event>
        ensures may_come { IfSome result (MayCome self.now) }
        ensures decides { IfSome result
            (λ e. e ≡ deciding (goes_on_in self.now.dag self.now.state run task) run task) }
        ensures none { IfNone result (¬ (IsDecidable self.now.dag self.now.state run task)) }
    {
        let dag = self.plan.dag();
        if !is_undecided(dag, &self.state, run, task) {
            return None;
        }
        let verdict = task_verdict(self.plan, &self.state, run, task);
        if decides_to_wait(dag, &self.state, run, task, verdict) {
            return None;
        }
        Some(Event::deciding(goes_on_to_expansion(dag, task, verdict), run, task))
    }

    /// Whether a try may begin: it waits, its moment is reached, and its pool has room.
    pub fn may_begin(&self, name: JobName) -> bool
        ensures { IsTrue result ↔ MayCome self.now (Event.Begin name) }
    {
        match unfinished_instance(self.plan.dag(), &self.state, name, Unfinished::Waiting) {
            Some(_) => self.clock.lets_begin(name) && self.has_room(name.task),
            None => false,
        }
    }

    /// Whether a run may be closed: it is there and open, and each of its tasks is settled.
    pub fn may_close(&self, run: u32) -> bool
        ensures { IsTrue result ↔ MayCome self.now (Event.Close run) }
    {
        match self.state.runs.get(run as usize) {
            None => false,
            Some(row) => is_closable(row),
        }
    }

    /// A law: never stuck. While no try runs, a backfill that hasn't ended has an event other than a tick that may
    /// come, or a try that waits for a later moment.
    pub fn never_stuck(&self)
        ensures { running_now self.now.state ≡ 0 → GoesOn self.now }
    {
        // What a core keeps is known once it is read.
        let _fit = self.plan.limits();
    }
}
