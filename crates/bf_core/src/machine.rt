//! The core: the state of a backfill, the events that led to it, and what one more event does.
ghost use Rattle.std.specs.Prelude.{◌≡◌, ◌<◌, OnOk, OnErr, IfOk, IfErr, IfSome, IfNone, length};
ghost use Rattle.bf_core.specs.Events.{next_run, decision_in, IsPresent, phase_of, AllSettled};
ghost use Rattle.bf_core.specs.Cores.{deciding, opening, HasCome, IsRefusal, MayCome};
ghost use Rattle.bf_core.specs.inner.Tries.{IsBeginning, IsEnding, IsRetry};
ghost use Rattle.bf_core.specs.Terms.{Phase};
ghost use Rattle.bf_core.specs.inner.Checks.{HasRows, RefusedFor};

use crate::clock::{Clock, Moments, Retry, note_end};
use crate::decision::{
    Decision, decision_after_verdict, goes_on_to_expansion, refuse_unless_undecided, task_verdict,
};
use crate::event::{Event, Illegal};
use crate::names::{Unfinished, next_try, place_of, require_unfinished_instance};
use crate::state::{Change, RunPhase, State, is_closable, is_retried, unopened_runs};
use bf_plan::{Dag, Demand, Plan};
use bf_pool::{NoRoom, Pools};
use bf_runs::RunCount;
use bf_try::{EndedTries, Entry, Outcome, fits};
use bf_value::{JobName, OutOfMemory};
use bf_xcom::{RunState, SharedGiven};
use std::alloc::Global;
use std::marker::Model;

/// A backfill of a plan as far as it has come. It decides nothing by itself: `apply` takes the events that somebody
/// else chooses, and refuses those that may not come now.
#[derive(Drop)]
pub struct Core<'a> {
    pub(crate) alloc: Global,
    pub(crate) plan: &'a Plan,
    pub(crate) runs: u32,
    pub(crate) pools: Pools,
    pub(crate) state: State,
    pub(crate) clock: Clock,
    /// How many runs were opened, which is the next one to open, and how many of these are open still.
    pub(crate) opened_runs: u32,
    pub(crate) active_runs: u32,
    /// Room for the states of the runs, which are known once the backfill has ended.
    pub(crate) run_states: Vec<RunState>,
    pub(crate) journal: Vec<Event>,
}

impl<'a> Model for Core<'a> {
    ghost use Rattle.std.specs.Prelude.{vec_len};
    ghost use Rattle.bf_core.specs.Cores.{Backfill, IsCore};
    ghost use Rattle.bf_plan.specs.contracts.plan.Dag;
    ghost use Rattle.bf_plan.specs.contracts.plan.Limits;
    ghost use Rattle.bf_core.specs.contracts.state.State;
    ghost use Rattle.bf_core.specs.contracts.clock.Clock;
    ghost use Rattle.bf_core.specs.contracts.event.Event;
    ghost use Rattle.std.specs.Coded.{codes};

    ghost Value = { Backfill };

    ghost coded = { Prim.hlevel (
      codes,
      Dag.the_row.coded,
      Limits.the_row.coded,
      State.the_row.coded,
      Clock.the_row.coded,
      Event.the_row.coded,
    ) };

    ghost view = { λ c. record {
      dag = c.plan.now.dag;
      limits = c.plan.now.limits;
      runs = c.runs;
      state = c.state;
      clock = c.clock;
      journal = c.journal.items;
    } };

    ghost invariant = { λ c. IsCore (record {
      dag = c.plan.now.dag;
      limits = c.plan.now.limits;
      runs = c.runs;
      state = c.state;
      clock = c.clock;
      journal = c.journal.items;
    }) c.pools (vec_len c.run_states) c.opened_runs c.active_runs };
}

impl<'a> Core<'a> {
    /// A core of the plan over these runs, at its start: no run is open yet, and no event has come.
    pub fn new<R: RunCount>(
        alloc: Global,
        plan: &'a Plan,
        runs: &R,
    ) -> Result<Core<'a>, OutOfMemory>
        ensures { IfOk result (λ core. core
            ≡ opening plan.entry.now.dag plan.entry.now.limits (R.runs runs.now)) }
    {
        let count = runs.count();
        let cells = unopened_runs(alloc, plan.dag().tasks.len(), count)?;
        let run_states = vec![in alloc; RunState::Success; count]?;
        let pools = Pools::new(alloc, plan)?;
        let _fit = plan.limits();
        Ok(Core {
            alloc,
            plan,
            runs: count as u32,
            pools,
            state: State {
                runs: cells,
                ledger: EndedTries::new(alloc),
            },
            clock: Clock {
                time: 0,
                moments: Moments::new(alloc),
            },
            opened_runs: 0,
            active_runs: 0,
            run_states,
            journal: Vec::new(alloc),
        })
    }

    /// Lets an event come, or refuses it and changes nothing: `Stranger` where what it names isn't there, else
    /// `NotEnabled` where it may not come now for another cause than want of room, else `NoRoom`. `OutOfMemory` may
    /// stand in place of any answer, and alone refuses an event that may come.
    pub fn apply(&mut self, event: Event) -> Result<(), Illegal>
        ensures ok { OnOk result (HasCome self.old event self.new) }
        ensures err { IfErr result (IsRefusal self.old event) }
        ensures memory { MayCome self.old event
            → IfErr result (λ fault. fault ≡ Illegal.OutOfMemory) }
        ensures same { OnErr result (self.new ≡ self.old) }
    {
        let _replayed = self.journal();
        match event {
            Event::Open => self.open(),
            Event::Settle { run, task } => self.decide(run, task, false),
            Event::Expand { run, task } => self.decide(run, task, true),
            Event::Begin(name) => self.begin(name),
            Event::End(name, outcome) => self.end(name, outcome),
            Event::Close { run } => self.close(run),
            Event::Tick { moment } => self.tick(moment),
        }
    }

    /// The run to open next, from 0; None where none is left, or as many are open as the plan allows.
    pub(crate) fn next_to_open(&self) -> Option<u32>
        ensures some { IfSome result (λ k. (k ≡ next_run self.now.state)
            × MayCome self.now Event.Open) }
        ensures none { IfNone result (¬ (MayCome self.now Event.Open)) }
    {
        if self.opened_runs < self.runs && self.active_runs < self.plan.limits().max_active_runs {
            Some(self.opened_runs)
        } else {
            None
        }
    }

    /// Opens the next run. `NotEnabled` where none is left or as many are open as the plan allows, `OutOfMemory` at
    /// want of memory; `Err` changes nothing.
    fn open(&mut self) -> Result<(), Illegal>
        ensures ok { OnOk result (HasCome self.old Event.Open self.new) }
        ensures err { IfErr result (IsRefusal self.old Event.Open) }
        ensures same { OnErr result (self.new ≡ self.old) }
    {
        let Some(run) = self.next_to_open() else {
            return Err(Illegal::NotEnabled);
        };
        self.journal.reserve(1)?;
        self.state.set_phase(run, RunPhase::Open);
        self.opened_runs += 1;
        self.active_runs += 1;
        self.journal.push_reserved(Event::Open);
        Ok(())
    }

    /// What is decided of a task now, by its expansion where `expands`, else without one. `Stranger` where the run or
    /// the task isn't there, `NotEnabled` where the task can't be decided now or not in this way, `OutOfMemory` at want
    /// of memory.
    fn decision_now(&self, run: u32, task: u32, expands: bool) -> Result<Decision, Illegal>
        ensures ok { IfOk result (λ d. MayCome self.now (deciding expands run task)
            × (d ≡ decision_in self.now.dag self.now.state run task)) }
        ensures err { IfErr result (IsRefusal self.now (deciding expands run task)) }
    {
        let dag = self.plan.dag();
        refuse_unless_undecided(dag, &self.state, run, task)?;
        let verdict = task_verdict(self.plan, &self.state, run, task);
        if goes_on_to_expansion(dag, task, verdict) != expands {
            return Err(Illegal::NotEnabled);
        }
        let decision = decision_after_verdict(self.alloc, dag, &self.state, run, task, verdict)?;
        if decision.waits() {
            return Err(Illegal::NotEnabled);
        }
        Ok(decision)
    }

    /// Decides a task in a run, by its expansion where `expands`, else without one. `Stranger` where the run or the
    /// task isn't there, `NotEnabled` where the task can't be decided now or not in this way, `OutOfMemory` at want of
    /// memory; `Err` changes nothing.
    fn decide(&mut self, run: u32, task: u32, expands: bool) -> Result<(), Illegal>
        ensures ok { OnOk result (HasCome self.old (deciding expands run task) self.new) }
        ensures err { IfErr result (IsRefusal self.old (deciding expands run task)) }
        ensures same { OnErr result (self.new ≡ self.old) }
    {
        let decision = self.decision_now(run, task, expands)?;
        let cell = decision.into_cell(self.alloc)?;
        self.journal.reserve(1)?;
        let _ = self.state.replace_cell(run, task, cell);
        self.journal
            .push_reserved(Event::deciding(expands, run, task));
        Ok(())
    }

    /// The pool and slots that a waiting try takes once it begins. `Stranger` where there is no such try, `NotEnabled`
    /// where it doesn't wait, or its moment is still to come.
    fn waiting_demand(&self, name: JobName) -> Result<Demand, Illegal>
        ensures ok { IfOk result (IsBeginning self.now name) }
        ensures err { IfErr result (IsRefusal self.now (Event.Begin name)) }
    {
        require_unfinished_instance(self.plan.dag(), &self.state, name, Unfinished::Waiting)?;
        if !self.clock.lets_begin(name) {
            return Err(Illegal::NotEnabled);
        }
        Ok(self.plan.demand(name.task))
    }

    /// Begins a waiting try, which takes its task's slots. `Stranger` where there is no such try, `NotEnabled` where it
    /// doesn't wait or its moment is still to come, `NoRoom` where its pool has too few slots free, `OutOfMemory` at
    /// want of memory; `Err` changes nothing.
    fn begin(&mut self, name: JobName) -> Result<(), Illegal>
        ensures ok { OnOk result (HasCome self.old (Event.Begin name) self.new) }
        ensures err { IfErr result (IsRefusal self.old (Event.Begin name)) }
        ensures same { OnErr result (self.new ≡ self.old) }
    {
        let demand = self.waiting_demand(name)?;
        self.journal.reserve(1)?;
        match self.pools.take(demand.pool, demand.slots) {
            Err(NoRoom) => Err(Illegal::NoRoom),
            Ok(()) => {
                let place = place_of(self.plan.dag(), name) as usize;
                self.state
                    .change_instance_at(name.run, name.task, place, Change::Begin);
                self.clock.moments.forget(name);
                self.journal.push_reserved(Event::Begin(name));
                Ok(())
            }
        }
    }

    /// The try that would follow a running one which ends with `outcome`: its name, whether it is made, and how many
    /// seconds it waits first.
    fn retry_of(&self, name: JobName, outcome: &Outcome) -> Retry
        requires { IsPresent self.now.dag self.now.state name Phase.Running }
        ensures { IsRetry self.now name outcome.now result }
    {
        let task = self.plan.dag().task(name.task);
        Retry {
            next: next_try(name),
            again: is_retried(task.retries, name.attempt, outcome),
            delay: self.plan.demand(name.task).retry_delay,
        }
    }

    /// What `end` needs for a try: its ledger entry, the outcome that its instance keeps, the slots to give back and
    /// the next try. `Stranger` where there is no such try, `NotEnabled` where it doesn't run or can't end with this
    /// outcome, `OutOfMemory` at want of memory.
    fn prepare_end(&self, name: JobName, outcome: &Outcome) -> Result<Ending, Illegal>
        ensures ok { IfOk result (IsEnding self.now name outcome.now) }
        ensures err { IfErr result (IsRefusal self.now (Event.End name outcome.now)) }
    {
        let instance = require_unfinished_instance(
            self.plan.dag(),
            &self.state,
            name,
            Unfinished::Running,
        )?;
        if !fits(self.plan, name.task, outcome) {
            return Err(Illegal::NotEnabled);
        }
        let (entry, kept) = entry_and_kept_outcome(&instance.given, outcome)?;
        Ok(Ending {
            entry,
            kept,
            demand: self.plan.demand(name.task),
            retries: self.plan.dag().task(name.task).retries,
            place: place_of(self.plan.dag(), name) as usize,
            retry: self.retry_of(name, outcome),
        })
    }

    /// Ends a running try: gives back its slots and notes its entry in the ledger. `Stranger` where there is no such
    /// try, `NotEnabled` where it doesn't run or can't end with this outcome, `OutOfMemory` at want of memory; `Err`
    /// changes nothing.
    fn end(&mut self, name: JobName, outcome: Outcome) -> Result<(), Illegal>
        ensures ok { OnOk result (HasCome self.old (Event.End name outcome) self.new) }
        ensures err { IfErr result (IsRefusal self.old (Event.End name outcome)) }
        ensures same { OnErr result (self.new ≡ self.old) }
    {
        let Ending {
            entry,
            kept,
            demand,
            retries,
            place,
            retry,
        } = self.prepare_end(name, &outcome)?;
        self.journal.reserve(1)?;
        note_end(&mut self.clock, &mut self.state.ledger, name, entry, retry)?;
        let change = Change::End {
            retries,
            outcome: kept,
        };
        self.state
            .change_instance_at(name.run, name.task, place, change);
        self.pools.give_back(demand.pool, demand.slots);
        self.journal.push_reserved(Event::End(name, outcome));
        Ok(())
    }

    /// Closes a run. `Stranger` where it isn't there, `NotEnabled` where it isn't open or a task isn't settled,
    /// `OutOfMemory` at want of memory; `Err` changes nothing.
    fn close(&mut self, run: u32) -> Result<(), Illegal>
        ensures ok { OnOk result (HasCome self.old (Event.Close run) self.new) }
        ensures err { IfErr result (IsRefusal self.old (Event.Close run)) }
        ensures same { OnErr result (self.new ≡ self.old) }
    {
        refuse_unless_closable(self.plan.dag(), &self.state, run)?;
        self.journal.reserve(1)?;
        self.state.set_phase(run, RunPhase::Closed);
        self.active_runs -= 1;
        self.journal.push_reserved(Event::Close { run });
        Ok(())
    }

    /// Moves the clock to `moment`, in seconds since 1970. `NotEnabled` where that isn't later than the clock's time or
    /// is past `LAST_MOMENT`, `OutOfMemory` at want of memory; `Err` changes nothing.
    fn tick(&mut self, moment: i64) -> Result<(), Illegal>
        ensures ok { OnOk result (HasCome self.old (Event.Tick moment) self.new) }
        ensures err { IfErr result (IsRefusal self.old (Event.Tick moment)) }
        ensures same { OnErr result (self.new ≡ self.old) }
    {
        if !self.clock.may_come_to(moment) {
            return Err(Illegal::NotEnabled);
        }
        self.journal.reserve(1)?;
        self.clock.time = moment;
        self.journal.push_reserved(Event::Tick { moment });
        Ok(())
    }
}

/// What is made ready before a try ends: its ledger entry, the outcome that its instance keeps, the slots to give back,
/// its task's retries, its instance's place from 0, and its next try.
struct Ending {
    entry: Entry,
    kept: Outcome,
    demand: Demand,
    retries: u32,
    place: usize,
    retry: Retry,
}

/// The ledger entry of a try that was given `given` and ends with `outcome`, and that outcome for its instance. They
/// share what was given and pushed.
fn entry_and_kept_outcome(
    given: &SharedGiven,
    outcome: &Outcome,
) -> Result<(Entry, Outcome), OutOfMemory>
    ensures entry { IfOk result (λ both. both.0
        ≡ record { given = given.now; outcome = outcome.now }) }
    ensures kept { IfOk result (λ both. both.1 ≡ outcome.now) }
{
    let entry = Entry {
        given: given.share()?,
        outcome: outcome.share()?,
    };
    Ok((entry, outcome.share()?))
}

/// Refuses a run that may not be closed: `Stranger` where it isn't there, `NotEnabled` where it isn't open or a task
/// isn't settled.
fn refuse_unless_closable(dag: &Dag, state: &State, run: u32) -> Result<(), Illegal>
    requires { HasRows dag.now state.now }
    ensures ok { OnOk result ((run < length state.now.runs)
        × (phase_of state.now run ≡ RunPhase.Open) × AllSettled dag.now state.now run) }
    ensures err { IfErr result (RefusedFor (run < length state.now.runs)
        ((phase_of state.now run ≡ RunPhase.Open) × AllSettled dag.now state.now run)) }
{
    match state.runs.get(run as usize) {
        None => Err(Illegal::Stranger),
        Some(row) => {
            if is_closable(row) {
                Ok(())
            } else {
                Err(Illegal::NotEnabled)
            }
        }
    }
}
