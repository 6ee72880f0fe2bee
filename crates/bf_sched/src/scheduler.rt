//! The choice of events.
ghost use Rattle.std.specs.Prelude.{◌≡◌, ◌⊎◌, ◌≤◌, OnOk, OnErr, IfOk, IfErr};
ghost use Rattle.bf_try.specs.Grades.{grade_of};
ghost use Rattle.bf_core.specs.Events.{HasEnded};
ghost use Rattle.bf_core.specs.Cores.{IsRefusal, IsReplay, MayCome, moved};
ghost use Rattle.bf_core.specs.Endings.{ending_of};
ghost use Rattle.bf_core.specs.Running.{running_now};
ghost use Rattle.bf_core.specs.declared.event.Event.{Event};
ghost use Rattle.bf_sched.specs.Choices.{IsNextMoment};
ghost use Rattle.bf_sched.specs.Scheduling.{HasComeTo, HasFinished, HasTicked, IsNext, IsRefused, IsSameGiven, IsTicketOf, MayFinish, moved_on};

use crate::next::Next;
use crate::ready::Ready;
use bf_core::{Core, Ended, Event, Illegal};
use bf_try::{Done, Outcome, Ticket, grade};
use bf_value::{JobName, OutOfMemory};
use bf_workers::Workers;
use std::alloc::Global;
use std::marker::Model;

/// A backfill, and the choice of its events for so many workers.
#[derive(Drop)]
pub struct Scheduler<'a> {
    alloc: Global,
    ready: Ready<'a>,
    workers: Workers,
    /// How many tries run.
    running: u32,
}

impl<'a> Model for Scheduler<'a> {
    ghost use Rattle.bf_sched.specs.Scheduling.{Schedule, IsScheduler};
    ghost use Rattle.bf_plan.specs.contracts.plan.Dag;
    ghost use Rattle.bf_plan.specs.contracts.plan.Limits;
    ghost use Rattle.bf_core.specs.contracts.state.State;
    ghost use Rattle.bf_core.specs.contracts.clock.Clock;
    ghost use Rattle.bf_core.specs.contracts.event.Event;
    ghost use Rattle.std.specs.Coded.{codes};

    ghost Value = { Schedule };

    ghost coded = { Prim.hlevel (
      codes,
      Dag.the_row.coded,
      Limits.the_row.coded,
      State.the_row.coded,
      Clock.the_row.coded,
      Event.the_row.coded,
    ) };

    ghost view = { λ s. record { backfill = s.ready; workers = s.workers } };

    ghost invariant = { λ s. IsScheduler s.ready s.workers s.running };
}

/// Lets an event come that may come now. `Err`, at want of memory, changes nothing.
fn apply_allowed(ready: &mut Ready<'_>, event: Event) -> Result<(), OutOfMemory>
    requires { MayCome ready.old event }
    ensures ok { OnOk result (ready.new ≡ moved ready.old event) }
    ensures same { OnErr result (ready.new ≡ ready.old) }
{
    match ready.apply(event) {
        Ok(()) => Ok(()),
        Err(Illegal::OutOfMemory) => Err(OutOfMemory),
        Err(_) => unreachable!(),
    }
}

/// Moves the clock to `moment`, in seconds since 1970, and answers true; false, and nothing moved, where the moment
/// isn't later than the clock's time or is past `LAST_MOMENT`. `Err`, at want of memory, changes nothing.
fn tick_if_later(ready: &mut Ready<'_>, moment: i64) -> Result<bool, OutOfMemory>
    ensures ok { IfOk result (λ came. HasComeTo ready.old moment came ready.new) }
    ensures same { OnErr result (ready.new ≡ ready.old) }
{
    match ready.apply(Event::Tick { moment }) {
        Ok(()) => Ok(true),
        Err(Illegal::OutOfMemory) => Err(OutOfMemory),
        Err(_) => Ok(false),
    }
}

/// Begins a try that may begin, and gives the ticket for its runner. `Err`, at want of memory, changes nothing.
fn begin(alloc: Global, ready: &mut Ready<'_>, name: JobName) -> Result<Ticket, OutOfMemory>
    requires { MayCome ready.old (Event.Begin name) }
    ensures ticket { IfOk result (λ ticket. IsTicketOf ready.old name ticket) }
    ensures ok { OnOk result (ready.new ≡ moved ready.old (Event.Begin name)) }
    ensures same { OnErr result (ready.new ≡ ready.old) }
{
    match ready.core().instance(name) {
        None => unreachable!(),
        Some(instance) => {
            let given = instance.given.copy(alloc)?;
            apply_allowed(ready, Event::Begin(name))?;
            Ok(Ticket::issue(name, given))
        }
    }
}

/// The outcome with which an answer ends its try. `Stranger` where the answer's task isn't there, or its try runs and
/// was given something else; `OutOfMemory` at want of memory. That the try runs isn't required.
fn grade_answer(alloc: Global, core: &Core<'_>, done: &Done) -> Result<Outcome, Illegal>
    ensures ok { IfOk result (λ o. (o ≡ grade_of core.now.dag done.now.name.task done.now.raw)
        × IsSameGiven core.now done.now) }
    ensures err { IfErr result (IsRefused core.now done.now) }
    ensures memory { MayFinish core.now done.now
        → IfErr result (λ fault. fault ≡ Illegal.OutOfMemory) }
    ensures cause { IfErr result (λ fault. (fault ≡ Illegal.Stranger)
        ⊎ (fault ≡ Illegal.OutOfMemory)) }
{
    let _replayed = core.journal();
    let name = done.name();
    if name.task as usize >= core.plan().dag().tasks.len() {
        return Err(Illegal::Stranger);
    }
    if let Some(instance) = core.running_instance(name) {
        if !instance.given.is_same_as(done.given()) {
            return Err(Illegal::Stranger);
        }
    }
    Ok(grade(alloc, core.plan(), name.task, done.raw())?)
}

impl<'a> Scheduler<'a> {
    /// A scheduler for a backfill in which no try runs, and for so many workers.
    pub fn new(
        alloc: Global,
        core: Core<'a>,
        workers: Workers,
    ) -> Result<Scheduler<'a>, OutOfMemory>
        requires { running_now core.state ≡ 0 }
        ensures { IfOk result (λ s. s ≡ record { backfill = core.entry; workers = workers }) }
    {
        Ok(Scheduler {
            alloc,
            ready: Ready::new(alloc, core)?,
            workers,
            running: 0,
        })
    }

    /// How many tries run now, at most one for each worker.
    pub fn running(&self) -> u32
        ensures running { result ≡ running_now self.now.backfill.state }
        ensures within { result ≤ self.now.workers }
    {
        self.running
    }

    /// The earliest moment still to come for which a try waits, in seconds since 1970; None where no try waits for one.
    pub fn pending(&self) -> Option<i64>
        ensures { IsNextMoment self.now.backfill result }
    {
        self.ready.next_moment()
    }

    /// Lets the first event come that comes by itself; else, while a worker is free, begins the try of the greatest
    /// total weight that may begin. Where neither can be, answers `Wait` while a try runs, `Until` where one waits for
    /// a moment, else `Ended`. `Err`, at want of memory, changes nothing.
    pub fn next(&mut self) -> Result<Next, OutOfMemory>
        ensures ok { IfOk result (λ next. IsNext self.old next self.new) }
        ensures same { OnErr result (self.new ≡ self.old) }
    {
        let _replayed = self.ready.journal();
        if let Some(event) = self.ready.next_step() {
            apply_allowed(&mut self.ready, event)?;
            return Ok(Next::Stepped);
        }
        if self.running < self.workers.count() {
            if let Some(name) = self.ready.next_try() {
                let ticket = begin(self.alloc, &mut self.ready, name)?;
                self.running += 1;
                return Ok(Next::Go(ticket));
            }
        }
        if self.running > 0 {
            return Ok(Next::Wait);
        }
        if let Some(moment) = self.ready.next_moment() {
            return Ok(Next::Until(moment));
        }
        self.ready.core().never_stuck();
        Ok(Next::Ended)
    }

    /// Moves the clock to `moment`, in seconds since 1970, and answers true; false, and nothing moved, where the moment
    /// isn't later than the clock's time or is past `LAST_MOMENT`. `Err`, at want of memory, changes nothing.
    pub fn tick(&mut self, moment: i64) -> Result<bool, OutOfMemory>
        ensures ok { IfOk result (λ came. HasTicked self.old moment came self.new) }
        ensures same { OnErr result (self.new ≡ self.old) }
    {
        let _replayed = self.ready.journal();
        let came = tick_if_later(&mut self.ready, moment)?;
        Ok(came)
    }

    /// Ends a running try with `outcome`. `Stranger` where there is no such try, `NotEnabled` where it doesn't run or
    /// can't end so, `OutOfMemory` at want of memory; `Err` changes nothing.
    fn end(&mut self, name: JobName, outcome: Outcome) -> Result<(), Illegal>
        ensures ok { OnOk result (MayCome self.old.backfill (Event.End name outcome)
            × (self.new ≡ moved_on self.old (Event.End name outcome))) }
        ensures err { IfErr result (IsRefusal self.old.backfill (Event.End name outcome)) }
        ensures memory { MayCome self.old.backfill (Event.End name outcome)
            → IfErr result (λ fault. fault ≡ Illegal.OutOfMemory) }
        ensures same { OnErr result (self.new ≡ self.old) }
    {
        let _replayed = self.ready.journal();
        match self.ready.apply(Event::End(name, outcome)) {
            Err(fault) => Err(fault),
            Ok(()) => {
                self.running -= 1;
                Ok(())
            }
        }
    }

    /// Ends a running try with the grade of its answer. `Err` hands the answer back and changes nothing: `Stranger`
    /// where there is no such try or it was given something else, `NotEnabled` where it doesn't run, `OutOfMemory` at
    /// want of memory.
    pub fn finish(&mut self, done: Done) -> Result<(), (Done, Illegal)>
        ensures ok { OnOk result (HasFinished self.old done self.new) }
        ensures back { IfErr result (λ f. f.0 ≡ done) }
        ensures err { IfErr result (λ f. IsRefused self.old.backfill done f.1) }
        ensures memory { MayFinish self.old.backfill done
            → IfErr result (λ f. f.1 ≡ Illegal.OutOfMemory) }
        ensures same { OnErr result (self.new ≡ self.old) }
    {
        match grade_answer(self.alloc, self.ready.core(), &done) {
            Err(fault) => Err((done, fault)),
            Ok(outcome) => match self.end(done.name(), outcome) {
                Err(fault) => Err((done, fault)),
                Ok(()) => Ok(()),
            },
        }
    }

    /// Ends the try of an answer, where that try runs and was given the same. `Err`, at want of memory, changes
    /// nothing.
    pub fn finish_allowed(&mut self, done: Done) -> Result<(), OutOfMemory>
        requires { MayFinish self.old.backfill done }
        ensures ok { OnOk result (HasFinished self.old done self.new) }
        ensures same { OnErr result (self.new ≡ self.old) }
    {
        let core = self.ready.core();
        let _replayed = core.journal();
        let outcome = grade(self.alloc, core.plan(), done.name().task, done.raw())?;
        match self.end(done.name(), outcome) {
            Ok(()) => Ok(()),
            Err(Illegal::OutOfMemory) => Err(OutOfMemory),
            Err(_) => unreachable!(),
        }
    }

    /// The backfill whose events are chosen.
    pub fn core(&self) -> &Core<'a>
        ensures { result.now ≡ self.now.backfill }
    {
        self.ready.core()
    }

    /// The events that came so far. They led from the start to what is now.
    pub fn journal(&self) -> &[Event]
        ensures journal { result.now ≡ self.now.backfill.journal }
        ensures replayed { IsReplay self.now.backfill }
    {
        self.ready.journal()
    }

    /// Answers what the backfill came to. `Err` hands the scheduler back as it was, where a run isn't closed.
    pub fn into_ended(self) -> Result<Ended<'a>, Scheduler<'a>>
        ensures ok { IfOk result (λ ended. ended ≡ ending_of self.entry.backfill ended.run_states) }
        ensures closed { OnOk result (HasEnded self.entry.backfill.state) }
        ensures back { IfErr result (λ s. (s ≡ self.entry)
            × ¬ (HasEnded self.entry.backfill.state)) }
    {
        let Scheduler {
            alloc,
            ready,
            workers,
            running,
        } = self;
        match ready.into_ended() {
            Ok(ended) => Ok(ended),
            Err(ready) => Err(Scheduler {
                alloc,
                ready,
                workers,
                running,
            }),
        }
    }
}
