//! A core, and what comes next of it.
ghost use Rattle.std.specs.Prelude.{◌≡◌, Some, IfOk, IfErr, OnOk, OnErr, option_copied};
ghost use Rattle.bf_core.specs.Events.{HasEnded};
ghost use Rattle.bf_core.specs.Cores.{Backfill, HasCome, IsRefusal, IsReplay, MayCome, moved};
ghost use Rattle.bf_core.specs.Endings.{ending_of};
ghost use Rattle.bf_core.specs.declared.event.Event.{Event};
ghost use Rattle.bf_sched.specs.Choices.{IsNextMoment, IsNextStep, IsNextTry};

use bf_core::{Core, Ended, Event, Illegal};
use bf_due::Due;
use bf_value::{JobName, OutOfMemory};
use bf_waiting::Waiting;
use std::alloc::Global;
use std::marker::Model;

/// A backfill as far as it has come, with what comes next of it kept over its events. Contracts see the backfill alone.
#[derive(Drop)]
pub struct Ready<'a> {
    core: Core<'a>,
    /// The steps that may come by themselves.
    due: Due,
    /// The tries that wait.
    waiting: Waiting,
}

impl<'a> Model for Ready<'a> {
    ghost use Rattle.bf_plan.specs.contracts.plan.Dag;
    ghost use Rattle.bf_plan.specs.contracts.plan.Limits;
    ghost use Rattle.bf_core.specs.contracts.state.State;
    ghost use Rattle.bf_core.specs.contracts.clock.Clock;
    ghost use Rattle.bf_core.specs.contracts.event.Event;
    ghost use Rattle.bf_core.specs.Cores.{Backfill};
    ghost use Rattle.bf_due.specs.Dues.{IsUpToDate};
    ghost use Rattle.bf_waiting.specs.Kept.{KeepsTries};
    ghost use Rattle.std.specs.Coded.{codes};

    ghost Value = { Backfill };

    ghost coded = { Prim.hlevel (
      codes,
      Dag.the_row.coded,
      Limits.the_row.coded,
      State.the_row.coded,
      Clock.the_row.coded,
      Event.the_row.coded,
    ) };

    ghost view = { λ r. r.core };

    ghost invariant = { λ r. IsUpToDate r.core r.due × KeepsTries r.core r.waiting };
}

/// The event that came last; None where none came yet.
fn last_event<'c>(core: &'c Core<'_>) -> Option<&'c Event>
    ensures { (b : Backfill) (e : Event) → core.now ≡ moved b e → option_copied result
        ≡ Some e }
{
    core.journal().last()
}

impl<'a> Ready<'a> {
    /// Takes up a backfill as far as it has come, and finds what may come next in it.
    pub fn new(alloc: Global, core: Core<'a>) -> Result<Ready<'a>, OutOfMemory>
        ensures { IfOk result (λ ready. ready ≡ core.entry) }
    {
        let due = Due::new(alloc, &core)?;
        let waiting = Waiting::new(alloc, &core)?;
        Ok(Ready { core, due, waiting })
    }

    /// The backfill as far as it has come.
    pub fn core(&self) -> &Core<'a>
        ensures { result.now ≡ self.now }
    {
        &self.core
    }

    /// The events that came so far. They led from the start to what is now.
    pub fn journal(&self) -> &[Event]
        ensures journal { result.now ≡ self.now.journal }
        ensures replayed { IsReplay self.now }
    {
        self.core.journal()
    }

    /// Lets an event come, or refuses it and changes nothing: `Stranger` where what it names isn't there, else
    /// `NotEnabled` where it may not come now for another cause than want of room, else `NoRoom`. `OutOfMemory` may
    /// stand in place of any answer, and alone refuses an event that may come.
    pub fn apply(&mut self, event: Event) -> Result<(), Illegal>
        ensures ok { OnOk result (HasCome self.old event self.new) }
        ensures err { IfErr result (IsRefusal self.old event) }
        ensures memory { MayCome self.old event
            → IfErr result (λ fault. fault ≡ Illegal.OutOfMemory) }
        ensures same { OnErr result (self.new ≡ self.old) }
    {
        self.due.make_room(&self.core, &event)?;
        self.waiting.make_room(&event)?;
        self.core.apply(event)?;
        match last_event(&self.core) {
            Some(event) => {
                self.due.on_event(&self.core, event);
                self.waiting.on_event(&self.core, event);
            }
            None => unreachable!(),
        }
        Ok(())
    }

    /// The first step that may come by itself: a close, an open, a settle or an expand, in this order. None where none
    /// may come.
    pub fn next_step(&self) -> Option<Event>
        ensures { IsNextStep self.now result }
    {
        self.due.next_step()
    }

    /// The try to begin next: of those that may begin now, the first one of the greatest total weight. None where none
    /// may begin now.
    pub fn next_try(&self) -> Option<JobName>
        ensures { IsNextTry self.now result }
    {
        self.waiting.next_try(&self.core)
    }

    /// The earliest moment still to come for which a try waits, in seconds since 1970; None where no try waits for one.
    pub fn next_moment(&self) -> Option<i64>
        ensures { IsNextMoment self.now result }
    {
        self.waiting.next_moment()
    }

    /// Answers what the backfill came to. `Err` hands it back as it was, where a run isn't closed.
    pub fn into_ended(self) -> Result<Ended<'a>, Ready<'a>>
        ensures ok { IfOk result (λ ended. ended ≡ ending_of self.entry ended.run_states) }
        ensures closed { OnOk result (HasEnded self.entry.state) }
        ensures back { IfErr result (λ ready. (ready ≡ self.entry)
            × ¬ (HasEnded self.entry.state)) }
    {
        let Ready { core, due, waiting } = self;
        match core.into_ended() {
            Ok(ended) => Ok(ended),
            Err(core) => Err(Ready { core, due, waiting }),
        }
    }
}
