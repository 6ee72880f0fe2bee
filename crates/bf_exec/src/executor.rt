//! The turns of the scheduling thread, over the lanes of the workers.
ghost use Rattle.std.specs.Prelude.{◌≡◌, length, IfOk, IfErr, IfSome, IfNone, OnOk, OnErr};
ghost use Rattle.bf_sched.specs.Choices.{IsNextMoment};
ghost use Rattle.bf_lane.specs.Closing.{ClosesAll};
ghost use Rattle.bf_lane.specs.Lanes.{IsAllowedBy};
ghost use Rattle.bf_lane.specs.Rounds.{IsGathered};
ghost use Rattle.bf_exec.specs.Faults.{MayHalt};
ghost use Rattle.bf_exec.specs.Shown.{HasShown};
ghost use Rattle.bf_exec.specs.inner.Shown.{ShowsLast};
ghost use Rattle.bf_exec.specs.Turns.{AreAmong, AreInStep, EndsAtOnce, EndsBy, EndsWait, HasCaughtUp, IsHaltOf, IsTurn};
ghost use Rattle.bf_exec.specs.inner.Turns.{IsHaltBy, IsPast};
ghost use Rattle.bf_sched.specs.Driving.{IsUnderWay, StaysDriven};

use crate::at_once::AnswerAtOnce;
use crate::turn_fault::TurnFault;
use crate::watch::{Observer, Watch};
use bf_core::{Illegal, LAST_MOMENT};
use bf_lane::{Answer, Closed, Lanes, Service, TimeSource};
use bf_sched::{Next, Scheduler};
use bf_try::{Done, RunnerFault, Ticket};
use bf_value::OutOfMemory;
use std::marker::Model;
use std::sync::Wait;
use std::thread::Threads;

/// The lanes of all workers. Contracts see what each lane has submitted and gathered.
#[derive(Drop)]
pub struct Executor<'s, K: Service> {
    lanes: Lanes<'s, K>,
}

impl<'s, K: Service> Model for Executor<'s, K> {
    ghost use Rattle.std.specs.Prelude.{List};
    ghost use Rattle.std.specs.Coded.{codes};
    ghost use Rattle.bf_lane.specs.contracts.messages.Answer;
    ghost use Rattle.bf_lane.specs.contracts.messages.Job;
    ghost use Rattle.bf_lane.specs.Open.{Scheduled};

    ghost Value = { List Scheduled };

    ghost coded = { Prim.hlevel (codes, Job.the_row.coded, Answer.the_row.coded) };

    ghost view = { λ e. e.lanes };
}

/// Shows the observer the event that came last; does nothing where none came yet.
fn show_last_event<O: Observer>(scheduler: &Scheduler<'_>, observer: &mut O)
    ensures { ShowsLast O.shows observer.old observer.new scheduler.now.backfill }
{
    if let Some(event) = scheduler.journal().last() {
        observer.on_event(event, scheduler.core(), scheduler.running());
    }
}

/// Moves the backfill's clock to the present moment, at most `LAST_MOMENT`, where that is later than it shows, and
/// shows the observer the tick. `Err`, at want of memory, moves nothing.
fn tick_to_present<C: TimeSource, O: Observer>(
    scheduler: &mut Scheduler<'_>,
    watch: &mut Watch<C, O>,
) -> Result<(), OutOfMemory>
    ensures ok { OnOk result (HasCaughtUp (C.last watch.new.clock) scheduler.old scheduler.new) }
    ensures same { OnErr result (scheduler.new ≡ scheduler.old) }
    ensures shown { HasShown O.shows watch.old.observer watch.new.observer scheduler.old.backfill
        scheduler.new.backfill }
{
    let moment = watch.clock.now().min(LAST_MOMENT);
    if scheduler.tick(moment)? {
        show_last_event(scheduler, &mut watch.observer);
    }
    Ok(())
}

/// Moves the clock to the present, ends the try of an answer, and shows the observer these events. `Stranger` where the
/// try doesn't run or was given something else, `OutOfMemory` at want of memory; at `Err` the try isn't ended, but the
/// clock may have moved.
fn end_answered_try<C: TimeSource, O: Observer>(
    done: Done,
    scheduler: &mut Scheduler<'_>,
    watch: &mut Watch<C, O>,
) -> Result<(), TurnFault>
    ensures ok { OnOk result (EndsBy (C.last watch.new.clock) done scheduler.old scheduler.new) }
    ensures err { IfErr result (IsHaltBy done scheduler.old scheduler.new) }
    ensures shown { HasShown O.shows watch.old.observer watch.new.observer scheduler.old.backfill
        scheduler.new.backfill }
{
    tick_to_present(scheduler, watch)?;
    match scheduler.finish(done) {
        Ok(()) => {
            show_last_event(scheduler, &mut watch.observer);
            Ok(())
        }
        Err((_, Illegal::OutOfMemory)) => Err(TurnFault::OutOfMemory),
        Err(_) => Err(TurnFault::Stranger),
    }
}

/// Ends a begun try if `desk` answers it at once, shows the observer that, and gives None; else gives the ticket back.
/// `Err`, at want of memory, leaves the backfill as it was.
fn end_at_once<D: AnswerAtOnce, O: Observer>(
    desk: &D,
    ticket: Ticket,
    scheduler: &mut Scheduler<'_>,
    observer: &mut O,
) -> Result<Option<Ticket>, OutOfMemory>
    requires { IsUnderWay scheduler.old.backfill ticket }
    ensures some { IfOk result (λ left. IfSome left
        (λ back. (back ≡ ticket) × (scheduler.new ≡ scheduler.old))) }
    ensures none { IfOk result (λ left. IfNone left
        (EndsAtOnce (D.may_answer_at_once desk.now) ticket scheduler.old scheduler.new)) }
    ensures same { OnErr result (scheduler.new ≡ scheduler.old) }
    ensures shown { HasShown O.shows observer.old observer.new scheduler.old.backfill
        scheduler.new.backfill }
{
    match desk.answer_at_once(ticket) {
        Ok(done) => {
            scheduler.finish_allowed(done)?;
            show_last_event(scheduler, observer);
            Ok(None)
        }
        Err(ticket) => Ok(Some(ticket)),
    }
}

impl<'s, K: Service + Send + Sync + 's> Executor<'s, K> {
    /// An executor over the lanes of the workers.
    pub fn new(lanes: Lanes<'s, K>) -> Executor<'s, K>
        ensures { result ≡ lanes.entry }
    {
        Executor { lanes }
    }

    /// Waits for an answer, and gives it with the place of its lane, from 0. None only where `until`, in seconds since
    /// the clock began, is given and the clock last showed that moment or a later one.
    fn gather<W: Wait, C: TimeSource>(
        &mut self,
        rt: &W,
        clock: &mut C,
        until: Option<i64>,
    ) -> Option<(usize, Answer)>
        ensures some { IfSome result (λ r. IsGathered self.old self.new r.0 r.1) }
        ensures allowed { IfSome result (λ r. IsAllowedBy K.answers K.gives_up r.1) }
        ensures none { IfNone result (self.new ≡ self.old) }
        ensures late { IfNone result (IsPast until (C.last clock.new)) }
    {
        match until {
            Some(moment) => self.lanes.gather_until(rt, clock, moment),
            None => Some(self.lanes.gather(rt)),
        }
    }

    /// Waits for an answer and ends its try; does nothing where `until`, in seconds since the clock began, comes first.
    /// `Runner` where the runner gave the try up, `Stranger` where it doesn't run or was given something else,
    /// `OutOfMemory` at want of memory.
    #[tactic(auto, using(crate::proofs::Turning::gathered_in_step, bf_sched::proofs::Driving::same_driven, crate::proofs::Turning::halted_by, crate::proofs::Shown::still_shown))]
    fn wait_and_end_try<W: Wait, C: TimeSource, O: Observer>(
        &mut self,
        rt: &W,
        until: Option<i64>,
        scheduler: &mut Scheduler<'_>,
        watch: &mut Watch<C, O>,
    ) -> Result<(), TurnFault>
        requires in_step { AreInStep self.old scheduler.old }
        requires next { IsNextMoment scheduler.old.backfill until }
        ensures ok { OnOk result (EndsWait (C.last watch.new.clock) self.old self.new scheduler.old
            scheduler.new) }
        ensures in_step { OnOk result (AreInStep self.new scheduler.new) }
        ensures driven { OnOk result (StaysDriven K.answers scheduler.old scheduler.new) }
        ensures err { IfErr result (IsHaltOf self.old self.new) }
        ensures fault { IfErr result (MayHalt K.gives_up) }
        ensures shown { HasShown O.shows watch.old.observer watch.new.observer
            scheduler.old.backfill scheduler.new.backfill }
    {
        let Some((_, answer)) = self.gather(rt, &mut watch.clock, until) else {
            return Ok(());
        };
        match answer {
            Answer::Done(done) => end_answered_try(done, scheduler, watch),
            Answer::Gave(ticket, RunnerFault::GaveUp) => Err(TurnFault::Runner(ticket.name())),
            Answer::Gave(_, RunnerFault::OutOfMemory) => Err(TurnFault::OutOfMemory),
        }
    }

    /// One turn of the scheduling loop: moves the clock to the present, then lets an event come by itself, or begins a
    /// try and answers it at once or submits it to a worker, or waits for an answer or a moment. Shows the observer
    /// each event. False where the backfill has ended. `Err` is as in `TurnFault`; only `close` may follow it.
    pub fn turn<W: Wait, D: AnswerAtOnce, C: TimeSource, O: Observer>(
        &mut self,
        rt: &W,
        desk: &D,
        scheduler: &mut Scheduler<'_>,
        watch: &mut Watch<C, O>,
    ) -> Result<bool, TurnFault>
        requires in_step { AreInStep self.old scheduler.old }
        requires at_once { AreAmong (D.may_answer_at_once desk.now) K.answers }
        ensures ok { IfOk result (IsTurn (D.may_answer_at_once desk.now) (C.last watch.new.clock)
            self.old self.new scheduler.old scheduler.new) }
        ensures in_step { OnOk result (AreInStep self.new scheduler.new) }
        ensures driven { OnOk result (StaysDriven K.answers scheduler.old scheduler.new) }
        ensures err { IfErr result (IsHaltOf self.old self.new) }
        ensures fault { IfErr result (MayHalt K.gives_up) }
        ensures shown { HasShown O.shows watch.old.observer watch.new.observer
            scheduler.old.backfill scheduler.new.backfill }
    {
        tick_to_present(scheduler, watch)?;
        match scheduler.next()? {
            Next::Stepped => {
                show_last_event(scheduler, &mut watch.observer);
                Ok(true)
            }
            Next::Go(ticket) => {
                show_last_event(scheduler, &mut watch.observer);
                let Some(at) = self.lanes.first_idle() else {
                    unreachable!()
                };
                match end_at_once(desk, ticket, scheduler, &mut watch.observer)? {
                    Some(ticket) => {
                        self.lanes.submit(rt, at, ticket);
                        Ok(true)
                    }
                    None => Ok(true),
                }
            }
            Next::Wait => {
                let until = scheduler.pending();
                self.wait_and_end_try(rt, until, scheduler, watch)?;
                Ok(true)
            }
            Next::Until(moment) => {
                self.wait_and_end_try(rt, Some(moment), scheduler, watch)?;
                Ok(true)
            }
            Next::Ended => Ok(false),
        }
    }

    /// Stops the workers and waits until each has ended. What a lane submitted, took, sent and gathered are the same
    /// tries then, in the same order and with the same given. It takes no memory.
    pub fn close<W: Wait + Threads>(self, rt: &W) -> Vec<Closed<K>>
        ensures { ClosesAll K.answers K.gives_up self.entry result.items }
    {
        let Executor { lanes } = self;
        lanes.close(rt)
    }
}
