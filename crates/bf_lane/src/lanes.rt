//! The lanes of all workers.
ghost use Rattle.std.specs.Prelude.{◌≡◌, ◌<◌, ◌≤ℤ◌, ◌++◌, ◌∷◌, [], not, position, IfSome, IfNone, OnOk, OnErr, length};
ghost use Rattle.bf_lane.specs.Open.{awaits, IsIdleAt};
ghost use Rattle.bf_lane.specs.Rounds.{IsSubmitted, IsGathered};
ghost use Rattle.bf_lane.specs.Closing.{ClosesAll};
ghost use Rattle.bf_lane.specs.Lanes.{IsAllowedBy};

use crate::clock::TimeSource;
use crate::closed::Closed;
use crate::lane::Lane;
use crate::messages::Answer;
use crate::service::Service;
use bf_try::Ticket;
use std::alloc::{AllocError, Global};
use std::marker::Model;
use std::sync::Wait;
use std::thread::{Parker, Threads};

/// A lane for each worker. Contracts see what each has submitted and gathered.
#[derive(Drop)]
pub struct Lanes<'s, K: Service> {
    /// The scheduler sleeps on it while no answer is there.
    answered: &'s Parker,
    lanes: Vec<Lane<'s, K>>,
    /// Room for what closing gives, which is made with each lane, so that closing takes no memory.
    ends: Vec<Closed<K>>,
}

impl<'s, K: Service> Model for Lanes<'s, K> {
    ghost use Rattle.std.specs.Prelude.{◌≡◌, ◌≤◌, [], length, vec_capacity, List};
    ghost use Rattle.bf_lane.specs.Open.{Scheduled};
    ghost use Rattle.bf_lane.specs.contracts.messages.Job;
    ghost use Rattle.bf_lane.specs.contracts.messages.Answer;
    ghost use Rattle.std.specs.Coded.{codes};

    ghost Value = { List Scheduled };

    ghost coded = { Prim.hlevel (codes, Job.the_row.coded, Answer.the_row.coded) };

    ghost view = { λ e. e.lanes.items };

    ghost invariant = { λ e. (e.ends.items ≡ []) × (length e.lanes.items ≤ vec_capacity e.ends) };
}

impl<'s, K: Service + Send + Sync + 's> Lanes<'s, K> {
    /// No lanes yet. The workers of those to come wake `answered` behind each answer.
    pub fn new(alloc: Global, answered: &'s Parker) -> Lanes<'s, K>
        ensures { result ≡ [] }
    {
        Lanes {
            answered,
            lanes: Vec::new(alloc),
            ends: Vec::new(alloc),
        }
    }

    /// Adds a lane. `Err`, at want of memory, adds nothing, and the lane's worker is stopped and has ended.
    pub fn push<W: Wait + Threads>(&mut self, lane: Lane<'s, K>, rt: &W) -> Result<(), AllocError>
        ensures ok { OnOk result (self.new ≡ self.old ++ lane.entry ∷ []) }
        ensures err { OnErr result (self.new ≡ self.old) }
    {
        if self.ends.reserve(self.lanes.len() + 1).is_err() || self.lanes.reserve(1).is_err() {
            drop(lane.close(rt));
            return Err(AllocError);
        }
        self.lanes.push_reserved(lane);
        Ok(())
    }

    /// The place, from 0, of the first lane that awaits no answer; None where each awaits one.
    pub fn first_idle(&self) -> Option<usize>
        ensures { result ≡ position (λ lane. not (awaits lane)) self.now }
    {
        self.lanes.iter().position(|lane| !lane.is_busy())
    }

    /// How many lanes there are.
    fn len(&self) -> usize
        ensures { result ≡ length self.now }
    {
        self.lanes.len()
    }

    /// Submits a try to the worker of the lane at the place `at`, from 0, which awaits no answer.
    pub fn submit<W: Wait>(&mut self, rt: &W, at: usize, ticket: Ticket)
        requires { IsIdleAt self.old at }
        ensures { IsSubmitted self.old self.new at ticket }
    {
        let lane = &mut self.lanes[at];
        lane.submit(rt, ticket);
    }

    /// Takes the answer that is in the lane at the place `at`, from 0; None where none is. Never waits.
    fn try_gather_from(&mut self, at: usize) -> Option<Answer>
        requires { at < length self.old }
        ensures some { IfSome result (λ a. IsGathered self.old self.new at a) }
        ensures allowed { IfSome result (IsAllowedBy K.answers K.gives_up) }
        ensures none { IfNone result (self.new ≡ self.old) }
    {
        let lane = &mut self.lanes[at];
        lane.try_gather()
    }

    /// Takes the answer that is in the first lane that has one, and gives the place of that lane, from 0, with it; None
    /// where no lane has one. Never waits.
    fn try_gather_any(&mut self) -> Option<(usize, Answer)>
        ensures some { IfSome result (λ r. IsGathered self.old self.new r.0 r.1) }
        ensures allowed { IfSome result (λ r. IsAllowedBy K.answers K.gives_up r.1) }
        ensures none { IfNone result (self.new ≡ self.old) }
    {
        for at in 0..self.len() {
            if let Some(answer) = self.try_gather_from(at) {
                return Some((at, answer));
            }
        }
        None
    }

    /// Waits for an answer, and gives it with the place of its lane, from 0.
    pub fn gather<W: Wait>(&mut self, rt: &W) -> (usize, Answer)
        ensures gathered { IsGathered self.old self.new result.0 result.1 }
        ensures allowed { IsAllowedBy K.answers K.gives_up result.1 }
    {
        for _ in rt.forever() {
            if let Some(answer) = self.try_gather_any() {
                return answer;
            }
            self.answered.park(rt);
        }
        unreachable!()
    }

    /// Waits for an answer until `moment`, in seconds since the clock began, and gives it with the place of its lane,
    /// from 0. None only where the clock's last answer isn't before that moment.
    pub fn gather_until<W: Wait, C: TimeSource>(
        &mut self,
        rt: &W,
        clock: &mut C,
        moment: i64,
    ) -> Option<(usize, Answer)>
        ensures some { IfSome result (λ r. IsGathered self.old self.new r.0 r.1) }
        ensures allowed { IfSome result (λ r. IsAllowedBy K.answers K.gives_up r.1) }
        ensures none { IfNone result (self.new ≡ self.old) }
        ensures late { IfNone result (moment ≤ℤ C.last clock.new) }
    {
        for _ in rt.forever() {
            if let Some(answer) = self.try_gather_any() {
                return Some(answer);
            }
            if moment <= clock.now() {
                return None;
            }
            clock.pause(rt, self.answered, moment);
        }
        unreachable!()
    }

    /// Stops the workers and waits until each has ended. It takes no memory.
    pub fn close<W: Wait + Threads>(self, rt: &W) -> Vec<Closed<K>>
        ensures { ClosesAll K.answers K.gives_up self.entry result.items }
    {
        let Lanes {
            answered: _,
            lanes,
            mut ends,
        } = self;
        for lane in lanes {
            ends.push_reserved(lane.close(rt));
        }
        ends
    }
}
