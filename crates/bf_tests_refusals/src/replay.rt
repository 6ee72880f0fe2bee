//! The events of a journal, let come again to two cores, of which one shows how the other was.
use crate::again::RefusalFault;
use crate::sameness::is_same_core;
use bf_core::{Core, Event, Illegal};
use bf_interval::Runs;
use bf_plan::Plan;
use std::alloc::Global;

/// Makes a core before its first event, a second time where that finds no memory; `Twice` where the second fails too.
fn core_again<'a>(alloc: Global, plan: &'a Plan, runs: &Runs) -> Result<Core<'a>, RefusalFault> {
    if let Ok(core) = Core::new(alloc, plan, runs) {
        return Ok(core);
    }
    Core::new(alloc, plan, runs).ok().ok_or(RefusalFault::Twice)
}

/// A copy of an event; `Twice` where what it pushed has too many holders.
fn copy_of(alloc: Global, event: &Event) -> Result<Event, RefusalFault> {
    event.copy(alloc).ok().ok_or(RefusalFault::Twice)
}

/// A journal, and two cores to which its events come, `behind` after `core`.
#[derive(Drop)]
struct Cores<'a, 'b> {
    journal: &'b [Event],
    core: &'b mut Core<'a>,
    /// One event behind while `core` takes one, so that it shows how that looked before.
    behind: &'b mut Core<'a>,
}

impl<'a, 'b> Cores<'a, 'b> {
    /// Answers whether both cores look the same.
    fn are_level(&self) -> bool {
        is_same_core(self.core, self.behind)
    }

    /// Lets an event come to `core`, a second time where that finds no memory. `Changed` where the refused call changed
    /// the core, `Twice` where the second fails too, `Stopped` where the event is refused for another cause.
    fn apply(&mut self, alloc: Global, event: &Event) -> Result<(), RefusalFault> {
        match self.core.apply(copy_of(alloc, event)?) {
            Ok(()) => Ok(()),
            Err(Illegal::OutOfMemory) => {
                if !self.are_level() {
                    return Err(RefusalFault::Changed);
                }
                self.core
                    .apply(copy_of(alloc, event)?)
                    .ok()
                    .ok_or(RefusalFault::Twice)
            }
            Err(_) => Err(RefusalFault::Stopped),
        }
    }

    /// Lets an event come to `behind`, a second time where it is refused; `Twice` where the second is refused too.
    fn catch_up(&mut self, alloc: Global, event: &Event) -> Result<(), RefusalFault> {
        if self.behind.apply(copy_of(alloc, event)?).is_ok() {
            return Ok(());
        }
        self.behind
            .apply(copy_of(alloc, event)?)
            .ok()
            .ok_or(RefusalFault::Twice)
    }

    /// Lets an event come to both cores. `Unseen` where `core` looks as before it, `Changed` where both differ after
    /// it.
    fn step(&mut self, alloc: Global, event: &Event) -> Result<(), RefusalFault> {
        self.apply(alloc, event)?;
        if self.are_level() {
            return Err(RefusalFault::Unseen);
        }
        self.catch_up(alloc, event)?;
        if self.are_level() {
            Ok(())
        } else {
            Err(RefusalFault::Changed)
        }
    }

    /// Lets each event of the journal come to both cores; `Stopped` where the backfill hasn't ended then.
    fn replay(&mut self, alloc: Global) -> Result<(), RefusalFault> {
        for event in self.journal {
            self.step(alloc, event)?;
        }
        if self.core.is_ended() {
            Ok(())
        } else {
            Err(RefusalFault::Stopped)
        }
    }
}

/// Lets each event of a journal come to `core`, which has taken none, and to a second core beside it.
fn replay_to<'a>(
    alloc: Global,
    plan: &'a Plan,
    runs: &Runs,
    journal: &[Event],
    core: &mut Core<'a>,
) -> Result<(), RefusalFault> {
    let mut behind = core_again(alloc, plan, runs)?;
    let mut cores = Cores {
        journal,
        core,
        behind: &mut behind,
    };
    cores.replay(alloc)
}

/// Lets each event of a journal come to two new cores; `Stopped` where the backfill hasn't ended then.
pub(crate) fn replay(
    alloc: Global,
    plan: &Plan,
    runs: &Runs,
    journal: &[Event],
) -> Result<(), RefusalFault> {
    let mut core = core_again(alloc, plan, runs)?;
    replay_to(alloc, plan, runs, journal, &mut core)
}
