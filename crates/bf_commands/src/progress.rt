//! Backfills whose progress is told.

use bf_core::{Core, Event};
use bf_exec::Observer;
use bf_progress::{Progress, Screen};
use std::sync::Wait;
use std::time::Clock;

/// An observer that hands each event of a backfill to `progress` and shows nothing itself.
#[derive(Drop)]
pub(crate) struct Noting<'a, 'm, RT> {
    pub(crate) progress: &'a Progress<'m, RT>,
}

impl<'a, 'm, RT: Screen + Wait + Clock> Observer for Noting<'a, 'm, RT> {
    ghost shows = { λ _ _ _ _. Unit {0} };

    /// Hands an event to `progress`, with how many tries are `running`.
    fn on_event(&mut self, event: &Event, core: &Core<'_>, running: u32) {
        self.progress.note_event(event, core, running);
    }
}
