//! The clock of a backfill, and who is shown its events.
use bf_core::{Core, Event};

/// Watches a backfill: it is shown each event once that has come. What comes of the backfill doesn't depend on it.
pub trait Observer {
    ghost use Rattle.std.specs.Prelude.{ℕ};
    ghost use Rattle.bf_core.specs.declared.event.Event.{Event};

    /// What it may become when it is shown an event, while so many tries run.
    ghost shows: { Self → Event → ℕ → Self → Type 0 };

    /// Is shown an event that has come to the backfill, and how many tries run now.
    fn on_event(&mut self, event: &Event, core: &Core<'_>, running: u32)
        ensures { shows self.old event.now running self.new };
}

/// An observer that may be missing.
impl<O: Observer> Observer for Option<O> {
    ghost use Rattle.bf_exec.specs.Shown.{IsShownTo};

    ghost shows = { IsShownTo O.shows };

    /// Shows the observer the event, if there is an observer.
    fn on_event(&mut self, event: &Event, core: &Core<'_>, running: u32) {
        if let Some(observer) = self {
            observer.on_event(event, core, running);
        }
    }
}

/// An observer that does nothing.
#[derive(Clone, Copy, Debug, Drop)]
pub struct Silent;

impl Observer for Silent {
    ghost shows = { λ _ _ _ _. Unit {0} };

    /// Does nothing.
    fn on_event(&mut self, _event: &Event, _core: &Core<'_>, _running: u32) {}
}

/// A clock, and an observer.
#[derive(Drop)]
pub struct Watch<C, O> {
    pub clock: C,
    pub observer: O,
}
