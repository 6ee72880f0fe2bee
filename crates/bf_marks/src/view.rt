//! What is asked of a grid.
ghost use Rattle.std.specs.Prelude.{◌≡◌};
ghost use Rattle.bf_marks.specs.GridViews.{in_range, starts_from_in, starts_up_to_in};

use jiff::Timestamp;

/// What a grid is asked to show.
#[derive(Clone, Copy, Debug)]
pub struct View {
    /// The earliest start of a run to show; None for no such limit.
    pub from: Option<Timestamp>,
    /// The latest start of a run to show; None for no such limit.
    pub to: Option<Timestamp>,
    /// Whether only runs and tasks are shown in which something failed, is upstream_failed or has no status.
    pub failed: bool,
    /// The width in characters that the grid should fit into.
    pub width: u32,
    /// Whether marks are coloured.
    pub colored: bool,
}

impl View {
    /// Whether a run that starts at `start` is in the view's range: not before `from` and not after `to`, where these
    /// are given.
    pub fn has_start(&self, start: Timestamp) -> bool
        ensures { result ≡ in_range self.now start.nanosecond }
    {
        starts_from(self.from, start) && starts_up_to(self.to, start)
    }
}

/// Whether `start` isn't before `from`; true where that is None.
fn starts_from(from: Option<Timestamp>, start: Timestamp) -> bool
    ensures { result ≡ starts_from_in from start.nanosecond }
{
    match from {
        Some(from) => from.as_nanosecond() <= start.as_nanosecond(),
        None => true,
    }
}

/// Whether `start` isn't after `to`; true where that is None.
fn starts_up_to(to: Option<Timestamp>, start: Timestamp) -> bool
    ensures { result ≡ starts_up_to_in to start.nanosecond }
{
    match to {
        Some(to) => start.as_nanosecond() <= to.as_nanosecond(),
        None => true,
    }
}
