//! The moments from and up to which runs are shown.
ghost use Rattle.std.specs.Prelude.{◌≡◌, true, false, IfOk, IfErr, OnOk};
ghost use Rattle.bf_views.specs.Bounds.{HasNoBound, IsNoMomentIfGiven, MeansBounds, MeansIfGiven, is_reversed_in};

use bf_command_fault::{CommandFault, RangeFault};
use bf_command_line::ShowAsked;
use bf_input::moment_of;
use bf_interval::IntervalFault;
use jiff::Timestamp;

/// The first and the last moment at which a run that is shown may start; None for no bound.
#[derive(Clone, Copy, Debug)]
pub(crate) struct Bounds {
    pub(crate) from: Option<Timestamp>,
    pub(crate) to: Option<Timestamp>,
}

/// Reads the moment in a text; None where there is no text. `Err(BadMoment)` where the text is no moment.
fn optional_moment(text: &Option<String>) -> Result<Option<Timestamp>, CommandFault>
    ensures means { IfOk result (MeansIfGiven text.now) }
    ensures bad { IfErr result (λ f. (f ≡ CommandFault.BadMoment) × IsNoMomentIfGiven text.now) }
{
    match text {
        Some(text) => {
            let moment = moment_of(text.as_str())?;
            Ok(Some(moment))
        }
        None => Ok(None),
    }
}

impl Bounds {
    /// Reads the bounds that `show` asks for. `Err(BadMoment)` where one of them is no moment.
    pub(crate) fn of(asked: &ShowAsked) -> Result<Bounds, CommandFault>
        ensures means { IfOk result (MeansBounds asked.now) }
        ensures bad { IfErr result (λ f. (f ≡ CommandFault.BadMoment) × HasNoBound asked.now) }
    {
        let from = optional_moment(&asked.from)?;
        let to = optional_moment(&asked.to)?;
        Ok(Bounds { from, to })
    }

    /// Whether the last moment is before the first; false where one of them isn't given.
    fn is_reversed(&self) -> bool
        ensures { result ≡ is_reversed_in self.now }
    {
        match (self.from, self.to) {
            (Some(from), Some(to)) => to.as_nanosecond() < from.as_nanosecond(),
            _ => false,
        }
    }

    /// Checks that the last moment isn't before the first; passes where one of them isn't given. `Err` with
    /// `RangeReversed` where it is.
    pub(crate) fn refuse_reversed(&self) -> Result<(), CommandFault>
        ensures ok { OnOk result (is_reversed_in self.now ≡ false) }
        ensures err { IfErr result (λ f.
            (f ≡ CommandFault.Range (RangeFault.Unlisted IntervalFault.RangeReversed))
            × (is_reversed_in self.now ≡ true)) }
    {
        if self.is_reversed() {
            return Err(CommandFault::Range(RangeFault::Unlisted(IntervalFault::RangeReversed)));
        }
        Ok(())
    }
}
