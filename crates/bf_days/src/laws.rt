//! What holds of the definitions. This function does nothing: its contract is the law.
ghost use Rattle.std.specs.Prelude.{◌≡◌, List};
ghost use Rattle.jiff.specs.Types.{TimeZone};
ghost use Rattle.bf_cron.specs.declared.spec.CronSpec.{CronSpec};
ghost use Rattle.bf_interval.specs.declared.interval.Interval.{Interval};
ghost use Rattle.bf_days.specs.Listing.{AreIntervalsOn};
ghost use Rattle.bf_days.specs.declared.days.Days.{Days};

/// A law: a schedule in a zone has one listing of the same days.
pub fn listing_is_unique()
    ensures { (spec : CronSpec) (zone : TimeZone) (days : Days) (xs ys : List Interval)
        → AreIntervalsOn spec zone days xs → AreIntervalsOn spec zone days ys → xs ≡ ys }
{}
