//! What holds of the definitions.
ghost use Rattle.std.specs.Prelude.{◌≡◌, ◌≢◌, ◌+◌, ◌≤◌, ℕ, ℤ, List, All, Some, slice_get, Result, Ok, Err};
ghost use Rattle.jiff.specs.Types.{TimeZone};
ghost use Rattle.bf_cron.specs.declared.spec.CronSpec.{CronSpec};
ghost use Rattle.bf_cron.specs.Cron.{IsRead, schedule_of};
ghost use Rattle.bf_interval.specs.Intervals.{AreIntervals, IsAnswer, IsRange};
ghost use Rattle.bf_interval.specs.Runs.{IsOfRun};
ghost use Rattle.bf_interval.specs.declared.interval.Interval.{Interval};
ghost use Rattle.bf_interval.specs.declared.fault.IntervalFault.{IntervalFault};
ghost use Rattle.bf_interval.specs.declared.fault.IntervalFault.TheVariants.{OutOfMemory};

/// A law: a range has one listing.
pub fn listing_is_unique()
    ensures { (spec : CronSpec) (zone : TimeZone) (from to : ℤ) (xs ys : List Interval)
        → AreIntervals spec zone from to xs → AreIntervals spec zone from to ys → xs ≡ ys }
{}

/// A law: a range has one answer, want of memory aside.
pub fn answer_is_unique()
    ensures { (spec : CronSpec) (zone : TimeZone) (from to : ℤ)
        (x y : Result (List Interval) IntervalFault)
        → IsAnswer spec zone from to x → IsAnswer spec zone from to y
        → x ≢ Err OutOfMemory → y ≢ Err OutOfMemory → x ≡ y }
{}

/// A law: the data intervals of a listing leave no time out; each ends where the next one starts.
pub fn intervals_meet()
    ensures { (spec : CronSpec) (zone : TimeZone) (from to : ℤ) (found : List Interval)
        (k : ℕ) (a b : Interval) → AreIntervals spec zone from to found
        → slice_get found k ≡ Some a → slice_get found (k + 1) ≡ Some b → a.end ≡ b.start }
{}

/// A law: each data interval of a schedule that a text says, and whose start lies in the years, ends by
/// 2208-12-31T23:59:59Z, and its moments are whole seconds. This doesn't follow from the civil minutes alone: their
/// last one is 23:59 of 2208-12-31, which the zone `-23:59` puts at 2209-01-01T23:58Z. It follows since the schedule
/// fires in 2204.
pub fn intervals_end_by_2208()
    ensures { (text : List ℕ) (spec : CronSpec) → IsRead (schedule_of text) (Ok spec) →
        (zone : TimeZone) (from to : ℤ) → IsRange from to → (found : List Interval) →
        AreIntervals spec zone from to found → All IsOfRun found }
{}
