//! The years that runs lie in.
ghost use Rattle.std.specs.Prelude.{◌↔◌, IsTrue};
ghost use Rattle.bf_interval.specs.Years.{IsInYears};

use jiff::Timestamp;

/// 1970-01-01T00:00:00Z in nanoseconds since itself: the first logical date that a run may have.
pub const FIRST_NANOSECOND: i128 = 0;

/// 2199-12-31T23:59:59Z in nanoseconds since 1970-01-01T00:00:00Z: the last logical date that a run may have.
pub const LAST_NANOSECOND: i128 = 7_258_118_399_000_000_000;

/// Answers whether a moment lies from 1970-01-01T00:00:00Z to 2199-12-31T23:59:59Z, both included: the years of runs,
/// which are this program's own choice.
pub fn is_in_years(at: Timestamp) -> bool
    ensures { IsTrue result ↔ IsInYears at.nanosecond }
{
    (FIRST_NANOSECOND..=LAST_NANOSECOND).contains(&at.as_nanosecond())
}
