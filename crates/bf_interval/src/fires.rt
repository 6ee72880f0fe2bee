//! The search for fires. They are kept as seconds since 1970-01-01T00:00:00Z.
ghost use Rattle.std.specs.Prelude.{◌≡◌, ℕ, ◌+◌, ◌*◌, ◌<◌, ◌≤◌, pos, ◌<ℤ◌, MatchOption, OnOk, IfSome, IfNone, IfOk};
ghost use Rattle.std.specs.List.Sorted.{IsStrictlyIncreasing};
ghost use Rattle.jiff.specs.Words.{picked_instant, plain_zone};
ghost use Rattle.bf_cron.specs.Minutes.{IsMinute, minutes};
ghost use Rattle.bf_cron.specs.inner.Minutes.{IsCivilMinute};
ghost use Rattle.bf_interval.specs.inner.Search.{seconds, Collects, AreFirst, AreEnough, IsSettled};

use crate::listing::MOST_RUNS;
use crate::rising::{insert_in_order, place_above};
use bf_cron::{CronSpec, DATES, Matches, date_of, minute_of};
use jiff::civil::DateTime;
use jiff::tz::TimeZone;
use std::alloc::{AllocError, Global};

/// A day, in seconds.
const DAY: u64 = 86_400;

/// How many days before 1970-01-01 the search begins, at 1969-12-30.
const DAYS_BEFORE_1970: u64 = 2;

/// The furthest that a clock is from UTC, in seconds: 25:59:59, the greatest offset that `jiff` has.
const GREATEST_OFFSET: u64 = 93_599;

/// Gives the civil time `minute` minutes after 1969-12-30T00:00.
fn civil_minute(minute: u64) -> DateTime
    requires { minute < minutes }
    ensures { IsMinute minute result }
{
    minute_of(date_of(minute / 1_440), (minute % 1_440) as u16)
}

/// Gives the second since 1970 to which the zone puts a civil minute; None where that is before 1970.
fn second_of_civil_minute(zone: &TimeZone<'_>, at: DateTime) -> Option<u64>
    requires { IsCivilMinute at }
    ensures { MatchOption result (picked_instant (plain_zone zone.now) at <ℤ pos 0)
        (λ k. picked_instant (plain_zone zone.now) at ≡ seconds k) }
{
    let Ok(instant) = zone.to_timestamp(at) else {
        unreachable!();
    };
    let second = instant.as_second();
    if second < 0 {
        None
    } else {
        Some(second as u64)
    }
}

/// Adds to `found`, in order, the fire of the civil time `minute` minutes after 1969-12-30T00:00. Adds nothing where
/// the schedule doesn't have that time, or the zone puts it before the second `from` since 1970.
fn push_fire_of_minute(
    found: &mut Vec<u64>,
    spec: &CronSpec,
    zone: &TimeZone<'_>,
    minute: u64,
    from: u64,
) -> Result<(), AllocError>
    requires minute { minute < minutes }
    requires rising { IsStrictlyIncreasing found.old.items }
    ensures rising { IsStrictlyIncreasing found.new.items }
    ensures ok { OnOk result ((low : ℕ) → low ≤ minute
        → Collects spec.now (plain_zone zone.now) low minute from found.old.items
        → Collects spec.now (plain_zone zone.now) low (minute + 1) from found.new.items) }
{
    // Most minutes are left here, before their date is worked out.
    if !spec.has_minute((minute % 60) as u8) {
        return Ok(());
    }
    let at = civil_minute(minute);
    if !spec.matches(at) {
        return Ok(());
    }
    match second_of_civil_minute(zone, at) {
        Some(second) if second >= from => insert_in_order(found, second),
        _ => Ok(()),
    }
}

/// Adds to `found`, in order, the fires of the civil hour `hour` hours after 1969-12-30T00:00, without those before the
/// second `from` since 1970.
fn push_fires_of_hour(
    found: &mut Vec<u64>,
    spec: &CronSpec,
    zone: &TimeZone<'_>,
    hour: u64,
    from: u64,
) -> Result<(), AllocError>
    requires hour { hour * 60 + 60 ≤ minutes }
    requires rising { IsStrictlyIncreasing found.old.items }
    ensures rising { IsStrictlyIncreasing found.new.items }
    ensures ok { OnOk result ((low : ℕ) → low ≤ hour * 60
        → Collects spec.now (plain_zone zone.now) low (hour * 60) from found.old.items
        → Collects spec.now (plain_zone zone.now) low (hour * 60 + 60) from found.new.items) }
{
    for minute in hour * 60..hour * 60 + 60 {
        push_fire_of_minute(found, spec, zone, minute, from)?;
    }
    Ok(())
}

/// Adds to `found`, in order, the fires of the date `day` days after 1969-12-30, without those before the second `from`
/// since 1970.
fn push_fires_of_day(
    found: &mut Vec<u64>,
    spec: &CronSpec,
    zone: &TimeZone<'_>,
    day: u64,
    from: u64,
) -> Result<(), AllocError>
    requires day { day * 1_440 + 1_440 ≤ minutes }
    requires rising { IsStrictlyIncreasing found.old.items }
    ensures rising { IsStrictlyIncreasing found.new.items }
    ensures ok { OnOk result ((low : ℕ) → low ≤ day * 1_440
        → Collects spec.now (plain_zone zone.now) low (day * 1_440) from found.old.items
        → Collects spec.now (plain_zone zone.now) low (day * 1_440 + 1_440) from found.new.items) }
{
    for hour in day * 24..day * 24 + 24 {
        if spec.has_hour((hour % 24) as u8) {
            push_fires_of_hour(found, spec, zone, hour, from)?;
        }
    }
    Ok(())
}

/// Counts the first of the fires `found`, those on dates before `day`, that suffice: up to the first after the second
/// `to`, or `MOST_RUNS` + 2. None where they don't suffice, or a later date might still give an earlier fire.
fn settled_fire_count(found: &[u64], to: u64, day: u64) -> Option<usize>
    requires rising { IsStrictlyIncreasing found.now }
    requires day { day < 87_295 }
    ensures some { IfSome result (IsSettled found.now to day) }
    ensures none { IfNone result ((n : ℕ) → IsSettled found.now to day n → ⊥) }
{
    let earliest = (day * DAY).checked_sub(DAYS_BEFORE_1970 * DAY + GREATEST_OFFSET)?;
    let last = place_above(found, to).min(MOST_RUNS + 1);
    if last < found.len() && found[last] < earliest {
        return Some(last + 1);
    }
    None
}

/// Finds the first fires from the second `from` on, in seconds since 1970 and in order: up to the first after `to`, or
/// two more than `MOST_RUNS`, or all where there are fewer.
pub(crate) fn first_fires(
    alloc: Global,
    spec: &CronSpec,
    zone: &TimeZone<'_>,
    from: u64,
    to: u64,
) -> Result<Vec<u64>, AllocError>
    requires { from < 87_295 * 86_400 }
    ensures first { IfOk result (λ v. AreFirst spec.now (plain_zone zone.now) from v.items) }
    ensures enough { IfOk result (λ v. AreEnough spec.now (plain_zone zone.now) from to v.items) }
{
    let mut found = Vec::new(alloc);
    // This begins two dates before that of `from`, and no clock is two days behind UTC.
    for day in from / DAY..DATES {
        if let Some(count) = settled_fire_count(&found, to, day) {
            found.truncate(count);
            return Ok(found);
        }
        if spec.has_date(date_of(day)) {
            push_fires_of_day(&mut found, spec, zone, day, from)?;
        }
    }
    Ok(found)
}
