//! Which minutes a schedule has.
ghost use Rattle.std.specs.Prelude.{◌≡◌, ◌<◌, ◌==◌, ◌+◌, ◌%◌};
ghost use Rattle.jiff.specs.Words.{weekday_of};
ghost use Rattle.bf_cron.specs.Cron.{Schedule, IsRead, Keeps, matches, has_number, spec_on_weekday, spec_on_day, spec_has_date, spec_matches, schedule_of};

use crate::reading;
use crate::spec::{CronFault, CronSpec};
use jiff::civil::{Date, DateTime};
use std::alloc::Global;

/// Answers whether `word`, a set of numbers below 64 with one bit each, has this number.
fn is_bit_set(word: u64, number: u8) -> bool
    requires { number < 64 }
    ensures { result ≡ has_number word number }
{
    (word >> number) & 1 == 1
}

/// Gives the day of the month of a date, from 1.
fn day_number(date: Date) -> u8
    ensures value { result ≡ date.day }
    ensures bound { result < 32 }
{
    date.day() as u8
}

/// Gives the month of a date, from 1.
fn month_number(date: Date) -> u8
    ensures value { result ≡ date.month }
    ensures bound { result < 13 }
{
    date.month() as u8
}

/// Gives the weekday of a date, 0 for Sunday to 6 for Saturday.
fn weekday_number(date: Date) -> u8
    ensures { result ≡ (weekday_of date + 1) % 7 }
{
    date.weekday().to_sunday_zero_offset() as u8
}

/// The hour of a civil time.
fn hour_number(at: DateTime) -> u8
    ensures { result ≡ at.time.hour }
{
    at.hour() as u8
}

/// The minute of a civil time.
fn minute_number(at: DateTime) -> u8
    ensures { result ≡ at.time.minute }
{
    at.minute() as u8
}

impl CronSpec {
    /// Reads a schedule from a text: five fields, or a preset (the crate's page gives the form). `Bad` where the text
    /// is neither, `OutOfMemory` at want of memory.
    pub fn read(alloc: Global, text: &str) -> Result<CronSpec, CronFault>
        ensures { IsRead (schedule_of text.now) result }
    {
        let text = reading::expand_preset(text);
        let fields = reading::split_fields(alloc, text.as_bytes())?;
        let [minute, hour, day, month, weekday] = fields.as_slice() else {
            return Err(CronFault::Bad);
        };
        reading::spec_of_fields(minute, hour, day, month, weekday).ok_or(CronFault::Bad)
    }

    /// Answers whether the schedule's weekday field has this weekday, 0 for Sunday, which the field may also call 7.
    fn has_weekday(&self, weekday: u8) -> bool
        requires { weekday < 7 }
        ensures { result ≡ spec_on_weekday self.now weekday }
    {
        is_bit_set(self.weekdays, weekday) || weekday == 0 && is_bit_set(self.weekdays, 7)
    }

    /// Answers whether the schedule has a day of the month that falls on this weekday, 0 for Sunday. Where both fields
    /// are restricted, not `*`, either suffices; else both must match (crontab(5)).
    fn has_day_of_month(&self, day: u8, weekday: u8) -> bool
        requires day { day < 32 }
        requires weekday { weekday < 7 }
        ensures { result ≡ spec_on_day self.now day weekday }
    {
        let (on_day, on_weekday) = (is_bit_set(self.days, day), self.has_weekday(weekday));
        if !self.any_day && !self.any_weekday {
            on_day || on_weekday
        } else {
            on_day && on_weekday
        }
    }

    /// Answers whether the schedule's hour field has this hour.
    pub fn has_hour(&self, hour: u8) -> bool
        requires { hour < 24 }
        ensures { result ≡ has_number self.now.hours hour }
    {
        is_bit_set(self.hours, hour)
    }

    /// Answers whether the schedule's minute field has this minute.
    pub fn has_minute(&self, minute: u8) -> bool
        requires { minute < 60 }
        ensures { result ≡ has_number self.now.minutes minute }
    {
        is_bit_set(self.minutes, minute)
    }
}

/// What is, or holds, a schedule.
pub trait Scheduled {
    ghost use Rattle.bf_cron.specs.declared.spec.CronSpec.{CronSpec};

    ghost spec: { Self → CronSpec };

    /// Gives the schedule.
    fn schedule(&self) -> &CronSpec
        ensures { result.now ≡ spec self.now };
}

impl Scheduled for CronSpec {
    ghost spec = { λ s. s };

    /// Gives this schedule itself.
    fn schedule(&self) -> &CronSpec {
        self
    }
}

/// Which dates and civil minutes a schedule has. It is implemented for every `Scheduled` type and for none by name, so
/// that a crate that only holds a schedule has no calendar in its interface.
pub trait Matches: Scheduled {
    /// Answers whether the schedule has this date. Where day and weekday are both restricted either suffices, else both
    /// must match (crontab(5)).
    fn has_date(&self, date: Date) -> bool
        ensures { result ≡ spec_has_date (Self.spec self.now) date };

    /// Answers whether the schedule has this civil minute; seconds don't count.
    fn matches(&self, at: DateTime) -> bool
        ensures value { result ≡ spec_matches (Self.spec self.now) at }
        ensures rule { (s : Schedule) → Keeps (Self.spec self.now) s
            → spec_matches (Self.spec self.now) at ≡ matches s at };
}

impl<S: Scheduled> Matches for S {
    /// Answers whether the schedule has this date, as `schedule_has_date` does.
    fn has_date(&self, date: Date) -> bool {
        schedule_has_date(self.schedule(), date)
    }

    /// Answers whether the schedule has this civil minute, as `schedule_matches` does.
    fn matches(&self, at: DateTime) -> bool {
        schedule_matches(self.schedule(), at)
    }
}

/// Answers whether a schedule has this date: its month and its day, where day and weekday join as in
/// `has_day_of_month`.
fn schedule_has_date(spec: &CronSpec, date: Date) -> bool
    ensures { result ≡ spec_has_date spec.now date }
{
    if !is_bit_set(spec.months, month_number(date)) {
        return false;
    }
    spec.has_day_of_month(day_number(date), weekday_number(date))
}

/// Answers whether a schedule has a civil time's minute, hour and date; seconds don't count.
fn schedule_matches(spec: &CronSpec, at: DateTime) -> bool
    ensures value { result ≡ spec_matches spec.now at }
    ensures rule { (s : Schedule) → Keeps spec.now s → spec_matches spec.now at ≡ matches s at }
{
    spec.has_minute(minute_number(at))
        && spec.has_hour(hour_number(at))
        && schedule_has_date(spec, at.date())
}
