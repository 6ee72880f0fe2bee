//! What clocks show at the moments of runs.
ghost use Rattle.std.specs.Prelude.{◌≡◌, IfOk, map, string_bytes};
ghost use Rattle.std.specs.Str.{IsAscii};
ghost use Rattle.jiff.specs.Words.{plain_zone};
ghost use Rattle.bf_moment.specs.Moment.{date_text};
ghost use Rattle.bf_interval.specs.Runs.{IsSecondTo2208};
ghost use Rattle.bf_process.specs.Clocks.{clock_in, clock_of, date_digits};
ghost use Rattle.bf_process.specs.Environment.{airflow_text};

use bf_interval::Runs;
use bf_moment::{Moment, moment_bytes};
use bf_value::OutOfMemory;
use bf_words::JobContext;
use jiff::Timestamp;
use jiff::tz::TimeZone;
use std::alloc::Global;

/// Gives what the zone's clocks show at the moment `at`, written as a moment of UTC: `at` with the zone's offset added.
fn clock_at(zone: &TimeZone<'_>, at: Timestamp) -> Moment
    requires { IsSecondTo2208 at.nanosecond }
    ensures { result.at.nanosecond ≡ clock_in (plain_zone zone.now) at.nanosecond }
{
    let second = at.as_second() + i64::from(zone.to_offset(at).seconds());
    let Ok(shown) = Timestamp::from_second(second) else {
        unreachable!();
    };
    Moment::new(shown)
}

/// Gives what the zone's clocks show at the start of each run, by date, written as moments of UTC.
pub fn clocks_of(
    alloc: Global,
    zone: &TimeZone<'_>,
    runs: &Runs,
) -> Result<Vec<Moment>, OutOfMemory>
    ensures { IfOk result (λ clocks. map (λ clock. clock.at.nanosecond) clocks.items
        ≡ map (λ run. clock_in (plain_zone zone.now) run.start.nanosecond) runs.now) }
{
    let intervals = runs.intervals();
    let mut clocks = Vec::with_capacity(alloc, intervals.len())?;
    for run in intervals {
        clocks.push(clock_at(zone, run.start))?;
    }
    Ok(clocks)
}

/// Gives the clock in `clocks` of the run with this number, from 0; where there is none, the start of the run's data
/// interval in UTC.
pub fn clock_of_run<'a>(clocks: &'a [Moment], run: u32, context: &'a JobContext<'a>) -> &'a Moment
    ensures { result.now.at.nanosecond
        ≡ clock_of (map (λ clock. clock.at.nanosecond) clocks.entry.now) run context.entry.now }
{
    match clocks.get(run as usize) {
        Some(clock) => clock,
        None => &context.data_interval_start,
    }
}

/// Makes a text of these ASCII bytes.
fn text_of_ascii(alloc: Global, bytes: &[u8]) -> Result<String, OutOfMemory>
    requires { IsAscii bytes.now }
    ensures { IfOk result (λ text. string_bytes text ≡ bytes.now) }
{
    let Ok(text) = std::str::from_utf8(bytes) else {
        unreachable!();
    };
    Ok(String::from_str(alloc, text)?)
}

/// Spells the date that a clock shows as `2024-03-04`.
#[tactic(auto, unfolding(bf_moment::specs::Moment::moment_text))]
pub(crate) fn text_of_date(alloc: Global, clock: &Moment) -> Result<String, OutOfMemory>
    ensures { IfOk result (λ text. string_bytes text ≡ date_text clock.now.at.nanosecond) }
{
    let [y, e, a, r, after_year, m, o, after_month, d, i, ..] = moment_bytes(clock.at);
    text_of_ascii(alloc, &[y, e, a, r, after_year, m, o, after_month, d, i])
}

/// Spells the date that a clock shows as `20240304`, without dashes.
#[tactic(auto, unfolding(bf_moment::specs::Moment::moment_text))]
pub(crate) fn digits_of_date(alloc: Global, clock: &Moment) -> Result<String, OutOfMemory>
    ensures { IfOk result (λ text. string_bytes text ≡ date_digits clock.now.at.nanosecond) }
{
    let [y, e, a, r, _, m, o, _, d, i, ..] = moment_bytes(clock.at);
    text_of_ascii(alloc, &[y, e, a, r, m, o, d, i])
}

/// Spells a moment as Airflow does, as `2024-03-04T06:05:09+00:00`.
#[tactic(auto, unfolding(bf_moment::specs::Moment::moment_text))]
pub(crate) fn text_for_airflow(alloc: Global, moment: &Moment) -> Result<String, OutOfMemory>
    ensures { IfOk result (λ text. string_bytes text ≡ airflow_text moment.now.at.nanosecond) }
{
    let bytes = moment_bytes(moment.at);
    let text = text_of_ascii(alloc, &bytes[..19])?;
    Ok(format!(in alloc; "{text}+00:00")?)
}
