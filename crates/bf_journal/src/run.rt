//! Runs, found by the text of their start.
ghost use Rattle.std.specs.Prelude.{◌≡◌, ◌↔◌, IsTrue, IfSome, option_copied, slice_get};
ghost use Rattle.bf_interval.specs.Intervals.{IsShownInterval};
ghost use Rattle.bf_journal.specs.inner.Tells.{IsFound, StartsAt, StartsOn};

use bf_interval::{Interval, Runs};
use bf_moment::{moment_bytes, moment_in};
use jiff::Timestamp;

/// Gives the data interval of the run with this number, from 0; None where there is no such run.
pub(crate) fn interval_of_run(runs: &Runs, run: u32) -> Option<&Interval>
    ensures run { option_copied result ≡ slice_get runs.now run }
    ensures shown { IfSome (option_copied result) IsShownInterval }
{
    runs.intervals().get(run as usize)
}

/// Answers whether `text` spells the run's start, in the form `2024-01-31T06:05:09Z`; false for None.
fn starts_at(run: Option<&Interval>, text: &str) -> bool
    requires { IfSome (option_copied run) IsShownInterval }
    ensures { IsTrue result ↔ StartsAt (option_copied run.entry) text.now }
{
    match run {
        Some(run) => moment_bytes(run.start).as_slice() == text.as_bytes(),
        None => false,
    }
}

/// Finds the run that starts at this moment, by its number from 0; None where none does.
fn run_at(runs: &Runs, moment: Timestamp) -> Option<u32>
    ensures { IsFound (λ k. StartsOn (slice_get runs.now k) moment.nanosecond) result }
{
    let key = moment.as_nanosecond();
    match runs
        .intervals()
        .binary_search_by_key(&key, |run| run.start.as_nanosecond())
    {
        Ok(at) => Some(at as u32),
        Err(_) => None,
    }
}

/// Finds the run whose start `text` spells, in the form `2024-01-31T06:05:09Z`, by its number from 0; None where there
/// is none.
pub(crate) fn run_in(runs: &Runs, text: &str) -> Option<u32>
    ensures { IsFound (λ k. StartsAt (slice_get runs.now k) text.now) result }
{
    let _intervals = runs.intervals();
    let moment = moment_in(text)?;
    let run = run_at(runs, moment)?;
    if starts_at(interval_of_run(runs, run), text) {
        Some(run)
    } else {
        None
    }
}
