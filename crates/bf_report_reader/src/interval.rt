//! What the line of a run says.
ghost use Rattle.std.specs.Prelude.{◌≡◌, IfSome};
ghost use Rattle.bf_report.specs.Report.{run_state_word_of};
ghost use Rattle.bf_report_reader.specs.inner.Reads.{Spells, Finds};
ghost use Rattle.bf_report_reader.specs.Runs.{IsReportMoment};
ghost use Rattle.bf_report_reader.specs.inner.Runs.{spelled_moment, IsRunWords, run_words};

use crate::field::split_field;
use bf_interval::{FIRST_NANOSECOND, Interval, is_in_years};
use bf_moment::moment_in;
use bf_xcom::RunState;
use jiff::Timestamp;

/// The last moment that a report may name, the last second of 2208, in nanoseconds since 1970; no data interval ends
/// later.
const LAST_END_NANOSECOND: i128 = 7_542_115_199_000_000_000;

/// How many bytes a moment such as `2024-01-31T06:05:09Z` has.
const MOMENT_LEN: usize = 20;

/// Reads a UTC moment spelled as `2024-01-31T06:05:09Z`, from 1970 to the end of 2208; None for any other text.
fn report_moment_in(text: &[u8]) -> Option<Timestamp>
    ensures some { IfSome result (Spells IsReportMoment spelled_moment text.now) }
    ensures every { Finds (Spells IsReportMoment spelled_moment text.now) result }
{
    let Ok(text) = std::str::from_utf8(text) else {
        return None;
    };
    if text.len() != MOMENT_LEN {
        return None;
    }
    let moment = moment_in(text)?;
    if !(FIRST_NANOSECOND..=LAST_END_NANOSECOND).contains(&moment.as_nanosecond()) {
        return None;
    }
    Some(moment)
}

/// Reads the state of a run, `success` or `failed`; None for any other word.
fn run_state_in(text: &[u8]) -> Option<RunState>
    ensures some { IfSome result (λ state. text.now ≡ run_state_word_of state) }
    ensures every { Finds (λ state. text.now ≡ run_state_word_of state) result }
{
    if text == b"success".as_slice() {
        Some(RunState::Success)
    } else if text == b"failed".as_slice() {
        Some(RunState::Failed)
    } else {
        None
    }
}

/// Reads the data interval and the state of a run from what follows `@run ` on its line; None where they are malformed,
/// the start is after the end, or the start isn't in the years of runs.
pub(crate) fn interval_and_state_in(text: &[u8]) -> Option<(Interval, RunState)>
    ensures some { IfSome result (Spells IsRunWords run_words text.now) }
    ensures every { Finds (Spells IsRunWords run_words text.now) result }
{
    let (start, rest) = split_field(text)?;
    let (end, state) = split_field(rest)?;
    let (start, end) = (report_moment_in(start)?, report_moment_in(end)?);
    let state = run_state_in(state)?;
    if start > end || !is_in_years(start) {
        return None;
    }
    Some((Interval { start, end }, state))
}
