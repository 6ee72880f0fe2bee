//! The data intervals of a schedule in a time zone.
//!
//! A schedule fires at the instants to which the zone puts the civil minutes that it matches, those of the
//! dates 1969-12-30 to 2208-12-31. Where the clock jumps over a minute, it is moved forward by the jump;
//! where the clock shows it twice, the earlier is taken. So `30 2 * * *` also fires once on the days on
//! which daylight saving time begins and ends. A data interval is a fire with the next one, and a range has
//! those that start in it.
//!
//! `intervals` lists them. It looks only at the minutes from two days before the range up to the first fire
//! after it, and at those that can give a fire before that one: no clock is as far as two days from UTC.
//! `Runs` are the intervals of a backfill: those of a range, or the one of a moment.
#![tactic(auto)]

mod fault;
mod fires;
mod interval;
mod laws;
mod listing;
mod rising;
mod runs;
mod years;

pub use fault::IntervalFault;
pub use interval::Interval;
pub use laws::{answer_is_unique, intervals_end_by_2208, intervals_meet, listing_is_unique};
pub use listing::{MOST_RUNS, intervals};
pub use runs::Runs;
pub use years::{FIRST_NANOSECOND, LAST_NANOSECOND, is_in_years};
