//! Schedules in the form of crontab(5).
//!
//! A schedule is five fields between spaces and tabs: minute (0 to 59), hour (0 to 23), day of the month (1 to 31),
//! month (1 to 12) and weekday (0 to 7, where 0 and 7 are Sunday). A field is items joined by `,`, each of them `*`,
//! `*/n`, `a`, `a-b` or `a-b/n`: every number of the field, or those from `a` to `b`, by steps of `n` from the least.
//! Numbers have one or two digits, and `n` is 1 to 59. In month and weekday a name of three letters, in any letter
//! case, stands for its number. In place of the fields a text can be one of Airflow's presets (`@hourly`, `@daily`,
//! `@weekly`, `@monthly`, `@quarterly`, `@yearly`).
//!
//! A field is unrestricted where its text is exactly `*`, and so `*/1` is restricted. Where day and weekday are both
//! restricted either of them suffices; else every field must match.
//!
//! `CronSpec::read` reads a text, `matches` says which civil minutes it has, and `never_fires` whether it has none.
//! `bad_field` tells which field of a text can't be read.
#![tactic(auto)]

mod field;
mod item;
mod laws;
mod matching;
mod minutes;
mod numbers;
mod reading;
mod spec;
mod wrong_field;

pub use field::Field;
pub use item::Item;
pub use laws::{fires_in_each_leap_year, items_are_read_as_written, schedules_are_read_as_written};
pub use matching::{Matches, Scheduled};
pub use minutes::{DATES, date_of, minute_of};
pub use spec::{CronFault, CronSpec};
pub use wrong_field::bad_field;
