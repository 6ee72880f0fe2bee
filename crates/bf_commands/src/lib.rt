//! What each command makes of the bytes of its files, of moments, and of the programs that it starts, and what it writes.
//!
//! A command is in the file of its name. `single`, `dry`, `run` and `clear` go one way: a `Crew` (the machine, its workers, and what is
//! told beside) goes on from tries that are kept, none, a report's or a journal's, by `write_backfill` to the report. With a
//! journal the way leads through `record_backfill`, which records each try before the scheduler hears of it.
#![tactic(auto)]

mod backfill;
mod clear;
mod clear_plan;
mod cleared;
mod crew;
mod dry;
mod heading;
mod journal;
mod journaled;
mod laws;
mod programs;
mod progress;
mod recorded;
mod reported;
mod restarting;
mod run;
mod single;
mod stop;
mod stopping_clock;
mod telling;

pub use bf_progress::Screen;
pub use clear::{
    Clearing, Prepared, clear_in_report, prepare_backfill, record_resumed_report,
    write_resumed_report,
};
pub use clear_plan::write_clear_plan;
pub use cleared::ToClear;
pub use crew::{Crew, Tells};
pub use dry::run_dry;
pub use journal::Journal;
pub use journaled::Recorded;
pub use laws::{
    crashes_change_no_report, dry_reports_are_unique, listings_are_unique, reports_are_unique,
    single_reports_are_unique,
};
pub use run::{record_programs, run_programs};
pub use single::run_single;
