//! Clearing tasks of a backfill that has ended, by its report: which tries are kept, and the law that all that isn't cleared
//! stays as it was.
//!
//! No value is copied out of a report. One of a graph that had another shape, or of other runs, is first put into the shape of the
//! plan and its runs, by ids and data intervals; to clear in a report takes one of this plan and these runs. What is kept of it is
//! looked up when a ticket comes: where the report tells of such a try, its task in the run isn't cleared, and its outcome is one
//! that the plan allows, then it is answered so that it ends as it did.
#![tactic(auto)]

mod aligning;
mod cleared;
mod clearing;
mod failing;
mod given;
mod laws;
mod lookups;
mod matching;
mod tries;

pub use cleared::Cleared;
pub use clearing::{clear_places, clear_places_by_ids};
pub use failing::failed_places;
pub use given::value_of;
pub use laws::{
    kept_reports_tell_ledgers, own_reports_match, reports_match_by_equations, reports_tell_ledgers,
    resumed_backfills_keep_the_rest,
};
pub use matching::is_report_of;
