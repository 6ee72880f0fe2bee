//! The cells of a page: for each run of a report a letter for each task, which tells its state and why it has that.
//!
//! `cells_of` writes a line for each run: both moments of its data interval, its state, a letter for each task, and for each expanded
//! task that ran a letter for each instance. The letters are bf_reason's, so they are the recursion's reasons over the report's own
//! values. The text has only characters that stand in HTML as themselves (`cells_stand_as_they_are`).
#![tactic(auto)]

mod cells;
mod laws;

pub use cells::cells_of;
pub use laws::{cells_stand_as_they_are, each_task_has_a_letter, own_letters_have_no_digit};
