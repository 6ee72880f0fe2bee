//! A report as a grid of characters, a column for each run or for several and a row for each task:
//!
//! ```text
//!          2024-03
//!          000
//!          456   . F u
//! run      .F.   2 1
//! extract  ...   3
//! total    .F.   2 1
//! publish  .u.   2   1
//! ```
//!
//! Above it stands what there is and what of that is shown, below it what the marks mean and which tasks failed themselves.
//! `write_grid` writes just `grid_text` of a view, a graph and a report. The parts of a grid are those of `bf_marks`.
#![tactic(auto)]

mod failed_tasks;
mod grid;
mod grid_table;
mod legend;
mod row;
mod selection;
mod summary;

pub use grid::write_grid;
