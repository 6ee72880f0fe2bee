//! What a grid of a report is put together from: a row for each task, a column for each run or for several.
//!
//! A `Tally` says how many instances came to each state, a `Mark` what a task in a run came to, as one letter, maybe in a colour:
//!
//! ```text
//! . success  : a success behind failed tries  F failed  u upstream_failed  n no_status  s skipped
//! ```
//!
//! Of several runs in a column the worst is shown, by the order F, u, n, :, ., s. `tasks_in_order` has the tasks topologically and depth
//! first. A `Scale` says what stands above the columns, `Widths` how wide the sums behind them are, both in characters. A `View` is what is
//! asked of a grid. Texts are bytes of ASCII, to which each function adds; want of memory is an `OutOfMemory`.
#![tactic(auto)]

mod label;
mod laws;
mod mark;
mod phrases;
mod row_order;
mod tally;
mod view;
mod widths;

pub use label::{
    Scale, push_digits, push_groups, push_left_aligned, push_right_aligned, push_spaces,
};
pub use laws::{each_task_has_a_row, no_row_stands_twice, rows_stand_behind_their_upstreams};
pub use mark::{Mark, mark_in, push_marks, push_painted};
pub use phrases::{push, push_counted_noun, push_listed_moments, push_moment, push_number};
pub use row_order::tasks_in_order;
pub use tally::{Tally, run_tally, tally_at, tally_in, tally_of_run_states, tally_of_shown_states};
pub use view::View;
pub use widths::{Widths, column_count_of, push_cut_name};
