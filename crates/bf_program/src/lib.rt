//! The program below `main`: a line in, a report or a refusal out, and the exit status.
//!
//! `answer` reads the line (bf_command_line), hands it to its command (bf_backfills over graphs, bf_views over reports), and tells
//! what went wrong. `filed` puts a report into the file of `--out`. `explaining` writes what `check --explain` tells behind a refusal. The
//! contract of `answer` is the whole program's, from bytes to bytes.
#![tactic(auto)]

mod explaining;
mod filed;
mod laws;
mod program;
mod texts;

pub use explaining::explain_check;
pub use laws::{own_pages_have_no_digit, reports_are_printed_again};
pub use program::answer;
