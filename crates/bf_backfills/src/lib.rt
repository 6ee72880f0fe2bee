//! The commands over graphs, from the forms of their lines to the texts that they print: `check`, `list`, `single`, `dry`, `run` and
//! `clear`.
//!
//! Each looks at its moments, reads the files that it is given in their order, and only then looks at what they hold; `clear` reads its
//! report, and `run` and `clear` open their journal, only once the graph, the table and the range are found good. What a command makes of
//! their bytes is in `bf_commands`.
#![tactic(auto)]

mod check;
mod clear;
mod clear_plan;
mod dry;
mod journaled;
mod launching;
mod list;
mod named;
mod range;
mod run;
mod single;

pub use check::answer_check;
pub use clear::answer_clear;
pub use clear_plan::answer_clear_plan;
pub use dry::answer_dry;
pub use list::answer_list;
pub use run::answer_run;
pub use single::answer_single;
