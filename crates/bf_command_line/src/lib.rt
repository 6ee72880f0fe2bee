//! What the words of a command line ask for. bf_grammar says which words there are, and `clap` takes
//! them apart; what it finds is read here into one form for each command, and what it can't look at
//! is refused in its manner: a range that is told twice or not at all, options that need another,
//! words that aren't among the few that are possible.
#![tactic(auto)]

mod choice;
mod clearing;
mod forms;
mod naming;
mod programs;
mod range;
mod reading;
mod refusal;
mod run_and_dry;
mod showing;
mod value;
mod viewing;

pub use forms::{
    Asked, CheckAsked, ClearAsked, ClearPlanAsked, ClearedAsked, Color, CommandLine, DryAsked,
    ExplainAsked, Format, GraphAsked, JournalAsked, ListAsked, PageAsked, RangeAsked, RunAsked,
    SeedAsked, Shell, ShowAsked, SingleAsked, StartsAsked, TaskAsked,
};
pub use naming::overwriting_error_of;
pub use reading::asked;
