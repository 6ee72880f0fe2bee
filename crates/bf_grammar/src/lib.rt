//! The command line's grammar, as `clap` is told it: the commands, their arguments and options, and
//! what their help says. bf_command_line reads what `clap` finds by it. The whole is one definition,
//! `backfill_app`, of which each command is a row of rules.
#![tactic(auto)]

mod argument;
mod command;
mod draft;
mod refusal;
mod shown_argument;
mod viewing;

pub use command::backfill_command;
pub use refusal::refusal_of;
