//! Tries run as programs of the system.
//!
//! - **A program** is the words of a try's command, started by `ProcessRunner` in the thread that calls it, without a shell;
//!   behind a launcher, where there is one. A command without words starts nothing and answers code 0 with an empty line.
//! - **Its environment** is this process's with the variables of its try, which `Variable` lists, and none of another try's. Its
//!   standard input is empty.
//! - **Its output** is read by `line_of`, at most 1,048,576 bytes of it; then the pipe is closed, unless there are logs, for
//!   which it is read to the end. The program is waited for, want of memory or not. What it has started may hold its output open: the try ends when the last of them closes it.
//! - **Its logs**, where there is a folder for them, are all that it writes to its standard output and its standard error, and
//!   what its try was given. They are made anew, and no link is followed. Without a folder its standard error is the runner's.
//!
//! Between the runner and the machine stands the trait `Starter`, whose form here is the machine. Its relations say what may
//! be heard of the words that it is handed; so a runner's contract says which words are started for a try.
#![tactic(auto)]

mod clocks;
mod given;
mod heard;
mod launching;
mod line;
mod log_faults;
mod logs;
mod program;
mod runner;
mod setting;
mod starter;
mod tee;
mod variable;

pub use clocks::{clock_of_run, clocks_of};
pub use heard::Heard;
pub use launching::Launching;
pub use line::line_of;
pub use log_faults::LogFaults;
pub use runner::ProcessRunner;
pub use setting::{Setting, TryLogs};
pub use starter::Starter;
pub use variable::Variable;
