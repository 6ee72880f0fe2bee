//! How far a backfill is, told while it runs.
//!
//! `Progress` notes each event as it comes, and writes nothing then. In a thread of its own `tell_until_ended` looks once a second what is
//! to be told: how far the backfill is, where that has changed, and where nothing comes for a minute the try that runs longest, or
//! where none runs the one that has waited longest for its delay. So
//! a line that was held back is shown when its second is over, and what it counts is what runs at that moment.
//!
//! Contracts say the text of each line, what is due at which moment, and which try is named. No clause says that the thread is
//! started, or how long anything takes.
#![tactic(auto)]

mod begun;
mod board;
mod counts;
mod delayed;
mod due;
mod longest;
mod progress;
mod screen;

pub use progress::Progress;
pub use screen::{Screen, tell_line};
