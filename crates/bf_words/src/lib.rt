//! The words of a task's command for one try: texts as they stand, what a context variable is there, what was pulled, and the item.
//!
//! `words` makes them of what the try was given and of its `JobContext`. A value is its compact JSON, but a text is itself, and
//! what is missing is the empty text.
#![tactic(auto)]

mod context;
mod wording;

pub use context::JobContext;
pub use wording::words;
