//! Dynamic task mapping: the items that a source gives the task that is expanded over it.
//!
//! A task is expanded over 0 to 1,024 items: those of the list that an unmapped source pushed, or what each instance of an
//! expanded source pushed, by map index. Whatever else a source has gives no items, and the task is upstream_failed.
#![tactic(auto)]

mod expanding;
mod source;

pub use expanding::items;
pub use source::{Items, SourceValues};
