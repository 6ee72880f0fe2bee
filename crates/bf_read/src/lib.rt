//! Graph files, read as drafts.
//!
//! A graph file is one JSON object of at most 8,388,608 bytes; docs/FORMATS.md lists its keys, with their types, limits
//! and defaults. [`read_graph`] decides whether bytes are such a file. It gives the file's draft, with the defaults
//! filled in, or the first fault of its walk: of each object an unknown key, then its keys in the order of [`GraphKey`]
//! and [`TaskKey`], the pools by name, and the tasks as they stand. For one key wrong types come before bad names, and
//! these before limits and ids seen before.
//!
//! Whether ids that tasks refer to are there, and what a schedule, a zone and a rule mean, is looked at when a draft is
//! checked.
#![tactic(auto)]

mod command;
mod draft;
mod fault;
mod fields;
mod keys;
mod kinds;
mod limits;
mod path;
mod pools;
mod reader;
mod tasks;
mod texts;

pub use command::pulls_of;
pub use draft::{DEFAULT_POOL, Draft, PoolDraft, TaskDraft, WordDraft};
pub use fault::ReadFault;
pub use keys::{GRAPH_KEYS, GraphKey, TASK_KEYS, TaskKey, is_graph_key, is_task_key};
pub use limits::{
    GREATEST_WEIGHT, LONGEST_RETRY_DELAY, LONGEST_WORD, MOST_ACTIVE_RUNS, MOST_BYTES, MOST_PULLS,
    MOST_RETRIES, MOST_SLOTS, MOST_TASKS, MOST_WORDS,
};
pub use path::Path;
pub use reader::read_graph;
