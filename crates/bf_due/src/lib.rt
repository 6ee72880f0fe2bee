//! Which step of a backfill comes next by itself: a close, an open, a settle or an expand. It is kept over the events
//! that come, and not found again by a look at the whole backfill.
//!
//! - **The agenda** is a heap of the steps that may come, with the first on top. A step that may not come any more is
//!   dropped once it is on top, and not looked for before.
//! - **An event** makes a step possible only where it touches what the step looks at: the tasks below the event's task, the
//!   same task in the next run once this one is settled, the close of its run. Those alone are asked when it comes.
//! - **Early rules** (`one_success`, `one_failed`, `one_done`, `always`) let a task be decided while upstreams are
//!   unfinished. Such a task is asked only where its rule looks for what has just finished and its past is known, where a
//!   branch says more, and once all of its upstreams are settled, so that no end counts all instances again.
//! - **Cursors** say for which upstream a task waits, which instance hasn't finished, which task isn't settled. What they
//!   have passed stays as it is, so each edge, instance and task is passed once a run. The core is asked about a task once
//!   no upstream is left, so never in vain about one that waits for upstreams alone.
//!
//! The caller asks for room before an event, and tells of it afterwards, which takes no memory.
#![tactic(auto)]

mod agenda;
mod asking;
mod cursors;
mod decisions;
mod due;
mod news;
mod pruning;

pub use decisions::may_decide;
pub use due::Due;
