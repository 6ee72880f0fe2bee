//! Which try begins next, and which moment is waited for, kept over the events of a backfill.
//!
//! The tasks that take as many slots of one pool are a `SlotClass`: all of them have room, or none has. A class keeps its
//! instances that wait for room as `Batches`, the one that begins first at hand, and those that wait for a later moment as
//! `Delays`, the earliest at hand. `Waiting` has the classes: the next try is the first of those that have room.
#![tactic(auto)]

mod batches;
mod class;
mod delays;
mod instances;
mod waiting;
mod weight;

pub use instances::instances_of;
pub use waiting::{Waiting, earlier_moment};
pub use weight::weight_of;
