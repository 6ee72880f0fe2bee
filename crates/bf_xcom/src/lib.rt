//! What tasks pass on: what a try is given, how tries end, the value of a task in a run, and what is pulled from it.
//!
//! A try pushes at most one value (Airflow's XCom of the key `return_value`). From a task that isn't expanded a task below pulls that
//! value, and from one that is expanded the list of what its instances pushed, by map index. A value that is pushed or pulled is one
//! that all share who hold it (`SharedValue`); so is what a try is given (`SharedGiven`).
#![tactic(auto)]

mod pulling;
mod shared_given;
mod shared_value;
mod values;

pub use pulling::pull;
pub use shared_given::SharedGiven;
pub use shared_value::SharedValue;
pub use values::{Given, Outcome, RunState, TaskResult, TaskValue};
