//! Plans: what is known of a graph once it was checked, in numbers in place of names.
//!
//! A `Plan` has a `Dag`, which the recursion over dates reads, `Limits`, which bound how much runs at once, and the
//! schedule of its runs. It keeps that the `Dag` is sound (no cycle, each pull settled in time, each source upstream) and
//! that the limits fit it, so no caller looks again. Whoever makes one has to know that; `check` of bf_check is who does.
#![tactic(auto)]

mod ids;
mod kinds;
mod plan;

pub use ids::is_id;
pub use kinds::{ContextVariable, TaskKind, WeightRule};
pub use plan::{Dag, Demand, Limits, Plan, Task, Word};
