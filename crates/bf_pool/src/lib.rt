//! Pools: how many slots of each are occupied, and what a task weighs among those that wait for room (Airflow's "Pools"
//! and "Priority Weights").
//!
//! [`Pools`] never has more slots occupied than a pool has: its type says so. A weight is summed over distinct tasks: the
//! descendants (`downstream`), the ancestors (`upstream`), or none (`absolute`).
#![tactic(auto)]

mod laws;
mod pools;
mod weights;

pub use laws::reaches_where_a_path_leads;
pub use pools::{NoRoom, Pools};
pub use weights::{total_weight, total_weights_of};
