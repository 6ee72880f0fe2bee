//! Trigger rules: what the upstreams of a task say of it, from how many of their instances are in each state.
//!
//! The rules are Airflow's eleven. `verdict` answers before all upstreams have finished where the rule lets it,
//! and an answer other than `Wait` is never revised by what finishes later: law `verdicts_stay`.
#![tactic(auto)]

mod branching;
mod deciding;
mod laws;
mod rule;

pub use branching::{followed, names_downstreams};
pub use deciding::{is_rule_met, verdict};
pub use laws::{followed_tasks_are_named_or_reached, verdicts_stay};
pub use rule::{Counts, Rule, Verdict};
