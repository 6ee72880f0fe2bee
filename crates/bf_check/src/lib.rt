//! Checked plans: what the recursion over dates reads of a graph, and what bounds how much runs at once.
//!
//! [`check`] takes the draft of a graph file and looks at it in the order of the numbers of refusals, 6 to 17: the tasks
//! and their upstreams, cycles, pools, slots, rules, the schedule with its zone, pulls, expansions and branches. The
//! first look that fails is what is told. Each look hands on what it found, and the plan is made of that. An id is
//! looked up at each place that names it, and the id in a word once more, among the pulls of its task. A plan that is
//! handed out is sound: nothing above checks a graph again.
#![tactic(auto)]

mod checking;
mod edges;
mod expansions;
mod fault;
mod laws;
mod looks;
mod pools;
mod pulls;
mod rules;
mod schedules;
mod tasks;
mod unsettled;

pub use bf_cron::CronSpec;
pub use bf_plan::{ContextVariable, Dag, Demand, Limits, Plan, Task, TaskKind, WeightRule, Word};
pub use bf_zone::Zone;
pub use checking::check;
pub use fault::{CheckFault, TaskFault};
pub use laws::answer_is_unique;
pub use unsettled::unsettled_pull;
