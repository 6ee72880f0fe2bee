//! What is cleared: tasks in runs, or single instances of them, named by ids, logical dates and map indexes, and all that follows
//! from them (Airflow's "Clear", downstream and future).
//!
//! - A [`Seed`] is what a user names, a [`Place`] the same by numbers; one that the plan doesn't have is refused.
//! - [`Followers`] are the least set that has the seeds, the downstreams of what it has, and, of a task that depends on its
//!   past, the same task in the next run. They stand in a row of marks a run, made in the order of dates.
//! - `Followers::places` lists them, which `clear --plan` prints.
#![tactic(auto)]

mod fault;
mod following;
mod found;
mod laws;
mod listing;
mod marks;
mod place;
mod seeds;

pub use fault::ClearFault;
pub use found::{Followers, dependents};
pub use laws::{
    a_seed_with_an_index_leaves_its_neighbours, dependents_are_least, places_are_what_follows,
    seeds_without_indexes_take_tasks,
};
pub use place::{Place, add_place};
pub use seeds::{Seed, place_of, places_of};
