//! Graphs of tasks without cycles: what is upstream of what, by how many edges, and which tasks reach which.
//!
//! A task is its number in file order. The rank of a task is the number of edges of the longest path that
//! ends in it, so ranks rise along edges, and going through tasks by rank meets each after its upstreams.
#![tactic(auto)]

mod climb;
mod cycles;
mod graph;
mod ids;
mod lookups;
mod ranking;
mod reach;

pub use graph::{Graph, GraphFault};
pub use ids::Ids;
pub use reach::marks_of_reaching_tasks;
