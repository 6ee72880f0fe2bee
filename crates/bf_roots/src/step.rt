//! Steps of the walk, and what is found on it.

/// What happened at a task in a run that gave later tasks their states.
#[derive(Clone, Copy, Debug, PartialEq, Eq)]
pub enum Began {
    /// An instance of the task failed.
    Failed,
    /// An instance of the task exited with 99, and none failed.
    Exited,
    /// The task is a branch, and doesn't follow the task that the walk came from.
    Pushed,
    /// Another task is expanded over this one, which gave it no items.
    PushedNoItems,
}

/// A task in a run, by their numbers from 0, where the state of another task began, and what happened there.
#[derive(Clone, Copy, Debug, PartialEq, Eq)]
pub struct Root {
    pub run: u32,
    pub task: u32,
    pub began: Began,
}

/// A task in a run, by their numbers from 0, that the walk comes to. Where `began` is given the walk ends there; else
/// it looks at how the task ended.
#[derive(Clone, Copy, Debug, PartialEq, Eq)]
pub(crate) struct WalkStep {
    pub(crate) run: u32,
    pub(crate) task: u32,
    pub(crate) began: Option<Began>,
}
