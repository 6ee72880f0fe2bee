//! What an expansion is made of (Airflow's "Dynamic Task Mapping").
use bf_value::{Sequence, Xval};

/// What a source has for the task that is expanded over it.
#[derive(Debug, Drop)]
pub enum SourceValues {
    /// The source ran and is unmapped: what it pushed.
    Pushed(Option<Xval>),
    /// The source ran and is itself expanded: what each of its instances pushed, by map index.
    Each(Sequence<Option<Xval>>),
    /// The source didn't run.
    Absent,
}

/// The items of an expansion, one for each instance, or that they are missing.
#[derive(Debug, Drop)]
pub enum Items {
    Missing,
    List(Sequence<Xval>),
}
