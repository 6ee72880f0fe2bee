//! What words may say of a try.
use bf_moment::Moment;

/// A try as the words of its command see it (the part of Airflow's "Templates reference" that is served).
#[derive(Clone, Copy, Debug)]
pub struct JobContext<'a> {
    /// The start of the run's data interval, which is its logical date too.
    pub data_interval_start: Moment,
    pub data_interval_end: Moment,
    pub dag_id: &'a str,
    pub task_id: &'a str,
    /// -1 for an unmapped task.
    pub map_index: i32,
    /// From 1.
    pub try_number: u32,
}
