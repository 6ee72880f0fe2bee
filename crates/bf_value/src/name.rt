//! Names of tries.
/// The name of a try: the run by its number in order of date, the task by its number in file order, the map
/// index (-1 for an unmapped task), and the number of the try from 1. Names are ordered by these in turn.
#[derive(Clone, Copy, Debug, PartialEq, Eq, PartialOrd, Ord)]
pub struct JobName {
    pub run: u32,
    pub task: u32,
    pub index: i32,
    pub attempt: u32,
}
