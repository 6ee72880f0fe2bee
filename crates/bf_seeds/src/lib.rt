//! What is to be cleared, read from a file of lines `RUN TASK [INDEX]`.
//!
//! The fields of a line are separated by one space each: a moment, as `bf_moment` reads it, the id of a task, and maybe a map index,
//! which is -1 of a task that isn't expanded. The last line may lack its line feed, and a carriage return before a line feed is no
//! part of a line. Empty lines are passed over, as by `sha256sum --check` and `tsort`; a line of spaces isn't empty.
//!
//! `read_seeds` reads a file and `places_in_text` its lines, and both give the places that are named. Refused is the earliest line
//! that is of another form, or else names a task or a run that is unknown.
#![tactic(auto)]

mod fault;
mod file;
mod index;
mod line;
mod reading;

pub use fault::SeedsFault;
pub use file::{LONGEST_FILE, read_seeds};
pub use reading::places_in_text;
