//! What every other crate speaks of: values and their text, names of tries, and lists and texts that
//! contracts see as lists.
//!
//! A value is what a task pushes by the last line of its output. `read_line` reads it from that line, and
//! `text_of` writes it as compact JSON, which `read_text` reads back as the same value, and so does `read_line`, but for null, which
//! pushes nothing as a line, and for lists that nest deeper than 64.
#![tactic(auto)]

mod line;
mod memory;
mod name;
mod optional;
mod reading;
mod sequence;
mod size;
mod text;
mod xval;

pub use line::last_line;
pub use memory::OutOfMemory;
pub use name::JobName;
pub use optional::{copy_option, is_same_option};
pub use reading::{DEEPEST, LineFault, read_line, read_text, text_of, text_reads_back};
pub use sequence::Sequence;
pub use text::Text;
pub use xval::{Values, Xval};
