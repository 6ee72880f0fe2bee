//! What is wrong with a graph file, all at once.
//!
//! A refusal tells the first fault of a file. `findings` tells what else is wrong: it looks at each place of the JSON document
//! that the file is, and tells those at which something stands that may not, or nothing where something has to. With each it
//! says what stands there, what may, and which known name is nearest. It gives nothing exactly where the file is accepted.
#![tactic(auto)]

mod common;
mod document;
mod faults;
mod finding;
mod fitting;
mod form;
mod hint;
mod judging;
mod laws;
mod listing;
mod names;
mod nearest;
mod place;
mod places;
mod refusal;
mod shown;

pub use finding::{Fault, Finding};
pub use form::Form;
pub use hint::Hint;
pub use laws::each_place_is_listed;
pub use listing::findings;
pub use place::{DocumentPlace, WordKey};
pub use refusal::Refusal;
