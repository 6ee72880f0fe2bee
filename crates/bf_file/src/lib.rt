//! Files that are replaced whole: at each moment a path holds what it held, or all that was written to take its place.
//!
//! What is to stand under a path is written to a new file beside it (`Replacement`), by a device over that (`Page`); it is synced, and
//! only then takes the path's place, in one step; where it can't, it stays under its own name. A `Folder` is where that is done. `StoredFolder` stands in memory and tells all.
#![tactic(auto)]

mod call;
mod fault;
mod folder;
mod laws;
mod page;
mod replacement;
mod stored;

pub use call::{Call, Placed};
pub use fault::{PlaceFault, ReplaceFault};
pub use folder::Folder;
pub use laws::{
    a_new_file_that_is_left_holds_the_text, a_path_holds_the_old_or_the_new,
    a_replaced_path_holds_the_new,
};
pub use page::{Page, discard_page, replace_by_page};
pub use replacement::Replacement;
pub use stored::{StoredFolder, StoredNew};
