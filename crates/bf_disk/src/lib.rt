//! Where files are read, replaced and locked, and which programs can be started: traits that tell what they give, the files of the
//! system, and files in memory.
//!
//! - [`Source`] reads, [`Journals`] opens and locks, [`Launchers`] tells whether a program can be started, [`Places`] which paths
//!   lead to one file. [`Disk`] is all of them over the system. [`StoredFiles`] is a source in memory, where a contract can say which bytes a path has.
//! - [`NewFile`] replaces a file: it is written beside the old one, with its permissions, and renamed once it is whole. Where that
//!   can't be, it stays.
#![tactic(auto)]

mod disk;
mod journals;
mod launchers;
mod new_file;
mod places;
mod prefix;
mod source;
mod stored;
mod target;

pub use disk::Disk;
pub use journals::{Journals, Lockable, OpenFault, OpenJournal};
pub use launchers::Launchers;
pub use new_file::NewFile;
pub use places::Places;
pub use prefix::{read_behind, read_first_bytes};
pub use source::{Source, SourceFault};
pub use stored::StoredFiles;
