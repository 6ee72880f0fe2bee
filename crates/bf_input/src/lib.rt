//! What the words of a line mean: the files that it names, read, and its moments.
//!
//! A file that can't be read is a fault, with its path; one that is too large is read one byte further than it may be long, so that
//! its reader refuses it. Only a report is checked here. A graph comes with the bytes of its zone file, if the line gives one.
//! `is_overwriting` tells whether `--out` leads to one of them.
#![tactic(auto)]

mod files;
mod moments;
mod overwriting;

pub use files::{
    FilesWithTable, GraphFiles, read_files_with_table, read_graph_files, read_journal_bytes,
    read_named_table, read_report_file, read_seeds_bytes,
};
pub use moments::moment_of;
pub use overwriting::{is_of_logs, is_overwriting};
