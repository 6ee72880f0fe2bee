//! The commands that show a report: `show`, `explain`, `page`, and `answers`, each in the file of its name.
//!
//! Each reads its files in the order of its line and writes one text; those that read a graph refuse a report of another one. None
//! starts a program or a thread. What the texts are is said in bf_grid and bf_show (`show`), bf_explain, bf_cells and bf_page (`page`), and bf_answers.
#![tactic(auto)]

mod answers;
mod bounds;
mod canvas;
mod explain;
mod json;
mod matching;
mod page;
mod planned;
mod report;
mod show;
mod times;

pub use answers::answer_answers;
pub use canvas::Canvas;
pub use explain::answer_explain;
pub use json::answer_show_json;
pub use page::answer_page;
pub use show::answer_show;
