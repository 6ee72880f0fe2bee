//! Words for people: numbers, moments, lists of names, values and lines of text.
//!
//! A number has commas, as 8,192,000. A moment at midnight is just its date. Names stand as `a, b and c`, and of many only the first. A value is JSON text that a terminal
//! shows as it is, and a long one is cut.
#![tactic(auto)]

mod lines;
mod lists;
mod moments;
mod numbers;
mod text;
mod value;

pub use lines::{add_line, add_line_if, add_lines, add_moved_line, one_line};
pub use lists::{push_name_list, push_separated};
pub use moments::{short_moment, without_midnight};
pub use numbers::{push_count, push_number};
pub use text::{count_text, name_list, text_of_number};
pub use value::{chars_of, cut_text, value_text};
