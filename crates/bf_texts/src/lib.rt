//! Texts that the program prints as they stand.
//!
//! The pieces of the page that shows a report (the program of the page, its style, and what stands between the texts that it
//! is given), the JSON schemas, and what completes a line in bash, zsh and fish. They are data: no contract says what is in
//! them, and tests/pages holds them to what they are for.
#![tactic(auto)]

pub mod completions;
pub mod page;
pub mod schemas;
