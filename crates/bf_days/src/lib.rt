//! The data intervals that start on civil days.
//!
//! A day is one that clocks of a time zone show, and a data interval starts on it where they show it at its start. A clock that is
//! put back over midnight shows two days by turns, so the intervals of a few days needn't be those of a range of moments.
//!
//! `Days::read` reads days from a text, as `2024-03-04` or `2024-03-04..2024-03-10`, and `intervals_on` lists the data intervals of a
//! schedule that start on them.
#![tactic(auto)]

mod days;
mod laws;
mod listing;
mod shown;

pub use days::Days;
pub use laws::listing_is_unique;
pub use listing::intervals_on;
