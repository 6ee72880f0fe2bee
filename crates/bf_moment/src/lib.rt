//! Moments as texts: reports, tables, commands and the command line spell them alike, as `2024-01-31T06:05:09Z`.
//!
//! `moment_bytes` writes a moment, and `moment_in` reads one, which may also be a date alone.
#![tactic(auto)]

mod laws;
mod moment;
mod reading;

pub use laws::{long_form_is_what_is_written, moments_differ_in_text};
pub use moment::{Moment, moment_bytes};
pub use reading::{is_long_moment, moment_in};
