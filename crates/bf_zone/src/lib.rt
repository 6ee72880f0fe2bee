//! The time zone of a schedule, by its text.
//!
//! A zone is exactly `UTC`; an offset of six characters, `+HH:MM` or `-HH:MM`, with HH from 00 to 23 and MM from 00 to
//! 59; exactly `file`, which means the bytes of a zone file (TZif, RFC 9636) that are handed in beside it, at most
//! 1,048,576 of them; or else a POSIX rule, as `CET-1CEST,M3.5.0,M10.5.0/3`. Zone files and rules are read by `jiff`.
//!
//! `Zone::read` reads a text and owns what it read, and `as_time_zone` lends that to jiff's calls.
#![tactic(auto)]

mod laws;
mod offset;
mod zone;

pub use laws::{offsets_are_read_as_written, zone_of_text_is_unique};
pub use zone::{MOST_FILE_BYTES, Zone, ZoneFault};
