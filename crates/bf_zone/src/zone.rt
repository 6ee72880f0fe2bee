//! Zones, and why a text is none.
ghost use Rattle.std.specs.Prelude.{option_map, IfSome, IfNone, Some, Option, List, ℕ};
ghost use Rattle.jiff.specs.Words.{plain_zone};
ghost use Rattle.jiff.specs.Types.{TimeZone as PlainZone};
ghost use Rattle.bf_zone.specs.Zones.{asked, file_asked, offset_or_rule, IsZone, IsZoneRead, IsZoneOf};
ghost use Rattle.bf_zone.specs.Offsets.{offset_of};

use crate::offset::offset_in;
use jiff::Error as JiffError;
use jiff::tz::{TimeZone, Tzif};
use std::alloc::Global;
use thiserror::Error;

/// The most bytes that a zone file may have (this program's own choice).
pub const MOST_FILE_BYTES: usize = 1_048_576;

/// A time zone that owns what was read for it.
#[derive(Drop)]
pub enum Zone {
    /// UTC, an offset or a POSIX rule.
    Rule(TimeZone<'static>),
    /// The table of a zone file.
    Table(Tzif),
}

/// Why a text could not be read as a zone.
#[derive(Clone, Copy, Debug, PartialEq, Eq, Error)]
pub enum ZoneFault {
    #[error("bad zone")]
    Bad,
    #[error("out of memory")]
    OutOfMemory,
}

/// Reads a zone from the bytes of a zone file (TZif). `Bad` where they are more than `MOST_FILE_BYTES` or no zone file,
/// `OutOfMemory` at want of memory.
fn zone_of_file(alloc: Global, bytes: &[u8]) -> Result<Zone, ZoneFault>
    ensures { IsZoneRead file_asked (Some bytes.now) result }
{
    if bytes.len() > MOST_FILE_BYTES {
        return Err(ZoneFault::Bad);
    }
    match Tzif::parse(alloc, None, bytes) {
        Ok(table) => Ok(Zone::Table(table)),
        Err(JiffError::OutOfMemory) => Err(ZoneFault::OutOfMemory),
        Err(_) => Err(ZoneFault::Bad),
    }
}

/// Reads a zone from an offset, such as `+01:00`, or a POSIX rule; None for any other text.
fn zone_of_offset_or_rule(text: &str) -> Option<TimeZone<'static>>
    ensures some { IfSome result (λ tz. (file : Option (List ℕ)) →
        IsZone (offset_or_rule (offset_of text.now) text.now) file (plain_zone tz)) }
    ensures none { IfNone result ((file : Option (List ℕ)) (z : PlainZone) →
        IsZone (offset_or_rule (offset_of text.now) text.now) file z → ⊥) }
{
    if let Some(offset) = offset_in(text.as_bytes()) {
        return Some(TimeZone::fixed(offset));
    }
    TimeZone::posix(text).ok()
}

impl Zone {
    /// Reads a zone from a text: `UTC`, an offset, a POSIX rule, or `file` for the bytes of a zone file, which no other
    /// text needs. `Bad` exactly where the text means no zone, as `file` does without bytes. `OutOfMemory` comes only
    /// for a zone file that would be readable: one that is too long is `Bad`.
    pub fn read(alloc: Global, text: &str, file: Option<&[u8]>) -> Result<Zone, ZoneFault>
        ensures { IsZoneRead (asked text.now) (option_map (λ s. s.now) file.entry) result }
    {
        match text {
            "UTC" => Ok(Zone::Rule(TimeZone::UTC)),
            "file" => match file {
                Some(bytes) => zone_of_file(alloc, bytes),
                None => Err(ZoneFault::Bad),
            },
            _ => match zone_of_offset_or_rule(text) {
                Some(zone) => Ok(Zone::Rule(zone)),
                None => Err(ZoneFault::Bad),
            },
        }
    }

    /// Lends the zone in the form that jiff's calls take.
    pub fn as_time_zone(&self) -> TimeZone<'_>
        ensures { IsZoneOf self.now (plain_zone result) }
    {
        match self {
            Zone::Rule(zone) => *zone,
            Zone::Table(table) => TimeZone::tzif(table),
        }
    }
}
