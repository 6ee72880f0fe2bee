//! Where the data intervals of a command start, and over which graph.
ghost use Rattle.std.specs.Prelude.{IfOk};
ghost use Rattle.clap.specs.Words.{FailsBy, found_of, rows_of};
ghost use Rattle.bf_command_line.specs.Wrongs.{range_wrongs};
ghost use Rattle.bf_command_line.specs.Asked.{IsGraphBy, IsRangeBy, IsStartsBy};

use crate::forms::{GraphAsked, RangeAsked, StartsAsked};
use crate::refusal::{missing_range_error, two_ranges_error};
use crate::value::{is_flag_set, optional_text, required_text};
use clap::{ArgMatches, Error};
use std::alloc::{AllocError, Global};

/// Reads the paths of the graph file, and of the zone file where one is named. `Err` where `clap` found no graph file,
/// or at want of memory.
pub(crate) fn graph_asked(alloc: Global, matches: &ArgMatches<'_>) -> Result<GraphAsked, AllocError>
    ensures { IfOk result (IsGraphBy (rows_of (found_of matches.now))) }
{
    Ok(GraphAsked {
        graph: required_text(alloc, matches, "graph")?,
        zone_file: optional_text(alloc, matches, "zone_file")?,
    })
}

/// Reads where data intervals have to start, for the command `name`. `Err` where neither `--on` nor both of `--from`
/// and `--to` are given, or `--on` with one of these, or at want of memory.
fn starts_asked(alloc: Global, name: &str, matches: &ArgMatches<'_>) -> Result<StartsAsked, Error>
    ensures ok { IfOk result (IsStartsBy (rows_of (found_of matches.now))) }
    ensures err { FailsBy (range_wrongs (rows_of (found_of matches.now))) result }
{
    let days = optional_text(alloc, matches, "on")?;
    let from = optional_text(alloc, matches, "from")?;
    let to = optional_text(alloc, matches, "to")?;
    match (days, from, to) {
        (None, Some(from), Some(to)) => Ok(StartsAsked::Between { from, to }),
        (Some(days), None, None) => Ok(StartsAsked::On(days)),
        (None, _, _) => Err(missing_range_error(alloc, name)?),
        (Some(_), _, _) => Err(two_ranges_error(alloc, name)?),
    }
}

/// Reads the range of runs of the command `name`. `Err` where it is missing or doubled, or at want of memory.
pub(crate) fn range_asked(
    alloc: Global,
    name: &str,
    matches: &ArgMatches<'_>,
) -> Result<RangeAsked, Error>
    ensures ok { IfOk result (IsRangeBy (rows_of (found_of matches.now))) }
    ensures err { FailsBy (range_wrongs (rows_of (found_of matches.now))) result }
{
    let starts = starts_asked(alloc, name, matches)?;
    let some = is_flag_set(matches, "some");
    Ok(RangeAsked { starts, some })
}
