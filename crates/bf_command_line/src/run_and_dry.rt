//! What `run` and `dry` ask for, which go on from a report where one is named.
ghost use Rattle.std.specs.Prelude.{IfOk, Some, codes};
ghost use Rattle.clap.specs.Words.{FailsBy, found_of, rows_of};
ghost use Rattle.bf_command_line.specs.Wrongs.{programs_wrongs, range_wrongs};
ghost use Rattle.bf_command_line.specs.Asked.{IsAskedBy};

use crate::forms::{Asked, ClearAsked, ClearedAsked, DryAsked};
use crate::programs::{programs_asked, workers_asked};
use crate::range::{graph_asked, range_asked};
use crate::value::{is_flag_set, optional_text, required_text};
use clap::{ArgMatches, Error};
use std::alloc::Global;

/// Reads what `run`, which is `name`, asks for; with `--keep`, a `clear` that clears nothing. `Err` where the range is
/// missing or doubled, a journal option has no journal, the name of logs is empty, or memory runs out.
pub(crate) fn run_asked(alloc: Global, name: &str, matches: &ArgMatches<'_>) -> Result<Asked, Error>
    ensures ok { IfOk result (IsAskedBy (Some (codes "run", rows_of (found_of matches.now)))) }
    ensures err { FailsBy (programs_wrongs (rows_of (found_of matches.now))) result }
{
    let run = programs_asked(alloc, name, matches)?;
    match optional_text(alloc, matches, "keep")? {
        Some(report) => Ok(Asked::Keep(ClearAsked {
            graph: run.graph,
            report,
            range: run.range,
            cleared: ClearedAsked::Nothing,
            table: None,
            workers: run.workers,
            progress: run.progress,
            quiet: run.quiet,
            launcher: run.launcher,
            logs: run.logs,
            journal: run.journal,
        })),
        None => Ok(Asked::Run(run)),
    }
}

/// Reads what `dry`, which is `name`, asks for; with `--keep`, a `clear` over the table that clears nothing. `Err`
/// where the range is missing or doubled, or at want of memory.
pub(crate) fn dry_asked(alloc: Global, name: &str, matches: &ArgMatches<'_>) -> Result<Asked, Error>
    ensures ok { IfOk result (IsAskedBy (Some (codes "dry", rows_of (found_of matches.now)))) }
    ensures err { FailsBy (range_wrongs (rows_of (found_of matches.now))) result }
{
    let range = range_asked(alloc, name, matches)?;
    let graph = graph_asked(alloc, matches)?;
    let table = required_text(alloc, matches, "table")?;
    let workers = workers_asked(matches)?;
    let progress = is_flag_set(matches, "progress");
    match optional_text(alloc, matches, "keep")? {
        Some(report) => Ok(Asked::Keep(ClearAsked {
            graph,
            report,
            range,
            cleared: ClearedAsked::Nothing,
            table: Some(table),
            workers,
            progress,
            quiet: false,
            launcher: None,
            logs: None,
            journal: None,
        })),
        None => Ok(Asked::Dry(DryAsked {
            graph,
            table,
            range,
            workers,
            progress,
        })),
    }
}
