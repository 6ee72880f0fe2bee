//! What the commands that start programs ask for.
ghost use Rattle.std.specs.Prelude.{IfOk, codes};
ghost use Rattle.clap.specs.Words.{FailsBy, first_of, found_of, rows_of};
ghost use Rattle.bf_command_line.specs.Wrongs.{empty_wrongs, journal_wrongs, programs_wrongs};
ghost use Rattle.bf_command_line.specs.Asked.{IsJournalBy, IsLogsBy, IsProgramsBy, IsWorkersBy};

use crate::forms::{JournalAsked, RunAsked};
use crate::range::{graph_asked, range_asked};
use crate::refusal::{missing_journal_error, unnamed_folder_error};
use crate::value::{is_flag_set, optional_number, optional_text};
use bf_workers::Workers;
use clap::{ArgMatches, Error};
use std::alloc::{AllocError, Global};

/// Reads `--workers`; one where it isn't given. `Err` where its value isn't from 1 to 64, which `clap` rules out.
#[tactic(auto, using(crate::proofs::Rows::first_rows))]
pub(crate) fn workers_asked(matches: &ArgMatches<'_>) -> Result<Workers, AllocError>
    ensures { IfOk result (IsWorkersBy (rows_of (found_of matches.now))) }
{
    let Some(text) = matches.get_str("workers") else {
        return Ok(Workers::one());
    };
    match text.parse::<u32>() {
        Ok(count) => Workers::new(count).ok_or(AllocError),
        Err(_) => Err(AllocError),
    }
}

/// Reads the journal options of the command `name`; None where `--journal` isn't given. `Err` where `--stop-after` or
/// `--retry-failed` is given without it, or at want of memory.
fn journal_asked(
    alloc: Global,
    name: &str,
    matches: &ArgMatches<'_>,
) -> Result<Option<JournalAsked>, Error>
    ensures ok { IfOk result (IsJournalBy (rows_of (found_of matches.now))) }
    ensures err { FailsBy (journal_wrongs (rows_of (found_of matches.now))) result }
{
    let stop_after = optional_number(matches, "stop_after")?;
    let retry_failed = is_flag_set(matches, "retry_failed");
    match optional_text(alloc, matches, "journal")? {
        Some(path) => Ok(Some(JournalAsked {
            path,
            stop_after,
            retry_failed,
        })),
        None if stop_after.is_some() || retry_failed => Err(missing_journal_error(alloc, name)?),
        None => Ok(None),
    }
}

/// Reads the folder of `--logs` of the command `name`; None where it isn't given. `Err` where its name is empty, or at
/// want of memory.
fn logs_asked(alloc: Global, name: &str, matches: &ArgMatches<'_>) -> Result<Option<String>, Error>
    ensures ok { IfOk result (IsLogsBy (rows_of (found_of matches.now))) }
    ensures err { FailsBy (empty_wrongs
        (first_of (codes "logs") (rows_of (found_of matches.now)))) result }
{
    match optional_text(alloc, matches, "logs")? {
        Some(folder) if folder.is_empty() => Err(unnamed_folder_error(alloc, name)?),
        folder => Ok(folder),
    }
}

/// Reads what `run` and `clear` have in common, in the form of `run`; `name` is the command. `Err` where the range is
/// missing or doubled, a journal option has no journal, the name of logs is empty, or memory runs out.
pub(crate) fn programs_asked(
    alloc: Global,
    name: &str,
    matches: &ArgMatches<'_>,
) -> Result<RunAsked, Error>
    ensures ok { IfOk result (IsProgramsBy (rows_of (found_of matches.now))) }
    ensures err { FailsBy (programs_wrongs (rows_of (found_of matches.now))) result }
{
    let range = range_asked(alloc, name, matches)?;
    let workers = workers_asked(matches)?;
    let journal = journal_asked(alloc, name, matches)?;
    let logs = logs_asked(alloc, name, matches)?;
    Ok(RunAsked {
        graph: graph_asked(alloc, matches)?,
        range,
        workers,
        progress: is_flag_set(matches, "progress") && !is_flag_set(matches, "quiet"),
        quiet: is_flag_set(matches, "quiet"),
        launcher: optional_text(alloc, matches, "launcher")?,
        logs,
        journal,
    })
}
