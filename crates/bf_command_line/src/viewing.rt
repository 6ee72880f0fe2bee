//! Reads the words of `page`, `explain` and `answers`.
ghost use Rattle.std.specs.Prelude.{IfOk, Some, codes};
ghost use Rattle.clap.specs.Words.{FailsBy, found_of, rows_of};
ghost use Rattle.bf_command_line.specs.Wrongs.{explain_wrongs};
ghost use Rattle.bf_command_line.specs.Asked.{IsAskedBy, IsTaskBy};

use crate::forms::{Asked, ExplainAsked, PageAsked, TaskAsked};
use crate::range::graph_asked;
use crate::refusal::missing_task_error;
use crate::value::{is_flag_set, optional_integer, optional_text, required_text};
use clap::{ArgMatches, Error};
use std::alloc::{AllocError, Global};

/// Reads what `page` asks for.
pub(crate) fn page_asked(alloc: Global, matches: &ArgMatches<'_>) -> Result<Asked, AllocError>
    ensures { IfOk result (IsAskedBy (Some (codes "page", rows_of (found_of matches.now)))) }
{
    Ok(Asked::Page(PageAsked {
        graph: graph_asked(alloc, matches)?,
        report: required_text(alloc, matches, "report")?,
        states_only: is_flag_set(matches, "states_only"),
        journal: optional_text(alloc, matches, "journal")?,
    }))
}

/// Reads the task that `explain` names, and its map index where it names one; None where no task is named. `Err` where
/// `--index` is given without `--task`, or at want of memory.
fn task_asked(alloc: Global, matches: &ArgMatches<'_>) -> Result<Option<TaskAsked>, Error>
    ensures ok { IfOk result (IsTaskBy (rows_of (found_of matches.now))) }
    ensures err { FailsBy (explain_wrongs (rows_of (found_of matches.now))) result }
{
    let index = optional_integer(matches, "index")?;
    match optional_text(alloc, matches, "task")? {
        Some(id) => Ok(Some(TaskAsked { id, index })),
        None if index.is_some() => Err(missing_task_error(alloc)?),
        None => Ok(None),
    }
}

/// Reads what `explain` asks for. `Err` where `--index` is given without `--task`, or at want of memory.
pub(crate) fn explain_asked(alloc: Global, matches: &ArgMatches<'_>) -> Result<Asked, Error>
    ensures ok { IfOk result (IsAskedBy (Some (codes "explain", rows_of (found_of matches.now)))) }
    ensures err { FailsBy (explain_wrongs (rows_of (found_of matches.now))) result }
{
    let task = task_asked(alloc, matches)?;
    Ok(Asked::Explain(ExplainAsked {
        graph: graph_asked(alloc, matches)?,
        report: required_text(alloc, matches, "report")?,
        run: required_text(alloc, matches, "run")?,
        task,
    }))
}

/// Reads what `answers` asks for: the path of a report.
pub(crate) fn answers_asked(alloc: Global, matches: &ArgMatches<'_>) -> Result<Asked, AllocError>
    ensures { IfOk result (IsAskedBy (Some (codes "answers", rows_of (found_of matches.now)))) }
{
    Ok(Asked::Answers(required_text(alloc, matches, "report")?))
}
