//! Reads a command line.
ghost use Rattle.std.specs.Prelude.{◌≡◌, IfOk, map, option_map, string_bytes, Some, codes};
ghost use Rattle.clap.specs.Words.{fault_of, FailsBy, first_of, subcommand_of, found_of, rows_of, subcommand_rows_of};
ghost use Rattle.bf_grammar.specs.Grammar.{backfill_app};
ghost use Rattle.bf_command_line.specs.Wrongs.{command_wrongs, found_wrongs, out_wrongs, range_wrongs, wrongs_of};
ghost use Rattle.bf_command_line.specs.Asked.{is_overwritten_in, IsAskedBy, IsLineBy};

use crate::choice::{format_asked, shell_asked};
use crate::clearing::clear_asked;
use crate::forms::{Asked, CheckAsked, CommandLine, ListAsked, SingleAsked};
use crate::range::{graph_asked, range_asked};
use crate::refusal::overwriting_error;
use crate::run_and_dry::{dry_asked, run_asked};
use crate::showing::show_asked;
use crate::value::{is_flag_set, optional_text, required_text, says_word};
use crate::viewing::{answers_asked, explain_asked, page_asked};
use bf_grammar::backfill_command;
use clap::{ArgMatches, Error};
use std::alloc::{AllocError, Global};

/// Reads what the words of a line ask for, the first of which is the program's own name. `Err` has `clap`'s words on a
/// wrong line, its help or version where that is asked for, or want of memory.
pub fn asked(alloc: Global, words: &[String]) -> Result<CommandLine, Error>
    ensures ok { IfOk result (IsLineBy (subcommand_of backfill_app (map string_bytes words.now))) }
    ensures err { FailsBy (wrongs_of (map string_bytes words.now)) result }
{
    let matches = matches_of(alloc, words)?;
    line_asked(alloc, &matches)
}

/// Has `clap` take the words of a line apart, the first of which is the program's own name. `Err` where `clap` refuses
/// the line or has help or the version to show, or at want of memory.
fn matches_of<'a>(alloc: Global, words: &'a [String]) -> Result<ArgMatches<'a>, Error>
    ensures ok { IfOk result (λ m. subcommand_rows_of m
        ≡ subcommand_of backfill_app (map string_bytes words.entry.now)) }
    ensures err { FailsBy (fault_of backfill_app (map string_bytes words.entry.now)) result }
{
    backfill_command(alloc)?.try_get_matches_from(words)
}

// `clap` has seen to it that a subcommand and what it requires are there. No contract hands this on
// for a subcommand's own arguments, so that the arms without them answer as want of memory does.
/// Reads what a whole line asks for out of what `clap` found: a command, and the file of `--out`. `Err` for what only
/// this crate refuses, such as a range given twice, or at want of memory.
fn line_asked(alloc: Global, matches: &ArgMatches<'_>) -> Result<CommandLine, Error>
    ensures ok { IfOk result (IsLineBy (subcommand_rows_of matches.now)) }
    ensures err { FailsBy (found_wrongs (subcommand_rows_of matches.now)) result }
{
    match matches.subcommand() {
        Some((name, inner)) => {
            let out = out_asked(alloc, name, inner)?;
            let command = subcommand_asked(alloc, name, inner)?;
            Ok(CommandLine { command, out })
        }
        None => Err(AllocError.into()),
    }
}

/// Whether `path` is spelled the same as a file that the command reads, or as its journal. The report to go on from
/// doesn't count: it may be replaced.
fn is_overwritten(matches: &ArgMatches<'_>, path: &str) -> bool
    ensures { result ≡ is_overwritten_in (rows_of (found_of matches.now)) (Some path.now) }
{
    says_word(matches, "graph", path)
        || says_word(matches, "table", path)
        || says_word(matches, "zone_file", path)
        || says_word(matches, "seeds", path)
        || says_word(matches, "journal", path)
}

/// Reads the path of `--out` of the command `name`; None where it isn't given. `Err` where a file that the command
/// reads, or its journal, is spelled the same, or at want of memory.
fn out_asked(alloc: Global, name: &str, matches: &ArgMatches<'_>) -> Result<Option<String>, Error>
    ensures ok { IfOk result (λ out. first_of (codes "out") (rows_of (found_of matches.now))
        ≡ option_map string_bytes out) }
    ensures err { FailsBy (out_wrongs (rows_of (found_of matches.now))) result }
{
    let Some(path) = optional_text(alloc, matches, "out")? else {
        return Ok(None);
    };
    if is_overwritten(matches, &path) {
        return Err(overwriting_error(alloc, name)?);
    }
    Ok(Some(path))
}

/// Reads what the command `name` asks for out of what `clap` found for it. `Err` for what only this crate refuses, such
/// as a range given twice, or at want of memory.
fn subcommand_asked(alloc: Global, name: &str, matches: &ArgMatches<'_>) -> Result<Asked, Error>
    ensures ok { IfOk result (IsAskedBy (Some (name.now, rows_of (found_of matches.now)))) }
    ensures err { FailsBy (command_wrongs name.now (rows_of (found_of matches.now))) result }
{
    match name {
        "schema" => Ok(Asked::Schema(format_asked(alloc, matches)?)),
        "completions" => Ok(Asked::Completions(shell_asked(alloc, matches)?)),
        "run" => run_asked(alloc, name, matches),
        "clear" => clear_asked(alloc, name, matches),
        "show" => show_asked(alloc, matches),
        "list" => list_asked(alloc, name, matches),
        "dry" => dry_asked(alloc, name, matches),
        "explain" => explain_asked(alloc, matches),
        "answers" => Ok(answers_asked(alloc, matches)?),
        _ => Ok(rangeless_command_asked(alloc, name, matches)?),
    }
}

/// Reads what the command `name`, one of `check`, `single` and `page`, asks for. `Err` for any other name, which `clap`
/// rules out, or at want of memory.
fn rangeless_command_asked(
    alloc: Global,
    name: &str,
    matches: &ArgMatches<'_>,
) -> Result<Asked, AllocError>
    ensures { IfOk result (IsAskedBy (Some (name.now, rows_of (found_of matches.now)))) }
{
    match name {
        "check" => check_asked(alloc, matches),
        "single" => single_asked(alloc, matches),
        "page" => page_asked(alloc, matches),
        _ => Err(AllocError),
    }
}

/// Reads what `check` asks for.
fn check_asked(alloc: Global, matches: &ArgMatches<'_>) -> Result<Asked, AllocError>
    ensures { IfOk result (IsAskedBy (Some (codes "check", rows_of (found_of matches.now)))) }
{
    Ok(Asked::Check(CheckAsked {
        graph: graph_asked(alloc, matches)?,
        explain: is_flag_set(matches, "explain"),
    }))
}

/// Reads what `list`, which is `name`, asks for. `Err` where its range is missing or doubled, or at want of memory.
fn list_asked(alloc: Global, name: &str, matches: &ArgMatches<'_>) -> Result<Asked, Error>
    ensures ok { IfOk result (IsAskedBy (Some (codes "list", rows_of (found_of matches.now)))) }
    ensures err { FailsBy (range_wrongs (rows_of (found_of matches.now))) result }
{
    let range = range_asked(alloc, name, matches)?;
    let graph = graph_asked(alloc, matches)?;
    Ok(Asked::List(ListAsked { graph, range }))
}

/// Reads what `single` asks for.
fn single_asked(alloc: Global, matches: &ArgMatches<'_>) -> Result<Asked, AllocError>
    ensures { IfOk result (IsAskedBy (Some (codes "single", rows_of (found_of matches.now)))) }
{
    Ok(Asked::Single(SingleAsked {
        graph: graph_asked(alloc, matches)?,
        table: required_text(alloc, matches, "table")?,
        at: required_text(alloc, matches, "at")?,
    }))
}
