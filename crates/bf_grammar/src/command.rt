//! The command line as `clap` reads it.
ghost use Rattle.std.specs.Prelude.{◌≡◌, IfOk};
ghost use Rattle.clap.specs.Words.{App, app_of};
ghost use Rattle.bf_grammar.specs.Grammar.{answered_app, backfill_app, bare_app, check_app, clear_app, cleared_app, completions_app, dated_app, dry_app, list_app, over_graph_app, programs_app, ranged_app, run_app, running_app, schema_app, show_app, showing_app, single_app, viewing_app};
ghost use Rattle.bf_grammar.specs.inner.Drafts.{IsDraftOf};

use crate::argument::{
    explain_flag, failed_flag, from_option, graph_argument, index_option, journal_option,
    keep_option, launcher_option, logs_option, on_option, option_with_value, optional_positional,
    out_option, plan_flag, positional, progress_flag, quiet_flag, required_option,
    retry_failed_flag, seeds_option, some_flag, stop_after_option, table_argument, task_option,
    to_option, workers_option, zone_file_option,
};
use crate::draft::Draft;
use crate::shown_argument::{
    color_option, json_option, shown_failed_flag, shown_from_option, shown_to_option, width_option,
};
use crate::viewing;
use clap::Command;
use std::alloc::{AllocError, Global};

/// The number of the version, as in the file VERSION.
const VERSION: &str = "0.2.0";

const CHECK_EXAMPLE: &str = "Example:\n\
    \x20 backfill check examples/every_key/graph.json";

const LIST_EXAMPLES: &str = "Examples:\n\
    \x20 backfill list --from 2024-03-30 --to 2024-04-01 examples/clock_change/graph.json\n\
    \x20 backfill list --on 2024-03-30..2024-04-01 examples/clock_change/graph.json";

const SINGLE_EXAMPLE: &str = "Example:\n\
    \x20 backfill single --at 2024-01-01 examples/skip/graph.json examples/skip/table.json";

const DRY_EXAMPLE: &str = "Example:\n\
    \x20 backfill dry --from 2024-01-01 --to 2024-01-31 examples/every_key/graph.json examples/every_key/table.json";

const RUN_EXAMPLES: &str = "Examples:\n\
    \x20 backfill run --from 2024-01-01 --to 2024-01-07 --workers 2 examples/extract_transform_load/graph.json\n\
    \x20 backfill run --from 2024-01-01 --to 2024-01-07 --launcher /usr/bin/env examples/extract_transform_load/graph.json\n\
    \x20 backfill run --from 2024-01-01 --to 2024-01-07 --journal journal --out report examples/extract_transform_load/graph.json\n\
    \x20 backfill run --from 2024-01-01 --to 2024-01-08 --keep report --out report examples/extract_transform_load/graph.json";

const CLEAR_EXAMPLES: &str = "Examples, the first of which makes the report of the others:\n\
    \x20 backfill run --from 2024-01-01 --to 2024-01-07 examples/extract_transform_load/graph.json > report\n\
    \x20 backfill clear --from 2024-01-01 --to 2024-01-07 --task load --run 2024-01-03 examples/extract_transform_load/graph.json report\n\
    \x20 backfill clear --from 2024-01-01 --to 2024-01-07 --failed --plan examples/extract_transform_load/graph.json report";

const SHOW_EXAMPLES: &str = "Examples:\n\
    \x20 backfill show examples/failed_day/graph.json examples/failed_day/report.txt\n\
    \x20 backfill show --json examples/failed_day/report.txt > instances.jsonl";

const SCHEMA_EXAMPLE: &str = "Example:\n\
    \x20 backfill schema graph > graph.schema.json";

const COMPLETIONS_EXAMPLE: &str = "Example, of a file for bash to source:\n\
    \x20 backfill completions bash > backfill.bash";

/// Adds the options of commands that start programs: `--launcher`, `--logs`, the journal's, and `--quiet`.
fn with_program_options<'a>(alloc: Global, command: Draft<'a>) -> Draft<'a>
    ensures { (app : App) → IsDraftOf app command.entry → IsDraftOf (programs_app app) result }
{
    command
        .arg(launcher_option(alloc))
        .arg(logs_option(alloc))
        .arg(journal_option(alloc))
        .arg(stop_after_option(alloc))
        .arg(retry_failed_flag(alloc))
        .arg(quiet_flag(alloc))
}

/// Makes the command `name` with a graph file and `--zone-file` for arguments. Its help begins with `about` and ends
/// with `examples`.
pub(crate) fn new_graph_command<'a>(
    alloc: Global,
    name: &'a str,
    about: &'a str,
    examples: &'a str,
) -> Draft<'a>
    ensures { IsDraftOf (over_graph_app name.entry.now) result }
{
    Draft::new(alloc, name, about, examples)
        .arg(graph_argument(alloc))
        .arg(zone_file_option(alloc))
}

/// Adds the options that say where data intervals start: `--from`, `--to`, `--on` and `--some`.
fn with_range_options<'a>(alloc: Global, command: Draft<'a>) -> Draft<'a>
    ensures { (app : App) → IsDraftOf app command.entry → IsDraftOf (dated_app app) result }
{
    command
        .arg(from_option(alloc))
        .arg(to_option(alloc))
        .arg(on_option(alloc))
        .arg(some_flag(alloc))
}

/// Adds the options of a backfill: those of its range, `--workers`, `--progress` and `--out`.
fn with_backfill_options<'a>(alloc: Global, command: Draft<'a>) -> Draft<'a>
    ensures { (app : App) → IsDraftOf app command.entry → IsDraftOf (ranged_app app) result }
{
    with_range_options(alloc, command)
        .arg(workers_option(alloc))
        .arg(progress_flag(alloc))
        .arg(out_option(alloc))
}

/// Adds the options that say what to clear, and `--plan`.
fn with_cleared_options<'a>(alloc: Global, command: Draft<'a>) -> Draft<'a>
    ensures { (app : App) → IsDraftOf app command.entry → IsDraftOf (cleared_app app) result }
{
    command
        .arg(task_option(alloc))
        .arg(crate::argument::run_option(alloc))
        .arg(index_option(alloc))
        .arg(seeds_option(alloc))
        .arg(failed_flag(alloc))
        .arg(plan_flag(alloc))
}

/// Makes the grammar of the command `check`.
fn check_command<'a>(alloc: Global) -> Draft<'a>
    ensures { IsDraftOf check_app result }
{
    new_graph_command(
        alloc,
        "check",
        "Checks the graph, and tells how many tasks and edges it has",
        CHECK_EXAMPLE,
    )
    .arg(explain_flag(alloc))
}

/// Makes the grammar of the command `list`.
pub(crate) fn list_command<'a>(alloc: Global) -> Draft<'a>
    ensures { IsDraftOf list_app result }
{
    let command = new_graph_command(
        alloc,
        "list",
        "Lists the data intervals of the graph's schedule that start in a range",
        LIST_EXAMPLES,
    );
    with_range_options(alloc, command)
}

/// Makes the grammar of the command `single`.
pub(crate) fn single_command<'a>(alloc: Global) -> Draft<'a>
    ensures { IsDraftOf single_app result }
{
    new_graph_command(
        alloc,
        "single",
        "Runs the graph once, answering each task from a table",
        SINGLE_EXAMPLE,
    )
    .arg(table_argument(alloc))
    .arg(required_option(
        alloc,
        "at",
        "T",
        "The run's moment in UTC, as 2024-01-31 or 2024-01-31T06:00:00Z",
    ))
    .arg(out_option(alloc))
}

/// Makes the grammar of the command `dry`.
pub(crate) fn dry_command<'a>(alloc: Global) -> Draft<'a>
    ensures { IsDraftOf dry_app result }
{
    let command = new_graph_command(
        alloc,
        "dry",
        "Runs the graph for each data interval that starts in a range, answering each task from a table",
        DRY_EXAMPLE,
    );
    with_backfill_options(alloc, command.arg(table_argument(alloc))).arg(keep_option(alloc))
}

/// Makes the grammar of the command `run`.
pub(crate) fn run_command<'a>(alloc: Global) -> Draft<'a>
    ensures { IsDraftOf run_app result }
{
    let command = new_graph_command(
        alloc,
        "run",
        "Runs the graph for each data interval that starts in a range, with the programs of its tasks",
        RUN_EXAMPLES,
    );
    with_program_options(
        alloc,
        with_backfill_options(alloc, command).arg(keep_option(alloc)),
    )
}

/// Makes the grammar of the command `clear`.
pub(crate) fn clear_command<'a>(alloc: Global) -> Draft<'a>
    ensures { IsDraftOf clear_app result }
{
    let command = new_graph_command(
        alloc,
        "clear",
        "Runs tasks of runs again, with all that follows from them, and keeps the rest of a report",
        CLEAR_EXAMPLES,
    )
    .arg(positional(
        alloc,
        "report",
        "REPORT",
        "The report of the backfill to go on from",
    ));
    let command = with_cleared_options(alloc, command).arg(option_with_value(
        alloc,
        "table",
        "table",
        "PATH",
        "The answers of the tasks' tries, a JSON file, in place of their programs",
    ));
    with_program_options(alloc, with_backfill_options(alloc, command))
}

/// Makes the command `show` with its files and its range, without its other options.
fn ranged_show_command<'a>(alloc: Global) -> Draft<'a>
    ensures { IsDraftOf showing_app result }
{
    Draft::new(
        alloc,
        "show",
        "Shows a report as a grid of characters, a column for each run and a row for each task",
        SHOW_EXAMPLES,
    )
    .arg(optional_positional(alloc, "graph", "GRAPH", "The task graph, a JSON file"))
    .arg(optional_positional(alloc, "report", "REPORT", "The report to show"))
    .arg(zone_file_option(alloc))
    .arg(shown_from_option(alloc))
    .arg(shown_to_option(alloc))
}

/// Makes the grammar of the command `show`.
pub(crate) fn show_command<'a>(alloc: Global) -> Draft<'a>
    ensures { IsDraftOf show_app result }
{
    ranged_show_command(alloc)
        .arg(shown_failed_flag(alloc))
        .arg(width_option(alloc))
        .arg(color_option(alloc))
        .arg(json_option(alloc))
}

/// Makes the grammar of the command `schema`.
pub(crate) fn schema_command<'a>(alloc: Global) -> Draft<'a>
    ensures { IsDraftOf schema_app result }
{
    Draft::new(
        alloc,
        "schema",
        "Prints the JSON Schema of graph files or tables, for editors",
        SCHEMA_EXAMPLE,
    )
    .arg(positional(
        alloc,
        "format",
        "FORMAT",
        "The format of the files, graph or table",
    ))
}

/// Makes the grammar of the command `completions`.
pub(crate) fn completions_command<'a>(alloc: Global) -> Draft<'a>
    ensures { IsDraftOf completions_app result }
{
    Draft::new(
        alloc,
        "completions",
        "Prints what a shell completes of a command line",
        COMPLETIONS_EXAMPLE,
    )
    .arg(positional(alloc, "shell", "SHELL", "The shell, bash, zsh or fish"))
}

/// Makes the command line `backfill` without its commands; a line has to have one.
fn line_without_commands<'a>(alloc: Global) -> Draft<'a>
    ensures { IsDraftOf bare_app result }
{
    let command = Command::new(alloc, "backfill")
        .about("Runs a graph of tasks once for each data interval of a range of dates")
        .version(VERSION)
        .subcommand_required(true)
        .arg_required_else_help(true);
    Draft {
        command: Ok(command),
    }
}

/// Makes the command line with `check`, `list`, `single` and `dry`, which start no program.
fn line_without_programs<'a>(alloc: Global) -> Draft<'a>
    ensures { IsDraftOf answered_app result }
{
    line_without_commands(alloc)
        .subcommand(check_command(alloc))
        .subcommand(list_command(alloc))
        .subcommand(single_command(alloc))
        .subcommand(dry_command(alloc))
}

/// Makes the command line with `check`, `list`, `single`, `dry`, `run` and `clear`.
fn line_with_programs<'a>(alloc: Global) -> Draft<'a>
    ensures { IsDraftOf running_app result }
{
    line_without_programs(alloc)
        .subcommand(run_command(alloc))
        .subcommand(clear_command(alloc))
}

/// Makes the command line with all commands except `schema` and `completions`.
fn line_with_views<'a>(alloc: Global) -> Draft<'a>
    ensures { IsDraftOf viewing_app result }
{
    line_with_programs(alloc)
        .subcommand(show_command(alloc))
        .subcommand(viewing::page_command(alloc))
        .subcommand(viewing::explain_command(alloc))
        .subcommand(viewing::answers_command(alloc))
}

/// Makes the whole grammar of the command line, by which `clap` takes a line apart.
pub fn backfill_command<'a>(alloc: Global) -> Result<Command<'a>, AllocError>
    ensures { IfOk result (λ c. app_of c ≡ backfill_app) }
{
    line_with_views(alloc)
        .subcommand(schema_command(alloc))
        .subcommand(completions_command(alloc))
        .command
}
