//! The commands that show a report, as `clap` reads them.
ghost use Rattle.std.specs.Prelude.{◌≡◌};
ghost use Rattle.clap.specs.Words.{rule_of};
ghost use Rattle.bf_grammar.specs.Grammar.{answers_app, explain_app, journal_rule, one_index_rule, one_run_rule, one_task_rule, over_report_app, page_app, states_only_rule};
ghost use Rattle.bf_grammar.specs.inner.Drafts.{IsDraftOf};

use crate::argument::{option_with_value, positional, required_option};
use crate::command::new_graph_command;
use crate::draft::Draft;
use clap::{Arg, ArgAction, value_parser};
use std::alloc::Global;

const PAGE_EXAMPLE: &str = "Example:\n\
    \x20 backfill page examples/failed_day/graph.json examples/failed_day/report.txt > page.html";

const EXPLAIN_EXAMPLES: &str = "Examples:\n\
    \x20 backfill explain --task publish --run 2024-03-05 examples/failed_day/graph.json examples/failed_day/report.txt\n\
    \x20 backfill explain --run 2024-03-05 examples/failed_day/graph.json examples/failed_day/report.txt";

const ANSWERS_EXAMPLE: &str = "Example:\n\
    \x20 backfill answers examples/failed_day/report.txt > table.json";

/// Makes the flag `--states-only` of `page`, which leaves the report's text out of the page.
fn states_only_flag<'a>(alloc: Global) -> Arg<'a>
    ensures { rule_of result ≡ states_only_rule }
{
    Arg::new(alloc, "states_only")
        .long("states-only")
        .help(
            "Leaves the report out of the page, which then has states and reasons, but no tries and values",
        )
        .action(ArgAction::SetTrue)
}

/// Makes the option `--journal` of `page`, which names a journal to take the times of tries from.
fn page_journal_option<'a>(alloc: Global) -> Arg<'a>
    ensures { rule_of result ≡ journal_rule }
{
    option_with_value(
        alloc,
        "journal",
        "journal",
        "PATH",
        "Adds from this journal of the runs when each try started, how long it took, and its exit code",
    )
}

/// Makes the option `--run` of `explain`, the logical date of the run, which a line must have.
fn explained_run_option<'a>(alloc: Global) -> Arg<'a>
    ensures { rule_of result ≡ one_run_rule }
{
    required_option(
        alloc,
        "run",
        "T",
        "The logical date of the run, in UTC, as 2024-01-31 or 2024-01-31T06:00:00Z",
    )
}

/// Makes the option `--task` of `explain`, the id of the task.
fn explained_task_option<'a>(alloc: Global) -> Arg<'a>
    ensures { rule_of result ≡ one_task_rule }
{
    option_with_value(
        alloc,
        "task",
        "task",
        "ID",
        "The task; without it the run is explained",
    )
}

/// Makes the option `--index` of `explain`, the map index, -1 or more, of a single instance.
fn explained_index_option<'a>(alloc: Global) -> Arg<'a>
    ensures { rule_of result ≡ one_index_rule }
{
    option_with_value(
        alloc,
        "index",
        "index",
        "N",
        "The map index of one instance of an expanded task; needs --task",
    )
    .value_parser(value_parser!(i32).range(-1..))
}

/// Makes the command `name` with a graph file, `--zone-file` and a report for arguments. Its help begins with `about`
/// and ends with `examples`; `report` is the text on the report.
fn new_report_command<'a>(
    alloc: Global,
    name: &'a str,
    about: &'a str,
    report: &'a str,
    examples: &'a str,
) -> Draft<'a>
    ensures { IsDraftOf (over_report_app name.entry.now) result }
{
    new_graph_command(alloc, name, about, examples).arg(positional(
        alloc, "report", "REPORT", report,
    ))
}

/// Makes the grammar of the command `page`.
pub(crate) fn page_command<'a>(alloc: Global) -> Draft<'a>
    ensures { IsDraftOf page_app result }
{
    new_report_command(
        alloc,
        "page",
        "Writes a page that shows a report: its runs and tasks as a grid, the graph, and why each task has its state",
        "The report to show",
        PAGE_EXAMPLE,
    )
    .arg(states_only_flag(alloc))
    .arg(page_journal_option(alloc))
}

/// Makes the grammar of the command `explain`.
pub(crate) fn explain_command<'a>(alloc: Global) -> Draft<'a>
    ensures { IsDraftOf explain_app result }
{
    new_report_command(
        alloc,
        "explain",
        "Tells why a task of a run, or a run, has its state",
        "The report that has it",
        EXPLAIN_EXAMPLES,
    )
    .arg(explained_run_option(alloc))
    .arg(explained_task_option(alloc))
    .arg(explained_index_option(alloc))
}

/// Makes the grammar of the command `answers`.
pub(crate) fn answers_command<'a>(alloc: Global) -> Draft<'a>
    ensures { IsDraftOf answers_app result }
{
    Draft::new(
        alloc,
        "answers",
        "Prints the table of answers over which a dry backfill has a report again",
        ANSWERS_EXAMPLE,
    )
    .arg(positional(alloc, "report", "REPORT", "The report"))
}
