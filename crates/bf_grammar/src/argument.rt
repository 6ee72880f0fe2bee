//! Arguments of commands, as `clap` reads them.
ghost use Rattle.std.specs.Prelude.{◌≡◌};
ghost use Rattle.clap.specs.Words.{rule_of};
ghost use Rattle.bf_grammar.specs.Grammar.{explain_rule, failed_rule, from_rule, graph_rule, index_rule, journal_rule, keep_rule, launcher_rule, logs_rule, on_rule, option_rule, out_rule, plan_rule, optional_positional_rule, positional_rule, progress_rule, quiet_rule, repeated_rule, required_option_rule, retry_failed_rule, run_rule, seeds_rule, some_rule, stop_after_rule, table_rule, task_rule, to_rule, workers_rule, zone_file_rule};

use bf_workers::MOST_WORKERS;
use clap::{Arg, ArgAction, value_parser};
use std::alloc::Global;

/// Makes a required argument without an option's name. `id` is its key in what `clap` finds; `value` and `help` are its
/// name and text in help.
pub(crate) fn positional<'a>(alloc: Global, id: &'a str, value: &'a str, help: &'a str) -> Arg<'a>
    ensures { rule_of result ≡ positional_rule id.entry.now }
{
    Arg::new(alloc, id)
        .value_name(value)
        .help(help)
        .required(true)
}

/// Makes an argument without an option's name, which a line may leave out. `id` is its key in what `clap` finds;
/// `value` and `help` are its name and text in help.
pub(crate) fn optional_positional<'a>(
    alloc: Global,
    id: &'a str,
    value: &'a str,
    help: &'a str,
) -> Arg<'a>
    ensures { rule_of result ≡ optional_positional_rule id.entry.now }
{
    Arg::new(alloc, id).value_name(value).help(help)
}

/// Makes the option `--long` with a value. `id` is its key in what `clap` finds; `value` and `help` are the value's
/// name and the text in help.
pub(crate) fn option_with_value<'a>(
    alloc: Global,
    id: &'a str,
    long: &'a str,
    value: &'a str,
    help: &'a str,
) -> Arg<'a>
    ensures { rule_of result ≡ option_rule id.entry.now long.entry.now }
{
    Arg::new(alloc, id).long(long).value_name(value).help(help)
}

/// Makes the option `--id` with a value, which a line must have. `value` and `help` are the value's name and the text
/// in help.
pub(crate) fn required_option<'a>(
    alloc: Global,
    id: &'a str,
    value: &'a str,
    help: &'a str,
) -> Arg<'a>
    ensures { rule_of result ≡ required_option_rule id.entry.now }
{
    Arg::new(alloc, id)
        .long(id)
        .value_name(value)
        .help(help)
        .required(true)
}

/// Makes the option `--id` with a value, which a line may give several times. `value` and `help` are the value's name
/// and the text in help.
fn repeated_option<'a>(alloc: Global, id: &'a str, value: &'a str, help: &'a str) -> Arg<'a>
    ensures { rule_of result ≡ repeated_rule id.entry.now }
{
    option_with_value(alloc, id, id, value, help).action(ArgAction::Append)
}

/// Makes the argument that names the graph file.
pub(crate) fn graph_argument<'a>(alloc: Global) -> Arg<'a>
    ensures { rule_of result ≡ graph_rule }
{
    positional(alloc, "graph", "GRAPH", "The task graph, a JSON file")
}

/// Makes the option `--zone-file`, which names the file for a graph whose zone is `file`.
pub(crate) fn zone_file_option<'a>(alloc: Global) -> Arg<'a>
    ensures { rule_of result ≡ zone_file_rule }
{
    option_with_value(
        alloc,
        "zone_file",
        "zone-file",
        "PATH",
        "The zone file that the graph's zone `file` means, as of the tz database",
    )
}

/// Makes the flag `--explain` of `check`, which tells all that is wrong with a graph.
pub(crate) fn explain_flag<'a>(alloc: Global) -> Arg<'a>
    ensures { rule_of result ≡ explain_rule }
{
    Arg::new(alloc, "explain")
        .long("explain")
        .help(
            "Tells on standard error all that is wrong with a graph that is refused, at most 100 findings",
        )
        .action(ArgAction::SetTrue)
}

/// Makes the argument that names the table file.
pub(crate) fn table_argument<'a>(alloc: Global) -> Arg<'a>
    ensures { rule_of result ≡ table_rule }
{
    positional(
        alloc,
        "table",
        "TABLE",
        "The answers of the tasks' tries, a JSON file",
    )
}

/// Makes the option `--from`, the first moment at which a data interval may start.
pub(crate) fn from_option<'a>(alloc: Global) -> Arg<'a>
    ensures { rule_of result ≡ from_rule }
{
    option_with_value(
        alloc,
        "from",
        "from",
        "T",
        "The first moment at which an interval may start, in UTC, as 2024-01-31 or 2024-01-31T06:00:00Z",
    )
}

/// Makes the option `--to`, the last moment at which a data interval may start.
pub(crate) fn to_option<'a>(alloc: Global) -> Arg<'a>
    ensures { rule_of result ≡ to_rule }
{
    option_with_value(
        alloc,
        "to",
        "to",
        "T",
        "The last moment at which an interval may start, in UTC, as 2024-01-31 or 2024-01-31T06:00:00Z",
    )
}

/// Makes the option `--on`, the days on which data intervals start, in place of `--from` and `--to`.
pub(crate) fn on_option<'a>(alloc: Global) -> Arg<'a>
    ensures { rule_of result ≡ on_rule }
{
    option_with_value(
        alloc,
        "on",
        "on",
        "DAYS",
        "In place of both, the days on which an interval starts by the graph's zone, as 2024-01-31 or 2024-01-01..2024-01-31",
    )
}

/// Makes the flag `--some`, which refuses a range without runs.
pub(crate) fn some_flag<'a>(alloc: Global) -> Arg<'a>
    ensures { rule_of result ≡ some_rule }
{
    Arg::new(alloc, "some")
        .long("some")
        .help("Refuses a range in which no interval starts")
        .action(ArgAction::SetTrue)
}

/// Makes the option `--workers`, how many tries may run at once, 1 to 64.
pub(crate) fn workers_option<'a>(alloc: Global) -> Arg<'a>
    ensures { rule_of result ≡ workers_rule }
{
    option_with_value(
        alloc,
        "workers",
        "workers",
        "N",
        "How many tries may run at once, 1 to 64; 1 where this isn't given",
    )
    .value_parser(value_parser!(u32).range(1..=i64::from(MOST_WORKERS)))
}

/// Makes the flag `--progress`, which tells how far the runs are.
pub(crate) fn progress_flag<'a>(alloc: Global) -> Arg<'a>
    ensures { rule_of result ≡ progress_rule }
{
    Arg::new(alloc, "progress")
        .long("progress")
        .help("Tells on standard error how far the runs are, at most once a second")
        .action(ArgAction::SetTrue)
}

/// Makes the option `--out`, which names the file that the report goes to.
pub(crate) fn out_option<'a>(alloc: Global) -> Arg<'a>
    ensures { rule_of result ≡ out_rule }
{
    option_with_value(
        alloc,
        "out",
        "out",
        "PATH",
        "Writes the report to this file, whole or not at all, in place of standard output",
    )
}

/// Makes the option `--keep`, which names a report whose tries are kept.
pub(crate) fn keep_option<'a>(alloc: Global) -> Arg<'a>
    ensures { rule_of result ≡ keep_rule }
{
    option_with_value(
        alloc,
        "keep",
        "keep",
        "REPORT",
        "Keeps the tries of this report of the graph, of whatever range and tasks it is, and runs only the others",
    )
}

/// Makes the option `--launcher`, which names the program that is handed the words of each command.
pub(crate) fn launcher_option<'a>(alloc: Global) -> Arg<'a>
    ensures { rule_of result ≡ launcher_rule }
{
    option_with_value(
        alloc,
        "launcher",
        "launcher",
        "PATH",
        "Hands the words of each task's command to this program; without it the first word is the program",
    )
}

/// Makes the option `--logs`, which names the folder of logs.
pub(crate) fn logs_option<'a>(alloc: Global) -> Arg<'a>
    ensures { rule_of result ≡ logs_rule }
{
    option_with_value(
        alloc,
        "logs",
        "logs",
        "FOLDER",
        "Keeps below this folder what each try writes and what it was given",
    )
}

/// Makes the option `--journal` of commands that start programs, which names the file to record tries in.
pub(crate) fn journal_option<'a>(alloc: Global) -> Arg<'a>
    ensures { rule_of result ≡ journal_rule }
{
    option_with_value(
        alloc,
        "journal",
        "journal",
        "PATH",
        "Records each try in this file as it ends; where it has some, goes on from them",
    )
}

/// Makes the option `--stop-after`, after how many failed tries, 1 or more, no further one begins.
pub(crate) fn stop_after_option<'a>(alloc: Global) -> Arg<'a>
    ensures { rule_of result ≡ stop_after_rule }
{
    option_with_value(
        alloc,
        "stop_after",
        "stop-after",
        "N",
        "Begins no further try behind N failed ones; needs a journal",
    )
    .value_parser(value_parser!(u32).range(1..))
}

/// Makes the flag `--retry-failed`, which makes failed tries of the journal again.
pub(crate) fn retry_failed_flag<'a>(alloc: Global) -> Arg<'a>
    ensures { rule_of result ≡ retry_failed_rule }
{
    Arg::new(alloc, "retry_failed")
        .long("retry-failed")
        .help("Makes the failed tries of the journal again, of what hasn't succeeded since")
        .action(ArgAction::SetTrue)
}

/// Makes the flag `--quiet`, which tells neither progress nor failed tries.
pub(crate) fn quiet_flag<'a>(alloc: Global) -> Arg<'a>
    ensures { rule_of result ≡ quiet_rule }
{
    Arg::new(alloc, "quiet")
        .long("quiet")
        .help("Tells neither progress nor which tries fail")
        .action(ArgAction::SetTrue)
}

/// Makes the option `--task` of `clear`, a task to clear; a line may give it several times.
pub(crate) fn task_option<'a>(alloc: Global) -> Arg<'a>
    ensures { rule_of result ≡ task_rule }
{
    repeated_option(
        alloc,
        "task",
        "ID",
        "A task to clear; with several, the first is of the first --run, and so on",
    )
}

/// Makes the option `--run` of `clear`, the logical date of the run in which a task is cleared; a line may give it
/// several times.
pub(crate) fn run_option<'a>(alloc: Global) -> Arg<'a>
    ensures { rule_of result ≡ run_rule }
{
    repeated_option(
        alloc,
        "run",
        "T",
        "The logical date of the run in which it is cleared, in UTC, as 2024-01-31 or 2024-01-31T06:00:00Z",
    )
}

/// Makes the option `--index` of `clear`, the map index, -1 or more, of a single instance to clear; a line may give it
/// several times.
pub(crate) fn index_option<'a>(alloc: Global) -> Arg<'a>
    ensures { rule_of result ≡ index_rule }
{
    repeated_option(
        alloc,
        "index",
        "N",
        "Clears the instance of this map index alone, and what follows from it; one for each --task, or none",
    )
    .value_parser(value_parser!(i32).range(-1..))
}

/// Makes the option `--seeds` of `clear`, which names a file of what to clear.
pub(crate) fn seeds_option<'a>(alloc: Global) -> Arg<'a>
    ensures { rule_of result ≡ seeds_rule }
{
    option_with_value(
        alloc,
        "seeds",
        "seeds",
        "PATH",
        "In place of these, a file of what to clear, a line RUN TASK or RUN TASK INDEX each",
    )
}

/// Makes the flag `--failed` of `clear`, which clears each failed instance.
pub(crate) fn failed_flag<'a>(alloc: Global) -> Arg<'a>
    ensures { rule_of result ≡ failed_rule }
{
    Arg::new(alloc, "failed")
        .long("failed")
        .help("In place of these, clears each instance that failed")
        .action(ArgAction::SetTrue)
}

/// Makes the flag `--plan` of `clear`, which only prints what would be cleared.
pub(crate) fn plan_flag<'a>(alloc: Global) -> Arg<'a>
    ensures { rule_of result ≡ plan_rule }
{
    Arg::new(alloc, "plan")
        .long("plan")
        .help("Prints which tasks of which runs are cleared, and runs nothing")
        .action(ArgAction::SetTrue)
}
