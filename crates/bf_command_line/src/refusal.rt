//! What is said of words that `clap` takes, and a command doesn't.
ghost use Rattle.std.specs.Prelude.{◌≡◌, IfOk};
ghost use Rattle.clap.specs.Words.{kind_of};

use bf_grammar::refusal_of;
use clap::Error;
use clap::error::ErrorKind;
use std::alloc::{AllocError, Global};

const NO_FORMAT: &str = "invalid value for '<FORMAT>'\n\
    \x20 [possible values: graph, table]";

const NO_JOURNAL: &str = "the following required arguments were not provided:\n\
    \x20 --journal <PATH>";

const NO_FOLDER: &str = "a value is required for '--logs <FOLDER>' but none was supplied";

const NO_RANGE: &str = "the following required arguments were not provided:\n\
    \x20 --from <T> and --to <T>, or --on <DAYS>";

const TWO_RANGES: &str =
    "the argument '--on <DAYS>' cannot be used with '--from <T>' or '--to <T>'";

const OVERWRITING: &str =
    "the argument '--out <PATH>' cannot name a file that the command reads, or its journal";

const NOTHING_CLEARED: &str = "the following required arguments were not provided:\n\
    \x20 --task <ID> and --run <T>, or --seeds <PATH>, or --failed";

const CLEARED_TWICE: &str =
    "only one of '--task <ID>' with '--run <T>', '--seeds <PATH>' and '--failed' can be used";

const UNPAIRED: &str =
    "each '--task <ID>' needs a '--run <T>', and each '--run <T>' a '--task <ID>'";

const ODD_INDEXES: &str = "as many '--index <N>' are needed as '--task <ID>', or none";

const NO_TASK: &str = "the following required arguments were not provided:\n\
    \x20 --task <ID>";

const NO_REPORT: &str = "the following required arguments were not provided:\n\
    \x20 <GRAPH> and <REPORT>, or --json <REPORT>";

const JSON_WITH_MORE: &str = "the argument '--json <REPORT>' cannot be used with another";

const NO_COLOR_WORD: &str = "invalid value for '--color <WHEN>'\n\
    \x20 [possible values: auto, always, never]";

const NO_SHELL: &str = "invalid value for '<SHELL>'\n\
    \x20 [possible values: bash, zsh, fish]";

/// Makes the error for a line of the command `name` that lacks `--from` and `--to`, or `--on`.
pub(crate) fn missing_range_error(alloc: Global, name: &str) -> Result<Error, AllocError>
    ensures { IfOk result (λ e. kind_of e ≡ ErrorKind.MissingRequiredArgument) }
{
    refusal_of(alloc, name, ErrorKind::MissingRequiredArgument, NO_RANGE)
}

/// Makes the error for a line of the command `name` that has `--on` beside `--from` or `--to`.
pub(crate) fn two_ranges_error(alloc: Global, name: &str) -> Result<Error, AllocError>
    ensures { IfOk result (λ e. kind_of e ≡ ErrorKind.ArgumentConflict) }
{
    refusal_of(alloc, name, ErrorKind::ArgumentConflict, TWO_RANGES)
}

/// Makes the error for a line of the command `name` that has `--stop-after` or `--retry-failed`, but no `--journal`.
pub(crate) fn missing_journal_error(alloc: Global, name: &str) -> Result<Error, AllocError>
    ensures { IfOk result (λ e. kind_of e ≡ ErrorKind.MissingRequiredArgument) }
{
    refusal_of(alloc, name, ErrorKind::MissingRequiredArgument, NO_JOURNAL)
}

/// Makes the error for a line of the command `name` whose `--logs` is empty.
pub(crate) fn unnamed_folder_error(alloc: Global, name: &str) -> Result<Error, AllocError>
    ensures { IfOk result (λ e. kind_of e ≡ ErrorKind.InvalidValue) }
{
    refusal_of(alloc, name, ErrorKind::InvalidValue, NO_FOLDER)
}

/// Makes the error for a line of the command `name` whose `--out` names a file that it reads, or its journal.
pub(crate) fn overwriting_error(alloc: Global, name: &str) -> Result<Error, AllocError>
    ensures { IfOk result (λ e. kind_of e ≡ ErrorKind.ArgumentConflict) }
{
    refusal_of(alloc, name, ErrorKind::ArgumentConflict, OVERWRITING)
}

/// Makes the error for a line of `clear` that doesn't say what to clear.
pub(crate) fn nothing_cleared_error(alloc: Global) -> Result<Error, AllocError>
    ensures { IfOk result (λ e. kind_of e ≡ ErrorKind.MissingRequiredArgument) }
{
    refusal_of(
        alloc,
        "clear",
        ErrorKind::MissingRequiredArgument,
        NOTHING_CLEARED,
    )
}

/// Makes the error for a line of `clear` that says in more than one way what to clear.
pub(crate) fn cleared_twice_error(alloc: Global) -> Result<Error, AllocError>
    ensures { IfOk result (λ e. kind_of e ≡ ErrorKind.ArgumentConflict) }
{
    refusal_of(alloc, "clear", ErrorKind::ArgumentConflict, CLEARED_TWICE)
}

/// Makes the error for a line of `clear` that has more values of `--task` than of `--run`, or fewer.
pub(crate) fn unpaired_tasks_error(alloc: Global) -> Result<Error, AllocError>
    ensures { IfOk result (λ e. kind_of e ≡ ErrorKind.MissingRequiredArgument) }
{
    refusal_of(alloc, "clear", ErrorKind::MissingRequiredArgument, UNPAIRED)
}

/// Makes the error for a line of `clear` that has more values of `--index` than of `--task`, or fewer.
pub(crate) fn unpaired_indexes_error(alloc: Global) -> Result<Error, AllocError>
    ensures { IfOk result (λ e. kind_of e ≡ ErrorKind.WrongNumberOfValues) }
{
    refusal_of(alloc, "clear", ErrorKind::WrongNumberOfValues, ODD_INDEXES)
}

/// Makes the error for a line of `explain` that has `--index`, but no `--task`.
pub(crate) fn missing_task_error(alloc: Global) -> Result<Error, AllocError>
    ensures { IfOk result (λ e. kind_of e ≡ ErrorKind.MissingRequiredArgument) }
{
    refusal_of(
        alloc,
        "explain",
        ErrorKind::MissingRequiredArgument,
        NO_TASK,
    )
}

/// Makes the error for a line of `show` that names neither a graph with its report nor, by `--json`, a report.
pub(crate) fn missing_report_error(alloc: Global) -> Result<Error, AllocError>
    ensures { IfOk result (λ e. kind_of e ≡ ErrorKind.MissingRequiredArgument) }
{
    refusal_of(alloc, "show", ErrorKind::MissingRequiredArgument, NO_REPORT)
}

/// Makes the error for a line of `show` that has `--json` beside an argument of the grid.
pub(crate) fn json_with_grid_error(alloc: Global) -> Result<Error, AllocError>
    ensures { IfOk result (λ e. kind_of e ≡ ErrorKind.ArgumentConflict) }
{
    refusal_of(alloc, "show", ErrorKind::ArgumentConflict, JSON_WITH_MORE)
}

/// Makes the error for a `--color` of another word than `auto`, `always` and `never`.
pub(crate) fn unknown_color_error(alloc: Global) -> Result<Error, AllocError>
    ensures { IfOk result (λ e. kind_of e ≡ ErrorKind.InvalidValue) }
{
    refusal_of(alloc, "show", ErrorKind::InvalidValue, NO_COLOR_WORD)
}

/// Makes the error for a `schema` of another word than `graph` and `table`.
pub(crate) fn unknown_format_error(alloc: Global) -> Result<Error, AllocError>
    ensures { IfOk result (λ e. kind_of e ≡ ErrorKind.InvalidValue) }
{
    refusal_of(alloc, "schema", ErrorKind::InvalidValue, NO_FORMAT)
}

/// Makes the error for `completions` of another word than `bash`, `zsh` and `fish`.
pub(crate) fn unknown_shell_error(alloc: Global) -> Result<Error, AllocError>
    ensures { IfOk result (λ e. kind_of e ≡ ErrorKind.InvalidValue) }
{
    refusal_of(alloc, "completions", ErrorKind::InvalidValue, NO_SHELL)
}
