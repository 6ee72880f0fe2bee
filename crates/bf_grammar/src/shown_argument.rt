//! Arguments of `show`.
ghost use Rattle.std.specs.Prelude.{◌≡◌};
ghost use Rattle.clap.specs.Words.{rule_of};
ghost use Rattle.bf_grammar.specs.Grammar.{color_rule, failed_rule, from_rule, json_rule, to_rule, width_rule};

use crate::argument::option_with_value;
use clap::{Arg, ArgAction, value_parser};
use std::alloc::Global;

/// Makes the option `--from` of `show`, the first moment at which a run that is shown may start.
pub(crate) fn shown_from_option<'a>(alloc: Global) -> Arg<'a>
    ensures { rule_of result ≡ from_rule }
{
    option_with_value(
        alloc,
        "from",
        "from",
        "T",
        "Shows the runs from this moment on, in UTC, as 2024-01-31 or 2024-01-31T06:00:00Z",
    )
}

/// Makes the option `--to` of `show`, the last moment at which a run that is shown may start.
pub(crate) fn shown_to_option<'a>(alloc: Global) -> Arg<'a>
    ensures { rule_of result ≡ to_rule }
{
    option_with_value(
        alloc,
        "to",
        "to",
        "T",
        "Shows the runs up to this moment, in UTC, as 2024-01-31 or 2024-01-31T06:00:00Z",
    )
}

/// Makes the flag `--failed` of `show`, which shows only tasks and runs with something failed, upstream_failed or
/// without a status.
pub(crate) fn shown_failed_flag<'a>(alloc: Global) -> Arg<'a>
    ensures { rule_of result ≡ failed_rule }
{
    Arg::new(alloc, "failed")
        .long("failed")
        .help(
            "Shows only tasks and runs with something that failed, upstream_failed or has no status",
        )
        .action(ArgAction::SetTrue)
}

/// Makes the option `--width` of `show`, the width of the grid in characters, 20 to 10,000.
pub(crate) fn width_option<'a>(alloc: Global) -> Arg<'a>
    ensures { rule_of result ≡ width_rule }
{
    option_with_value(
        alloc,
        "width",
        "width",
        "N",
        "The width in characters, 20 to 10,000; that of COLUMNS where this isn't given, or 80",
    )
    .value_parser(value_parser!(u32).range(20..=10_000))
}

/// Makes the option `--color` of `show`, when to colour the grid. `clap` takes any word here; bf_command_line refuses
/// unknown ones.
pub(crate) fn color_option<'a>(alloc: Global) -> Arg<'a>
    ensures { rule_of result ≡ color_rule }
{
    option_with_value(
        alloc,
        "color",
        "color",
        "WHEN",
        "When to colour: auto, always or never; auto where this isn't given, which is on a terminal without NO_COLOR",
    )
}

/// Makes the option `--json` of `show`, which names a report to print as lines of JSON.
pub(crate) fn json_option<'a>(alloc: Global) -> Arg<'a>
    ensures { rule_of result ≡ json_rule }
{
    option_with_value(
        alloc,
        "json",
        "json",
        "REPORT",
        "In place of a grid, prints a JSON object of each task instance of this report, a line each; needs no graph",
    )
}
