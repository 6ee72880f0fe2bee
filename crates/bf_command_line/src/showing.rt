//! Reads the words of `show`.
ghost use Rattle.std.specs.Prelude.{◌≡◌, IfOk, Some, codes, false};
ghost use Rattle.clap.specs.Words.{FailsBy, first_of, found_of, rows_of};
ghost use Rattle.bf_command_line.specs.Wrongs.{color_words, show_wrongs, value_wrongs};
ghost use Rattle.bf_command_line.specs.Asked.{is_given_in, has_grid_options_in, IsAskedBy};

use crate::choice::color_asked;
use crate::forms::{Asked, ShowAsked};
use crate::range::graph_asked;
use crate::refusal::{json_with_grid_error, missing_report_error};
use crate::value::{is_flag_set, is_given, optional_number, optional_text, required_text};
use clap::{ArgMatches, Error};
use std::alloc::Global;

/// Whether `show` has a file or an option that only its grid takes, and not `--json`.
fn has_grid_options(matches: &ArgMatches<'_>) -> bool
    ensures { result ≡ has_grid_options_in (rows_of (found_of matches.now)) }
{
    is_given(matches, "graph")
        || is_given(matches, "report")
        || is_given(matches, "zone_file")
        || is_given(matches, "from")
        || is_given(matches, "to")
        || is_given(matches, "width")
        || is_given(matches, "color")
        || is_flag_set(matches, "failed")
}

/// Reads what `show` without `--json` asks for. `Err` where `--color` has another word than `auto`, `always` and
/// `never`, a file is missing, or memory runs out.
fn grid_asked(alloc: Global, matches: &ArgMatches<'_>) -> Result<Asked, Error>
    requires { is_given_in (codes "json") (rows_of (found_of matches.now)) ≡ false }
    ensures ok { IfOk result (IsAskedBy (Some (codes "show", rows_of (found_of matches.now)))) }
    ensures err { FailsBy (value_wrongs color_words
        (first_of (codes "color") (rows_of (found_of matches.now)))) result }
{
    let color = color_asked(alloc, matches)?;
    Ok(Asked::Show(ShowAsked {
        graph: graph_asked(alloc, matches)?,
        report: required_text(alloc, matches, "report")?,
        from: optional_text(alloc, matches, "from")?,
        to: optional_text(alloc, matches, "to")?,
        failed: is_flag_set(matches, "failed"),
        width: optional_number(matches, "width")?,
        color,
    }))
}

/// Reads what `show` asks for: a grid, or with `--json` lines of JSON. `Err` where graph and report or `--json` are
/// missing, `--json` has anything beside it, `--color` an unknown word, or memory runs out.
pub(crate) fn show_asked(alloc: Global, matches: &ArgMatches<'_>) -> Result<Asked, Error>
    ensures ok { IfOk result (IsAskedBy (Some (codes "show", rows_of (found_of matches.now)))) }
    ensures err { FailsBy (show_wrongs (rows_of (found_of matches.now))) result }
{
    if is_given(matches, "json") {
        if has_grid_options(matches) {
            return Err(json_with_grid_error(alloc)?);
        }
        return Ok(Asked::ShowJson(required_text(alloc, matches, "json")?));
    }
    if !is_given(matches, "graph") || !is_given(matches, "report") {
        return Err(missing_report_error(alloc)?);
    }
    grid_asked(alloc, matches)
}
