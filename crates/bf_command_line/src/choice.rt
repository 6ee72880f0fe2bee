//! Arguments that say one of a few words.
ghost use Rattle.std.specs.Prelude.{IfOk, codes};
ghost use Rattle.clap.specs.Words.{FailsBy, first_of, found_of, rows_of};
ghost use Rattle.bf_command_line.specs.Wrongs.{color_words, format_words, shell_words, value_wrongs};
ghost use Rattle.bf_command_line.specs.Asked.{IsColorBy, IsFormatBy, IsShellBy};

use crate::forms::{Color, Format, Shell};
use crate::refusal::{unknown_color_error, unknown_format_error, unknown_shell_error};
use clap::{ArgMatches, Error};
use std::alloc::{AllocError, Global};

// `clap` is handed no list of possible values: a clause can't tell where such a list lies, and so not which line has it.
/// Reads the format that `schema` is asked for. `Err` where the word is neither `graph` nor `table`, or at want of
/// memory.
#[tactic(auto, using(crate::proofs::Rows::first_rows))]
pub(crate) fn format_asked(alloc: Global, matches: &ArgMatches<'_>) -> Result<Format, Error>
    ensures ok { IfOk result (IsFormatBy (rows_of (found_of matches.now))) }
    ensures err { FailsBy (value_wrongs format_words
        (first_of (codes "format") (rows_of (found_of matches.now)))) result }
{
    match matches.get_str("format") {
        Some("graph") => Ok(Format::Graph),
        Some("table") => Ok(Format::Table),
        Some(_) => Err(unknown_format_error(alloc)?),
        None => Err(AllocError.into()),
    }
}

/// Reads the shell that `completions` is asked for. `Err` where the word isn't `bash`, `zsh` or `fish`, or at want of
/// memory.
#[tactic(auto, using(crate::proofs::Rows::first_rows))]
pub(crate) fn shell_asked(alloc: Global, matches: &ArgMatches<'_>) -> Result<Shell, Error>
    ensures ok { IfOk result (IsShellBy (rows_of (found_of matches.now))) }
    ensures err { FailsBy (value_wrongs shell_words
        (first_of (codes "shell") (rows_of (found_of matches.now)))) result }
{
    match matches.get_str("shell") {
        Some("bash") => Ok(Shell::Bash),
        Some("zsh") => Ok(Shell::Zsh),
        Some("fish") => Ok(Shell::Fish),
        Some(_) => Err(unknown_shell_error(alloc)?),
        None => Err(AllocError.into()),
    }
}

/// Reads when to colour a grid; `Auto` where `--color` isn't given. `Err` where its word isn't `auto`, `always` or
/// `never`, or at want of memory.
#[tactic(auto, using(crate::proofs::Rows::first_rows))]
pub(crate) fn color_asked(alloc: Global, matches: &ArgMatches<'_>) -> Result<Color, Error>
    ensures ok { IfOk result (IsColorBy
        (first_of (codes "color") (rows_of (found_of matches.now)))) }
    ensures err { FailsBy (value_wrongs color_words
        (first_of (codes "color") (rows_of (found_of matches.now)))) result }
{
    match matches.get_str("color") {
        Some("auto") | None => Ok(Color::Auto),
        Some("always") => Ok(Color::Always),
        Some("never") => Ok(Color::Never),
        Some(_) => Err(unknown_color_error(alloc)?),
    }
}
