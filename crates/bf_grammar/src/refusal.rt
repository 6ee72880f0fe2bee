//! What is said of words that `clap` takes, and a command doesn't.
ghost use Rattle.std.specs.Prelude.{◌≡◌, IfOk};
ghost use Rattle.clap.specs.Words.{kind_of};

use crate::command::{
    clear_command, completions_command, dry_command, list_command, run_command, schema_command,
    show_command, single_command,
};
use crate::draft::Draft;
use crate::viewing::explain_command;
use clap::Error;
use clap::error::ErrorKind;
use std::alloc::{AllocError, Global};

/// Answers the grammar of a command that refuses more than `clap` does, and how its usage begins; that of `clear` for
/// any name not listed. No contract speaks of these words.
fn command_and_usage<'a>(alloc: Global, name: &str) -> (Draft<'a>, &'static str) {
    match name {
        "list" => (list_command(alloc), "backfill list"),
        "single" => (single_command(alloc), "backfill single"),
        "dry" => (dry_command(alloc), "backfill dry"),
        "run" => (run_command(alloc), "backfill run"),
        "show" => (show_command(alloc), "backfill show"),
        "explain" => (explain_command(alloc), "backfill explain"),
        "schema" => (schema_command(alloc), "backfill schema"),
        "completions" => (completions_command(alloc), "backfill completions"),
        _ => (clear_command(alloc), "backfill clear"),
    }
}

/// Makes an error as `clap` words it where it refuses a line of the command `name`: `text`, and the command's usage.
pub fn refusal_of(
    alloc: Global,
    name: &str,
    kind: ErrorKind,
    text: &str,
) -> Result<Error, AllocError>
    ensures { IfOk result (λ e. kind_of e ≡ kind) }
{
    let (command, usage) = command_and_usage(alloc, name);
    command.command?.bin_name(usage)?.error(kind, text)
}
