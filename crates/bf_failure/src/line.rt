//! The line of a failed try.
ghost use Rattle.std.specs.Prelude.{◌≡◌, IfOk, option_map, string_bytes};
ghost use Rattle.bf_failure.specs.Told.{log_ending_of, failed_line_of, log_hint_text_of};
ghost use Rattle.bf_failure.specs.Tried.{try_text_of};

use crate::failure::Failure;
use crate::log::{index_text, log_path};
use bf_quoted::push_shown_value;
use bf_value::OutOfMemory;
use bf_words::JobContext;
use std::alloc::Global;

/// Gives the ending of the log that tells more of this failure: `.err` for an exit status, a signal or a program that
/// wasn't started, else `.out`.
fn log_ending(failure: &Failure) -> &'static str
    ensures { result.now ≡ log_ending_of failure.now }
{
    match failure {
        Failure::Status(_) | Failure::Signal(_) | Failure::NotStarted(_) => ".err",
        _ => ".out",
    }
}

/// Makes the words `, see PATH` that point to the log of a failed try below the folder `logs`; empty where no logs are
/// kept.
fn log_hint_text(
    alloc: Global,
    logs: Option<&str>,
    context: &JobContext<'_>,
    failure: &Failure,
) -> Result<String, OutOfMemory>
    ensures { IfOk result (λ text.
        string_bytes text
        ≡ log_hint_text_of (option_map (λ l. l.now) logs.entry) context.now failure.now) }
{
    let Some(folder) = logs else {
        return Ok(String::new(alloc));
    };
    let path = log_path(alloc, folder, context, log_ending(failure))?;
    Ok(format!(in alloc; ", see {path}")?)
}

/// Spells a try as `load 2024-02-14T00:00:00Z index 2 try 1`, without the index for a task that isn't expanded.
pub fn try_text(alloc: Global, context: &JobContext<'_>) -> Result<String, OutOfMemory>
    ensures { IfOk result (λ text. string_bytes text ≡ try_text_of context.now) }
{
    let (task, run, attempt) = (
        context.task_id,
        context.data_interval_start,
        context.try_number,
    );
    let index = index_text(alloc, " index ", context.map_index, "")?;
    Ok(format!(in alloc; "{task} {run}{index} try {attempt}")?)
}

/// Makes the line for a failed try, with its line feed, in the form `failed: load 2024-02-14T00:00:00Z index 2 try 1:
/// exit status 3, see PATH`, in which a terminal shows each character as itself. The path is that of a log below the
/// folder `logs`, and is left out for None.
pub fn failed_line(
    alloc: Global,
    logs: Option<&str>,
    context: &JobContext<'_>,
    failure: &Failure,
) -> Result<String, OutOfMemory>
    ensures { IfOk result (λ line.
        string_bytes line
        ≡ failed_line_of (option_map (λ l. l.now) logs.entry) context.now failure.now) }
{
    let name = try_text(alloc, context)?;
    let see = log_hint_text(alloc, logs, context, failure)?;
    let told = format!(in alloc; "failed: {name}: {failure}{see}")?;
    let mut line = String::new(alloc);
    push_shown_value(&mut line, told.as_str())?;
    line.push_str("\n")?;
    Ok(line)
}
