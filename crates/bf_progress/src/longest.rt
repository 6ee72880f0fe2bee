//! The lines of the try that runs longest, and of the one that waits longest.
ghost use Rattle.std.specs.Prelude.{◌≡◌, IfOk, string_bytes};
ghost use Rattle.bf_progress.specs.inner.Lines.{clock_text_of, delayed_line_of, longest_line_of};

use bf_failure::try_text;
use bf_value::OutOfMemory;
use bf_words::JobContext;
use std::alloc::Global;

/// Makes the line of the longest running try, with its line feed, in the form `running for 3600 s: crawl
/// 2024-01-01T05:00:00Z try 1`; an instance of an expanded task has its map index too (`try_text`).
pub(crate) fn longest_line(
    alloc: Global,
    seconds: u64,
    context: &JobContext<'_>,
) -> Result<String, OutOfMemory>
    ensures { IfOk result (λ line. string_bytes line ≡ longest_line_of seconds context.now) }
{
    let text = try_text(alloc, context)?;
    Ok(format!(in alloc; "running for {seconds} s: {text}\n")?)
}

/// Spells a second of a day as `14:05:10`.
fn clock_text(alloc: Global, second: u64) -> Result<String, OutOfMemory>
    ensures { IfOk result (λ text. string_bytes text ≡ clock_text_of second) }
{
    let (hour, minute, second) = (second / 3_600, second / 60 % 60, second % 60);
    Ok(format!(in alloc;
        "{}{}:{}{}:{}{}",
        hour / 10,
        hour % 10,
        minute / 10,
        minute % 10,
        second / 10,
        second % 10
    )?)
}

/// Makes the line of a try that waits for its delay, with its line feed, in the form `waiting until 14:05:10: load
/// 2024-02-14T00:00:00Z try 2`. `second` is the second of the day, in UTC, at which the delay is over.
pub(crate) fn delayed_line(
    alloc: Global,
    second: u64,
    context: &JobContext<'_>,
) -> Result<String, OutOfMemory>
    ensures { IfOk result (λ line. string_bytes line ≡ delayed_line_of second context.now) }
{
    let clock = clock_text(alloc, second)?;
    let text = try_text(alloc, context)?;
    Ok(format!(in alloc; "waiting until {clock}: {text}\n")?)
}
