//! Instances counted by state.
ghost use Rattle.std.specs.Prelude.{◌≡◌, ◌++◌, ◌∷◌, IfOk, OnOk};
ghost use Rattle.bf_why.specs.Counted.{counts_text_of, part};
ghost use Rattle.bf_wording.specs.Numbers.{number_text};

use bf_rule::Counts;
use bf_value::{OutOfMemory, Text};
use bf_wording::{push_separated, text_of_number};
use std::alloc::Global;

/// A count and its state, such as `2 success`.
fn state_count_text(alloc: Global, count: u32, state: &str) -> Result<Text, OutOfMemory>
    ensures { IfOk result (λ text. text ≡ number_text count ++ 32 ∷ state.now) }
{
    let count = text_of_number(alloc, u64::from(count))?;
    Ok(Text::new(format!(in alloc; "{count} {state}")?))
}

/// Adds a count and its state, such as `2 success`, to `parts`; adds nothing where the count is 0.
fn add_state_count(
    alloc: Global,
    parts: &mut Vec<Text>,
    count: u32,
    state: &str,
) -> Result<(), OutOfMemory>
    ensures { OnOk result (parts.new.items ≡ parts.old.items ++ part count state.now) }
{
    if count > 0 {
        parts.push(state_count_text(alloc, count, state)?)?;
    }
    Ok(())
}

/// How many instances are in each state, such as `2 success, 1 failed`. It leaves out states without an instance, and
/// always the unfinished ones.
pub fn counts_text(alloc: Global, counts: &Counts) -> Result<Text, OutOfMemory>
    ensures { IfOk result (λ text. text ≡ counts_text_of counts.now) }
{
    let mut parts = Vec::new(alloc);
    add_state_count(alloc, &mut parts, counts.success, "success")?;
    add_state_count(alloc, &mut parts, counts.failed, "failed")?;
    add_state_count(alloc, &mut parts, counts.upstream_failed, "upstream_failed")?;
    add_state_count(alloc, &mut parts, counts.skipped, "skipped")?;
    add_state_count(alloc, &mut parts, counts.blocked, "no_status")?;
    let mut text = String::new(alloc);
    push_separated(&mut text, ", ", parts.as_slice())?;
    Ok(Text::new(text))
}
