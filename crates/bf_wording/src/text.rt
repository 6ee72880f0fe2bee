//! Pieces of sentences.
ghost use Rattle.std.specs.Prelude.{◌≡◌, IfOk};
ghost use Rattle.bf_wording.specs.Lists.{name_list_of};
ghost use Rattle.bf_wording.specs.Numbers.{number_text, count_text_of};

use crate::lists::push_name_list;
use crate::numbers::{push_count, push_number};
use bf_value::{OutOfMemory, Text};
use std::alloc::Global;

/// How many names a sentence lists where at least two more follow; it lists up to one more than that in full.
const MOST_NAMES: usize = 5;

/// Spells a number with commas between groups of three digits, in the form `8,192,000`.
pub fn text_of_number(alloc: Global, count: u64) -> Result<Text, OutOfMemory>
    ensures { IfOk result (λ text. text ≡ number_text count) }
{
    let mut text = String::new(alloc);
    push_number(alloc, &mut text, count)?;
    Ok(Text::new(text))
}

/// Spells a number with commas and its noun in the form `1 run` or `2 runs`; `one` is the noun's singular.
pub fn count_text(alloc: Global, count: u64, one: &str) -> Result<Text, OutOfMemory>
    ensures { IfOk result (λ text. text ≡ count_text_of count one.now) }
{
    let mut text = String::new(alloc);
    push_count(alloc, &mut text, count, one)?;
    Ok(Text::new(text))
}

/// Lists names in the form `a, b and c`; of more than 6 names the first 5 and how many more there are, as in `a, b, c,
/// d, e and 3 more`.
pub fn name_list(alloc: Global, names: &[Text]) -> Result<Text, OutOfMemory>
    ensures { IfOk result (λ text. text ≡ name_list_of 5 names.now) }
{
    let mut text = String::new(alloc);
    push_name_list(alloc, &mut text, names, MOST_NAMES)?;
    Ok(Text::new(text))
}
