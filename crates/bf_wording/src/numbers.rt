//! Numbers, each added behind a text.
ghost use Rattle.std.specs.Prelude.{◌≡◌, ◌++◌, ◌<◌, All, OnOk, length, string_bytes};
ghost use Rattle.bf_wording.specs.Numbers.{number_text, count_text_of, with_commas};

use bf_value::OutOfMemory;
use std::alloc::Global;

/// Adds a number's ASCII digits, with commas between groups of three, in the form `8,192,000`.
fn push_with_commas(text: &mut String, digits: &[u8]) -> Result<(), OutOfMemory>
    requires { All (λ digit. digit < 128) digits.now }
    ensures { OnOk result (string_bytes text.new
        ≡ string_bytes text.old ++ with_commas digits.now) }
{
    for (index, digit) in digits.iter().enumerate() {
        let left = digits.len() - index - 1;
        text.push(char::from(*digit))?;
        if left % 3 == 0 && left > 0 {
            text.push_str(",")?;
        }
    }
    Ok(())
}

/// Adds a number with commas between groups of three digits, in the form `8,192,000`.
pub fn push_number(alloc: Global, text: &mut String, number: u64) -> Result<(), OutOfMemory>
    ensures { OnOk result (string_bytes text.new
        ≡ string_bytes text.old ++ number_text number) }
{
    let digits = number.to_string(alloc)?;
    push_with_commas(text, digits.as_bytes())
}

/// Adds a number with commas and its noun in the form `1 run` or `2 runs`; `one` is the noun's singular.
pub fn push_count(
    alloc: Global,
    text: &mut String,
    number: u64,
    one: &str,
) -> Result<(), OutOfMemory>
    ensures { OnOk result (string_bytes text.new
        ≡ string_bytes text.old ++ count_text_of number one.now) }
{
    push_number(alloc, text, number)?;
    text.push_str(" ")?;
    text.push_str(one)?;
    if number != 1 {
        text.push_str("s")?;
    }
    Ok(())
}
