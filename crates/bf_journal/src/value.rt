//! Texts and moments as values.
ghost use Rattle.std.specs.Prelude.{◌≡◌, IfOk};
ghost use Rattle.bf_value.specs.declared.xval.Xval.TheVariants.{Text as TextValue};
ghost use Rattle.bf_moment.specs.Moment.{IsShown, moment_text};

use bf_moment::Moment;
use bf_value::{OutOfMemory, Text, Xval};
use jiff::Timestamp;
use std::alloc::Global;

/// Makes a value of a text.
pub(crate) fn text_value(alloc: Global, text: &str) -> Result<Xval, OutOfMemory>
    ensures { IfOk result (λ v. v ≡ TextValue text.now) }
{
    Ok(Xval::Text(Text::copy_of(alloc, text)?))
}

/// Makes a value of a moment's text, in the form `2024-01-31T06:05:09Z`.
pub(crate) fn moment_value(alloc: Global, at: Timestamp) -> Result<Xval, OutOfMemory>
    requires { IsShown at.nanosecond }
    ensures { IfOk result (λ v. v ≡ TextValue (moment_text at.nanosecond)) }
{
    Ok(Xval::Text(Text::new(Moment::new(at).to_string(alloc)?)))
}
