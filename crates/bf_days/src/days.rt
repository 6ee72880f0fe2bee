//! Days.
ghost use Rattle.std.specs.Prelude.{◌≡◌, ℤ, IfSome, IfNone};
ghost use Rattle.bf_days.specs.Days.{SpellsDay, SpellDays};
ghost use Rattle.bf_days.specs.declared.days.Days.{Days};

use bf_moment::moment_in;

/// A day, in nanoseconds.
pub(crate) const DAY: i128 = 86_400_000_000_000;

/// Days from `first` to `last`, both included, counted from 1970-01-01, which is 0. `first` may be after `last`.
#[derive(Clone, Copy, Debug, PartialEq, Eq)]
pub struct Days {
    pub first: i64,
    pub last: i64,
}

/// Reads a day spelled as `2024-03-04`, counted from 1970-01-01, which is 0; None for any other text.
fn day_in(text: &str) -> Option<i64>
    ensures found { IfSome result (SpellsDay text.now) }
    ensures none { IfNone result ((day : ℤ) → SpellsDay text.now day → ⊥) }
{
    if text.len() != 10 {
        return None;
    }
    let midnight = moment_in(text)?;
    Some(midnight.as_nanosecond().div_euclid(DAY) as i64)
}

impl Days {
    /// Reads days from a text: one, such as `2024-03-04`, or those from one to another, both included, such as
    /// `2024-03-04..2024-03-10`; None for any other text. The first may be after the last.
    pub fn read(text: &str) -> Option<Days>
        ensures found { IfSome result (SpellDays text.now) }
        ensures none { IfNone result ((days : Days) → SpellDays text.now days → ⊥) }
    {
        match text.split_once("..") {
            Some((first, last)) => {
                let (first, last) = (day_in(first)?, day_in(last)?);
                Some(Days { first, last })
            }
            None => {
                let day = day_in(text)?;
                Some(Days {
                    first: day,
                    last: day,
                })
            }
        }
    }
}
