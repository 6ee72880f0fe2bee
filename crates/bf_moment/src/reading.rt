//! Moments from texts.
ghost use Rattle.std.specs.Prelude.{◌≡◌, ℕ, ℤ, ◌<◌, [], ◌∷◌, IfSome, IfNone};
ghost use Rattle.jiff.specs.Types.{Date, Time, DateTime};
ghost use Rattle.jiff.specs.Words.{civil_nanos};
ghost use Rattle.bf_moment.specs.Moment.{two, four, Spells, nearest};
ghost use Rattle.bf_moment.specs.Long.{is_long};
ghost use Rattle.bf_moment.specs.inner.Clock.{IsShownDate, SpellsClock, clock_date_text, clock_time_text};

use jiff::Timestamp;
use jiff::civil::{Date, DateTime, Time};
use jiff::tz::Offset;

/// Gives the number that two ASCII digits spell; None where one is no digit.
fn number_of_two_digits(tens: u8, ones: u8) -> Option<u8>
    ensures found { IfSome result (λ n. (n < 100) × (two n ≡ tens ∷ ones ∷ [])) }
    ensures none { IfNone result ((n : ℕ) → n < 100 → two n ≡ tens ∷ ones ∷ [] → ⊥) }
{
    if !tens.is_ascii_digit() || !ones.is_ascii_digit() {
        return None;
    }
    Some(10 * (tens - b'0') + (ones - b'0'))
}

/// Gives the number that four ASCII digits spell; None where one is no digit.
fn number_of_four_digits(a: u8, b: u8, c: u8, d: u8) -> Option<u16>
    ensures found { IfSome result (λ n. (n < 10_000) × (four n ≡ a ∷ b ∷ c ∷ d ∷ [])) }
    ensures none { IfNone result ((n : ℕ) → n < 10_000 → four n ≡ a ∷ b ∷ c ∷ d ∷ [] → ⊥) }
{
    let (high, low) = (number_of_two_digits(a, b)?, number_of_two_digits(c, d)?);
    Some(100 * u16::from(high) + u16::from(low))
}

/// Reads a date spelled as `YYYY-MM-DD`; None for any other text, and for a day that the calendar doesn't have.
fn date_in(text: &[u8]) -> Option<Date>
    ensures found { IfSome result (λ d. IsShownDate d × (text.now ≡ clock_date_text d)) }
    ensures none { IfNone result ((d : Date) → IsShownDate d → text.now ≡ clock_date_text d → ⊥) }
{
    let [y, e, a, r, b'-', m, o, b'-', d, i] = text else {
        return None;
    };
    let (year, month, day) = (
        number_of_four_digits(*y, *e, *a, *r)?,
        number_of_two_digits(*m, *o)?,
        number_of_two_digits(*d, *i)?,
    );
    match Date::new(year as i16, month as i8, day as i8) {
        Ok(date) => Some(date),
        Err(_) => None,
    }
}

/// Reads a time of day spelled as `hh:mm:ss`, from `00:00:00` to `23:59:59`; None for any other text.
fn time_in(text: &[u8]) -> Option<Time>
    ensures found { IfSome result
        (λ t. (t.subsec_nanosecond ≡ 0) × (text.now ≡ clock_time_text t)) }
    ensures none { IfNone result ((t : Time) → text.now ≡ clock_time_text t → ⊥) }
{
    let [h, o, b':', m, i, b':', s, e] = text else {
        return None;
    };
    let (hour, minute, second) = (
        number_of_two_digits(*h, *o)?,
        number_of_two_digits(*m, *i)?,
        number_of_two_digits(*s, *e)?,
    );
    match Time::new(hour as i8, minute as i8, second as i8, 0) {
        Ok(time) => Some(time),
        Err(_) => None,
    }
}

/// Reads a civil time spelled as `YYYY-MM-DDThh:mm:ssZ`, or as `YYYY-MM-DD` for its midnight; None for any other text.
fn clock_in(text: &[u8]) -> Option<DateTime>
    ensures found { IfSome result (SpellsClock text.now) }
    ensures none { IfNone result ((at : DateTime) → SpellsClock text.now at → ⊥) }
{
    if text.len() == 10 {
        let date = date_in(text)?;
        return Some(date.at(0, 0, 0, 0));
    }
    if text.len() != 20 || text[10] != b'T' || text[19] != b'Z' {
        return None;
    }
    let (date, time) = (date_in(&text[..10])?, time_in(&text[11..19])?);
    Some(date.to_datetime(time))
}

/// Gives the moment of a civil time in UTC; the last `Timestamp` for a time past that.
fn moment_of(at: DateTime) -> Timestamp
    requires { IsShownDate at.date }
    ensures { result.nanosecond ≡ nearest (civil_nanos at) }
{
    match Offset::UTC.to_timestamp(at) {
        Ok(moment) => moment,
        Err(_) => Timestamp::MAX,
    }
}

/// Reads a moment spelled as `2024-01-31T06:05:09Z` or, for midnight in UTC, `2024-01-31`; None for any other text, and
/// for an hour 24 or a second 60. A moment past the last `Timestamp`, in the last 25:59:59 of the year 9999, reads as
/// that one.
pub fn moment_in(text: &str) -> Option<Timestamp>
    ensures found { IfSome result
        (λ t. (n : ℤ) × (Spells text.now n × (t.nanosecond ≡ nearest n))) }
    ensures none { IfNone result ((n : ℤ) → Spells text.now n → ⊥) }
{
    let at = clock_in(text.as_bytes())?;
    Some(moment_of(at))
}

/// Answers whether a text spells an existing moment in the long form, `2024-01-31T06:05:09Z`.
pub fn is_long_moment(text: &str) -> bool
    ensures { result ≡ is_long text.now }
{
    text.len() == 20 && clock_in(text.as_bytes()).is_some()
}
