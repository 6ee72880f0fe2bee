//! Offsets as texts.
ghost use Rattle.std.specs.Prelude.{◌≡◌, ◌<◌, option_map, IfSome, Some};
ghost use Rattle.jiff_core.specs.Calendar.{IsWithin};
ghost use Rattle.bf_zone.specs.Offsets.{offset_of, digits, clock_seconds};

use jiff::tz::Offset;

/// Gives the number that two ASCII digits spell; None where one is no digit.
fn number_of_two_digits(tens: u8, units: u8) -> Option<u32>
    ensures value { result ≡ digits tens units }
    ensures bound { IfSome result (λ n. n < 100) }
{
    if tens.is_ascii_digit() && units.is_ascii_digit() {
        return Some(u32::from(10 * (tens - b'0') + (units - b'0')));
    }
    None
}

/// Converts hours and minutes to seconds; None for more than 23 hours or 59 minutes.
fn seconds_of_hours_and_minutes(hours: u32, minutes: u32) -> Option<u32>
    requires hours { hours < 100 }
    requires minutes { minutes < 100 }
    ensures value { result ≡ clock_seconds (Some hours) (Some minutes) }
    ensures bound { IfSome result (λ n. n < 86_400) }
{
    if hours <= 23 && minutes <= 59 {
        return Some(hours * 3_600 + minutes * 60);
    }
    None
}

/// Makes the offset of less than a day in seconds, positive to the east of Greenwich.
fn offset_of_seconds(seconds: i32) -> Offset
    requires { IsWithin 86_400 seconds }
    ensures { result.seconds ≡ seconds }
{
    let Ok(offset) = Offset::from_seconds(seconds) else {
        unreachable!();
    };
    offset
}

/// Reads an offset spelled as `+HH:MM` or `-HH:MM`, up to 23:59; None for any other text.
pub(crate) fn offset_in(text: &[u8]) -> Option<Offset>
    ensures { option_map (λ o. o.seconds) result ≡ offset_of text.now }
{
    let [sign, a, b, b':', c, d] = text else {
        return None;
    };
    let seconds = seconds_of_hours_and_minutes(
        number_of_two_digits(*a, *b)?,
        number_of_two_digits(*c, *d)?,
    )?;
    match sign {
        b'+' => Some(offset_of_seconds(seconds as i32)),
        b'-' => Some(offset_of_seconds(-(seconds as i32))),
        _ => None,
    }
}
