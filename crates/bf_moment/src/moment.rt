//! Moments as texts.
ghost use Rattle.std.specs.Prelude.{◌≡◌, ◌<◌, ◌+◌};
ghost use Rattle.std.specs.Str.{IsAscii};
ghost use Rattle.bf_moment.specs.Moment.{IsShown, moment_text};
ghost use Rattle.bf_moment.specs.inner.Clock.{IsShownDate, clock_text, fields};

use jiff::Timestamp;
use jiff::civil::DateTime;
use jiff::tz::Offset;
use std::fmt;

/// Gives the year, month, day, hour, minute and second of a civil time.
fn civil_fields_of(at: DateTime) -> (u16, u8, u8, u8, u8, u8)
    requires { IsShownDate at.date }
    ensures value { result ≡ fields at }
    ensures bounds { (result.0 < 10_000) × (result.1 < 100) × (result.2 < 100)
        × (result.3 < 100) × (result.4 < 100) × (result.5 < 100) }
{
    (
        at.year() as u16,
        at.month() as u8,
        at.day() as u8,
        at.hour() as u8,
        at.minute() as u8,
        at.second() as u8,
    )
}

/// Gives the ASCII digit of a number below 10.
fn ascii_digit_of(n: u16) -> u8
    requires { n < 10 }
    ensures { result ≡ 48 + n }
{
    b'0' + n as u8
}

/// Spells a civil time as `YYYY-MM-DDThh:mm:ssZ`, 20 bytes of ASCII; drops fractions of a second.
fn clock_bytes(at: DateTime) -> [u8; 20]
    requires { IsShownDate at.date }
    ensures text { result ≡ clock_text at }
    ensures ascii { IsAscii result }
{
    let (year, month, day, hour, minute, second) = civil_fields_of(at);
    [
        ascii_digit_of(year / 1000),
        ascii_digit_of(year / 100 % 10),
        ascii_digit_of(year / 10 % 10),
        ascii_digit_of(year % 10),
        b'-',
        ascii_digit_of(u16::from(month) / 10),
        ascii_digit_of(u16::from(month) % 10),
        b'-',
        ascii_digit_of(u16::from(day) / 10),
        ascii_digit_of(u16::from(day) % 10),
        b'T',
        ascii_digit_of(u16::from(hour) / 10),
        ascii_digit_of(u16::from(hour) % 10),
        b':',
        ascii_digit_of(u16::from(minute) / 10),
        ascii_digit_of(u16::from(minute) % 10),
        b':',
        ascii_digit_of(u16::from(second) / 10),
        ascii_digit_of(u16::from(second) % 10),
        b'Z',
    ]
}

/// Spells a moment in UTC as `2024-01-31T06:05:09Z`, 20 bytes of ASCII; drops fractions of a second.
pub fn moment_bytes(at: Timestamp) -> [u8; 20]
    requires { IsShown at.nanosecond }
    ensures text { result ≡ moment_text at.nanosecond }
    ensures ascii { IsAscii result }
{
    clock_bytes(Offset::UTC.to_datetime(at))
}

/// A moment in a year of four digits. Its `Display` spells it as `moment_bytes` does.
#[derive(Clone, Copy, Debug)]
pub struct Moment {
    pub at: Timestamp,
    pub ghost shown: { IsShown at.nanosecond },
}

impl Moment {
    /// Makes the moment of a timestamp.
    pub fn new(at: Timestamp) -> Moment
        requires { IsShown at.nanosecond }
        ensures { result.at ≡ at }
    {
        Moment { at }
    }
}

impl fmt::Display for Moment {
    ghost use Rattle.std.specs.Prelude.{Some};

    ghost output = { λ m. Some (moment_text m.at.nanosecond) };

    /// Writes the moment in UTC, in the form `2024-01-31T06:05:09Z`.
    fn fmt<W: fmt::Write>(&self, f: &mut fmt::Formatter<W>) -> fmt::Result {
        let bytes = moment_bytes(self.at);
        let Ok(text) = std::str::from_utf8(&bytes) else {
            unreachable!();
        };
        f.write_str(text)
    }
}
