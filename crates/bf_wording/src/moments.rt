//! Moments as people read them.
ghost use Rattle.std.specs.Prelude.{◌≡◌, ◌≤◌, IfOk, length};
ghost use Rattle.std.specs.Str.{IsAscii};
ghost use Rattle.bf_wording.specs.Moments.{short_moment_of, without_midnight_of};
ghost use Rattle.bf_moment.specs.Moment.{IsShown};

use bf_moment::moment_bytes;
use bf_value::{OutOfMemory, Text};
use jiff::Timestamp;
use std::alloc::Global;

/// The date of `moment`, such as `2024-01-25`, where its time is midnight in UTC, else all of `moment`. It is written
/// as `2024-01-25T06:00:00Z`.
pub fn without_midnight(moment: &[u8]) -> &[u8]
    requires long { 10 ≤ length moment.now }
    requires ascii { IsAscii moment.now }
    ensures short { result.now ≡ without_midnight_of moment.now }
    ensures ascii { IsAscii result.now }
{
    if &moment[10..] == b"T00:00:00Z".as_slice() {
        return &moment[..10];
    }
    moment
}

/// The text of a moment in UTC, such as `2024-01-25T06:00:00Z`; just the date, such as `2024-01-25`, where its time is
/// midnight.
pub fn short_moment(alloc: Global, moment: Timestamp) -> Result<Text, OutOfMemory>
    requires { IsShown moment.nanosecond }
    ensures { IfOk result (λ text. text ≡ short_moment_of moment.nanosecond) }
{
    let bytes = moment_bytes(moment);
    let Ok(text) = std::str::from_utf8(without_midnight(&bytes)) else {
        unreachable!();
    };
    Text::copy_of(alloc, text)
}
