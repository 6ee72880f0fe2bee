//! Lines, taken off a device.
ghost use Rattle.std.specs.Prelude.{◌≡◌, ◌≤◌, if◌then◌else◌, length, IfOk, OnOk, IfErr};
ghost use Rattle.bf_report_reader.specs.inner.Held.{MovesPiece, held_bytes, ahead, Tallies, Breaks};
ghost use Rattle.bf_report_reader.specs.Faults.{longest_line, IsInLine, IsFromOutside};
ghost use Rattle.bf_report_reader.specs.inner.Faults.{Came};

use crate::fault::ReportFault;
use crate::held::{LONGEST_LINE, ReadBuffer, line_feed_in};
use bf_device::Read;
use bf_value::OutOfMemory;

/// The most bytes that the line of a pull may have, without its line feed.
const LONGEST_PULL_LINE: usize = 68_000_000;

/// What ended a line.
#[derive(Clone, Copy, Debug, PartialEq, Eq)]
pub(crate) enum LineEnd {
    LineFeed,
    /// The device's end.
    Nothing,
    /// The limit of its length.
    TooMuch,
}

/// Gives the most bytes, without the line feed, that a line beginning with `line` may have: a line that begins with
/// `@pull ` may have more than others.
fn limit_of(line: &[u8]) -> usize
    ensures { result ≡ longest_line line.now }
{
    if line.starts_with(b"@pull ".as_slice()) {
        LONGEST_PULL_LINE
    } else {
        LONGEST_LINE
    }
}

/// Moves bytes from the buffer to the end of `line`, up to one byte more than the line may have, and answers whether
/// its line feed came, which is dropped.
fn move_piece(held: &mut ReadBuffer, line: &mut Vec<u8>) -> Result<bool, OutOfMemory>
    requires { length line.old.items ≤ longest_line line.old.items }
    ensures piece { IfOk result (λ ended. MovesPiece ended
        (held_bytes held.old) (held_bytes held.new) line.old.items line.new.items) }
    ensures same { OnOk result (held.new.interruptions ≡ held.old.interruptions) }
{
    let most = limit_of(line.as_slice()) + 1 - line.len();
    let bytes = held.bytes();
    let piece = &bytes[..most.min(bytes.len())];
    match line_feed_in(piece) {
        Some(at) => {
            line.extend_from_slice(&piece[..at])?;
            held.skip(at + 1);
            Ok(true)
        }
        None => {
            let count = piece.len();
            line.extend_from_slice(piece)?;
            held.skip(count);
            Ok(false)
        }
    }
}

/// Reads the next line off the device into `line`, without its line feed, and gives what ended it; of a line that is
/// too long, `line` gets one byte more than it may have. `Io` where a read fails or too many are interrupted,
/// `OutOfMemory` at want of memory.
pub(crate) fn next_line<R: Read>(
    held: &mut ReadBuffer,
    device: &mut R,
    line: &mut Vec<u8>,
) -> Result<LineEnd, ReportFault>
    ensures came { IfOk result (λ end. Came end (ahead held.old (R.left device.old))
        (ahead held.new (R.left device.new)) line.new.items) }
    ensures in_line { IfOk result (λ _. IsInLine line.new.items) }
    ensures fault { IfErr result IsFromOutside }
    ensures tallied { OnOk result (Tallies
        held.old.interruptions (R.interruptions device.old) (R.failures device.old)
        held.new.interruptions (R.interruptions device.new) (R.failures device.new)) }
    ensures halted { IfErr result (λ fault. fault ≡ ReportFault.Io
        → Breaks held.old.interruptions (R.interruptions device.old) (R.failures device.old)
        (R.interruptions device.new) (R.failures device.new)) }
{
    line.clear();
    while line.len() <= limit_of(line.as_slice()) {
        if !held.has_more(device)? {
            return Ok(LineEnd::Nothing);
        }
        if move_piece(held, line)? {
            return Ok(LineEnd::LineFeed);
        }
    }
    Ok(LineEnd::TooMuch)
}
