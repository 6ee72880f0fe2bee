//! Journals, made whole.
ghost use Rattle.std.specs.Prelude.{◌≡◌, ◌+◌, List, ℕ, Some, false, length, true};
ghost use Rattle.bf_journal.specs.Counting.{CountsNoHalt};
ghost use Rattle.bf_journal.specs.Left.{IsLeftPart, made_whole};

use crate::cuttable::{Cuttable, try_cut};
use crate::found::Found;
use bf_device::send;

/// Cuts the torn bytes that were `found` off a journal's end, writes the head where no line is whole, and answers true.
/// False where the device failed, which may leave the torn bytes, or a part of the head.
pub fn try_make_whole<D: Cuttable>(device: &mut D, head: &[u8], found: &Found) -> bool
    ensures whole { (held : List ℕ) → found.now.whole + found.now.torn ≡ length held
        → D.written device.old ≡ Some held
        → result ≡ true → D.written device.new ≡ Some (made_whole head.now held found.now.whole) }
    ensures part { (held : List ℕ) → found.now.whole + found.now.torn ≡ length held → result ≡ false
        → IsLeftPart head.now held (D.written device.old) (D.written device.new) }
    ensures undisturbed { CountsNoHalt (D.failures device.old) (D.failures device.new)
        (D.interruptions device.old) (D.interruptions device.new) → result ≡ true }
{
    if found.torn > 0 && !try_cut(device, found.whole) {
        return false;
    }
    found.whole > 0 || send(device, head).is_ok()
}
