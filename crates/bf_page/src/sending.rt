//! A text in pieces, sent to a device.
ghost use Rattle.std.specs.Prelude.{◌≡◌, ◌<◌, ◌≤◌, [], length, OnOk, IfErr, IfSome, IfNone};
ghost use Rattle.bf_device.specs.Device.{sent, HasHalted, HasGoneOn};
ghost use Rattle.bf_page.specs.Page.{EndsAt};
ghost use Rattle.bf_page.specs.inner.Pieces.{whole, behind, steps_behind, left};

use crate::safe::split_safe_front;
use bf_device::{Cause, Halt, MOST_INTERRUPTIONS, Write, WriteFault, halted_after};

/// A fixed piece of a page, `fixed`, and the text that follows it, `told`, not escaped yet.
#[derive(Clone, Copy)]
pub(crate) struct Piece<'a> {
    pub(crate) fixed: &'a str,
    pub(crate) told: &'a [u8],
}

/// What of a page is still to go out: first `front`, bytes as they are; then `told`, a text not escaped yet; then
/// `pieces`; and at the end the fixed texts `last`.
#[derive(Clone, Copy)]
pub(crate) struct Rest<'a> {
    front: &'a [u8],
    told: &'a [u8],
    pieces: &'a [Piece<'a>],
    last: &'a [&'a str],
}

/// Brings the next bytes to write to the front of what is left of a page: `told`, not escaped yet, then `pieces`, then
/// the fixed texts `last`. The front may be empty. None where nothing is left.
fn next_rest<'a>(told: &'a [u8], pieces: &'a [Piece<'a>], last: &'a [&'a str]) -> Option<Rest<'a>>
    ensures none { IfNone result (behind told.now pieces.now last.now ≡ []) }
    ensures some { IfSome result (λ rest. left rest ≡ behind told.now pieces.now last.now) }
    ensures fewer { IfSome result (λ rest.
        steps_behind rest.told.now rest.pieces.now rest.last.now
        < steps_behind told.now pieces.now last.now) }
{
    if !told.is_empty() {
        let (front, told) = split_safe_front(told);
        return Some(Rest {
            front,
            told,
            pieces,
            last,
        });
    }
    if let Some((piece, pieces)) = pieces.split_first() {
        return Some(Rest {
            front: piece.fixed.as_bytes(),
            told: piece.told,
            pieces,
            last,
        });
    }
    match last.split_first() {
        Some((text, last)) => Some(Rest {
            front: text.as_bytes(),
            told: &[],
            pieces: &[],
            last,
        }),
        None => None,
    }
}

/// Writes these pieces, each text escaped, and then the texts `last`, in as many writes as the device needs. `Err`
/// tells how many bytes went out, modulo 2^64, before a write failed or took nothing, or before the 1,001st
/// interruption.
pub(crate) fn send_pieces<W: Write>(
    out: &mut W,
    pieces: &[Piece<'_>],
    last: &[&str],
) -> Result<(), WriteFault>
    ensures ok { OnOk result (W.written out.new
        ≡ sent (W.written out.old) (whole pieces.now last.now)) }
    ensures part { IfErr result (λ fault. EndsAt fault.sent (whole pieces.now last.now)
        (W.written out.old) (W.written out.new)) }
    ensures only_io { IfErr result (λ fault. fault.cause ≡ Cause.Io) }
    ensures halted { IfErr result (λ _. HasHalted (W.failures out.old) (W.failures out.new)
        (W.interruptions out.old) (W.interruptions out.new)) }
    ensures went_on { OnOk result (HasGoneOn (W.failures out.old) (W.failures out.new)
        (W.interruptions out.old) (W.interruptions out.new)) }
{
    let mut rest = Rest {
        front: &[],
        told: &[],
        pieces,
        last,
    };
    let mut sent: u64 = 0;
    let mut interruptions = 0;
    loop {
        if rest.front.is_empty() {
            match next_rest(rest.told, rest.pieces, rest.last) {
                Some(more) => rest = more,
                None => return Ok(()),
            }
            continue;
        }
        match out.write(rest.front) {
            Ok(0) => return Err(halted_after(sent)),
            Ok(count) => {
                rest.front = &rest.front[count..];
                sent = sent.wrapping_add(count as u64);
            }
            Err(Halt::Again) => {
                if interruptions == MOST_INTERRUPTIONS {
                    return Err(halted_after(sent));
                }
                interruptions += 1;
            }
            Err(Halt::Failed) => return Err(halted_after(sent)),
        }
    }
}
