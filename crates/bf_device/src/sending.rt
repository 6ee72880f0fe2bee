//! A text sent to a device.
ghost use Rattle.std.specs.Prelude.{◌≡◌, ◌≤◌, ◌⊎◌, length, take, OnOk, IfErr};
ghost use Rattle.bf_device.specs.Device.{sent, HasCounted, HasHalted, HasHaltedBehind, HasGoneOn};

use crate::device::{Halt, MOST_INTERRUPTIONS, Write};
use thiserror::Error;

/// Why not all of a text was written.
#[derive(Clone, Copy, Debug, PartialEq, Eq, Error)]
pub enum Cause {
    #[error("cannot write")]
    Io,
    #[error("out of memory")]
    OutOfMemory,
}

/// How many bytes of a text went out, and why the rest didn't.
#[derive(Clone, Copy, Debug, PartialEq, Eq, Error)]
#[error("{cause}")]
pub struct WriteFault {
    pub sent: u64,
    pub cause: Cause,
}

/// Makes the fault of a device that took no more after `sent` bytes of the text.
pub fn halted_after(sent: u64) -> WriteFault
    ensures sent { result.sent ≡ sent }
    ensures cause { result.cause ≡ Cause.Io }
{
    WriteFault {
        sent,
        cause: Cause::Io,
    }
}

/// Writes some bytes, in as many calls as the device needs, and counts `interruptions`, at most 1,000 so far, on. Err
/// where a write fails or takes nothing, or at the 1,001st interruption: so many of these bytes went out.
pub fn send_more<W: Write>(out: &mut W, bytes: &[u8], interruptions: &mut u32) -> Result<(), usize>
    requires { interruptions.old ≤ 1_000 }
    ensures ok { OnOk result (W.written out.new ≡ sent (W.written out.old) bytes.now) }
    ensures part { IfErr result (λ count. (count ≤ length bytes.now)
        × (W.written out.new ≡ sent (W.written out.old) (take count bytes.now))) }
    ensures halted { IfErr result (λ _. HasHaltedBehind interruptions.old
        (W.failures out.old) (W.failures out.new)
        (W.interruptions out.old) (W.interruptions out.new)) }
    ensures counted { OnOk result (HasCounted interruptions.old interruptions.new
        (W.failures out.old) (W.failures out.new)
        (W.interruptions out.old) (W.interruptions out.new)) }
{
    let mut count = 0;
    while count < bytes.len() {
        match out.write(&bytes[count..]) {
            Ok(0) => return Err(count),
            Ok(taken) => count += taken,
            Err(Halt::Again) => {
                if *interruptions == MOST_INTERRUPTIONS {
                    return Err(count);
                }
                *interruptions += 1;
            }
            Err(Halt::Failed) => return Err(count),
        }
    }
    Ok(())
}

/// Writes the whole text, in as many calls as the device needs. Err where a write fails or takes nothing, or at the
/// 1,001st interruption; it says how many bytes went out.
pub fn send<W: Write>(out: &mut W, text: &[u8]) -> Result<(), WriteFault>
    ensures ok { OnOk result (W.written out.new ≡ sent (W.written out.old) text.now) }
    ensures part { IfErr result (λ fault. (fault.sent ≤ length text.now)
        × (W.written out.new ≡ sent (W.written out.old) (take fault.sent text.now))) }
    ensures only_io { IfErr result (λ fault. fault.cause ≡ Cause.Io) }
    ensures halted { IfErr result (λ _. HasHalted (W.failures out.old) (W.failures out.new)
        (W.interruptions out.old) (W.interruptions out.new)) }
    ensures went_on { OnOk result (HasGoneOn (W.failures out.old) (W.failures out.new)
        (W.interruptions out.old) (W.interruptions out.new)) }
{
    let mut interruptions = 0;
    match send_more(out, text, &mut interruptions) {
        Ok(()) => Ok(()),
        Err(count) => Err(halted_after(count as u64)),
    }
}
