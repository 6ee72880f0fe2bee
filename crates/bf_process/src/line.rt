//! The last line of an output, which is read up to a limit.
ghost use Rattle.std.specs.Prelude.{◌≡◌, ◌≢◌, IfOk, IfSome};
ghost use Rattle.bf_try.specs.declared.answers.Line.{Line};
ghost use Rattle.bf_device.specs.Device.{HasHalted, HasGoneOn};
ghost use Rattle.bf_process.specs.Output.{IsLineOf};

use bf_device::{Halt, MOST_INTERRUPTIONS, Read};
use bf_try::Line;
use bf_value::{OutOfMemory, Sequence, last_line};
use std::alloc::Global;

/// The most bytes of standard output that a try may write.
const LONGEST_OUTPUT: usize = 1_048_576;

/// The most bytes that one read gives.
const ROOM: usize = 8_192;

/// Reads a device to its end and gives the last line, without its line feed. `TooMuch` past `LONGEST_OUTPUT` bytes,
/// after which it reads no more; `ReadFault` where a read fails or reads are interrupted 1,001 times.
pub fn line_of<R: Read>(alloc: Global, device: &mut R) -> Result<Line, OutOfMemory>
    ensures line { IfOk result (λ line. IfSome (R.left device.old)
        (λ output. IsLineOf output line)) }
    ensures halted { IfOk result (λ line. line ≡ Line.ReadFault →
        HasHalted (R.failures device.old) (R.failures device.new)
        (R.interruptions device.old) (R.interruptions device.new)) }
    ensures went_on { IfOk result (λ line. line ≢ Line.ReadFault →
        HasGoneOn (R.failures device.old) (R.failures device.new)
        (R.interruptions device.old) (R.interruptions device.new)) }
{
    let mut bytes = Vec::new(alloc);
    let mut room = [0; ROOM];
    let mut interruptions = 0;
    loop {
        match device.read(&mut room) {
            Ok(0) => {
                let line = last_line(bytes.as_slice()).to_vec(alloc)?;
                return Ok(Line::Bytes(Sequence::from_vec(line)));
            }
            Ok(count) => {
                if count > LONGEST_OUTPUT - bytes.len() {
                    return Ok(Line::TooMuch);
                }
                bytes.extend_from_slice(&room[..count])?;
            }
            Err(Halt::Again) => {
                if interruptions == MOST_INTERRUPTIONS {
                    return Ok(Line::ReadFault);
                }
                interruptions += 1;
            }
            Err(Halt::Failed) => return Ok(Line::ReadFault),
        }
    }
}
