//! Lines of JSON to devices.
ghost use Rattle.std.specs.Prelude.{◌≡◌, ◌≤◌, length, take, OnOk, IfErr};
ghost use Rattle.bf_device.specs.Device.{sent, HasHalted, HasGoneOn};
ghost use Rattle.bf_show.specs.JsonLines.{json_lines};

use crate::lines::text_of_json_lines;
use bf_device::{Cause, Write, WriteFault, send};
use bf_report::Report;
use std::alloc::Global;

/// Writes a report as lines of JSON, an object for each task instance and for each task that didn't run. `Err` tells
/// how many bytes went out: none where memory ran out, since the whole text is made first; else those before a write
/// failed or took nothing, or before the 1,001st interruption.
pub fn write_json_lines<W: Write>(
    alloc: Global,
    report: &Report,
    out: &mut W,
) -> Result<(), WriteFault>
    ensures ok { OnOk result (W.written out.new
        ≡ sent (W.written out.old) (json_lines report.now)) }
    ensures part { IfErr result (λ fault. (fault.sent ≤ length (json_lines report.now))
        × (W.written out.new ≡ sent (W.written out.old)
        (take fault.sent (json_lines report.now)))) }
    ensures io { IfErr result (λ fault. fault.cause ≡ Cause.Io
        → HasHalted (W.failures out.old) (W.failures out.new)
        (W.interruptions out.old) (W.interruptions out.new)) }
    ensures went_on { OnOk result (HasGoneOn (W.failures out.old) (W.failures out.new)
        (W.interruptions out.old) (W.interruptions out.new)) }
    ensures memory { IfErr result (λ fault. fault.cause ≡ Cause.OutOfMemory → fault.sent ≡ 0) }
{
    match text_of_json_lines(alloc, report) {
        Ok(text) => send(out, text.as_bytes()),
        Err(_) => Err(WriteFault {
            sent: 0,
            cause: Cause::OutOfMemory,
        }),
    }
}
