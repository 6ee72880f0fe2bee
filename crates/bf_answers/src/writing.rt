//! Tables to devices.
ghost use Rattle.std.specs.Prelude.{◌≡◌, ◌≤◌, length, take, OnOk, IfErr};
ghost use Rattle.bf_device.specs.Device.{sent, HasHalted, HasGoneOn};
ghost use Rattle.bf_answers.specs.TableText.{answers_text};

use crate::table::json_table_of;
use bf_device::{Cause, Write, WriteFault, send};
use bf_report::Report;
use std::alloc::Global;

/// Writes the table of answers by which each try ends as a report says. `Err` tells how many bytes went out: none where
/// memory ran out, since the whole text is made first; else those before a write failed or took nothing, or before the
/// 1,001st interruption.
pub fn write_answers<W: Write>(
    alloc: Global,
    report: &Report,
    out: &mut W,
) -> Result<(), WriteFault>
    ensures ok { OnOk result (W.written out.new
        ≡ sent (W.written out.old) (answers_text report.now)) }
    ensures part { IfErr result (λ fault. (fault.sent ≤ length (answers_text report.now))
        × (W.written out.new ≡ sent (W.written out.old)
        (take fault.sent (answers_text report.now)))) }
    ensures io { IfErr result (λ fault. fault.cause ≡ Cause.Io
        → HasHalted (W.failures out.old) (W.failures out.new)
        (W.interruptions out.old) (W.interruptions out.new)) }
    ensures went_on { OnOk result (HasGoneOn (W.failures out.old) (W.failures out.new)
        (W.interruptions out.old) (W.interruptions out.new)) }
    ensures memory { IfErr result (λ fault. fault.cause ≡ Cause.OutOfMemory → fault.sent ≡ 0) }
{
    match json_table_of(alloc, report) {
        Ok(bytes) => send(out, bytes.as_slice()),
        Err(_) => Err(WriteFault {
            sent: 0,
            cause: Cause::OutOfMemory,
        }),
    }
}
