//! Reports to devices.
ghost use Rattle.std.specs.Prelude.{◌≡◌, ◌≤◌, length, take, OnOk, IfErr};
ghost use Rattle.bf_device.specs.Device.{sent, HasHalted, HasGoneOn};
ghost use Rattle.bf_report.specs.Report.{report_text};

use crate::lines::text_of_report;
use crate::report::Report;
use bf_device::{Cause, Write, WriteFault};
use std::alloc::Global;

/// Writes a report to `out`. Err tells how many bytes went out and why no more did: a write failed or took nothing, or
/// 1,001 were interrupted, or memory was wanting, which is known before the first byte goes out.
pub fn write_report<W: Write>(alloc: Global, report: &Report, out: &mut W) -> Result<(), WriteFault>
    ensures ok { OnOk result (W.written out.new
        ≡ sent (W.written out.old) (report_text report.now)) }
    ensures part { IfErr result (λ fault. (fault.sent ≤ length (report_text report.now))
        × (W.written out.new ≡ sent (W.written out.old)
        (take fault.sent (report_text report.now)))) }
    ensures io { IfErr result (λ fault. fault.cause ≡ Cause.Io
        → HasHalted (W.failures out.old) (W.failures out.new)
        (W.interruptions out.old) (W.interruptions out.new)) }
    ensures went_on { OnOk result (HasGoneOn (W.failures out.old) (W.failures out.new)
        (W.interruptions out.old) (W.interruptions out.new)) }
    ensures memory { IfErr result (λ fault. fault.cause ≡ Cause.OutOfMemory → fault.sent ≡ 0) }
{
    match text_of_report(alloc, report) {
        Ok(text) => text.send(out),
        Err(_) => Err(WriteFault {
            sent: 0,
            cause: Cause::OutOfMemory,
        }),
    }
}
