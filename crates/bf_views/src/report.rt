//! The bytes of a report.
ghost use Rattle.std.specs.Prelude.{◌≡◌, IfOk};
ghost use Rattle.bf_report.specs.Report.{report_text};

use bf_device::Memory;
use bf_report::{Report, write_report};
use bf_value::OutOfMemory;
use std::alloc::Global;

/// Writes a report to memory, byte for byte as its file has it.
pub(crate) fn report_bytes(alloc: Global, report: &Report) -> Result<Vec<u8>, OutOfMemory>
    ensures { IfOk result (λ bytes. bytes.items ≡ report_text report.now) }
{
    let mut memory = Memory::new(alloc);
    match write_report(alloc, report, &mut memory) {
        Ok(()) => Ok(memory.into_vec()),
        Err(_) => Err(OutOfMemory),
    }
}
