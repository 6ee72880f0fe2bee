//! Devices that halt: those of this project, and readers and writers of std that raise errors.
use crate::reports::{FULL, ONE, report_of};
use bf_device::{Bytes, Cause, Halt, Halting, Input, Memory, Output, WriteFault};
use bf_process::line_of;
use bf_report::{Report, write_report};
use bf_report_reader::{ReportFault, read_report};
use bf_try::Line;
use std::alloc::Global;
use std::io;
use std::process::Abort;
use std::test::Fail;

/// Gives the answer of a write to a device that gave up after so many bytes.
const fn halted_after(sent: u64) -> Result<(), WriteFault> {
    Err(WriteFault {
        sent,
        cause: Cause::Io,
    })
}

/// What a write answered, and the bytes that went out.
type Written = (Result<(), WriteFault>, Vec<u8>);

/// Checks what a write answered, and which bytes went out.
fn has_written(rt: &impl Abort, found: Written, wanted: Result<(), WriteFault>, bytes: &[u8]) {
    let (answer, written) = found;
    assert_eq!(rt; answer, wanted);
    assert_eq!(rt; written.as_slice(), bytes);
}

/// Writes a report to a device that takes one byte a call, and whose calls from `first` on, `times` of them and counted
/// from 0, give `halt`.
fn write_halting(alloc: Global, report: &Report, halt: Halt, first: usize, times: u64) -> Written {
    let mut out = Halting::new(Memory::new(alloc), halt, first as u64, times);
    let answer = write_report(alloc, report, &mut out);
    (answer, out.into_inner().into_vec())
}

/// Reads a report from a device that gives one byte a call, and whose calls from `first` on, `times` of them and
/// counted from 0, give `halt`. Gives the fault; None where the report was read.
fn read_halting(
    alloc: Global,
    text: &str,
    halt: Halt,
    first: usize,
    times: u64,
) -> Result<Option<ReportFault>, Fail> {
    let bytes = Bytes::new(text.as_bytes().to_vec(alloc)?);
    let mut device = Halting::new(bytes, halt, first as u64, times);
    Ok(read_report(alloc, &mut device).err())
}

#[test]
fn a_write_that_halts_for_good_is_a_fault(rt: HostRuntime) -> Result<(), Fail> {
    let report = report_of(rt.alloc(), ONE)?;
    for (halt, times) in [(Halt::Failed, 1), (Halt::Again, 1_001)] {
        for call in 0..ONE.len() {
            let found = write_halting(rt.alloc(), &report, halt, call, times);
            has_written(
                &rt,
                found,
                halted_after(call as u64),
                &ONE.as_bytes()[..call],
            );
        }
    }
    Ok(())
}

#[test]
fn a_thousand_interruptions_of_a_write_are_nothing(rt: HostRuntime) -> Result<(), Fail> {
    let report = report_of(rt.alloc(), ONE)?;
    for call in 0..ONE.len() {
        let found = write_halting(rt.alloc(), &report, Halt::Again, call, 1_000);
        has_written(&rt, found, Ok(()), ONE.as_bytes());
    }
    Ok(())
}

#[test]
fn a_read_that_halts_for_good_is_a_fault(rt: HostRuntime) -> Result<(), Fail> {
    for (halt, times) in [(Halt::Failed, 1), (Halt::Again, 1_001)] {
        for call in 0..=FULL.len() {
            let fault = read_halting(rt.alloc(), FULL, halt, call, times)?;
            assert_eq!(rt; fault, Some(ReportFault::Io));
        }
    }
    Ok(())
}

#[test]
fn a_thousand_interruptions_of_a_read_are_nothing(rt: HostRuntime) -> Result<(), Fail> {
    for call in 0..=FULL.len() {
        assert_eq!(rt;
            read_halting(rt.alloc(), FULL, Halt::Again, call, 1_000)?,
            None
        );
    }
    Ok(())
}

// The byte behind the end is looked for once, and then no more.
#[test]
fn a_report_is_not_read_past_its_end(rt: HostRuntime) -> Result<(), Fail> {
    let fault = read_halting(rt.alloc(), FULL, Halt::Failed, FULL.len() + 1, 1)?;
    assert_eq!(rt; fault, None);
    Ok(())
}

#[test]
fn an_earlier_bad_line_comes_before_a_read_that_fails(rt: HostRuntime) -> Result<(), Fail> {
    for (call, fault) in [(6, ReportFault::Io), (7, ReportFault::BadLine(1))] {
        let found = read_halting(rt.alloc(), "@end 0\n", Halt::Failed, call, 1)?;
        assert_eq!(rt; found, Some(fault));
    }
    Ok(())
}

/// What a program prints: two lines, of which the last has no line feed.
const OUTPUT: &str = "one\ntwo";

/// Gives the last line of `OUTPUT`, read from a device that gives one byte a call, and whose calls from `first` on,
/// `times` of them and counted from 0, give `halt`.
fn line_halting(alloc: Global, halt: Halt, first: usize, times: u64) -> Result<Line, Fail> {
    let bytes = Bytes::new(OUTPUT.as_bytes().to_vec(alloc)?);
    let mut device = Halting::new(bytes, halt, first as u64, times);
    Ok(line_of(alloc, &mut device)?)
}

// A read that fails is not made again, though the next would give the rest.
#[test]
fn an_output_that_halts_for_good_has_no_line(rt: HostRuntime) -> Result<(), Fail> {
    for (halt, times) in [(Halt::Failed, 1), (Halt::Again, 1_001)] {
        for call in 0..=OUTPUT.len() {
            let line = line_halting(rt.alloc(), halt, call, times)?;
            assert!(rt; matches!(line, Line::ReadFault));
        }
    }
    Ok(())
}

#[test]
fn a_thousand_interruptions_of_an_output_are_nothing(rt: HostRuntime) -> Result<(), Fail> {
    for call in 0..=OUTPUT.len() {
        let Line::Bytes(line) = line_halting(rt.alloc(), Halt::Again, call, 1_000)? else {
            return Err(Fail::from("it has no line"));
        };
        assert_eq!(rt; line.as_slice(), b"two".as_slice());
    }
    Ok(())
}

/// An error that the first `left` calls raise.
#[derive(Clone, Copy)]
struct Errors {
    kind: io::ErrorKind,
    left: u32,
}

impl Errors {
    /// Raises the error where some are left; else does nothing.
    fn raise(&mut self) -> io::Result<()> {
        if self.left == 0 {
            return Ok(());
        }
        self.left -= 1;
        Err(io::Error::from(self.kind))
    }
}

/// A reader of bytes that raises errors at its first calls.
#[derive(Drop)]
struct RaisingReader {
    errors: Errors,
    bytes: &'static [u8],
}

impl io::Read for RaisingReader {
    fn read(&mut self, room: &mut [u8]) -> io::Result<usize> {
        self.errors.raise()?;
        self.bytes.read(room)
    }
}

/// A writer to memory that raises errors at its first calls.
#[derive(Drop)]
struct RaisingWriter {
    errors: Errors,
    bytes: Vec<u8>,
}

impl io::Write for RaisingWriter {
    fn write(&mut self, bytes: &[u8]) -> io::Result<usize> {
        self.errors.raise()?;
        self.bytes.write(bytes)
    }

    fn flush(&mut self) -> io::Result<()> {
        Ok(())
    }
}

/// Errors, how many of them are raised, and whether a call goes on after them: an interruption is no failure, but the
/// 1,001st is one too many.
static ERRORS: [(io::ErrorKind, u32, bool); 8] = [
    (io::ErrorKind::Interrupted, 0, true),
    (io::ErrorKind::Interrupted, 1, true),
    (io::ErrorKind::Interrupted, 1_000, true),
    (io::ErrorKind::Interrupted, 1_001, false),
    (io::ErrorKind::WouldBlock, 1, false),
    (io::ErrorKind::TimedOut, 1, false),
    (io::ErrorKind::BrokenPipe, 1, false),
    (io::ErrorKind::Other, 1, false),
];

/// Reads a report from a reader that raises errors. Gives the fault; None where the report was read.
fn read_raising(alloc: Global, errors: Errors) -> Option<ReportFault> {
    let mut device = Input::new(RaisingReader {
        errors,
        bytes: FULL.as_bytes(),
    });
    read_report(alloc, &mut device).err()
}

/// Writes a report to a writer that raises errors.
fn write_raising(alloc: Global, report: &Report, errors: Errors) -> Written {
    let bytes = Vec::new(alloc);
    let mut out = Output::new(RaisingWriter { errors, bytes });
    let answer = write_report(alloc, report, &mut out);
    let RaisingWriter { errors: _, bytes } = out.into_inner();
    (answer, bytes)
}

#[test]
fn a_reader_of_std_is_read_on_after_interruptions(rt: HostRuntime) {
    for &(kind, left, goes_on) in &ERRORS {
        let fault = read_raising(rt.alloc(), Errors { kind, left });
        let wanted = if goes_on { None } else { Some(ReportFault::Io) };
        assert_eq!(rt; fault, wanted);
    }
}

#[test]
fn a_writer_of_std_is_written_on_after_interruptions(rt: HostRuntime) -> Result<(), Fail> {
    let report = report_of(rt.alloc(), FULL)?;
    for &(kind, left, goes_on) in &ERRORS {
        let found = write_raising(rt.alloc(), &report, Errors { kind, left });
        let (wanted, text) = if goes_on {
            (Ok(()), FULL)
        } else {
            (halted_after(0), "")
        };
        has_written(&rt, found, wanted, text.as_bytes());
    }
    Ok(())
}

/// Writes a report to a slice that has room for so many bytes.
fn write_to_room(alloc: Global, report: &Report, room: usize) -> Result<Written, Fail> {
    let mut bytes = vec![in alloc; b'.'; room]?;
    let mut out = Output::new(bytes.as_mut_slice());
    let answer = write_report(alloc, report, &mut out);
    Ok((answer, bytes))
}

#[test]
fn a_writer_of_std_that_takes_nothing_is_a_fault(rt: HostRuntime) -> Result<(), Fail> {
    let report = report_of(rt.alloc(), ONE)?;
    for room in 0..ONE.len() {
        let found = write_to_room(rt.alloc(), &report, room)?;
        has_written(
            &rt,
            found,
            halted_after(room as u64),
            &ONE.as_bytes()[..room],
        );
    }
    Ok(())
}
