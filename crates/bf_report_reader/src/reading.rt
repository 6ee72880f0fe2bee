//! Reports from devices.
ghost use Rattle.std.specs.Prelude.{◌≡◌, ◌≢◌, ◌<◌, ◌≤◌, ◌+◌, ◌++◌, ◌∷◌, [], List, ℕ, length, IfOk, OnOk, IfErr, IfSome, IfNone, codes, if◌then◌else◌};
ghost use Rattle.std.specs.Io.KnownBytes.{Consumes, IsAtEnd};
ghost use Rattle.bf_device.specs.Device.{HasHalted, HasGoneOn};
ghost use Rattle.bf_report.specs.Report.{version_word_of, report_text};
ghost use Rattle.bf_report_reader.specs.inner.Reads.{IsWord, Finds};
ghost use Rattle.bf_report_reader.specs.inner.Held.{held_bytes, ahead, Tallies, Breaks};
ghost use Rattle.bf_report_reader.specs.inner.Lines.{line_in};
ghost use Rattle.bf_report_reader.specs.inner.Beginning.{opening_text, so_far};
ghost use Rattle.bf_report_reader.specs.Rules.{IsShownReport};
ghost use Rattle.bf_report_reader.specs.inner.Rules.{IsRuled, KeepsRules};
ghost use Rattle.bf_report_reader.specs.Faults.{longest_line, IsInLine, Tells, IsReportText, IsFromOutside, lines_in};
ghost use Rattle.bf_report_reader.specs.inner.Faults.{StopsAt};
ghost use Rattle.bf_report_reader.specs.inner.Steps.{Steps, EntrySteps, EndsBy, ReadsOn};
ghost use Rattle.bf_report_reader.specs.inner.Extensions.{SaysHead, IsKnown};

use crate::beginning::ReportSoFar;
use crate::entry::entry_in;
use crate::fault::ReportFault;
use crate::field::{number_in, split_field};
use crate::held::ReadBuffer;
use crate::interval::interval_and_state_in;
use crate::line::{LineEnd, next_line};
use crate::part::{GivenPart, item_in, pull_in};
use bf_device::Read;
use bf_plan::is_id;
use bf_report::{Report, RunReport, Version};
use bf_value::{OutOfMemory, Sequence, Text};
use std::alloc::Global;

/// A device's lines, counted from 1; the one read last lies in `held` or, where that lacks part of it, in `pieces`.
#[derive(Drop)]
struct Lines {
    held: ReadBuffer,
    is_held: bool,
    pieces: Vec<u8>,
    number: u64,
}

impl Lines {
    /// Makes the lines of a device from which nothing was read yet.
    fn new(alloc: Global) -> Result<Lines, OutOfMemory>
        ensures { IfOk result (λ lines.
            (held_bytes lines.held ≡ []) × (lines.held.interruptions ≡ 0) × (lines.number ≡ 0)) }
    {
        Ok(Lines {
            held: ReadBuffer::new(alloc)?,
            is_held: false,
            pieces: Vec::new(alloc),
            number: 0,
        })
    }

    /// Reads the next line: `TooLong` past its limit, `Truncated` without its line feed, `Io` where the device fails
    /// or is interrupted too often, `OutOfMemory` at want of memory.
    fn read<R: Read>(&mut self, device: &mut R) -> Result<(), ReportFault>
        requires { self.old.number < 300_000_000_000 }
        ensures line { OnOk result (Consumes (ahead self.old.held (R.left device.old))
            (ahead self.new.held (R.left device.new)) (line_in self.new ++ 10 ∷ [])) }
        ensures in_line { OnOk result (IsInLine (line_in self.new)) }
        ensures short { OnOk result
            (length (line_in self.new) ≤ longest_line (line_in self.new)) }
        ensures stops { IfErr result (λ fault.
            IfSome (ahead self.old.held (R.left device.old))
            (StopsAt fault (self.old.number + 1))) }
        ensures number { OnOk result (self.new.number ≡ self.old.number + 1) }
        ensures tallied { OnOk result (Tallies
            self.old.held.interruptions (R.interruptions device.old) (R.failures device.old)
            self.new.held.interruptions (R.interruptions device.new) (R.failures device.new)) }
        ensures halted { IfErr result (λ fault. fault ≡ ReportFault.Io
            → Breaks self.old.held.interruptions
            (R.interruptions device.old) (R.failures device.old)
            (R.interruptions device.new) (R.failures device.new)) }
    {
        self.number += 1;
        self.is_held = self.held.take_line();
        if self.is_held {
            return Ok(());
        }
        match next_line(&mut self.held, device, &mut self.pieces)? {
            LineEnd::LineFeed => Ok(()),
            LineEnd::Nothing => Err(ReportFault::Truncated),
            LineEnd::TooMuch => Err(ReportFault::TooLong(self.number)),
        }
    }

    /// Gives the line read last, without its line feed.
    fn line(&self) -> &[u8]
        ensures { result.now ≡ line_in self.now }
    {
        if self.is_held {
            self.held.line()
        } else {
            self.pieces.as_slice()
        }
    }
}

/// Gives what follows `word` and a space in a text; None where the text doesn't begin with them, and always for a word
/// that has a space itself.
fn after_word<'a>(text: &'a [u8], word: &[u8]) -> Option<&'a [u8]>
    ensures some { IfSome result (λ rest. text.now ≡ word.now ++ 32 ∷ rest.now) }
    ensures none { IfNone result (IsWord word.now →
        (rest : List ℕ) → text.now ≢ word.now ++ 32 ∷ rest) }
{
    let (first, rest) = split_field(text)?;
    if first == word { Some(rest) } else { None }
}

/// Reads a report's version, `1` or `2`; None for any other word.
fn version_in(word: &[u8]) -> Option<Version>
    ensures some { IfSome result (λ version. word.now ≡ version_word_of version) }
    ensures every { Finds (λ version. word.now ≡ version_word_of version) result }
{
    match word {
        b"1" => Some(Version::One),
        b"2" => Some(Version::Two),
        _ => None,
    }
}

/// Reads the version and the dag id off the head line, `@backfill VERSION ID`; None for any other line.
fn head_in(alloc: Global, line: &[u8]) -> Result<Option<(Version, Text)>, OutOfMemory>
    ensures some { IfOk result (λ o. IfSome o (SaysHead line.now)) }
    ensures every { IfOk result (Finds (SaysHead line.now)) }
{
    let Some(rest) = after_word(line, b"@backfill".as_slice()) else {
        return Ok(None);
    };
    let Some((version, id)) = split_field(rest) else {
        return Ok(None);
    };
    let Some(version) = version_in(version) else {
        return Ok(None);
    };
    match std::str::from_utf8(id) {
        Ok(id) if is_id(id) => Ok(Some((version, Text::copy_of(alloc, id)?))),
        _ => Ok(None),
    }
}

/// What became of a line after the head.
#[derive(Clone, Copy, Debug, PartialEq, Eq)]
enum Step {
    Taken,
    End,
    /// It may not stand here, and nothing was added.
    Refused,
}

/// Gives `Taken` for true and `Refused` for false.
fn taken_or_refused(taken: bool) -> Step
    ensures { result ≡ (if taken then Step.Taken else Step.Refused) }
{
    if taken { Step::Taken } else { Step::Refused }
}

/// Adds a run from what follows `@run ` on its line; `Refused` where that is malformed, or the run may not come next.
fn read_run(alloc: Global, beginning: &mut ReportSoFar, text: &[u8]) -> Result<Step, OutOfMemory>
    requires { KeepsRules beginning.old }
    ensures { IfOk result (λ step.
        Steps step beginning.old (codes "@run" ++ 32 ∷ text.now) beginning.new) }
{
    let Some((interval, state)) = interval_and_state_in(text) else {
        return Ok(Step::Refused);
    };
    let run = RunReport {
        interval,
        state,
        tasks: Sequence::from_vec(Vec::with_capacity(alloc, beginning.tasks.len())?),
    };
    Ok(taken_or_refused(beginning.add_run(run)?))
}

/// Adds what `text`, behind the id on the line of the task `id`, says; `Refused` where that may not come next.
fn read_task(
    alloc: Global,
    beginning: &mut ReportSoFar,
    id: &[u8],
    text: &[u8],
) -> Result<Step, OutOfMemory>
    requires { KeepsRules beginning.old }
    ensures { IfOk result (λ step. EntrySteps step beginning.old id.now text.now beginning.new) }
{
    match entry_in(alloc, text)? {
        Some(entry) => Ok(taken_or_refused(beginning.add_entry(alloc, id, entry)?)),
        None => Ok(Step::Refused),
    }
}

/// Adds an item from what follows `@item ` on its line; `Refused` where that is malformed, or may not come next.
fn read_item(alloc: Global, beginning: &mut ReportSoFar, text: &[u8]) -> Result<Step, OutOfMemory>
    requires { KeepsRules beginning.old }
    ensures { IfOk result (λ step.
        Steps step beginning.old (codes "@item" ++ 32 ∷ text.now) beginning.new) }
{
    match item_in(alloc, text)? {
        Some(item) => Ok(taken_or_refused(beginning.add_part(alloc, GivenPart::Item(item))?)),
        None => Ok(Step::Refused),
    }
}

/// Adds a pull from what follows `@pull ` on its line; `Refused` where that is malformed, or may not come next.
fn read_pull(alloc: Global, beginning: &mut ReportSoFar, text: &[u8]) -> Result<Step, OutOfMemory>
    requires { KeepsRules beginning.old }
    ensures { IfOk result (λ step.
        Steps step beginning.old (codes "@pull" ++ 32 ∷ text.now) beginning.new) }
{
    match pull_in(alloc, text)? {
        Some(pull) => Ok(taken_or_refused(beginning.add_part(alloc, GivenPart::Pull(pull))?)),
        None => Ok(Step::Refused),
    }
}

/// Answers `End` where the report is whole and has as many runs as `text`, which follows `@end `, says; else `Refused`.
fn end_or_refused(beginning: &ReportSoFar, text: &[u8]) -> Step
    requires ruled { IsRuled beginning.now }
    ensures { EndsBy result beginning.now text.now }
{
    match number_in(text) {
        Some(count) if beginning.is_whole() && count as usize == beginning.run_count() => Step::End,
        _ => Step::Refused,
    }
}

/// Adds what a line after the head says; `Refused` where the line is malformed, or may not come next.
fn read_line(alloc: Global, beginning: &mut ReportSoFar, line: &[u8]) -> Result<Step, OutOfMemory>
    requires { KeepsRules beginning.old }
    ensures { IfOk result (λ step. Steps step beginning.old line.now beginning.new) }
{
    let Some((first, text)) = split_field(line) else {
        return Ok(Step::Refused);
    };
    if first == b"@run".as_slice() {
        return read_run(alloc, beginning, text);
    }
    if first == b"@item".as_slice() {
        return read_item(alloc, beginning, text);
    }
    if first == b"@pull".as_slice() {
        return read_pull(alloc, beginning, text);
    }
    if first == b"@end".as_slice() {
        return Ok(end_or_refused(beginning, text));
    }
    read_task(alloc, beginning, first, text)
}

/// Reads the lines after the head, up to the `@end` line; `BadLine` for one that may not stand in its place.
fn read_lines<R: Read>(
    alloc: Global,
    lines: &mut Lines,
    device: &mut R,
    beginning: &mut ReportSoFar,
) -> Result<(), ReportFault>
    requires kept { KeepsRules beginning.old }
    requires known { IsKnown beginning.old }
    requires second { lines.old.number ≡ 1 }
    requires place { lines_in (opening_text (so_far beginning.old)) ≡ 1 }
    ensures ok { OnOk result (ReadsOn
        (ahead lines.old.held (R.left device.old)) (ahead lines.new.held (R.left device.new))
        (opening_text (so_far beginning.old)) (report_text (so_far beginning.new))) }
    ensures rules { OnOk result (IsShownReport (so_far beginning.new)) }
    ensures tells { IfErr result (λ fault. IfSome (ahead lines.old.held (R.left device.old))
        (λ bytes. Tells (opening_text (so_far beginning.old) ++ bytes) fault)) }
    ensures place { OnOk result (lines.new.number ≡ lines_in (report_text (so_far beginning.new))) }
    ensures number { OnOk result (lines.new.number < 300_000_000_000) }
    ensures tallied { OnOk result (Tallies
        lines.old.held.interruptions (R.interruptions device.old) (R.failures device.old)
        lines.new.held.interruptions (R.interruptions device.new) (R.failures device.new)) }
    ensures halted { IfErr result (λ fault. fault ≡ ReportFault.Io
        → Breaks lines.old.held.interruptions (R.interruptions device.old) (R.failures device.old)
        (R.interruptions device.new) (R.failures device.new)) }
{
    loop {
        lines.read(device)?;
        match read_line(alloc, beginning, lines.line())? {
            Step::Taken => {}
            Step::End => return Ok(()),
            Step::Refused => return Err(ReportFault::BadLine(lines.number)),
        }
    }
}

/// Reads the head, which is the first line; `BadLine(1)` where that line is no head.
fn read_head<R: Read>(
    alloc: Global,
    lines: &mut Lines,
    device: &mut R,
) -> Result<ReportSoFar, ReportFault>
    requires nothing { held_bytes lines.old.held ≡ [] }
    requires first { lines.old.number ≡ 0 }
    ensures ok { IfOk result (λ beginning. ReadsOn (R.left device.old)
        (ahead lines.new.held (R.left device.new)) [] (opening_text (so_far beginning))) }
    ensures kept { IfOk result KeepsRules }
    ensures known { IfOk result IsKnown }
    ensures place { IfOk result (λ beginning. lines_in (opening_text (so_far beginning)) ≡ 1) }
    ensures number { OnOk result (lines.new.number ≡ 1) }
    ensures tells { IfErr result (λ fault. IfSome (R.left device.old)
        (λ bytes. Tells bytes fault)) }
    ensures tallied { OnOk result (Tallies
        lines.old.held.interruptions (R.interruptions device.old) (R.failures device.old)
        lines.new.held.interruptions (R.interruptions device.new) (R.failures device.new)) }
    ensures halted { IfErr result (λ fault. fault ≡ ReportFault.Io
        → Breaks lines.old.held.interruptions (R.interruptions device.old) (R.failures device.old)
        (R.interruptions device.new) (R.failures device.new)) }
{
    lines.read(device)?;
    match head_in(alloc, lines.line())? {
        Some((version, dag_id)) => Ok(ReportSoFar::new(alloc, version, dag_id)),
        None => Err(ReportFault::BadLine(1)),
    }
}

/// Reads what follows the head, up to the device's end; `BadLine` also where bytes follow the `@end` line.
fn read_rest<R: Read>(
    alloc: Global,
    lines: &mut Lines,
    device: &mut R,
    beginning: &mut ReportSoFar,
) -> Result<(), ReportFault>
    requires kept { KeepsRules beginning.old }
    requires known { IsKnown beginning.old }
    requires second { lines.old.number ≡ 1 }
    requires place { lines_in (opening_text (so_far beginning.old)) ≡ 1 }
    ensures ok { OnOk result (ReadsOn
        (ahead lines.old.held (R.left device.old)) (ahead lines.new.held (R.left device.new))
        (opening_text (so_far beginning.old)) (report_text (so_far beginning.new))) }
    ensures end { OnOk result (IsAtEnd (ahead lines.new.held (R.left device.new))) }
    ensures rules { OnOk result (IsShownReport (so_far beginning.new)) }
    ensures tells { IfErr result (λ fault. IfSome (ahead lines.old.held (R.left device.old))
        (λ bytes. Tells (opening_text (so_far beginning.old) ++ bytes) fault)) }
    ensures tallied { OnOk result (Tallies
        lines.old.held.interruptions (R.interruptions device.old) (R.failures device.old)
        lines.new.held.interruptions (R.interruptions device.new) (R.failures device.new)) }
    ensures halted { IfErr result (λ fault. fault ≡ ReportFault.Io
        → Breaks lines.old.held.interruptions (R.interruptions device.old) (R.failures device.old)
        (R.interruptions device.new) (R.failures device.new)) }
{
    read_lines(alloc, lines, device, beginning)?;
    if lines.held.has_more(device)? {
        return Err(ReportFault::BadLine(lines.number + 1));
    }
    Ok(())
}

/// Reads a report, up to the device's end; an Err tells the first line that is at fault, and why.
fn read_all<R: Read>(
    alloc: Global,
    lines: &mut Lines,
    device: &mut R,
) -> Result<Report, ReportFault>
    requires nothing { held_bytes lines.old.held ≡ [] }
    requires first { lines.old.number ≡ 0 }
    requires tallied { lines.old.held.interruptions ≡ 0 }
    ensures ok { IfOk result (λ report.
        IfSome (R.left device.old) (λ bytes. bytes ≡ report_text report)) }
    ensures rules { IfOk result IsShownReport }
    ensures err { IfErr result (λ fault. IfSome (R.left device.old) (λ bytes. Tells bytes fault)) }
    ensures io { IfErr result (λ fault. fault ≡ ReportFault.Io → HasHalted
        (R.failures device.old) (R.failures device.new)
        (R.interruptions device.old) (R.interruptions device.new)) }
    ensures went_on { OnOk result (HasGoneOn (R.failures device.old) (R.failures device.new)
        (R.interruptions device.old) (R.interruptions device.new)) }
{
    let mut beginning = read_head(alloc, lines, device)?;
    read_rest(alloc, lines, device, &mut beginning)?;
    Ok(beginning.into_report(alloc)?)
}

/// Reads a report of either version, up to the device's end. After an Err, bytes that were read are lost.
pub fn read_report<R: Read>(alloc: Global, device: &mut R) -> Result<Report, ReportFault>
    ensures ok { IfOk result (λ report.
        IfSome (R.left device.old) (λ bytes. bytes ≡ report_text report)) }
    ensures rules { IfOk result IsShownReport }
    ensures err { IfErr result (λ fault. IfSome (R.left device.old) (λ bytes. Tells bytes fault)) }
    ensures reads { IfErr result (λ fault.
        IfSome (R.left device.old) (λ bytes. IsReportText bytes → IsFromOutside fault)) }
    ensures io { IfErr result (λ fault. fault ≡ ReportFault.Io → HasHalted
        (R.failures device.old) (R.failures device.new)
        (R.interruptions device.old) (R.interruptions device.new)) }
    ensures went_on { OnOk result (HasGoneOn (R.failures device.old) (R.failures device.new)
        (R.interruptions device.old) (R.interruptions device.new)) }
{
    let mut lines = Lines::new(alloc)?;
    read_all(alloc, &mut lines, device)
}
