//! The bytes of a device, over a room that is filled by few reads.
ghost use Rattle.std.specs.Prelude.{◌≡◌, ◌==◌, [], ◌≤◌, ◌<◌, ◌↔◌, length, position, drop, false, IfOk, OnOk, OnErr, IsTrue, MatchBool};
ghost use Rattle.std.specs.Io.KnownBytes.{Consumes, IsAtEnd};

use crate::fault::Halted;
use bf_device::{Halt, MOST_INTERRUPTIONS, Read};
use bf_value::OutOfMemory;
use memchr::memchr;
use std::alloc::Global;

/// The most bytes that a line may have, without its line feed; the line of a pull may have more.
pub(crate) const LONGEST_LINE: usize = 66_000;

/// The most bytes that one read gives.
const ROOM: usize = 8_192;

/// Finds the first line feed, by its index; None where there is none.
#[tactic(auto, using(crate::proofs::Finding::first_is))]
pub(crate) fn line_feed_in(bytes: &[u8]) -> Option<usize>
    ensures { result ≡ position (λ b. b == 10) bytes.now }
{
    memchr(b'\n', bytes)
}

/// A buffer over a device: the bytes read and not taken yet (`start` to `end`), the line taken last (`line_start` to
/// `line_end`), and how often reads were interrupted.
#[derive(Drop)]
pub(crate) struct ReadBuffer {
    pub(crate) room: Vec<u8>,
    pub(crate) start: usize,
    pub(crate) end: usize,
    pub(crate) line_start: usize,
    pub(crate) line_end: usize,
    pub(crate) interruptions: u32,
    ghost in_order: { start ≤ end },
    ghost within: { end ≤ length room.items },
    ghost line_in_order: { line_start ≤ line_end },
    ghost line_within: { line_end ≤ length room.items },
    ghost some_room: { 0 < length room.items },
    ghost few: { interruptions ≤ 1_000 },
}

impl ReadBuffer {
    ghost use Rattle.bf_report_reader.specs.inner.Held.{held_bytes, held_line, ahead, Tallies, Breaks, TakesLine, KeepsAll};

    /// Makes an empty buffer, which has counted no interruption.
    pub(crate) fn new(alloc: Global) -> Result<ReadBuffer, OutOfMemory>
        ensures { IfOk result (λ held. (held_bytes held ≡ []) × (held.interruptions ≡ 0)) }
    {
        Ok(ReadBuffer {
            room: vec![in alloc; 0; ROOM]?,
            start: 0,
            end: 0,
            line_start: 0,
            line_end: 0,
            interruptions: 0,
        })
    }

    /// Reads from the device into the empty buffer, over the line that `line` gives, and answers whether bytes came;
    /// false at the device's end. Repeats interrupted reads. `Halted` where a read fails, or at the 1,001st
    /// interruption since the buffer was made.
    fn fill<R: Read>(&mut self, device: &mut R) -> Result<bool, Halted>
        requires { self.old.start ≡ self.old.end }
        ensures bytes { OnOk result
            (Consumes (R.left device.old) (R.left device.new) (held_bytes self.new)) }
        ensures more { IfOk result (λ more. IsTrue more ↔ (self.new.start < self.new.end)) }
        ensures end { IfOk result (λ more. more ≡ false → IsAtEnd (R.left device.new)) }
        ensures tallied { OnOk result (Tallies
            self.old.interruptions (R.interruptions device.old) (R.failures device.old)
            self.new.interruptions (R.interruptions device.new) (R.failures device.new)) }
        ensures halted { OnErr result (Breaks
            self.old.interruptions (R.interruptions device.old) (R.failures device.old)
            (R.interruptions device.new) (R.failures device.new)) }
    {
        loop {
            match device.read(self.room.as_mut_slice()) {
                Ok(0) => return Ok(false),
                Ok(count) => {
                    self.start = 0;
                    self.end = count;
                    return Ok(true);
                }
                Err(Halt::Again) => {
                    if self.interruptions == MOST_INTERRUPTIONS {
                        return Err(Halted);
                    }
                    self.interruptions += 1;
                }
                Err(Halt::Failed) => return Err(Halted),
            }
        }
    }

    /// Answers whether bytes are left to take, and reads from the device first where the buffer is empty, over the line
    /// that `line` gives. False at the device's end. `Halted` where a read fails, or at the 1,001st interruption since
    /// the buffer was made.
    pub(crate) fn has_more<R: Read>(&mut self, device: &mut R) -> Result<bool, Halted>
        ensures same { OnOk result (Consumes (ahead self.old (R.left device.old))
            (ahead self.new (R.left device.new)) []) }
        ensures more { IfOk result (λ more. IsTrue more ↔ (0 < length (held_bytes self.new))) }
        ensures end { IfOk result (λ more.
            more ≡ false → IsAtEnd (ahead self.new (R.left device.new))) }
        ensures tallied { OnOk result (Tallies
            self.old.interruptions (R.interruptions device.old) (R.failures device.old)
            self.new.interruptions (R.interruptions device.new) (R.failures device.new)) }
        ensures halted { OnErr result (Breaks
            self.old.interruptions (R.interruptions device.old) (R.failures device.old)
            (R.interruptions device.new) (R.failures device.new)) }
    {
        if self.start < self.end {
            return Ok(true);
        }
        self.fill(device)
    }

    /// Gives the bytes that were read and not taken yet.
    pub(crate) fn bytes(&self) -> &[u8]
        ensures { result.now ≡ held_bytes self.now }
    {
        &self.room[self.start..self.end]
    }

    /// Drops the first `count` bytes of those not taken yet.
    pub(crate) fn skip(&mut self, count: usize)
        requires { count ≤ length (held_bytes self.old) }
        ensures bytes { held_bytes self.new ≡ drop count (held_bytes self.old) }
        ensures same { self.new.interruptions ≡ self.old.interruptions }
    {
        self.start += count;
    }

    /// Takes the next line with its line feed, which `line` then gives, and answers true; false, with nothing taken,
    /// where the buffer doesn't hold all of the line, or the line is longer than `LONGEST_LINE`.
    pub(crate) fn take_line(&mut self) -> bool
        ensures { MatchBool result (TakesLine self.old self.new) (KeepsAll self.old self.new) }
    {
        match line_feed_in(self.bytes()) {
            Some(at) if at <= LONGEST_LINE => {
                self.line_start = self.start;
                self.line_end = self.start + at;
                self.start += at + 1;
                true
            }
            _ => false,
        }
    }

    /// Gives the line taken last, without its line feed, until bytes are read again; empty before the first.
    pub(crate) fn line(&self) -> &[u8]
        ensures { result.now ≡ held_line self.now }
    {
        &self.room[self.line_start..self.line_end]
    }
}
