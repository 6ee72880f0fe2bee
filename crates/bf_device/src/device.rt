//! Devices: what bytes are written to and read from.
ghost use Rattle.std.specs.Prelude.{◌≡◌, ◌↔◌, ℕ, ◌≤◌, List, length, take, Option, IfOk, Err};
ghost use Rattle.std.specs.Io.KnownBytes.{ReadConsumes};
ghost use Rattle.std.specs.IoError.{error_kind};
ghost use Rattle.std.specs.declared.io.ErrorKind.TheVariants.{Interrupted};
ghost use Rattle.bf_device.specs.Device.{sent, taken, interrupted, write_failed, read_failed, WentOn};

use std::io;

/// How many interruptions, as by signals, one operation on a device tolerates before it gives up.
pub const MOST_INTERRUPTIONS: u32 = 1_000;

/// Why a call on a device took or gave no bytes.
#[derive(Clone, Copy, Debug, PartialEq, Eq)]
pub enum Halt {
    /// The call was interrupted, and can be repeated.
    Again,
    Failed,
}

impl Halt {
    /// Converts an error of std: `Again` for an interruption, else `Failed`.
    pub fn from_error(error: &io::Error) -> Halt
        ensures { (result ≡ Halt.Again) ↔ (error_kind error.now ≡ Interrupted) }
    {
        match error.kind() {
            io::ErrorKind::Interrupted => Halt::Again,
            _ => Halt::Failed,
        }
    }
}

/// How often a device was interrupted, and how often it failed. The counters have 64 bits and wrap to zero.
#[derive(Clone, Copy, Debug, PartialEq, Eq)]
pub struct Halts {
    pub interrupted: u64,
    pub failed: u64,
}

impl Halts {
    /// Makes the counts of a device that wasn't called yet.
    pub fn none() -> Halts
        ensures { result ≡ record { interrupted = 0; failed = 0 } }
    {
        Halts {
            interrupted: 0,
            failed: 0,
        }
    }

    /// Counts one more interruption or failure; a counter at its greatest wraps to zero.
    pub fn count(&mut self, halt: Halt)
        ensures interrupted { WentOn (interrupted
            (Err halt)) self.old.interrupted self.new.interrupted }
        ensures failed { WentOn (read_failed (Err halt)) self.old.failed self.new.failed }
    {
        match halt {
            Halt::Again => self.interrupted = self.interrupted.wrapping_add(1),
            Halt::Failed => self.failed = self.failed.wrapping_add(1),
        }
    }
}

/// A device that takes bytes. Contracts see the bytes that went out, where the device tells them, and how often it was
/// interrupted and how often it failed, in 64-bit counters that wrap. Taking none of some bytes counts as a failure.
pub trait Write {
    ghost written: { Self → Option (List ℕ) };

    ghost interruptions: { Self → ℕ };

    ghost failures: { Self → ℕ };

    /// Writes a first part of the bytes, and gives its length; to take none of some bytes counts as a failure. `Again`
    /// where the call was interrupted, `Failed` where it failed; then nothing went out.
    fn write(&mut self, bytes: &[u8]) -> Result<usize, Halt>
        ensures bound { IfOk result (λ n. n ≤ length bytes.now) }
        ensures written { written self.new
            ≡ sent (written self.old) (take (taken result) bytes.now) }
        ensures interruptions { WentOn (interrupted result) (interruptions self.old)
            (interruptions self.new) }
        ensures failures { WentOn (write_failed bytes.now result) (failures self.old)
            (failures self.new) };
}

/// A device that gives bytes. Contracts see the bytes left, where the device tells them, and how often it was
/// interrupted and how often it failed, in 64-bit counters that wrap. Giving none for some room means the end.
pub trait Read {
    ghost left: { Self → Option (List ℕ) };

    ghost interruptions: { Self → ℕ };

    ghost failures: { Self → ℕ };

    /// Reads the next bytes into the front of `room`, and gives how many; none for some room means the end. `Again`
    /// where the call was interrupted, `Failed` where it failed.
    fn read(&mut self, room: &mut [u8]) -> Result<usize, Halt>
        ensures bound { IfOk result (λ n. n ≤ length room.new) }
        ensures bytes { ReadConsumes (left self.old) (left self.new) result room.new }
        ensures interruptions { WentOn (interrupted result) (interruptions self.old)
            (interruptions self.new) }
        ensures failures { WentOn (read_failed result) (failures self.old) (failures self.new) };
}
