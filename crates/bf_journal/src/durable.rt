//! Devices whose bytes outlast a power cut.
ghost use Rattle.std.specs.Prelude.{◌≡◌, false, true, ℕ, List, Option, IfErr, OnOk};
ghost use Rattle.bf_device.specs.Device.{HasGoneOn, HasHalted};
ghost use Rattle.bf_journal.specs.Counting.{CountsHalt, CountsNoHalt};

use bf_device::{Halt, MOST_INTERRUPTIONS, Memory, Output, Write};
use std::fs::OpenFile;
use std::io;

/// A device that can make what was written to it outlast a power cut.
pub trait Durable: Write {
    /// The bytes that outlast a power cut, where the device tells them.
    ghost outlasting: { Self → Option (List ℕ) };

    /// Returns once all that was written so far outlasts a power cut. `Again` where that was interrupted, `Failed`
    /// where it failed; the device counts either. What was written stays the same.
    fn sync(&mut self) -> Result<(), Halt>
        ensures kept { Self.written self.new ≡ Self.written self.old }
        ensures synced { OnOk result (outlasting self.new ≡ Self.written self.new) }
        ensures uncounted { OnOk result (CountsNoHalt
            (Self.failures self.old) (Self.failures self.new)
            (Self.interruptions self.old) (Self.interruptions self.new)) }
        ensures counted { IfErr result (λ halt. CountsHalt halt
            (Self.failures self.old) (Self.failures self.new)
            (Self.interruptions self.old) (Self.interruptions self.new)) };
}

impl<F: io::Write + OpenFile + Drop> Durable for Output<F> {
    ghost use Rattle.std.specs.Prelude.{None};

    ghost outlasting = { λ _. None };

    /// Syncs the file's bytes to its disk.
    fn sync(&mut self) -> Result<(), Halt> {
        match self.inner.sync_data() {
            Ok(()) => Ok(()),
            Err(error) => {
                let halt = Halt::from_error(&error);
                self.count(halt);
                Err(halt)
            }
        }
    }
}

/// For tests: what stands in memory counts as synced.
impl Durable for Memory {
    ghost use Rattle.std.specs.Prelude.{Some};
    ghost use Rattle.bf_device.specs.Memory.{bytes_in};

    ghost outlasting = { λ m. Some (bytes_in m) };

    /// Does nothing: memory has no disk to sync to.
    fn sync(&mut self) -> Result<(), Halt> {
        Ok(())
    }
}

/// Syncs the device, again after each interruption, and answers true; false where that fails or is interrupted 1,001
/// times.
pub(crate) fn try_sync<D: Durable>(device: &mut D) -> bool
    ensures kept { D.written device.new ≡ D.written device.old }
    ensures synced { result ≡ true → D.outlasting device.new ≡ D.written device.new }
    ensures went_on { result ≡ true → HasGoneOn (D.failures device.old) (D.failures device.new)
        (D.interruptions device.old) (D.interruptions device.new) }
    ensures halted { result ≡ false → HasHalted (D.failures device.old) (D.failures device.new)
        (D.interruptions device.old) (D.interruptions device.new) }
{
    for _ in 0..=MOST_INTERRUPTIONS {
        match device.sync() {
            Ok(()) => return true,
            Err(Halt::Again) => {}
            Err(Halt::Failed) => return false,
        }
    }
    false
}
