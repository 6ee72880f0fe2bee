//! Devices whose last bytes can be dropped.
ghost use Rattle.std.specs.Prelude.{◌≡◌, IfErr, OnErr, OnOk, false, option_map, take, true};
ghost use Rattle.bf_device.specs.Device.{HasGoneOn, HasHalted};
ghost use Rattle.bf_journal.specs.Counting.{CountsHalt, CountsNoHalt};

use crate::durable::Durable;
use bf_device::{Halt, MOST_INTERRUPTIONS, Output};
use std::fs::OpenFile;
use std::io;

/// A device that can drop bytes from its end.
pub trait Cuttable: Durable {
    /// Keeps the first `count` bytes of the device and drops the rest. `Again` where that was interrupted, `Failed`
    /// where it failed: it drops none then, and the device counts either.
    fn cut(&mut self, count: usize) -> Result<(), Halt>
        ensures ok { OnOk result (Self.written self.new
            ≡ option_map (take count) (Self.written self.old)) }
        ensures kept { OnErr result (Self.written self.new ≡ Self.written self.old) }
        ensures uncounted { OnOk result (CountsNoHalt
            (Self.failures self.old) (Self.failures self.new)
            (Self.interruptions self.old) (Self.interruptions self.new)) }
        ensures counted { IfErr result (λ halt. CountsHalt halt
            (Self.failures self.old) (Self.failures self.new)
            (Self.interruptions self.old) (Self.interruptions self.new)) };
}

impl<F: io::Write + OpenFile + Drop> Cuttable for Output<F> {
    /// Truncates the file to `count` bytes.
    fn cut(&mut self, count: usize) -> Result<(), Halt> {
        match self.inner.set_len(count as u64) {
            Ok(()) => Ok(()),
            Err(error) => {
                let halt = Halt::from_error(&error);
                self.count(halt);
                Err(halt)
            }
        }
    }
}

/// Keeps the first `count` bytes of the device, drops the rest and answers true. False, with none dropped, where that
/// fails or is interrupted 1,001 times.
pub(crate) fn try_cut<D: Cuttable>(device: &mut D, count: usize) -> bool
    ensures cut { result ≡ true → D.written device.new
        ≡ option_map (take count) (D.written device.old) }
    ensures kept { result ≡ false → D.written device.new ≡ D.written device.old }
    ensures went_on { result ≡ true → HasGoneOn (D.failures device.old) (D.failures device.new)
        (D.interruptions device.old) (D.interruptions device.new) }
    ensures halted { result ≡ false → HasHalted (D.failures device.old) (D.failures device.new)
        (D.interruptions device.old) (D.interruptions device.new) }
{
    for _ in 0..=MOST_INTERRUPTIONS {
        match device.cut(count) {
            Ok(()) => return true,
            Err(Halt::Again) => {}
            Err(Halt::Failed) => return false,
        }
    }
    false
}
