//! The device over a writer of std.
ghost use Rattle.std.specs.Prelude.{◌≡◌, Err};
ghost use Rattle.bf_device.specs.Device.{interrupted, read_failed, WentOn};
ghost use Rattle.bf_device.specs.Output.{interrupted_calls, failed_calls};

use crate::device::{Halt, Halts, Write};
use std::io;

/// A device that writes to a writer of std, such as a file or standard output. Contracts don't see what was written.
#[derive(Drop)]
pub struct Output<W: io::Write + Drop> {
    pub inner: W,
    halts: Halts,
}

impl<W: io::Write + Drop> Output<W> {
    /// Makes a device that writes to a writer of std.
    pub fn new(inner: W) -> Self
        ensures { result.inner ≡ inner }
    {
        Output {
            inner,
            halts: Halts::none(),
        }
    }

    /// Counts an interruption or a failure of another call on the inner writer than a write, as of a sync.
    pub fn count(&mut self, halt: Halt)
        ensures inner { self.new.inner ≡ self.old.inner }
        ensures interrupted { WentOn (interrupted
            (Err halt)) (interrupted_calls self.old) (interrupted_calls self.new) }
        ensures failed { WentOn (read_failed (Err halt)) (failed_calls self.old)
            (failed_calls self.new) }
    {
        self.halts.count(halt);
    }

    /// Gives the writer back.
    pub fn into_inner(self) -> W
        ensures { result ≡ self.inner }
    {
        let Output { inner, halts: _ } = self;
        inner
    }
}

impl<W: io::Write + Drop> Write for Output<W> {
    ghost use Rattle.std.specs.Prelude.{None};

    ghost written = { λ _. None };

    ghost interruptions = { λ o. interrupted_calls o };

    ghost failures = { λ o. failed_calls o };

    /// Writes once to the inner writer, and gives how many bytes it took. An error counts as an interruption (`Again`)
    /// or a failure (`Failed`); taking none of some bytes counts as a failure too.
    fn write(&mut self, bytes: &[u8]) -> Result<usize, Halt> {
        match self.inner.write(bytes) {
            Ok(count) => {
                if count == 0 && !bytes.is_empty() {
                    self.halts.count(Halt::Failed);
                }
                Ok(count)
            }
            Err(error) => {
                let halt = Halt::from_error(&error);
                self.halts.count(halt);
                Err(halt)
            }
        }
    }
}
