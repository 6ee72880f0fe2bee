//! The device over a reader of std.
ghost use Rattle.std.specs.Prelude.{◌≡◌};
ghost use Rattle.bf_device.specs.Input.{interrupted_reads, failed_reads};

use crate::device::{Halt, Halts, Read};
use std::io;

/// A device that reads from a reader of std, such as a file. It tells contracts what that reader tells.
#[derive(Drop)]
pub struct Input<R: io::Read + Drop> {
    pub inner: R,
    halts: Halts,
}

impl<R: io::Read + Drop> Input<R> {
    /// Makes a device that reads from a reader of std.
    pub fn new(inner: R) -> Self
        ensures { result.inner ≡ inner }
    {
        Input {
            inner,
            halts: Halts::none(),
        }
    }

    /// Gives the reader back.
    pub fn into_inner(self) -> R
        ensures { result ≡ self.inner }
    {
        let Input { inner, halts: _ } = self;
        inner
    }
}

impl<R: io::Read + Drop> Read for Input<R> {
    ghost left = { λ i. R.remaining i.inner };

    ghost interruptions = { λ i. interrupted_reads i };

    ghost failures = { λ i. failed_reads i };

    /// Reads once from the inner reader into the front of `room`, and gives how many bytes came. An error counts as an
    /// interruption (`Again`) or a failure (`Failed`).
    fn read(&mut self, room: &mut [u8]) -> Result<usize, Halt> {
        match self.inner.read(room) {
            Ok(count) => Ok(count),
            Err(error) => {
                let halt = Halt::from_error(&error);
                self.halts.count(halt);
                Err(halt)
            }
        }
    }
}
