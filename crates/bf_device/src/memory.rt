//! The device that keeps what is written.
ghost use Rattle.std.specs.Prelude.{◌≡◌, []};
ghost use Rattle.bf_device.specs.Memory.{bytes_in, refused_writes};

use crate::device::{Halt, Write};
use std::alloc::Global;

/// A device that keeps what is written in memory. A write that finds no memory fails.
#[derive(Drop)]
pub struct Memory {
    bytes: Vec<u8>,
    failed: u64,
}

impl Memory {
    /// Makes a device to which nothing was written.
    pub fn new(alloc: Global) -> Memory
        ensures { bytes_in result ≡ [] }
    {
        Memory {
            bytes: Vec::new(alloc),
            failed: 0,
        }
    }

    /// Gives the bytes that were written.
    pub fn as_slice(&self) -> &[u8]
        ensures { result.now ≡ bytes_in self.now }
    {
        self.bytes.as_slice()
    }

    /// Turns the device into the bytes that were written.
    pub fn into_vec(self) -> Vec<u8>
        ensures { result.items ≡ bytes_in self }
    {
        let Memory { bytes, failed: _ } = self;
        bytes
    }
}

impl Write for Memory {
    ghost use Rattle.std.specs.Prelude.{Some};

    ghost written = { λ m. Some (bytes_in m) };

    ghost interruptions = { λ _. 0 };

    ghost failures = { λ m. refused_writes m };

    /// Adds all the bytes and gives their number. At want of memory it adds none, counts a failure and gives `Failed`.
    fn write(&mut self, bytes: &[u8]) -> Result<usize, Halt> {
        match self.bytes.extend_from_slice(bytes) {
            Ok(()) => Ok(bytes.len()),
            Err(_) => {
                self.failed = self.failed.wrapping_add(1);
                Err(Halt::Failed)
            }
        }
    }
}
