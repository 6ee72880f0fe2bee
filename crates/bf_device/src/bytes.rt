//! Bytes in memory to be read.
ghost use Rattle.std.specs.Prelude.{◌≡◌, ◌≤◌, length};

use crate::device::{Halt, Read};

/// A device that gives bytes in memory.
#[derive(Drop)]
pub struct Bytes {
    bytes: Vec<u8>,
    read: usize,
    ghost within: { read ≤ length bytes.items },
}

impl Bytes {
    ghost use Rattle.bf_device.specs.Bytes.{bytes_left};

    /// Makes a device that gives these bytes.
    pub fn new(bytes: Vec<u8>) -> Bytes
        ensures { bytes_left result ≡ bytes.items }
    {
        Bytes { bytes, read: 0 }
    }
}

impl Read for Bytes {
    ghost use Rattle.std.specs.Prelude.{Some};
    ghost use Rattle.bf_device.specs.Bytes.{bytes_left};

    ghost left = { λ b. Some (bytes_left b) };

    ghost interruptions = { λ _. 0 };

    ghost failures = { λ _. 0 };

    /// Reads the next bytes into the front of `room`, as many as fit, and gives how many; never fails.
    fn read(&mut self, room: &mut [u8]) -> Result<usize, Halt> {
        let count = room.len().min(self.bytes.len() - self.read);
        let to = self.read + count;
        room[..count].copy_from_slice(&self.bytes[self.read..to]);
        self.read = to;
        Ok(count)
    }
}
