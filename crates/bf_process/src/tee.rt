//! What is read, kept as it comes.
ghost use Rattle.std.specs.Prelude.{◌≡◌};

use bf_device::{Halt, Read, Write, send};

/// A device that passes on what another gives, and copies it to a log. Once a write to the log fails, the rest isn't
/// copied; what is passed on stays the same.
#[derive(Drop)]
pub(crate) struct Tee<R: Read + Drop, W: Write + Drop> {
    inner: R,
    log: W,
    failed: bool,
}

impl<R: Read + Drop, W: Write + Drop> Tee<R, W> {
    /// Makes a device that gives what `inner` gives, and copies it to `log`.
    pub(crate) fn new(inner: R, log: W) -> Tee<R, W>
        ensures { R.left result.inner ≡ R.left inner }
    {
        Tee {
            inner,
            log,
            failed: false,
        }
    }

    /// Writes bytes to the log, and notes where that fails; does nothing once a write has failed.
    fn log_bytes(&mut self, bytes: &[u8])
        ensures { self.new.inner ≡ self.old.inner }
    {
        if !self.failed && send(&mut self.log, bytes).is_err() {
            self.failed = true;
        }
    }

    /// Answers whether a write to the log has failed. No contract covers this.
    pub(crate) fn has_failed(&self) -> bool {
        self.failed
    }

    /// Reads what is left, up to the end or a failed read, and copies it to the log. No contract covers this.
    pub(crate) fn drain(&mut self) {
        let mut room = [0; 8_192];
        for _ in 0..u64::MAX {
            match self.read(&mut room) {
                Ok(0) | Err(Halt::Failed) => return,
                Ok(_) | Err(Halt::Again) => {}
            }
        }
    }
}

impl<R: Read + Drop, W: Write + Drop> Read for Tee<R, W> {
    ghost left = { λ t. R.left t.inner };

    ghost interruptions = { λ t. R.interruptions t.inner };

    ghost failures = { λ t. R.failures t.inner };

    /// Reads from the device, and copies what it gave to the log, unless a write to the log has failed before.
    fn read(&mut self, room: &mut [u8]) -> Result<usize, Halt> {
        match self.inner.read(room) {
            Ok(count) => {
                self.log_bytes(&room[..count]);
                Ok(count)
            }
            Err(halt) => Err(halt),
        }
    }
}
