//! The device that halts, for tests.
ghost use Rattle.std.specs.Prelude.{◌≡◌, ◌+◌};

use crate::device::{Halt, Halts, Read, Write};

/// A device for tests, of other crates too. It passes on at most one byte a call, but its calls from `first` on,
/// `times` of them and counted from 0, give `halt`.
#[derive(Drop)]
pub struct Halting<D: Drop> {
    pub inner: D,
    pub halt: Halt,
    pub first: u64,
    pub times: u64,
    /// How many calls were made so far.
    pub calls: u64,
    pub halts: Halts,
}

impl<D: Drop> Halting<D> {
    /// Makes a device over `inner` whose calls from `first` on, `times` of them and counted from 0, give `halt`; the
    /// others pass on at most one byte.
    pub fn new(inner: D, halt: Halt, first: u64, times: u64) -> Self
        ensures { result ≡ record {
          inner = inner;
          halt = halt;
          first = first;
          times = times;
          calls = 0;
          halts = record { interrupted = 0; failed = 0 };
        } }
    {
        Halting {
            inner,
            halt,
            first,
            times,
            calls: 0,
            halts: Halts::none(),
        }
    }

    /// Gives the inner device back.
    pub fn into_inner(self) -> D
        ensures { result ≡ self.inner }
    {
        let Halting {
            inner,
            halt: _,
            first: _,
            times: _,
            calls: _,
            halts: _,
        } = self;
        inner
    }
}

impl<W: Write + Drop> Write for Halting<W> {
    ghost written = { λ h. W.written h.inner };

    ghost interruptions = { λ h. W.interruptions h.inner + h.halts.interrupted };

    ghost failures = { λ h. W.failures h.inner + h.halts.failed };

    /// Gives `halt` where this call is to halt, else writes at most one byte to the inner device.
    fn write(&mut self, bytes: &[u8]) -> Result<usize, Halt> {
        let call = self.calls;
        self.calls = self.calls.wrapping_add(1);
        if call < self.first || call - self.first >= self.times {
            return self.inner.write(&bytes[..bytes.len().min(1)]);
        }
        self.halts.count(self.halt);
        Err(self.halt)
    }
}

impl<R: Read + Drop> Read for Halting<R> {
    ghost left = { λ h. R.left h.inner };

    ghost interruptions = { λ h. R.interruptions h.inner + h.halts.interrupted };

    ghost failures = { λ h. R.failures h.inner + h.halts.failed };

    /// Gives `halt` where this call is to halt, else reads at most one byte off the inner device.
    fn read(&mut self, room: &mut [u8]) -> Result<usize, Halt> {
        let call = self.calls;
        self.calls = self.calls.wrapping_add(1);
        if call < self.first || call - self.first >= self.times {
            let most = room.len().min(1);
            return self.inner.read(&mut room[..most]);
        }
        self.halts.count(self.halt);
        Err(self.halt)
    }
}
