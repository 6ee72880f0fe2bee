//! What writes records behind each other.
ghost use Rattle.std.specs.Prelude.{◌≡◌, ◌+◌, ◌-◌, ◌^◌, min, true, false};
ghost use Rattle.bf_device.specs.Device.{sent};
ghost use Rattle.bf_journal.specs.Recording.{GoesOut, IsWritten, is_write_failed};
ghost use Rattle.bf_journal.specs.inner.Recording.{stop_reason_of};

use crate::durable::{Durable, try_sync};
use crate::journaled::Journaled;
use crate::stop::Stop;
use bf_device::send;
use std::marker::{Model, PhantomData};
use std::time::Duration;

/// The least time from one sync to the next, in seconds.
const PAUSE: u64 = 1;

/// Appends records to a device, which it syncs at most once a second. After a failed write it writes nothing more,
/// since the next record would run into one that was cut short. Contracts see what was written, and why no further try
/// is begun.
#[derive(Drop)]
pub struct Recorder<K: Journaled, D: Durable + Drop> {
    device: D,
    write_failed: bool,
    memory_failed: bool,
    failed_tries: u32,
    most_failed: Option<u32>,
    /// When the device was synced last, or taken over, by the monotonic clock.
    synced: Duration,
    of: PhantomData<K>,
}

impl<K: Journaled, D: Durable + Drop> Model for Recorder<K, D> {
    ghost use Rattle.bf_journal.specs.Recording.{IsWritten, Recorded};

    ghost Value = { Recorded };

    ghost view = { λ r. record {
      written = D.written r.device;
      write_failed = r.write_failed;
      memory_failed = r.memory_failed;
      failed_tries = r.failed_tries;
      most_failed = r.most_failed;
    } };

    ghost invariant = { λ r. IsWritten K.may_record K.base (D.written r.device) r.write_failed };
}

/// Writes a line to the device, syncs the device where `due`, and answers true; false where either fails.
fn try_record_line<D: Durable>(device: &mut D, line: &[u8], due: bool) -> bool
    ensures { GoesOut line.now (D.written device.old) (D.written device.new) result }
{
    match send(device, line) {
        Ok(()) if due => try_sync(device),
        Ok(()) => true,
        Err(_) => false,
    }
}

impl<K: Journaled, D: Durable + Drop> Recorder<K, D> {
    /// Makes a recorder that writes behind what the device holds. Once `most_failed` tries have failed, `stop_reason`
    /// says to begin no more; None sets no bound. `now` is the present moment of the monotonic clock.
    #[tactic(auto, using(crate::proofs::Going::begins))]
    pub fn new(device: D, most_failed: Option<u32>, now: Duration) -> Recorder<K, D>
        requires { K.base ≡ D.written device }
        ensures { result ≡ record {
          written = D.written device;
          write_failed = false;
          memory_failed = false;
          failed_tries = 0;
          most_failed = most_failed;
        } }
    {
        Recorder {
            device,
            write_failed: false,
            memory_failed: false,
            failed_tries: 0,
            most_failed,
            synced: now,
            of: PhantomData,
        }
    }

    /// Writes a record's line to the device, and syncs the device where a second has passed since the last sync. `now`
    /// is the present moment of the monotonic clock. A failure shows in `stop_reason`, and makes later calls write
    /// nothing.
    pub(crate) fn record(&mut self, line: &[u8], now: Duration)
        requires { K.may_record line.now }
        ensures behind_failure { self.old.write_failed ≡ true → self.new ≡ self.old }
        ensures ok { self.new.write_failed ≡ false → self.new.written
            ≡ sent self.old.written line.now }
        ensures same { self.new ≡ record self.old {
          written = self.new.written;
          write_failed = self.new.write_failed;
        } }
    {
        if self.write_failed {
            return;
        }
        let due = now.saturating_sub(self.synced).as_secs() >= PAUSE;
        self.synced = if due { now } else { self.synced };
        self.write_failed = !try_record_line(&mut self.device, line, due);
    }

    /// Notes that memory was wanting for a record, which shows in `stop_reason`.
    pub(crate) fn note_memory_failure(&mut self)
        ensures { self.new ≡ record self.old { memory_failed = true } }
    {
        self.memory_failed = true;
    }

    /// Counts one more failed try, up to 2^32 - 1.
    pub(crate) fn count_failed(&mut self)
        ensures { self.new ≡ record self.old
            { failed_tries = min (self.old.failed_tries + 1) (2 ^ 32 - 1) } }
    {
        self.failed_tries = self.failed_tries.saturating_add(1);
    }

    /// Gives the reason why no further try is to begin; None while tries may begin.
    pub(crate) fn stop_reason(&self) -> Option<Stop>
        ensures { result ≡ stop_reason_of self.now }
    {
        if self.write_failed {
            return Some(Stop::WriteFailed);
        }
        if self.memory_failed {
            return Some(Stop::OutOfMemory);
        }
        match self.most_failed {
            Some(most) if most <= self.failed_tries => Some(Stop::EnoughFailed),
            _ => None,
        }
    }

    /// Syncs the device, unless a write has failed, and gives it back with the reason why no further try was to begin;
    /// None where tries might still have begun.
    #[tactic(auto, using(crate::proofs::Going::given_up))]
    pub(crate) fn close(mut self) -> (D, Option<Stop>)
        ensures written { IsWritten K.may_record K.base (D.written result.0)
            (is_write_failed result.1) }
        ensures stop { is_write_failed result.1 ≡ false → result.1 ≡ stop_reason_of self }
    {
        if !self.write_failed {
            self.write_failed = !try_sync(&mut self.device);
        }
        let stop = self.stop_reason();
        let Recorder {
            device,
            write_failed: _,
            memory_failed: _,
            failed_tries: _,
            most_failed: _,
            synced: _,
            of: _,
        } = self;
        (device, stop)
    }
}
