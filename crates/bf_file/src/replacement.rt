//! A new file that is to take another's place.
ghost use Rattle.std.specs.Prelude.{◌≡◌, ◌≢◌, ◌≤◌, [], Bool, List, Option, IfOk, OnErr, OnOk, length, take};
ghost use Rattle.bf_file.specs.declared.call.Call.{Call};
ghost use Rattle.bf_file.specs.Failing.{failed_by};
ghost use Rattle.bf_file.specs.Replacing.{made};

use crate::fault::ReplaceFault;

/// A new file that is to take the place of another. Contracts see, where it tells them, the calls on it that succeeded,
/// and whether one failed.
pub trait Replacement {
    ghost calls: { Self → Option (List Call) };

    ghost failed: { Self → Bool };

    /// Writes a first part of the bytes, at least one unless there are none, and gives its length. At an Err nothing
    /// counts as written.
    fn write(&mut self, bytes: &[u8]) -> Result<usize, ReplaceFault>
        ensures bound { IfOk result (λ n. n ≤ length bytes.now) }
        ensures some { IfOk result (λ n. bytes.now ≢ [] → n ≢ 0) }
        ensures wrote { IfOk result (λ n.
            calls self.new ≡ made (calls self.old) (Call.Wrote (take n bytes.now))) }
        ensures same { OnErr result (calls self.new ≡ calls self.old) }
        ensures failed { failed self.new ≡ failed_by (failed self.old) result };

    /// Returns once all that was written is on the disk; Err where that fails.
    fn sync(&mut self) -> Result<(), ReplaceFault>
        ensures synced { OnOk result (calls self.new ≡ made (calls self.old) Call.Synced) }
        ensures same { OnErr result (calls self.new ≡ calls self.old) }
        ensures failed { failed self.new ≡ failed_by (failed self.old) result };
}
