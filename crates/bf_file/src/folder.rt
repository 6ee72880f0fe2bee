//! Where files are replaced.
ghost use Rattle.std.specs.Prelude.{◌≡◌, ◌||◌, ℕ, [], Bool, List, Option, Some, IfOk, OnErr, OnOk, option_map};
ghost use Rattle.bf_file.specs.declared.call.Placed.{Placed};
ghost use Rattle.bf_file.specs.Failing.{failed_by};
ghost use Rattle.bf_file.specs.Replacing.{left_behind, placed_with};

use crate::fault::{PlaceFault, ReplaceFault};
use crate::replacement::Replacement;
use std::alloc::Global;

/// Replaces files, one after another. Contracts see, where the folder tells them, which paths got new files and by
/// which calls; which new files couldn't be renamed and stay under their own names; the path of the last
/// `begin_replacement`; and whether a call failed, on the folder or on a new file that it discarded.
pub trait Folder {
    type New: Replacement + Drop;

    ghost placed: { Self → Option (List Placed) };

    ghost left: { Self → Option (List Placed) };

    ghost begun: { Self → Option (List ℕ) };

    ghost failed: { Self → Bool };

    /// Makes an empty new file beside the one at a path, or gets ready to, and remembers the path for `rename`. Err
    /// where that can't be done, or at want of memory; no path gets a new file yet.
    fn begin_replacement(&mut self, alloc: Global, path: &str) -> Result<Self::New, ReplaceFault>
        ensures begun { OnOk result (begun self.new ≡ Some path.now) }
        ensures empty { IfOk result (λ new.
            Self.New.calls new ≡ option_map (λ _. []) (placed self.old)) }
        ensures same { placed self.new ≡ placed self.old }
        ensures left { left self.new ≡ left self.old }
        ensures failed { failed self.new ≡ failed_by (failed self.old) result };

    /// Puts a new file at the path last given to `begin_replacement`, in one step. At an Err the path holds what it
    /// held, and the new file stays under the name that `Left` has.
    fn rename(&mut self, new: Self::New) -> Result<(), PlaceFault>
        ensures placed { OnOk result (placed self.new
            ≡ placed_with (placed self.old) (begun self.old) (Self.New.calls new)) }
        ensures same { OnErr result (placed self.new ≡ placed self.old) }
        ensures left { left self.new
            ≡ left_behind (left self.old) (Self.New.calls new) result }
        ensures failed { failed self.new ≡ failed_by (failed self.old) result };

    /// Removes a new file that isn't wanted. The file at the path stays as it was.
    fn discard(&mut self, new: Self::New)
        ensures same { placed self.new ≡ placed self.old }
        ensures left { left self.new ≡ left self.old }
        ensures failed { failed self.new ≡ (Self.New.failed new || failed self.old) };
}
