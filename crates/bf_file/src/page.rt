//! A device over a new file.
ghost use Rattle.std.specs.Prelude.{◌≡◌, ◌≢◌, IfErr, OnErr, OnOk, true};
ghost use Rattle.bf_device.specs.Device.{HasHalted};
ghost use Rattle.bf_file.specs.Pages.{HasLeftBy, HasReplacedBy, text_on};
ghost use Rattle.bf_file.specs.Replacing.{only_writes};

use crate::fault::{PlaceFault, ReplaceFault};
use crate::folder::Folder;
use crate::replacement::Replacement;
use bf_device::{Halt, Write};
use std::marker::Model;

/// A device that writes to a new file.
#[derive(Drop)]
pub struct Page<N: Replacement + Drop> {
    new: N,
    failures: u64,
    /// Why the last failed write failed.
    fault: ReplaceFault,
}

impl<N: Replacement + Drop> Model for Page<N> {
    ghost use Rattle.std.specs.Prelude.{◌≡◌, ◌≢◌, true};
    ghost use Rattle.bf_file.specs.Pages.{Paged};
    ghost use Rattle.bf_file.specs.Replacing.{only_writes};

    ghost Value = { Paged };

    ghost view = { λ p. record {
      calls = N.calls p.new;
      failures = p.failures;
    } };

    ghost invariant = { λ p. (only_writes (N.calls p.new) ≡ true)
        × (p.failures ≢ 0 → N.failed p.new ≡ true) };
}

impl<N: Replacement + Drop> Page<N> {
    /// Makes a page over a new file that was at most written to.
    pub fn new(new: N) -> Page<N>
        requires { only_writes (N.calls new) ≡ true }
        ensures calls { result.calls ≡ N.calls new }
        ensures failures { result.failures ≡ 0 }
    {
        Page {
            new,
            failures: 0,
            fault: ReplaceFault::CannotReplace,
        }
    }

    /// Gives the new file back.
    fn into_new(self) -> N
        ensures calls { N.calls result ≡ self.calls }
        ensures writes { only_writes self.calls ≡ true }
        ensures failed { self.failures ≢ 0 → N.failed result ≡ true }
    {
        let Page {
            new,
            failures: _,
            fault: _,
        } = self;
        new
    }
}

impl<N: Replacement + Drop> Write for Page<N> {
    ghost use Rattle.bf_file.specs.Pages.{text_on};

    ghost written = { λ p. text_on p };

    ghost interruptions = { λ _. 0 };

    ghost failures = { λ p. p.failures };

    /// Writes a first part of the bytes to the new file, and gives its length. `Failed` where that fails; the page
    /// keeps the cause.
    #[tactic(auto, using(crate::proofs::Writing::wrote_text, crate::proofs::Writing::only_more, crate::proofs::Writing::took_some))]
    fn write(&mut self, bytes: &[u8]) -> Result<usize, Halt> {
        match self.new.write(bytes) {
            Ok(count) => Ok(count),
            Err(fault) => {
                self.failures = self.failures.wrapping_add(1);
                self.fault = fault;
                Err(Halt::Failed)
            }
        }
    }
}

/// Syncs a page's new file and puts it at the path last given to `begin_replacement`. At an Err the path holds what it
/// held; where the sync failed, the new file is removed, and where only the rename did, it stays under the name that
/// `Left` has, with all that was written to the page.
pub fn replace_by_page<F: Folder>(folder: &mut F, page: Page<F::New>) -> Result<(), PlaceFault>
    ensures replaced { OnOk result (HasReplacedBy (F.placed folder.old) (F.placed folder.new)
        (F.begun folder.old) (text_on page)) }
    ensures same { OnErr result (F.placed folder.new ≡ F.placed folder.old) }
    ensures kept { OnOk result (F.left folder.new ≡ F.left folder.old) }
    ensures left { IfErr result (λ fault.
        HasLeftBy (F.left folder.old) (F.left folder.new) fault (text_on page)) }
    ensures failed { OnErr result (F.failed folder.new ≡ true) }
{
    let mut new = page.into_new();
    match new.sync() {
        Ok(()) => folder.rename(new),
        Err(fault) => {
            folder.discard(new);
            Err(PlaceFault::Lost(fault))
        }
    }
}

/// Removes a page's new file, and gives the cause of the last failed write, `CannotReplace` where none failed.
pub fn discard_page<F: Folder>(folder: &mut F, page: Page<F::New>) -> ReplaceFault
    ensures same { F.placed folder.new ≡ F.placed folder.old }
    ensures left { F.left folder.new ≡ F.left folder.old }
    ensures failed { HasHalted 0 page.failures 0 0 → F.failed folder.new ≡ true }
{
    let fault = page.fault;
    folder.discard(page.into_new());
    fault
}
