//! The clock beside the state: the moment that it shows, and the moments for which tries wait.
ghost use Rattle.std.specs.Prelude.{◌≡◌, ◌↔◌, pos, ◌+ℤ◌, ◌≤ℤ◌, ◌<ℤ◌, int_lt, None, Some, IfSome, IfNone, IsTrue, OnOk, OnErr, option_copied};
ghost use Rattle.std.specs.Int.{int_min};
ghost use Rattle.std.specs.FinMap;
ghost use Rattle.bf_core.specs.Clocks.{IsTimely, after_end, last_moment};
ghost use Rattle.bf_core.specs.Terms.{Event};

use bf_try::{EndedTries, Entry};
use bf_value::{JobName, OutOfMemory};
use std::alloc::Global;
use std::collections::BTreeMap;
use std::marker::Model;

/// The last moment of the clock, in seconds since 1970: the end of the year 9999.
pub const LAST_MOMENT: i64 = 253_402_300_799;

/// For each try that waits for a moment, by its name: that moment, in seconds since 1970. Contracts see it as a finite
/// map.
#[derive(Drop)]
pub struct Moments {
    entries: BTreeMap<JobName, i64>,
}

impl Model for Moments {
    ghost use Rattle.std.specs.Prelude.{ℤ};
    ghost use Rattle.std.specs.FinMap;
    ghost use Rattle.bf_value.specs.Names.{name_cmp, name_code};
    ghost use base.Stored.{coded_ℤ};

    ghost Value = { FinMap.FinMap name_cmp ℤ };

    ghost coded = { FinMap.code name_code coded_ℤ };

    ghost view = { λ m. FinMap.from_entries m.entries.entries };
}

impl Moments {
    /// An empty map: no try waits for a moment.
    pub(crate) fn new(alloc: Global) -> Self
        ensures { result ≡ FinMap.empty }
    {
        Moments {
            entries: BTreeMap::new(alloc),
        }
    }

    /// The moment for which a try waits, in seconds since 1970; None where it waits for none.
    pub(crate) fn get(&self, name: JobName) -> Option<&i64>
        ensures { option_copied result ≡ FinMap.get self.now name }
    {
        self.entries.get(&name)
    }

    /// Notes that a try waits for `moment`, in seconds since 1970, in place of any moment noted for it before. `Err`
    /// changes nothing.
    pub(crate) fn note(&mut self, name: JobName, moment: i64) -> Result<(), OutOfMemory>
        ensures ok { OnOk result (self.new ≡ FinMap.insert self.old name moment) }
        ensures same { OnErr result (self.new ≡ self.old) }
    {
        self.entries.insert(name, moment)?;
        Ok(())
    }

    /// Forgets the moment for which a try waits; does nothing where it waits for none.
    pub(crate) fn forget(&mut self, name: JobName)
        ensures { self.new ≡ FinMap.remove self.old name }
    {
        let _ = self.entries.remove(&name);
    }
}

/// The clock of a backfill: the time that it shows, in seconds since 1970, and the moments for which tries wait.
#[derive(Drop)]
pub struct Clock {
    pub time: i64,
    pub moments: Moments,
}

impl Clock {
    /// Whether the clock may be moved to `moment`, in seconds since 1970: it is later than the clock's time, and at
    /// most `LAST_MOMENT`.
    pub(crate) fn may_come_to(&self, moment: i64) -> bool
        ensures { IsTrue result ↔ IsTimely self.now (Event.Tick moment) }
    {
        self.time < moment && moment <= LAST_MOMENT
    }

    /// Whether the clock lets a try begin: the moment for which it waits has come, or it waits for none.
    pub(crate) fn lets_begin(&self, name: JobName) -> bool
        ensures { IsTrue result ↔ IsTimely self.now (Event.Begin name) }
    {
        match self.moments.get(name) {
            Some(moment) => *moment <= self.time,
            None => true,
        }
    }

    /// The moment, in seconds since 1970, for which a try waits, where it is still to come; None where it has come, or
    /// the try waits for none.
    pub(crate) fn later_moment_of(&self, name: JobName) -> Option<i64>
        ensures moment { IfSome result (λ m. FinMap.get self.now.moments name ≡ Some m) }
        ensures later { IfSome result (λ m. self.now.time <ℤ m) }
        ensures none { IfNone result (IsTimely self.now (Event.Begin name)) }
    {
        match self.moments.get(name) {
            Some(moment) if self.time < *moment => Some(*moment),
            _ => None,
        }
    }

    /// The moment `delay` seconds after the one that the clock shows, at most `LAST_MOMENT`.
    fn moment_after(&self, delay: u32) -> i64
        requires begun { pos 0 ≤ℤ self.now.time }
        requires within { self.now.time ≤ℤ last_moment }
        ensures { result ≡ int_min (self.now.time +ℤ pos delay) last_moment }
    {
        (self.time + i64::from(delay)).min(LAST_MOMENT)
    }

    /// Whether the clock's time is before `moment`, in seconds since 1970.
    fn is_before(&self, moment: i64) -> bool
        ensures { result ≡ int_lt self.now.time moment }
    {
        self.time < moment
    }

    /// Notes until when the next try `retry` waits: `retry.delay` seconds after now, at most `LAST_MOMENT`. Notes
    /// nothing where that try isn't made, or need not wait. `Err` changes nothing.
    fn delay_retry(&mut self, retry: Retry) -> Result<(), OutOfMemory>
        requires begun { pos 0 ≤ℤ self.old.time }
        requires within { self.old.time ≤ℤ last_moment }
        ensures ok { OnOk result (self.new
            ≡ after_end self.old retry.next retry.again retry.delay) }
        ensures same { OnErr result (self.new ≡ self.old) }
    {
        let moment = self.moment_after(retry.delay);
        if !retry.again || !self.is_before(moment) {
            return Ok(());
        }
        self.moments.note(retry.next, moment)?;
        Ok(())
    }
}

/// The try that would follow one that ends: its name, whether it is made at all, and how many seconds it waits first.
#[derive(Clone, Copy)]
pub(crate) struct Retry {
    pub(crate) next: JobName,
    pub(crate) again: bool,
    pub(crate) delay: u32,
}

/// Notes the end of the try `name`: its `entry` in the ledger, and in the clock until when its next try `retry` waits,
/// if that is made. `Err` changes neither.
pub(crate) fn note_end(
    clock: &mut Clock,
    ledger: &mut EndedTries,
    name: JobName,
    entry: Entry,
    retry: Retry,
) -> Result<(), OutOfMemory>
    requires begun { pos 0 ≤ℤ clock.old.time }
    requires within { clock.old.time ≤ℤ last_moment }
    requires unrecorded { FinMap.get ledger.old name ≡ None }
    requires free { FinMap.get clock.old.moments retry.next ≡ None }
    ensures clock { OnOk result (clock.new
        ≡ after_end clock.old retry.next retry.again retry.delay) }
    ensures ledger { OnOk result (ledger.new ≡ FinMap.insert ledger.old name entry) }
    ensures same_clock { OnErr result (clock.new ≡ clock.old) }
    ensures same_ledger { OnErr result (ledger.new ≡ ledger.old) }
{
    clock.delay_retry(retry)?;
    match ledger.note(name, entry) {
        Ok(()) => Ok(()),
        Err(OutOfMemory) => {
            clock.moments.forget(retry.next);
            Err(OutOfMemory)
        }
    }
}
