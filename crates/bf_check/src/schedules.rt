//! The schedule of a graph file, and its zone.
ghost use Rattle.std.specs.Prelude.{option_map, IfOk, IfErr, OnOk};
ghost use Rattle.bf_check.specs.Refusals.{HasNoneBelow, IsFaultOf};
ghost use Rattle.bf_check.specs.Schedules.{Fires, IsScheduled, IsScheduleOf, IsZoneFor};
ghost use Rattle.bf_cron.specs.declared.spec.CronSpec.{CronSpec};

use crate::fault::CheckFault;
use crate::looks::DraftUnderCheck;
use bf_cron::{CronFault, CronSpec};
use bf_zone::{Zone, ZoneFault};
use std::alloc::Global;

impl DraftUnderCheck<'_> {
    /// Reads the draft's schedule. Err for a text that is no schedule (refusal 11), or at want of memory.
    fn read_schedule(&self, alloc: Global) -> Result<CronSpec, CheckFault>
        requires { HasNoneBelow self.now.draft.now 11 }
        ensures ok { IfOk result (IsScheduleOf self.now.draft.now.schedule) }
        ensures err { IfErr result (IsFaultOf self.now.draft.now
            (option_map (λ s. s.now) self.now.zone_file)) }
    {
        match CronSpec::read(alloc, self.draft.schedule.as_str()) {
            Ok(schedule) => Ok(schedule),
            Err(CronFault::Bad) => Err(CheckFault::BadCron),
            Err(CronFault::OutOfMemory) => Err(CheckFault::OutOfMemory),
        }
    }

    /// Reads the draft's schedule. Err for a text that is no schedule (refusal 11), one that never fires (12), or at
    /// want of memory.
    fn check_schedule(&self, alloc: Global) -> Result<CronSpec, CheckFault>
        requires { HasNoneBelow self.now.draft.now 11 }
        ensures ok { IfOk result (Fires self.now.draft.now.schedule) }
        ensures below { OnOk result (HasNoneBelow self.now.draft.now 13) }
        ensures err { IfErr result (IsFaultOf self.now.draft.now
            (option_map (λ s. s.now) self.now.zone_file)) }
    {
        let schedule = self.read_schedule(alloc)?;
        if schedule.never_fires() {
            return Err(CheckFault::NeverFires);
        }
        Ok(schedule)
    }

    /// Reads the zone of a draft whose schedule is sound. Err for a text that means no zone (refusal 13), or at want of
    /// memory.
    fn check_zone(&self, alloc: Global) -> Result<Zone, CheckFault>
        requires below { HasNoneBelow self.now.draft.now 13 }
        requires fires { (spec : CronSpec) × Fires self.now.draft.now.schedule spec }
        ensures ok { IfOk result (IsZoneFor self.now.draft.now.zone
            (option_map (λ s. s.now) self.now.zone_file)) }
        ensures below { OnOk result (HasNoneBelow self.now.draft.now 14) }
        ensures scheduled { OnOk result (IsScheduled self.now.draft.now
            (option_map (λ s. s.now) self.now.zone_file)) }
        ensures err { IfErr result (IsFaultOf self.now.draft.now
            (option_map (λ s. s.now) self.now.zone_file)) }
    {
        match Zone::read(alloc, self.draft.zone.as_str(), self.zone_file) {
            Ok(zone) => Ok(zone),
            Err(ZoneFault::Bad) => Err(CheckFault::BadZone),
            Err(ZoneFault::OutOfMemory) => Err(CheckFault::OutOfMemory),
        }
    }

    /// Reads the draft's schedule and zone. Err for a text that is no schedule (refusal 11), a schedule that never
    /// fires (12), a text that means no zone (13), or at want of memory.
    pub(crate) fn check_schedule_and_zone(
        &self,
        alloc: Global,
    ) -> Result<(CronSpec, Zone), CheckFault>
        requires { HasNoneBelow self.now.draft.now 11 }
        ensures schedule { IfOk result (λ both. Fires self.now.draft.now.schedule both.0) }
        ensures zone { IfOk result (λ both. IsZoneFor self.now.draft.now.zone
            (option_map (λ s. s.now) self.now.zone_file) both.1) }
        ensures below { OnOk result (HasNoneBelow self.now.draft.now 14) }
        ensures scheduled { OnOk result (IsScheduled self.now.draft.now
            (option_map (λ s. s.now) self.now.zone_file)) }
        ensures err { IfErr result (IsFaultOf self.now.draft.now
            (option_map (λ s. s.now) self.now.zone_file)) }
    {
        let schedule = self.check_schedule(alloc)?;
        let zone = self.check_zone(alloc)?;
        Ok((schedule, zone))
    }
}
