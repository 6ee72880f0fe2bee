//! Whether something is wrong at a place.
ghost use Rattle.std.specs.Prelude.{◌≡◌, true, false, option_map, IfOk};
ghost use Rattle.serde_json.specs.View.{view};
ghost use Rattle.bf_findings.specs.Judging.{IsSchedule, IsZoneText, IsWrong, MayStand, TextMayStand, is_required_in};

use crate::fitting::{non_text_fits, text_fits};
use crate::form::Form;
use crate::place::DocumentPlace;
use bf_cron::{CronFault, CronSpec};
use bf_read::{GraphKey, TaskKey};
use bf_value::OutOfMemory;
use bf_zone::{Zone, ZoneFault};
use serde_json::Value;
use std::alloc::Global;

/// A graph file's document, with the bytes of a zone file for the zone `file`.
#[derive(Clone, Copy)]
pub(crate) struct Document<'a> {
    pub(crate) value: &'a Value,
    pub(crate) zone_file: Option<&'a [u8]>,
}

/// Answers whether a text is a schedule that some civil minute matches.
fn is_schedule(alloc: Global, text: &str) -> Result<bool, OutOfMemory>
    ensures yes { IfOk result (λ b. b ≡ true → IsSchedule text.now) }
    ensures no { IfOk result (λ b. b ≡ false → ¬ (IsSchedule text.now)) }
{
    match CronSpec::read(alloc, text) {
        Ok(schedule) => Ok(!schedule.never_fires()),
        Err(CronFault::Bad) => Ok(false),
        Err(CronFault::OutOfMemory) => Err(OutOfMemory),
    }
}

/// Answers whether a text means a zone; `file` has the bytes for the text `file`.
fn is_zone(alloc: Global, text: &str, file: Option<&[u8]>) -> Result<bool, OutOfMemory>
    ensures yes { IfOk result (λ b. b ≡ true
        → IsZoneText text.now (option_map (λ s. s.now) file.entry)) }
    ensures no { IfOk result (λ b. b ≡ false
        → ¬ (IsZoneText text.now (option_map (λ s. s.now) file.entry))) }
{
    match Zone::read(alloc, text, file) {
        Ok(zone) => {
            let _meant = zone.as_time_zone();
            Ok(true)
        }
        Err(ZoneFault::Bad) => Ok(false),
        Err(ZoneFault::OutOfMemory) => Err(OutOfMemory),
    }
}

impl Document<'_> {
    /// Answers whether a text may stand where `form` may; reads the texts of schedules and zones too.
    fn text_may_stand(self, alloc: Global, form: Form, text: &str) -> Result<bool, OutOfMemory>
        ensures yes { IfOk result (λ b. b ≡ true
            → TextMayStand (option_map (λ s. s.now) self.entry.zone_file)
            (view self.entry.value.now) form text.now) }
        ensures no { IfOk result (λ b. b ≡ false
            → ¬ (TextMayStand (option_map (λ s. s.now) self.entry.zone_file)
            (view self.entry.value.now) form text.now)) }
    {
        match form {
            Form::Schedule => is_schedule(alloc, text),
            Form::Zone => is_zone(alloc, text, self.zone_file),
            _ => Ok(text_fits(self.value, form, text)),
        }
    }

    /// Answers whether a value, text or not, may stand where `form` may.
    fn may_stand(self, alloc: Global, form: Form, value: &Value) -> Result<bool, OutOfMemory>
        ensures yes { IfOk result (λ b. b ≡ true
            → MayStand (option_map (λ s. s.now) self.entry.zone_file) (view self.entry.value.now)
            form (view value.now)) }
        ensures no { IfOk result (λ b. b ≡ false
            → ¬ (MayStand (option_map (λ s. s.now) self.entry.zone_file) (view self.entry.value.now)
            form (view value.now))) }
    {
        match value.as_str() {
            Some(text) => self.text_may_stand(alloc, form, text),
            None => Ok(non_text_fits(form, value)),
        }
    }

    /// Answers whether the value at a place may not stand where `form` may; for None, whether a value is required
    /// there.
    pub(crate) fn is_wrong(
        self,
        alloc: Global,
        place: &DocumentPlace,
        form: Form,
        value: Option<&Value>,
    ) -> Result<bool, OutOfMemory>
        ensures yes { IfOk result (λ b. b ≡ true
            → IsWrong (option_map (λ s. s.now) self.entry.zone_file) (view self.entry.value.now)
            place.now form
            (option_map (λ v. view v.now) value.entry)) }
        ensures no { IfOk result (λ b. b ≡ false
            → ¬ (IsWrong (option_map (λ s. s.now) self.entry.zone_file) (view self.entry.value.now)
            place.now form
            (option_map (λ v. view v.now) value.entry))) }
    {
        match value {
            Some(value) => Ok(!self.may_stand(alloc, form, value)?),
            None => Ok(is_required(place)),
        }
    }
}

/// Answers whether a graph file must have a value at a place: `dag_id`, `schedule`, `tasks`, and each task's `id`.
fn is_required(place: &DocumentPlace) -> bool
    ensures { result ≡ is_required_in place.now }
{
    matches!(
        place,
        DocumentPlace::Key(GraphKey::DagId | GraphKey::Schedule | GraphKey::Tasks)
            | DocumentPlace::TaskKey(_, TaskKey::Id)
    )
}
