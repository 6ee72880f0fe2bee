//! Checking a draft for faults: of all tasks that have one the first in the file is named.
ghost use Rattle.std.specs.Prelude.{◌≡◌, ◌<◌, suc, is_none, map, option_map, position, None, Some, IfOk, IfErr, OnOk};
ghost use Rattle.bf_check.specs.Checking.{ids_of};
ghost use Rattle.bf_check.specs.inner.Looks.{IsPlaceOfFirst};
ghost use Rattle.bf_check.specs.Refusals.{refusal_number_of, HasNoneBelow, IsFaultOf};
ghost use Rattle.bf_check.specs.Schedules.{IsScheduled};

use crate::fault::{CheckFault, TaskFault};
use bf_graph::Ids;
use bf_read::Draft;
use bf_value::OutOfMemory;
use std::alloc::Global;

/// A draft that is being checked, with the ids of its tasks and the bytes for the zone `file`.
#[derive(Clone, Copy)]
pub(crate) struct DraftUnderCheck<'a> {
    pub(crate) ids: &'a Ids,
    pub(crate) draft: &'a Draft,
    pub(crate) zone_file: Option<&'a [u8]>,
    ghost of_draft: { ids.now ≡ ids_of draft.now.tasks },
}

/// Finds the first `None`, by its index; None where there is none.
fn first_missing<T>(found: &[Option<T>]) -> Option<usize>
    ensures { result ≡ position is_none found.now }
{
    found.iter().position(|one| one.is_none())
}

/// Takes the value out of each; none of them may be None.
fn unwrap_all<T: Drop>(alloc: Global, found: Vec<Option<T>>) -> Result<Vec<T>, OutOfMemory>
    requires { position is_none found.items ≡ None }
    ensures { IfOk result (λ all. map Some all.items ≡ found.items) }
{
    Ok(found.into_iter().filter_map(|one| one).collect(alloc)?)
}

impl DraftUnderCheck<'_> {
    /// Gives the Err for this fault of the task at the index `place`, the first that has it, or for want of memory;
    /// does nothing for None.
    pub(crate) fn refuse_at(
        &self,
        alloc: Global,
        fault: TaskFault,
        place: Option<usize>,
    ) -> Result<(), CheckFault>
        requires first { IsPlaceOfFirst self.now.draft.now fault place }
        requires below { HasNoneBelow self.now.draft.now (refusal_number_of fault) }
        requires scheduled { 13 < refusal_number_of fault
            → IsScheduled self.now.draft.now (option_map (λ s. s.now) self.now.zone_file) }
        ensures none { OnOk result (place ≡ None) }
        ensures ok { OnOk result (HasNoneBelow self.now.draft.now (suc (refusal_number_of fault))) }
        ensures err { IfErr result (IsFaultOf self.now.draft.now
            (option_map (λ s. s.now) self.now.zone_file)) }
    {
        match place {
            Some(place) => {
                let id = self.draft.tasks.as_slice()[place].id.copy(alloc)?;
                Err(CheckFault::Task(fault, id))
            }
            None => Ok(()),
        }
    }

    /// Takes out what was found of each task. Err with this fault for the first task that has None, or at want of
    /// memory.
    pub(crate) fn unwrap_or_refuse<T: Drop>(
        &self,
        alloc: Global,
        fault: TaskFault,
        found: Vec<Option<T>>,
    ) -> Result<Vec<T>, CheckFault>
        requires first { IsPlaceOfFirst self.now.draft.now fault (position is_none found.items) }
        requires below { HasNoneBelow self.now.draft.now (refusal_number_of fault) }
        requires scheduled { 13 < refusal_number_of fault
            → IsScheduled self.now.draft.now (option_map (λ s. s.now) self.now.zone_file) }
        ensures found { IfOk result (λ each. map Some each.items ≡ found.items) }
        ensures ok { OnOk result (HasNoneBelow self.now.draft.now (suc (refusal_number_of fault))) }
        ensures err { IfErr result (IsFaultOf self.now.draft.now
            (option_map (λ s. s.now) self.now.zone_file)) }
    {
        self.refuse_at(alloc, fault, first_missing(found.as_slice()))?;
        Ok(unwrap_all(alloc, found)?)
    }
}
