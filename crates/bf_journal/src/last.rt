//! What is kept of tries of which some have one name: the last.
ghost use Rattle.std.specs.Prelude.{◌≡◌, ◌<◌, length, IfOk, OnErr, OnOk};
ghost use Rattle.std.specs.Option.{option_or};
ghost use Rattle.std.specs.FinMap;
ghost use Rattle.bf_value.specs.declared.name.JobName.{JobName};
ghost use Rattle.bf_journal.specs.Found.{entry_for, entry_named, last_for};
ghost use Rattle.bf_journal.specs.inner.Found.{AreOfTasks};

use bf_plan::Plan;
use bf_try::{Entry, Ledger, NoteFault, fits};
use bf_value::{JobName, OutOfMemory};
use std::alloc::Global;

/// Adds a try to a ledger; does nothing where the ledger already has one of that name. `Err` changes nothing.
#[tactic(auto, using(crate::proofs::Lasting::noted, crate::proofs::Lasting::not_noted))]
fn note_if_new(ledger: &mut Ledger, name: JobName, entry: Entry) -> Result<(), OutOfMemory>
    ensures ok { OnOk result ((n : JobName) →
        FinMap.get ledger.new n
        ≡ option_or (FinMap.get ledger.old n) (entry_named (name, entry) n)) }
    ensures err { OnErr result (ledger.new ≡ ledger.old) }
{
    match ledger.note(name, entry) {
        Ok(()) => Ok(()),
        Err((_, NoteFault::AlreadyRecorded)) => Ok(()),
        Err((_, NoteFault::OutOfMemory)) => Err(OutOfMemory),
    }
}

/// Adds a try to a ledger that already has the later ones; does nothing where one of them has its name, or its outcome
/// doesn't fit the plan. `Err` changes nothing.
fn note_earlier_fit(
    ledger: &mut Ledger,
    plan: &Plan,
    name: JobName,
    entry: Entry,
) -> Result<(), OutOfMemory>
    requires { name.task < length plan.now.dag.tasks }
    ensures ok { OnOk result ((n : JobName) →
        FinMap.get ledger.new n ≡ option_or (FinMap.get ledger.old n)
        (entry_for plan.now.dag (name, entry) n)) }
    ensures err { OnErr result (ledger.new ≡ ledger.old) }
{
    if !fits(plan, name.task, &entry.outcome) {
        return Ok(());
    }
    note_if_new(ledger, name, entry)
}

/// Makes a ledger of these tries, which are in the order of their records: of each name the last whose outcome fits the
/// plan.
pub(crate) fn last_of(
    alloc: Global,
    plan: &Plan,
    mut tries: Vec<(JobName, Entry)>,
) -> Result<Ledger, OutOfMemory>
    requires { AreOfTasks plan.now.dag tries.items }
    ensures { IfOk result (λ ledger. (n : JobName) →
        FinMap.get ledger n ≡ last_for plan.now.dag tries.items n) }
{
    let mut ledger = Ledger::new(alloc);
    while let Some((name, entry)) = tries.pop() {
        note_earlier_fit(&mut ledger, plan, name, entry)?;
    }
    Ok(ledger)
}
