//! What is kept of a report.
ghost use Rattle.std.specs.Prelude.{◌≡◌};

use crate::lookups::instance_at;
use crate::tries::answer_of_instance;
use bf_dependents::Followers;
use bf_kept::KeptTries;
use bf_plan::Plan;
use bf_report::Report;
use bf_try::Raw;
use bf_value::{JobName, OutOfMemory};
use bf_xcom::Given;
use std::alloc::Global;
use std::marker::Model;

/// What is kept of a report while some of its instances are cleared. Contracts see the plan's tasks, what is cleared,
/// and the report.
#[derive(Drop)]
pub struct Cleared<'a> {
    plan: &'a Plan,
    report: Report,
    cleared: Followers,
}

impl<'a> Model for Cleared<'a> {
    ghost use Rattle.std.specs.Coded.{codes};
    ghost use Rattle.bf_plan.specs.contracts.plan.Dag;
    ghost use Rattle.bf_dependents.specs.contracts.found.Followers;
    ghost use Rattle.bf_report.specs.contracts.report.Report;
    ghost use Rattle.bf_clear.specs.Keeping.{Clearance};

    ghost Value = { Clearance };

    ghost coded = { Prim.hlevel (
      codes,
      Dag.the_row.coded,
      Followers.the_row.coded,
      Report.the_row.coded,
    ) };

    ghost view = { λ c. record { dag = c.plan.now.dag; cleared = c.cleared; report = c.report } };
}

impl<'a> Cleared<'a> {
    /// Keeps of a report all but the instances of `cleared`.
    pub(crate) fn new(plan: &'a Plan, report: Report, cleared: Followers) -> Cleared<'a>
        ensures { result ≡ record { dag = plan.entry.now.dag; cleared = cleared; report = report } }
    {
        Cleared {
            plan,
            report,
            cleared,
        }
    }

    /// The instances that are cleared.
    pub fn followers(&self) -> &Followers
        ensures { result.now ≡ self.now.cleared }
    {
        &self.cleared
    }
}

impl KeptTries for Cleared<'_> {
    ghost use Rattle.bf_clear.specs.Keeping.{kept_in};

    ghost kept = { λ s. kept_in s };

    /// The answer by which try `name` ends as the report says. None where its instance is cleared, the report has no
    /// such try, it was given anything but `given`, or its outcome is one that the plan doesn't allow.
    fn answer(
        &self,
        alloc: Global,
        name: JobName,
        given: &Given,
    ) -> Result<Option<Raw>, OutOfMemory> {
        let dag = self.plan.dag();
        let is_task = (name.task as usize) < dag.tasks.len();
        if !is_task
            || self
                .cleared
                .has_instance(dag, name.run, name.task, name.index)
        {
            return Ok(None);
        }
        match instance_at(&self.report, name) {
            Some(instance) => {
                answer_of_instance(alloc, self.plan, &self.report, name, instance, given)
            }
            None => Ok(None),
        }
    }
}
