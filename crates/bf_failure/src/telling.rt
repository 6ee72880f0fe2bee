//! A runner that tells why tries fail.
ghost use Rattle.std.specs.Prelude.{◌≡◌, IfOk, Some, option_copied, option_map};
ghost use Rattle.bf_failure.specs.Told.{MayTellOf, may_tell_to};

use crate::context::context_of;
use crate::detail::{Detail, DetailedRunner};
use crate::finding::find_failure;
use crate::line::failed_line;
use crate::teller::Teller;
use bf_interval::Runs;
use bf_plan::Plan;
use bf_try::{Done, RunnerFault, TaskRunner, Ticket};
use bf_value::OutOfMemory;
use std::alloc::Global;
use std::marker::Model;

/// A runner that hands each try on to another runner and tells its teller, if it has one, of each that fails. At want
/// of memory for a line it tells nothing; answers are the same either way.
#[derive(Drop)]
pub struct Telling<'a, R: DetailedRunner + Drop, T: Teller + Drop> {
    alloc: Global,
    plan: &'a Plan,
    runs: &'a Runs,
    logs: Option<&'a str>,
    runner: R,
    teller: Option<T>,
}

impl<'a, R: DetailedRunner + Drop, T: Teller + Drop> Model for Telling<'a, R, T> {
    ghost use Rattle.std.specs.Prelude.{option_map};
    ghost use Rattle.std.specs.Coded.{codes};
    ghost use Rattle.bf_plan.specs.contracts.plan.Dag;
    ghost use Rattle.bf_interval.specs.contracts.interval.Interval;
    ghost use Rattle.bf_failure.specs.Told.{MayTellOf, TellingOf, may_tell_to};

    ghost Value = { TellingOf R T };

    ghost coded = { Prim.hlevel (codes, Dag.the_row.coded, Interval.the_row.coded) };

    ghost view = { λ s. record {
      runner = s.runner;
      teller = s.teller;
      dag = s.plan.now.dag;
      intervals = s.runs.now;
      logs = option_map (λ l. l.now) s.logs;
    } };

    ghost invariant = { λ s. MayTellOf (may_tell_to T.may_tell s.teller)
        (R.may_answer s.runner) (R.may_know s.runner) s.plan.now.dag s.runs.now
        (option_map (λ l. l.now) s.logs) };
}

impl<'a, R: DetailedRunner + Drop, T: Teller + Drop> Telling<'a, R, T> {
    /// Makes a runner that hands tries on to `runner` and tells `teller`, if there is one, of each that fails. The
    /// lines name the try's log below the folder `logs`; they name none where that is None.
    pub fn new(
        alloc: Global,
        plan: &'a Plan,
        runs: &'a Runs,
        logs: Option<&'a str>,
        runner: R,
        teller: Option<T>,
    ) -> Self
        requires { MayTellOf (may_tell_to T.may_tell teller)
            (R.may_answer runner) (R.may_know runner) plan.now.dag runs.now
            (option_map (λ l. l.now) logs) }
        ensures { result ≡ record {
          runner = runner;
          teller = teller;
          dag = plan.entry.now.dag;
          intervals = runs.entry.now;
          logs = option_map (λ l. l.now) logs.entry;
        } }
    {
        Telling {
            alloc,
            plan,
            runs,
            logs,
            runner,
            teller,
        }
    }

    /// Gives the runner that tries are handed on to.
    pub fn runner(&self) -> &R
        ensures { result.now ≡ self.now.runner }
    {
        &self.runner
    }

    /// Tells the line of an answered try that failed; does nothing where it didn't fail, or its task or run doesn't
    /// exist. `detail` is what is known beside the answer.
    fn tell(&self, teller: &T, done: &Done, detail: Option<Detail>) -> Result<(), OutOfMemory>
        requires teller { self.now.teller ≡ Some teller.now }
        requires may { R.may_answer self.now.runner done.now.name done.now.given done.now.raw }
        requires knows { R.may_know self.now.runner done.now.name done.now.given done.now.raw
            detail }
    {
        let Some(context) = context_of(self.plan, self.runs, done.name()) else {
            return Ok(());
        };
        let Some(failure) = find_failure(self.alloc, self.plan, done.name().task, done.raw())?
        else {
            return Ok(());
        };
        let line = failed_line(
            self.alloc,
            self.logs,
            &context,
            &failure.with_detail(detail),
        )?;
        teller.tell(line.as_str());
        Ok(())
    }
}

/// Copies a detail, if there is one.
fn copy_detail(alloc: Global, detail: Option<&Detail>) -> Result<Option<Detail>, OutOfMemory>
    ensures { IfOk result (λ copy. copy ≡ option_copied detail.entry) }
{
    match detail {
        Some(detail) => Ok(Some(detail.copy(alloc)?)),
        None => Ok(None),
    }
}

impl<'a, R: DetailedRunner + Drop, T: Teller + Drop> TaskRunner for Telling<'a, R, T> {
    ghost may_answer = { λ s n g raw. R.may_answer s.runner n g raw };

    ghost may_give_up = { λ s n g. R.may_give_up s.runner n g };

    /// Has the inner runner make the try, and tells its line where it fails.
    fn run(&self, ticket: Ticket) -> Result<Done, (Ticket, RunnerFault)> {
        let (done, _) = self.run_in_detail(ticket)?;
        Ok(done)
    }
}

impl<'a, R: DetailedRunner + Drop, T: Teller + Drop> DetailedRunner for Telling<'a, R, T> {
    ghost may_know = { λ s n g raw detail. R.may_know s.runner n g raw detail };

    /// Has the inner runner make the try, tells its line where it fails, and gives what that runner gave.
    fn run_in_detail(
        &self,
        ticket: Ticket,
    ) -> Result<(Done, Option<Detail>), (Ticket, RunnerFault)> {
        let (done, detail) = self.runner.run_in_detail(ticket)?;
        if let Some(teller) = &self.teller
            && let Ok(detail) = copy_detail(self.alloc, detail.as_ref())
        {
            let _ = self.tell(teller, &done, detail);
        }
        Ok((done, detail))
    }
}
