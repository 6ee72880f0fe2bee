//! The programs of a backfill's tries.
ghost use Rattle.std.specs.Prelude.{◌≡◌};
ghost use Rattle.bf_process.specs.Words.{launching_of};

use crate::crew::Crew;
use crate::restarting::Restarting;
use bf_failure::{Teller, Telling};
use bf_interval::Runs;
use bf_plan::Plan;
use bf_process::{LogFaults, ProcessRunner, Starter};
use bf_progress::{Screen, tell_line};
use std::alloc::Global;
use std::time::Clock;

/// Shows on the screen each line that it is told.
#[derive(Drop)]
pub(crate) struct ScreenTeller<'m, RT> {
    rt: &'m RT,
    alloc: Global,
}

impl<'m, RT: Screen> Teller for ScreenTeller<'m, RT> {
    ghost may_tell = { λ _ _. Unit {0} };

    /// Shows a line on the screen.
    fn tell(&self, line: &str) {
        tell_line(self.rt, self.alloc, line);
    }
}

/// Makes tries by starting programs, and tells those that fail where that is asked for.
pub(crate) type Programs<'a, RT> = Telling<
    'a,
    ProcessRunner<'a, 'a, 'a, Restarting<'a, RT>>,
    ScreenTeller<'a, RT>,
>;

/// Makes the runner that starts the programs of these runs' tasks, and tells on the screen, where the crew does, tries
/// that fail and programs that are started again.
#[tactic(auto, using(crate::proofs::Shown::anything))]
pub(crate) fn programs_of<'a, RT: Starter + Screen + Clock>(
    crew: &Crew<'a, RT>,
    plan: &'a Plan,
    runs: &'a Runs,
) -> Programs<'a, RT>
    ensures { result.runner ≡ record {
      starter = record { rt = crew.now.rt; tells = crew.now.tells.failures };
      dag = plan.entry.now.dag;
      intervals = runs.entry.now;
      launching = launching_of crew.now.launching;
    } }
{
    let starter = Restarting {
        rt: crew.rt,
        tells: crew.tells.failures,
    };
    let runner = ProcessRunner::new(starter, crew.alloc, plan, runs, crew.launching);
    let teller = if crew.tells.failures {
        Some(ScreenTeller {
            rt: crew.rt,
            alloc: crew.alloc,
        })
    } else {
        None
    };
    Telling::new(crew.alloc, plan, runs, crew.launching.logs, runner, teller)
}

/// Tells on the screen where some logs couldn't be kept; does nothing where all were.
pub(crate) fn tell_of_logs<RT: Screen>(rt: &RT, faults: &LogFaults) {
    if faults.has_incomplete_log() {
        rt.show("logs: not all could be kept\n");
    }
}
