//! The runner of tries as programs.
ghost use Rattle.std.specs.Prelude.{◌≡◌, IfOk, IfErr, option_map, string_bytes};
ghost use Rattle.bf_graph.specs.Shape.{texts};
ghost use Rattle.bf_words.specs.Words.{words_of};
ghost use Rattle.bf_process.specs.Words.{IfProgram, IsHeard, IsLost, MayAnswer, MayGiveUp, behind, given_path, launched_in, launching_of, lost_through, nothing_done, through};

use crate::clocks::clock_of_run;
use crate::given::given_text;
use crate::heard::Heard;
use crate::launching::Launching;
use crate::log_faults::LogFaults;
use crate::program::not_started_raw;
use crate::setting::{Setting, TryLogs};
use crate::starter::Starter;
use bf_failure::{Detail, DetailedRunner, context_of};
use bf_interval::Runs;
use bf_plan::{Plan, Task};
use bf_try::{Done, Raw, RunnerFault, TaskRunner, Ticket};
use bf_value::{JobName, OutOfMemory, Sequence};
use bf_words::{JobContext, words};
use bf_xcom::Given;
use std::alloc::Global;
use std::marker::Model;

/// Runs each try as a program: the one that its command names or, where there is one, the launcher, which gets the
/// command's words as arguments. A try of a task or run that doesn't exist isn't started.
#[derive(Drop)]
pub struct ProcessRunner<'p, 'i, 'l, S: Drop> {
    starter: S,
    alloc: Global,
    plan: &'p Plan,
    runs: &'i Runs,
    launching: Launching<'l>,
    log_faults: LogFaults,
}

impl<'p, 'i, 'l, S: Drop> Model for ProcessRunner<'p, 'i, 'l, S> {
    ghost use Rattle.std.specs.Coded.{codes};
    ghost use Rattle.bf_plan.specs.contracts.plan.Dag;
    ghost use Rattle.bf_interval.specs.contracts.interval.Interval;
    ghost use Rattle.bf_process.specs.Words.{Programs, launching_of};

    ghost Value = { Programs S };

    ghost coded = { Prim.hlevel (codes, Dag.the_row.coded, Interval.the_row.coded) };

    ghost view = { λ r. record {
      starter = r.starter;
      dag = r.plan.now.dag;
      intervals = r.runs.now;
      launching = launching_of r.launching;
    } };
}

impl<'p, 'i, 'l, S: Starter + Drop> ProcessRunner<'p, 'i, 'l, S> {
    /// Makes a runner of the plan's tasks in these runs, with the launcher and the logs of `launching`, which starts
    /// programs by `starter`. It takes no memory before it runs a try.
    pub fn new(
        starter: S,
        alloc: Global,
        plan: &'p Plan,
        runs: &'i Runs,
        launching: Launching<'l>,
    ) -> ProcessRunner<'p, 'i, 'l, S>
        ensures { result ≡ record {
          starter = starter;
          dag = plan.now.dag;
          intervals = runs.now;
          launching = launching_of launching.entry;
        } }
    {
        ProcessRunner {
            starter,
            alloc,
            plan,
            runs,
            launching,
            log_faults: LogFaults::new(),
        }
    }

    /// Gives what went wrong so far with the logs of this runner's tries.
    pub fn log_faults(&self) -> &LogFaults {
        &self.log_faults
    }

    /// Starts the program that the first word names with the others as arguments, or the launcher, if there is one,
    /// with all of them, and gives its answer. Without words nothing is started, and the exit code is 0. `GaveUp` where
    /// the program is lost.
    fn run_words(&self, words: &[String], setting: &Setting<'_, '_>) -> Result<Heard, RunnerFault>
        ensures heard { IfOk result (λ heard. IfProgram (texts words.now) (heard.raw ≡ nothing_done)
            (S.may_hear self.now.starter (launched_in setting.now
            (behind self.now.launching.launcher (texts words.now))) heard.raw)) }
        ensures lost { IfErr result (λ fault. fault ≡ RunnerFault.GaveUp
            → IfProgram (texts words.now) ⊥
            (S.may_lose self.now.starter (launched_in setting.now
            (behind self.now.launching.launcher (texts words.now))))) }
    {
        let Some((program, arguments)) = words.split_first() else {
            return Ok(Heard::without_detail(Raw::with_code(0, Sequence::new(self.alloc))));
        };
        match self.launching.launcher {
            Some(launcher) => self.starter.start(self.alloc, launcher, words, setting),
            None => {
                self.starter
                    .start(self.alloc, program.as_str(), arguments, setting)
            }
        }
    }

    /// Gives the paths of a try's logs, and the text of what the try was given; None where no logs are kept.
    fn logs_of_try(
        &self,
        task: &Task,
        context: &JobContext<'_>,
        given: &Given,
    ) -> Result<Option<TryLogs>, OutOfMemory>
        ensures { IfOk result (λ logs.
            option_map (λ l. string_bytes l.given) logs
            ≡ given_path self.now.launching.logs context.now) }
    {
        let Some(folder) = self.launching.logs else {
            return Ok(None);
        };
        let given_text = given_text(self.alloc, self.plan.dag(), task, given)?;
        Ok(Some(TryLogs::in_folder(self.alloc, folder, context, given_text)?))
    }

    /// Runs a task's command for a try in the run with this number, and gives its answer. `GaveUp` where its program is
    /// lost, `OutOfMemory` at want of memory.
    fn run_command(
        &self,
        task: &Task,
        run: u32,
        context: &JobContext<'_>,
        given: &Given,
    ) -> Result<Heard, RunnerFault>
        ensures ok { IfOk result (λ heard. IsHeard
            (through self.now.launching (S.may_hear self.now.starter))
            (record {
              words = words_of context.now given.now task.now.command;
              context = context.now;
              run = run;
            }) heard.raw) }
        ensures err { IfErr result (λ fault. fault ≡ RunnerFault.GaveUp →
            IsLost (lost_through self.now.launching (S.may_lose self.now.starter))
            (record {
              words = words_of context.now given.now task.now.command;
              context = context.now;
              run = run;
            })) }
    {
        let words = words(self.alloc, task.command.as_slice(), context, given)?;
        let logs = self.logs_of_try(task, context, given)?;
        let setting = Setting {
            context,
            clock: clock_of_run(self.launching.clocks, run, context),
            logs: logs.as_ref(),
            log_faults: &self.log_faults,
        };
        self.run_words(words.as_slice(), &setting)
    }

    /// Runs the try of this name, and gives its answer: `NotStarted` where the plan has no such task or run. `GaveUp`
    /// where its program is lost, `OutOfMemory` at want of memory.
    fn run_try(&self, name: JobName, given: &Given) -> Result<Heard, RunnerFault>
        ensures ok { IfOk result (λ heard.
            MayAnswer (through self.now.launching (S.may_hear self.now.starter)) self.now.dag
            self.now.intervals name given.now heard.raw) }
        ensures err { IfErr result (λ fault. fault ≡ RunnerFault.GaveUp →
            MayGiveUp (lost_through self.now.launching (S.may_lose self.now.starter)) self.now.dag
            self.now.intervals name given.now) }
    {
        let (Some(task), Some(context)) = (
            self.plan.dag().tasks.get(name.task as usize),
            context_of(self.plan, self.runs, name),
        ) else {
            return Ok(Heard::without_detail(not_started_raw(self.alloc)));
        };
        self.run_command(task, name.run, &context, given)
    }
}

impl<'p, 'i, 'l, S: Starter + Drop> TaskRunner for ProcessRunner<'p, 'i, 'l, S> {
    ghost use Rattle.bf_process.specs.Words.{MayAnswer, MayGiveUp, lost_through, through};

    ghost may_answer = { λ s n g r. MayAnswer
        (through s.launching (S.may_hear s.starter)) s.dag s.intervals n g r };

    ghost may_give_up = { λ s n g. MayGiveUp
        (lost_through s.launching (S.may_lose s.starter)) s.dag s.intervals n g };

    /// Runs the try's program and gives its answer. At a fault the ticket comes back.
    fn run(&self, ticket: Ticket) -> Result<Done, (Ticket, RunnerFault)> {
        let (done, _) = self.run_in_detail(ticket)?;
        Ok(done)
    }
}

impl<'p, 'i, 'l, S: Starter + Drop> DetailedRunner for ProcessRunner<'p, 'i, 'l, S> {
    ghost may_know = { λ s n g raw detail. Unit {0} };

    /// Runs the try's program and gives its answer with the signal that ended the program, or the system's words for
    /// why it wasn't started. At a fault the ticket comes back.
    fn run_in_detail(
        &self,
        ticket: Ticket,
    ) -> Result<(Done, Option<Detail>), (Ticket, RunnerFault)> {
        match self.run_try(ticket.name(), ticket.given()) {
            Ok(Heard { raw, detail, .. }) => Ok((ticket.answer(raw), detail)),
            Err(fault) => Err((ticket, fault)),
        }
    }
}
