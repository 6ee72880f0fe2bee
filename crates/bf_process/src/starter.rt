//! What starts programs.
ghost use Rattle.std.specs.Prelude.{◌≡◌, ◌∷◌, IfOk, IfErr};
ghost use Rattle.bf_graph.specs.Shape.{texts};
ghost use Rattle.bf_process.specs.Words.{launched_in};

use crate::heard::Heard;
use crate::logs::{note_start_fault, open_logs};
use crate::program::run_program;
use crate::setting::Setting;
use bf_try::RunnerFault;
use std::alloc::Global;

/// Starts programs and hears them to their end. Its two relations, which it promises to keep, say what may come of a
/// program that is started with these words, the first of which names it, and with variables set and removed in this
/// process's environment.
pub trait Starter {
    ghost use Rattle.bf_try.specs.declared.answers.Raw.{Raw};
    ghost use Rattle.bf_process.specs.Words.{Launched};

    /// A program that is started so may answer so.
    ghost may_hear: { Self → Launched → Raw → Type 0 };

    /// A program that is to be started so may be lost: its logs can't be made, or it can't be waited for.
    ghost may_lose: { Self → Launched → Type 0 };

    /// Makes the try's logs, starts a program with the try's variables set in its environment, waits for its end and
    /// gives its answer. `GaveUp` where a log can't be made or the program can't be waited for, `OutOfMemory` at want
    /// of memory.
    fn start(
        &self,
        alloc: Global,
        program: &str,
        arguments: &[String],
        setting: &Setting<'_, '_>,
    ) -> Result<Heard, RunnerFault>
        ensures heard { IfOk result (λ heard.
            may_hear self.now (launched_in setting.now (program.now ∷ texts arguments.now))
            heard.raw) }
        ensures lost { IfErr result (λ fault. fault ≡ RunnerFault.GaveUp →
            may_lose self.now (launched_in setting.now (program.now ∷ texts arguments.now))) };
}

/// The machine. A program may answer anything, and waiting for any may fail.
impl Starter for HostRuntime {
    ghost may_hear = { λ _ launched raw. Unit {0} };

    ghost may_lose = { λ _ launched. Unit {0} };

    /// Starts a program of this machine. Where a log can't be made, notes that in the setting's `log_faults`, starts
    /// nothing and gives `GaveUp`. Where the program couldn't be started, writes why to the log of its standard error.
    /// Without logs the program shares this process's standard error.
    fn start(
        &self,
        alloc: Global,
        program: &str,
        arguments: &[String],
        setting: &Setting<'_, '_>,
    ) -> Result<Heard, RunnerFault> {
        let Some(logs) = setting.logs else {
            return run_program(self, alloc, program, arguments, setting, None);
        };
        let Ok(open) = open_logs(self, logs, setting.log_faults) else {
            setting.log_faults.note_unmade_log();
            return Err(RunnerFault::GaveUp);
        };
        let heard = run_program(self, alloc, program, arguments, setting, Some(open))?;
        note_start_fault(self, logs, program, &heard);
        Ok(heard)
    }
}
