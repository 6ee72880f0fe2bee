//! How the programs of tries are launched, and whether tries that fail are told.
ghost use Rattle.std.specs.Prelude.{◌≡◌, Bool, IfErr, OnOk, option_map, string_bytes};
ghost use Rattle.bf_process.specs.Words.{launching_of};
ghost use Rattle.bf_backfills.specs.Commands.{IsLaunchable, launching_asked_of};
ghost use Rattle.bf_backfills.specs.inner.CommandFaults.{IsFaultOfLauncher};
ghost use Rattle.bf_backfills.specs.inner.Telling.{tells_asked_of};

use bf_command_fault::CommandFault;
use bf_commands::{Screen, Tells};
use bf_disk::Launchers;
use bf_process::Launching;
use bf_value::Text;
use std::alloc::Global;

/// Lends the path; None where none is named.
pub(crate) fn path_named(path: &Option<String>) -> Option<&str>
    ensures { option_map (λ p. p.now) result ≡ option_map string_bytes path.entry.now }
{
    path.as_deref()
}

/// Checks that the launcher can be started, without starting it; passes where none is named. `Err(CannotLaunch)` where
/// it can't be, or want of memory.
pub(crate) fn refuse_unstartable_launcher<L: Launchers>(
    launchers: &L,
    alloc: Global,
    launcher: Option<&str>,
) -> Result<(), CommandFault>
    ensures ok { OnOk result (IsLaunchable (L.startable launchers.now)
        (option_map (λ l. l.now) launcher.entry)) }
    ensures fault { IfErr result (IsFaultOfLauncher (L.startable launchers.now)
        (option_map (λ l. l.now) launcher.entry)) }
{
    let Some(path) = launcher else {
        return Ok(());
    };
    if launchers.can_start(path) {
        return Ok(());
    }
    let path = Text::copy_of(alloc, path)?;
    Err(CommandFault::CannotLaunch(path))
}

/// How to launch programs with this launcher and this folder of logs, None for those not named. The clocks of the runs
/// are left empty, to be set later.
pub(crate) fn launching_asked<'a>(
    launcher: &'a Option<String>,
    logs: &'a Option<String>,
) -> Launching<'a>
    ensures { launching_of result ≡ launching_asked_of launcher.entry.now logs.entry.now }
{
    Launching {
        launcher: path_named(launcher),
        logs: path_named(logs),
        clocks: &[],
    }
}

/// What to tell on the screen besides the report: progress on a terminal; failed tries on a terminal, with `progress`,
/// or with logs; nothing with `quiet`, or where a table answers.
pub(crate) fn tells_asked<RT: Screen>(
    rt: &RT,
    by_programs: bool,
    quiet: bool,
    progress: bool,
    has_logs: bool,
) -> Tells
    ensures { (on_terminal : Bool) × RT.may_be_terminal rt.now on_terminal
        × (result ≡ tells_asked_of on_terminal by_programs quiet progress has_logs) }
{
    let is_terminal = rt.is_terminal();
    let tells = by_programs && !quiet;
    Tells {
        progress: tells && is_terminal,
        failures: tells && (is_terminal || progress || has_logs),
    }
}
