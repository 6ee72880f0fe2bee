//! Reports that go to files.
ghost use Rattle.std.specs.Prelude.{◌≡◌, List, ℕ, IfErr, IfOk, OnErr, OnOk, Some, string_bytes, true};
ghost use Rattle.bf_file.specs.Replacing.{HasReplaced};
ghost use Rattle.bf_command_line.specs.Naming.{logs_of};
ghost use Rattle.bf_input.specs.Overwriting.{MayMiss, leads_of};
ghost use Rattle.bf_backfills.specs.Commands.{machine_of};
ghost use Rattle.bf_program.specs.Commands.{IsAnswer};
ghost use Rattle.bf_command_fault.specs.declared.status.Status.{Status};
ghost use Rattle.bf_program.specs.CommandFaults.{IsFaultBy, LeavesFiled};
ghost use Rattle.bf_program.specs.inner.Filed.{filed_fault, placing_fault, replacing_fault};

use crate::program::answer_command;
use bf_command_fault::{CommandFault, Status};
use bf_command_line::Asked;
use bf_commands::Screen;
use bf_disk::{Journals, Launchers, Places, Source};
use bf_file::{Folder, Page, PlaceFault, ReplaceFault, discard_page, replace_by_page};
use bf_input::is_of_logs;
use bf_process::Starter;
use bf_value::Text;
use bf_views::Canvas;
use std::alloc::Global;
use std::sync::Wait;
use std::thread::Threads;
use std::time::Clock;

/// Gives the command's fault where `--out` can't replace the file at `path`: `CannotWriteFile`, or want of memory.
fn fault_of_replacing(fault: ReplaceFault, path: String) -> CommandFault
    ensures { result ≡ replacing_fault (string_bytes path) fault }
{
    match fault {
        ReplaceFault::CannotReplace => CommandFault::CannotWriteFile(Text::new(path)),
        ReplaceFault::OutOfMemory => CommandFault::OutOfMemory,
    }
}

/// Gives the command's fault where the new file isn't at `path`: `ReportLeft` where it stays under its own name, else as
/// where the file can't be replaced.
fn fault_of_placing(fault: PlaceFault, path: String) -> CommandFault
    ensures { result ≡ placing_fault (string_bytes path) fault }
{
    match fault {
        PlaceFault::Lost(fault) => fault_of_replacing(fault, path),
        PlaceFault::Left(left) => CommandFault::ReportLeft {
            path: Text::new(path),
            left,
        },
    }
}

/// Gives the command's fault where its text was to replace the file at `path`. A failed write becomes `CannotWriteFile`
/// or want of memory, by `reason`; any other fault stays as it is.
fn fault_of_filed_command(fault: CommandFault, reason: ReplaceFault, path: String) -> CommandFault
    ensures { result ≡ filed_fault (string_bytes path) reason fault }
{
    match fault {
        CommandFault::CannotWrite(_) => fault_of_replacing(reason, path),
        fault => fault,
    }
}

/// Does a command whose text replaces the file at `path`, whole or not at all. Begins the new file before it reads any
/// other, so a path that can't be replaced, or is that of the command's logs, is refused first. At `Err` the old file is
/// still there; a text that only couldn't take its place stays beside it, where `ReportLeft` says.
pub(crate) fn answer_to_file<RT, J: Journals + Launchers + Places, S: Source, F: Folder>(
    rt: &RT,
    alloc: Global,
    command: Asked,
    path: String,
    canvas: Canvas,
    files: &mut S,
    journals: &J,
    folder: &mut F,
) -> Result<Status, CommandFault>
where
    RT: Starter + Screen + Threads + Wait + Clock + Sync,
    J::Device: Send,
    ensures answer { IfOk result (λ status. (text : List ℕ)
        × IsAnswer (RT.may_hear rt.now) canvas (S.file files.old)
        (machine_of (J.journal journals.now) (J.startable journals.now)) command text status
        × HasReplaced (F.placed folder.old) (F.placed folder.new) (string_bytes path) text) }
    ensures apart { OnOk result (MayMiss (J.same journals.now) (logs_of command)
        (string_bytes path)) }
    ensures fault { IfErr result (IsFaultBy
        (leads_of (J.same journals.now) (J.started journals.now))
        (Some (string_bytes path)) (F.failed folder.new ≡ true)
        (RT.may_lose rt.now) (S.file files.old)
        (machine_of (J.journal journals.now) (J.startable journals.now)) command) }
    ensures same { OnErr result (F.placed folder.new ≡ F.placed folder.old) }
    ensures kept { OnOk result (F.left folder.new ≡ F.left folder.old) }
    ensures left { IfErr result (LeavesFiled (λ text. (status : Status)
        × IsAnswer (RT.may_hear rt.now) canvas (S.file files.old)
        (machine_of (J.journal journals.now) (J.startable journals.now)) command text status)
        (F.left folder.old) (F.left folder.new)) }
{
    if is_of_logs(journals, &command, path.as_str()) {
        drop(command);
        return Err(CommandFault::CannotWriteFile(Text::new(path)));
    }
    let new = match folder.begin_replacement(alloc, path.as_str()) {
        Ok(new) => new,
        Err(fault) => {
            drop(command);
            return Err(fault_of_replacing(fault, path));
        }
    };
    let mut page = Page::new(new);
    match answer_command(rt, alloc, command, canvas, files, journals, &mut page) {
        Ok(status) => match replace_by_page(folder, page) {
            Ok(()) => Ok(status),
            Err(fault) => Err(fault_of_placing(fault, path)),
        },
        Err(fault) => {
            let reason = discard_page(folder, page);
            Err(fault_of_filed_command(fault, reason, path))
        }
    }
}
