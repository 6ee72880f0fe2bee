//! The whole program below `main`.
ghost use Rattle.std.specs.Prelude.{◌≡◌, ◌≢◌, ◌≤◌, ◌⊎◌, [], None, IfOk, IfErr, IsErr, IsSome, OnErr, true};
ghost use Rattle.clap.specs.Words.{kind_of};
ghost use Rattle.bf_device.specs.Device.{HasHalted};
ghost use Rattle.bf_command_fault.specs.Refusal.{Leaves, Sends, number_of};
ghost use Rattle.bf_command_fault.specs.Status.{code_of};
ghost use Rattle.bf_command_fault.specs.declared.fault.CommandFault.{CommandFault};
ghost use Rattle.bf_command_fault.specs.declared.status.Status.{Status};
ghost use Rattle.bf_backfills.specs.Commands.{machine_of};
ghost use Rattle.bf_input.specs.Overwriting.{leads_of};
ghost use Rattle.bf_program.specs.Commands.{IsAnswer, IsDone, IsRefusedOut, found_in, outputs, wrongs_of};
ghost use Rattle.bf_program.specs.CommandFaults.{IsFault, IsTold, MayBeFaulted, MayTell, Tells};
ghost use Rattle.bf_program.specs.Shown.{shown_as, EndsAs, IsUnshown, ShowsHelp};

use crate::filed::answer_to_file;
use crate::texts::{answer_completions, answer_schema};
use bf_backfills::{
    answer_check, answer_clear, answer_clear_plan, answer_dry, answer_list, answer_run,
    answer_single,
};
use bf_command_fault::{CommandFault, Status};
use bf_command_line::{Asked, CommandLine, asked, overwriting_error_of};
use bf_commands::Screen;
use bf_device::{Write, send};
use bf_disk::{Journals, Launchers, Places, Source};
use bf_file::Folder;
use bf_input::is_overwriting;
use bf_process::Starter;
use bf_quoted::push_shown_lines;
use bf_views::{
    Canvas, answer_answers, answer_explain, answer_page, answer_show, answer_show_json,
};
use clap::Error;
use clap::error::ErrorKind;
use std::alloc::Global;
use std::sync::Wait;
use std::thread::Threads;
use std::time::Clock;

/// Answers a command line, whose first word is the program's own name: writes its text to `out`, or with `--out` to a
/// file in `folder`, and why there is none to `err`. `canvas` has the width and colours of a grid where the line
/// doesn't. Gives the exit status: 0 where all is done and every run succeeded, 1 where a run failed, 2 for a refusal,
/// and 3 where the machine failed or a backfill stopped early. A line whose file in `folder` is one that it reads or starts
/// is wrong.
#[tactic(auto, using(crate::proofs::Ends::fault_ends))]
pub fn answer<RT, J: Journals + Launchers + Places, S: Source, F: Folder, W: Write, E: Write>(
    rt: &RT,
    alloc: Global,
    words: &[String],
    canvas: Canvas,
    files: &mut S,
    journals: &J,
    folder: &mut F,
    out: &mut W,
    err: &mut E,
) -> u8
where
    RT: Starter + Screen + Threads + Wait + Clock + Sync,
    J::Device: Send,
    ensures range { result ≤ 3 }
    ensures answered { result ≤ 1 → E.written err.new ≡ E.written err.old }
    ensures refused { result ≡ 2 → W.written out.new ≡ W.written out.old }
    ensures line { wrongs_of words.now ≢ [] → EndsAs (wrongs_of words.now) result }
    ensures done { wrongs_of words.now ≡ [] → result ≤ 1
        → IsDone (RT.may_hear rt.now) canvas (S.file files.old)
        (machine_of (J.journal journals.now) (J.startable journals.now))
        (leads_of (J.same journals.now) (J.started journals.now)) (found_in words.now)
        (outputs (W.written out.old) (F.placed folder.old)
        (F.left folder.old))
        (outputs (W.written out.new) (F.placed folder.new)
        (F.left folder.new)) result }
    ensures kept { wrongs_of words.now ≢ [] → F.placed folder.new ≡ F.placed folder.old }
    ensures unleft { wrongs_of words.now ≢ [] → F.left folder.new ≡ F.left folder.old }

    // Of a line with which nothing is wrong: its report would be written over what it names; or which fault came, and
    // what is told of it.
    ensures why { wrongs_of words.now ≡ [] → 2 ≤ result → ((result ≡ 2)
        × IsRefusedOut (leads_of (J.same journals.now) (J.started journals.now))
        (found_in words.now) × (outputs (W.written out.new) (F.placed folder.new)
        (F.left folder.new) ≡ outputs (W.written out.old) (F.placed folder.old)
        (F.left folder.old))) ⊎ ((fault : CommandFault)
        × MayBeFaulted (RT.may_hear rt.now) (RT.may_lose rt.now) canvas
        (S.file files.old) (machine_of (J.journal journals.now) (J.startable journals.now))
        (leads_of (J.same journals.now) (J.started journals.now)) (found_in words.now) (HasHalted (W.failures out.old) (W.failures out.new)
        (W.interruptions out.old) (W.interruptions out.new)) (F.failed folder.new ≡ true)
        (outputs (W.written out.old) (F.placed folder.old)
        (F.left folder.old))
        (outputs (W.written out.new) (F.placed folder.new)
        (F.left folder.new)) fault
        × MayTell (HasHalted (E.failures err.old) (E.failures err.new)
        (E.interruptions err.old) (E.interruptions err.new))
        (E.written err.old) (E.written err.new) fault result) }

    // Of a wrong line, and of help: which fault came, and what is told of it.
    ensures unshown { wrongs_of words.now ≢ [] → result ≡ 3 → (fault : CommandFault)
        × IsUnshown (ShowsHelp (wrongs_of words.now))
        (HasHalted (W.failures out.old) (W.failures out.new)
        (W.interruptions out.old) (W.interruptions out.new))
        (W.written out.old) (W.written out.new) fault
        × MayTell (HasHalted (E.failures err.old) (E.failures err.new)
        (E.interruptions err.old) (E.interruptions err.new))
        (E.written err.old) (E.written err.new) fault result }

    // Of any line: a fault is told as one.
    ensures fault { result ≡ 3 → (fault : CommandFault)
        × Tells (HasHalted (E.failures err.old) (E.failures err.new)
        (E.interruptions err.old) (E.interruptions err.new))
        (E.written err.old) (E.written err.new) fault 3 }
{
    match answer_line(rt, alloc, words, canvas, files, journals, folder, out, err) {
        Ok(status) => status.code(),
        Err(fault) => tell_fault(alloc, &fault, err).code(),
    }
}

/// Does what a command line asks, whose first word is the program's own name; writes `clap`'s help to `out`, and what
/// is wrong with the line to `err`. `Err` where the command is refused or fails, or the help can't be written; `err` is
/// left as it was then, so that the caller can tell the fault.
fn answer_line<RT, J: Journals + Launchers + Places, S: Source, F: Folder, W: Write, E: Write>(
    rt: &RT,
    alloc: Global,
    words: &[String],
    canvas: Canvas,
    files: &mut S,
    journals: &J,
    folder: &mut F,
    out: &mut W,
    err: &mut E,
) -> Result<Status, CommandFault>
where
    RT: Starter + Screen + Threads + Wait + Clock + Sync,
    J::Device: Send,
    ensures range { IfOk result (λ s. s ≢ Status.Fault) }
    ensures answered { IfOk result
        (λ s. s ≢ Status.Refused → E.written err.new ≡ E.written err.old) }
    ensures wrong { IfOk result (λ s. s ≡ Status.Refused → W.written out.new ≡ W.written out.old) }
    ensures refused { IfErr result
        (λ f. IsSome (number_of f) → W.written out.new ≡ W.written out.old) }
    ensures untouched { OnErr result (err.new ≡ err.old) }
    ensures line { wrongs_of words.now ≢ []
        → IfOk result (λ s. EndsAs (wrongs_of words.now) (code_of s)) }
    ensures fault { wrongs_of words.now ≢ [] → IfErr result (λ f. number_of f ≡ None) }
    ensures unshown { wrongs_of words.now ≢ [] → IfErr result (IsUnshown
        (ShowsHelp (wrongs_of words.now)) (HasHalted (W.failures out.old) (W.failures out.new)
        (W.interruptions out.old) (W.interruptions out.new))
        (W.written out.old) (W.written out.new)) }
    ensures done { wrongs_of words.now ≡ [] → IfOk result (λ s. s ≢ Status.Refused →
        IsDone (RT.may_hear rt.now) canvas (S.file files.old)
        (machine_of (J.journal journals.now) (J.startable journals.now))
        (leads_of (J.same journals.now) (J.started journals.now)) (found_in words.now)
        (outputs (W.written out.old) (F.placed folder.old)
        (F.left folder.old))
        (outputs (W.written out.new) (F.placed folder.new)
        (F.left folder.new)) (code_of s)) }
    ensures kept { wrongs_of words.now ≢ [] → F.placed folder.new ≡ F.placed folder.old }
    ensures unleft { wrongs_of words.now ≢ [] → F.left folder.new ≡ F.left folder.old }
    ensures overwriting { wrongs_of words.now ≡ [] → IfOk result (λ s. s ≡ Status.Refused →
        IsRefusedOut (leads_of (J.same journals.now) (J.started journals.now)) (found_in words.now)
        × (outputs (W.written out.new) (F.placed folder.new) (F.left folder.new)
        ≡ outputs (W.written out.old) (F.placed folder.old) (F.left folder.old))) }
    ensures why { wrongs_of words.now ≡ [] → IfErr result (λ f. MayBeFaulted
        (RT.may_hear rt.now) (RT.may_lose rt.now) canvas (S.file files.old)
        (machine_of (J.journal journals.now) (J.startable journals.now))
        (leads_of (J.same journals.now) (J.started journals.now)) (found_in words.now)
        (HasHalted (W.failures out.old) (W.failures out.new)
        (W.interruptions out.old) (W.interruptions out.new)) (F.failed folder.new ≡ true)
        (outputs (W.written out.old) (F.placed folder.old)
        (F.left folder.old))
        (outputs (W.written out.new) (F.placed folder.new)
        (F.left folder.new)) f) }
{
    match asked(alloc, words) {
        Ok(CommandLine { command, out: file }) => match file {
            Some(path) => {
                if is_overwriting(journals, &command, path.as_str()) {
                    return refuse_overwriting(alloc, command, out, err);
                }
                answer_to_file(rt, alloc, command, path, canvas, files, journals, folder)
            }
            None => answer_command(rt, alloc, command, canvas, files, journals, out),
        },
        Err(error) => show_clap_error(alloc, &error, out, err),
    }
}

/// Does a command and writes its text to `out`. `Err` where it is refused or fails; that isn't told yet. At `Err`,
/// `out` got nothing but the bytes that `CannotWrite` counts.
pub(crate) fn answer_command<RT, J: Journals + Launchers, S: Source, W: Write>(
    rt: &RT,
    alloc: Global,
    command: Asked,
    canvas: Canvas,
    files: &mut S,
    journals: &J,
    out: &mut W,
) -> Result<Status, CommandFault>
where
    RT: Starter + Screen + Threads + Wait + Clock + Sync,
    J::Device: Send,
    ensures answer { IfOk result (λ status. Sends
        (λ text. IsAnswer (RT.may_hear rt.now) canvas (S.file files.old)
        (machine_of (J.journal journals.now) (J.startable journals.now)) command text status)
        (W.written out.old) (W.written out.new)) }
    ensures fault { IfErr result (IsFault (RT.may_lose rt.now) (S.file files.old)
        (machine_of (J.journal journals.now) (J.startable journals.now)) command) }
    ensures left { IfErr result (Leaves (HasHalted (W.failures out.old) (W.failures out.new)
        (W.interruptions out.old) (W.interruptions out.new))
        (λ text. (status : Status)
        × IsAnswer (RT.may_hear rt.now) canvas (S.file files.old)
        (machine_of (J.journal journals.now) (J.startable journals.now)) command text status)
        (W.written out.old) (W.written out.new)) }
{
    match command {
        Asked::Check(check) => answer_check(alloc, check.graph, files, out),
        Asked::List(list) => answer_list(alloc, list, files, out),
        Asked::Single(single) => answer_single(rt, alloc, single, files, out),
        Asked::Dry(dry) => answer_dry(rt, alloc, dry, files, out),
        Asked::Run(ran) => answer_run(rt, alloc, ran, files, journals, out),
        Asked::Clear(clear) => answer_clear(rt, alloc, clear, files, journals, out),
        Asked::Keep(keep) => answer_clear(rt, alloc, keep, files, journals, out),
        Asked::ClearPlan(plan) => answer_clear_plan(alloc, plan, files, out),
        Asked::Show(show) => answer_show(alloc, show, canvas, files, out),
        Asked::ShowJson(path) => answer_show_json(alloc, path, files, out),
        Asked::Page(page) => answer_page(alloc, page, files, out),
        Asked::Explain(explain) => answer_explain(alloc, explain, files, out),
        Asked::Answers(path) => answer_answers(alloc, path, files, out),
        Asked::Schema(format) => answer_schema(format, out),
        Asked::Completions(shell) => answer_completions(shell, out),
    }
}

/// Writes `clap`'s help or version to `out`, with `Success`, or what is wrong with the line to `err`, with `Refused`,
/// with escapes for what a terminal wouldn't show as itself.
/// `Err` at want of memory, or where `out` fails; nothing goes to `err` then.
fn show_clap_error<W: Write, E: Write>(
    alloc: Global,
    error: &Error,
    out: &mut W,
    err: &mut E,
) -> Result<Status, CommandFault>
    ensures ok { IfOk result (λ s. s ≡ shown_as (kind_of error.now)) }
    ensures memory { kind_of error.now ≡ ErrorKind.OutOfMemory → IsErr result }
    ensures wanting { kind_of error.now ≡ ErrorKind.OutOfMemory
        → IfErr result (λ f. f ≡ CommandFault.OutOfMemory) }
    ensures kept { kind_of error.now ≡ ErrorKind.OutOfMemory → W.written out.new
        ≡ W.written out.old }
    ensures fault { IfErr result (λ f. number_of f ≡ None) }
    ensures unshown { IfErr result (IsUnshown (shown_as (kind_of error.now) ≡ Status.Success)
        (HasHalted (W.failures out.old) (W.failures out.new)
        (W.interruptions out.old) (W.interruptions out.new))
        (W.written out.old) (W.written out.new)) }
    ensures untouched { OnErr result (err.new ≡ err.old) }
    ensures help { IfOk result (λ s. s ≢ Status.Refused → E.written err.new ≡ E.written err.old) }
    ensures wrong { IfOk result (λ s. s ≡ Status.Refused → W.written out.new ≡ W.written out.old) }
{
    if error.kind() == ErrorKind::OutOfMemory {
        return Err(CommandFault::OutOfMemory);
    }
    let text = error.to_string(alloc)?;
    if error.use_stderr() {
        let mut shown = String::new(alloc);
        push_shown_lines(&mut shown, text.as_str())?;
        // Where standard error fails, nothing is left to say so on.
        let _ = send(err, shown.as_bytes());
        return Ok(Status::Refused);
    }
    send(out, text.as_bytes())?;
    Ok(Status::Success)
}

/// Writes to `err` that a line's report would be written over what its command names. `Err` at want of memory; nothing is
/// written then.
fn refuse_overwriting<W: Write, E: Write>(
    alloc: Global,
    command: Asked,
    out: &mut W,
    err: &mut E,
) -> Result<Status, CommandFault>
    ensures ok { IfOk result (λ s. s ≡ Status.Refused) }
    ensures memory { IfErr result (λ f. f ≡ CommandFault.OutOfMemory) }
    ensures unwritten { W.written out.new ≡ W.written out.old }
    ensures untouched { OnErr result (err.new ≡ err.old) }
{
    let error = overwriting_error_of(alloc, &command)?;
    show_clap_error(alloc, &error, out, err)
}

/// Writes the line of a fault to `err`, and gives its exit status. Without memory for that line, says
/// `fault: out of memory` and gives `Fault`.
pub(crate) fn tell_fault<E: Write>(alloc: Global, fault: &CommandFault, err: &mut E) -> Status
    ensures tells { MayTell (HasHalted (E.failures err.old) (E.failures err.new)
        (E.interruptions err.old) (E.interruptions err.new))
        (E.written err.old) (E.written err.new) fault.now (code_of result) }
    ensures refused { result ≡ Status.Refused → IsSome (number_of fault.now) }
    ensures fault { (result ≡ Status.Refused) ⊎ (result ≡ Status.Fault) }
{
    match fault.line(alloc) {
        Ok(line) => {
            tell_line(err, line.as_bytes());
            fault.status()
        }
        Err(_) => {
            tell_line(err, b"fault: out of memory\n");
            Status::Fault
        }
    }
}

/// Writes a line to standard error. Ignores a failure, since nothing is left to say so on.
pub(crate) fn tell_line<E: Write>(err: &mut E, line: &[u8])
    ensures { IsTold (HasHalted (E.failures err.old) (E.failures err.new)
        (E.interruptions err.old) (E.interruptions err.new))
        (E.written err.old) (E.written err.new) line.now }
{
    let _ = send(err, line);
}
