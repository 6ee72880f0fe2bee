//! A program that is started, read and waited for.
ghost use Rattle.std.specs.Prelude.{◌≡◌, ℕ, List, [], ◌∷◌, false, None, Some, IsSome, IfOk, IfErr, IfSome, IfNone, OnOk, option_map};
ghost use Rattle.std.specs.Process.{child_status, clears_env, command_program, command_args, command_dir, command_var, exit_code, exit_signal};
ghost use Rattle.bf_graph.specs.Shape.{texts};
ghost use Rattle.bf_try.specs.declared.answers.Line.{Line};
ghost use Rattle.bf_failure.specs.declared.detail.Detail.{Detail};
ghost use Rattle.bf_process.specs.Environment.{pairs_of, variables_of};
ghost use Rattle.bf_process.specs.inner.Environment.{said_after};
ghost use Rattle.bf_process.specs.inner.Commands.{IsSaidAfter, IsSameElse};
ghost use Rattle.bf_process.specs.Words.{variables_in};
ghost use Rattle.bf_process.specs.Output.{IsLineOf, not_started_raw_of};
ghost use Rattle.bf_process.specs.inner.Output.{exit_in, is_want_of_room};
ghost use Rattle.std.specs.IoError.{error_kind};

use crate::heard::Heard;
use crate::line::line_of;
use crate::log_faults::LogFaults;
use crate::logs::{OpenLogs, OutputLog};
use crate::setting::Setting;
use crate::tee::Tee;
use crate::variable::Variable;
use bf_device::{Input, Output, Read, Write};
use bf_failure::Detail;
use bf_moment::Moment;
use bf_try::{Exit, Line, Raw, RunnerFault};
use bf_value::{OutOfMemory, Sequence, Text};
use bf_words::JobContext;
use std::alloc::Global;
use std::fs::File;
use std::io;
use std::io::ErrorKind;
use std::os::unix::process::ExitStatusExt;
use std::process::{Child, Command, ExitStatus, OpenProcess, Processes, Stdio};

/// Makes the raw answer of a program that wasn't started.
pub(crate) fn not_started_raw(alloc: Global) -> Raw
    ensures { result ≡ not_started_raw_of }
{
    Raw {
        exit: Exit::NotStarted,
        line: Line::Bytes(Sequence::new(alloc)),
    }
}

/// Adds a variable to a command's environment, in place of any of that name.
fn add_variable(command: &mut Command, name: &str, value: &str) -> Result<(), OutOfMemory>
    ensures variable { OnOk result
        (IsSaidAfter command.old command.new ((name.now, Some value.now) ∷ [])) }
    ensures same { OnOk result (IsSameElse command.old command.new) }
{
    command.env(name, value)?;
    Ok(())
}

/// Removes the variable of this name, which this process may have, from a command's environment.
fn remove_variable(command: &mut Command, name: &str) -> Result<(), OutOfMemory>
    requires { clears_env command.old ≡ false }
    ensures variable { OnOk result (IsSaidAfter command.old command.new ((name.now, None) ∷ [])) }
    ensures same { OnOk result (IsSameElse command.old command.new) }
{
    command.env_remove(name)?;
    Ok(())
}

/// Adds the variables that every try has to a command's environment; `clock` is for the dates among them.
fn add_common_variables(
    alloc: Global,
    command: &mut Command,
    context: &JobContext<'_>,
    clock: &Moment,
) -> Result<(), OutOfMemory>
    ensures variables { OnOk result
        (IsSaidAfter command.old command.new
        (pairs_of context.now clock.now.at.nanosecond variables_of)) }
    ensures same { OnOk result (IsSameElse command.old command.new) }
{
    for variable in Variable::all() {
        let value = variable.value(alloc, context, clock)?;
        add_variable(command, variable.name(), value.as_str())?;
    }
    Ok(())
}

/// Adds the variables of a try to a command's environment, with `BACKFILL_GIVEN` where logs are kept; where they
/// aren't, removes that one, which would name a file of another try.
fn add_environment(
    alloc: Global,
    command: &mut Command,
    setting: &Setting<'_, '_>,
) -> Result<(), OutOfMemory>
    requires { clears_env command.old ≡ false }
    ensures variables { OnOk result
        (IsSaidAfter command.old command.new (variables_in setting.now)) }
    ensures same { OnOk result (IsSameElse command.old command.new) }
{
    add_common_variables(alloc, command, setting.context, setting.clock)?;
    match setting.path_of_given() {
        Some(path) => add_variable(command, "BACKFILL_GIVEN", path),
        None => remove_variable(command, "BACKFILL_GIVEN"),
    }
}

/// Makes the command that starts a program with these arguments, in this process's folder and environment, in which the
/// try's variables are set, and those of no other. Its standard input is empty, its standard output a pipe; its standard error goes to `err`, or to that of this process for None.
fn command_of(
    alloc: Global,
    program: &str,
    arguments: &[String],
    setting: &Setting<'_, '_>,
    err: Option<File>,
) -> Result<Command, OutOfMemory>
    ensures program { IfOk result (λ command. command_program command ≡ program.now) }
    ensures arguments { IfOk result (λ command. command_args command ≡ texts arguments.now) }
    ensures folder { IfOk result (λ command. command_dir command ≡ None) }
    ensures environment { IfOk result (λ command. clears_env command ≡ false) }
    ensures variables { IfOk result (λ command. (k : List ℕ) →
        command_var command k ≡ said_after k None (variables_in setting.now)) }
{
    let mut command = Command::new(alloc, program)?;
    for argument in arguments {
        command.arg(argument.as_str())?;
    }
    command.stdin(Stdio::null());
    command.stdout(Stdio::piped());
    command.stderr(match err {
        Some(err) => Stdio::from(err),
        None => Stdio::inherit(),
    });
    add_environment(alloc, &mut command, setting)?;
    Ok(command)
}

/// Converts a program's exit status: it ended with a code, or by a signal.
fn exit_of(status: ExitStatus) -> Exit
    ensures { result ≡ exit_in (exit_code status) }
{
    match status.code() {
        Some(code) => Exit::Code(code),
        None => Exit::Signal,
    }
}

/// Gives the signal that ended a program; None where it ended with a code.
fn signal_of(status: ExitStatus) -> Option<Detail>
    ensures { result ≡ option_map (λ number. Detail.Signal number) (exit_signal status) }
{
    match status.signal() {
        Some(number) => Some(Detail::Signal(number)),
        None => None,
    }
}

/// Cuts the number of the fault, such as ` (os error 2)`, off the system's words for it.
fn without_number(words: &str) -> &str {
    match words.split_once(" (os error ") {
        Some((words, _)) => words,
        None => words,
    }
}

/// Gives the system's words for why a program wasn't started; None at want of memory.
fn start_fault(alloc: Global, error: &io::Error) -> Option<Detail> {
    let Ok(words) = error.to_string(alloc) else {
        return None;
    };
    match Text::copy_of(alloc, without_number(words.as_str())) {
        Ok(words) => Some(Detail::NotStarted(words)),
        Err(_) => None,
    }
}

/// Gives the last line of a device, as `line_of` does, and copies all that it gives to a log. It reads past the limit
/// of `line_of` too, so that the writing program goes on. Notes in `faults` where the log lacks a part.
fn log_and_read_line<R: Read + Drop, W: Write + Drop>(
    alloc: Global,
    device: R,
    log: W,
    faults: &LogFaults,
) -> Result<Line, OutOfMemory>
    ensures { IfOk result (λ line. IfSome (R.left device) (λ output. IsLineOf output line)) }
{
    let mut tee = Tee::new(device, log);
    let line = line_of(alloc, &mut tee);
    tee.drain();
    if tee.has_failed() {
        faults.note_incomplete_log();
    }
    line
}

/// Gives the last line that a child prints, `ReadFault` where it has no pipe, and closes the pipe. Without a log it
/// closes it at the limit of `line_of`, so that a child which prints on gets SIGPIPE.
fn line_of_child<P: OpenProcess>(
    alloc: Global,
    child: &mut Child<P>,
    log: Option<OutputLog<'_>>,
) -> Result<Line, OutOfMemory>
    ensures line { IfOk result (λ line. IfSome child.old.stdout (λ pipe.
        IfSome (P.Stdout.remaining pipe) (λ output. IsLineOf output line))) }
    ensures no_pipe { IfOk result (λ line. IfNone child.old.stdout (line ≡ Line.ReadFault)) }
    ensures closed { child.new.stdout ≡ None }
{
    let Some(pipe) = child.stdout.take() else {
        return Ok(Line::ReadFault);
    };
    match log {
        Some(log) => log_and_read_line(alloc, Input::new(pipe), Output::new(log.file), log.faults),
        None => line_of(alloc, &mut Input::new(pipe)),
    }
}

/// Gives a child's answer: how it ended, and the last line that it printed. `GaveUp` where it can't be waited for,
/// `OutOfMemory` at want of memory for the line, but only after waiting, since nobody else would.
fn heard_of<P: OpenProcess>(
    alloc: Global,
    child: &mut Child<P>,
    log: Option<OutputLog<'_>>,
) -> Result<Heard, RunnerFault>
    ensures exit { IfOk result (λ heard.
        option_map (λ status. exit_in (exit_code status)) (child_status child.new)
        ≡ Some heard.raw.exit) }
    ensures signal { IfOk result (λ heard.
        option_map (λ status. option_map (λ number. Detail.Signal number) (exit_signal status))
        (child_status child.new) ≡ Some heard.detail) }
    ensures line { IfOk result (λ heard. IfSome child.old.stdout (λ pipe.
        IfSome (P.Stdout.remaining pipe) (λ output. IsLineOf output heard.raw.line))) }
    ensures waited { IfErr result (λ fault.
        fault ≡ RunnerFault.OutOfMemory → IsSome (child_status child.new)) }
{
    let line = line_of_child(alloc, child, log);
    let Ok(status) = child.wait() else {
        return Err(RunnerFault::GaveUp);
    };
    let raw = Raw {
        exit: exit_of(status),
        line: line?,
    };
    Ok(Heard {
        raw,
        detail: signal_of(status),
        may_start_later: false,
    })
}

/// Gives what is heard of a program that the system didn't start by this fault: it may start later where processes or
/// memory were wanting for it.
fn not_started(alloc: Global, error: &io::Error) -> Heard
    ensures raw { result.raw ≡ not_started_raw_of }
    ensures later { result.may_start_later ≡ is_want_of_room (error_kind error.now) }
{
    Heard {
        raw: not_started_raw(alloc),
        detail: start_fault(alloc, error),
        may_start_later: matches!(error.kind(), ErrorKind::WouldBlock | ErrorKind::OutOfMemory),
    }
}

/// Starts a program for a try with these arguments, waits for its end and gives its answer, `NotStarted` where the
/// system couldn't start it. `GaveUp` where it can't be waited for, `OutOfMemory` where this process wants memory. No
/// contract covers this.
pub(crate) fn run_program<P: Processes>(
    processes: &P,
    alloc: Global,
    program: &str,
    arguments: &[String],
    setting: &Setting<'_, '_>,
    logs: Option<OpenLogs<'_>>,
) -> Result<Heard, RunnerFault> {
    let (out, err) = match logs {
        Some(OpenLogs { out, err }) => (Some(out), Some(err)),
        None => (None, None),
    };
    let mut command = command_of(alloc, program, arguments, setting, err)?;
    match command.spawn(processes) {
        Ok(mut child) => heard_of(alloc, &mut child, out),
        Err(error) => match (error.kind(), error.raw_os_error()) {
            (ErrorKind::OutOfMemory, None) => Err(RunnerFault::OutOfMemory),
            _ => Ok(not_started(alloc, &error)),
        },
    }
}
