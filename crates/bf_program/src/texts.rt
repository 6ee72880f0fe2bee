//! The commands `schema` and `completions`: texts that are printed as they stand.
ghost use Rattle.std.specs.Prelude.{◌≡◌, IfOk, IfErr};
ghost use Rattle.bf_device.specs.Device.{HasHalted};
ghost use Rattle.bf_command_fault.specs.Refusal.{Leaves, Sends};
ghost use Rattle.bf_command_fault.specs.declared.status.Status.{Status};
ghost use Rattle.bf_program.specs.Texts.{IsDeviceFault, IsPrinted, completions_text, schema_text};

use bf_command_fault::{CommandFault, Status};
use bf_command_line::{Format, Shell};
use bf_device::{Write, send};
use bf_texts::{completions, schemas};

/// Gives the JSON Schema of graph files or of tables.
fn schema_of(format: Format) -> &'static str
    ensures { result.now ≡ schema_text format }
{
    match format {
        Format::Graph => schemas::GRAPH,
        Format::Table => schemas::TABLE,
    }
}

/// Gives the script by which a shell completes command lines.
fn completions_of(shell: Shell) -> &'static str
    ensures { result.now ≡ completions_text shell }
{
    match shell {
        Shell::Bash => completions::BASH,
        Shell::Zsh => completions::ZSH,
        Shell::Fish => completions::FISH,
    }
}

/// Writes a fixed text and gives `Success`. `Err` where `out` fails, with how many bytes went out.
fn print_text<W: Write>(text: &str, out: &mut W) -> Result<Status, CommandFault>
    ensures answer { IfOk result (λ status. Sends (λ sent. IsPrinted text.now sent status)
        (W.written out.old) (W.written out.new)) }
    ensures fault { IfErr result IsDeviceFault }
    ensures left { IfErr result (Leaves (HasHalted (W.failures out.old) (W.failures out.new)
        (W.interruptions out.old) (W.interruptions out.new))
        (λ sent. (status : Status) × IsPrinted text.now sent status)
        (W.written out.old) (W.written out.new)) }
{
    send(out, text.as_bytes())?;
    Ok(Status::Success)
}

/// Does the command `schema`: writes the JSON Schema of a format's files. `Err` where `out` fails, with how many bytes
/// went out.
pub(crate) fn answer_schema<W: Write>(format: Format, out: &mut W) -> Result<Status, CommandFault>
    ensures answer { IfOk result (λ status. Sends
        (λ text. IsPrinted (schema_text format) text status) (W.written out.old)
        (W.written out.new)) }
    ensures fault { IfErr result IsDeviceFault }
    ensures left { IfErr result (Leaves (HasHalted (W.failures out.old) (W.failures out.new)
        (W.interruptions out.old) (W.interruptions out.new))
        (λ text. (status : Status) × IsPrinted (schema_text format) text status)
        (W.written out.old) (W.written out.new)) }
{
    print_text(schema_of(format), out)
}

/// Does the command `completions`: writes the script by which a shell completes command lines. `Err` where `out` fails,
/// with how many bytes went out.
pub(crate) fn answer_completions<W: Write>(
    shell: Shell,
    out: &mut W,
) -> Result<Status, CommandFault>
    ensures answer { IfOk result (λ status. Sends
        (λ text. IsPrinted (completions_text shell) text status) (W.written out.old)
        (W.written out.new)) }
    ensures fault { IfErr result IsDeviceFault }
    ensures left { IfErr result (Leaves (HasHalted (W.failures out.old) (W.failures out.new)
        (W.interruptions out.old) (W.interruptions out.new))
        (λ text. (status : Status) × IsPrinted (completions_text shell) text status)
        (W.written out.old) (W.written out.new)) }
{
    print_text(completions_of(shell), out)
}
