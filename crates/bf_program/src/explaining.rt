//! What `check --explain` tells behind a refusal.
ghost use Rattle.std.specs.Prelude.{◌≡◌, ◌++◌, ◌∷◌, [], true, ℕ, List, IfErr, IfOk, OnErr, OnOk, string_bytes};
ghost use Rattle.bf_device.specs.Device.{HasHalted};
ghost use Rattle.bf_command_line.specs.Asked.{IsLineBy};
ghost use Rattle.bf_command_line.specs.declared.forms.CommandLine.{CommandLine};
ghost use Rattle.bf_disk.specs.Files.{IsReadable};
ghost use Rattle.bf_input.specs.Inputs.{IsReadingFault, OfFiles, graph_paths};
ghost use Rattle.bf_program.specs.Commands.{found_in};
ghost use Rattle.bf_program.specs.Explained.{IsExplained, IsExplainedBy, IsExplainedIf, IsExplanation, finding_line, findings_text};

use crate::program::{tell_fault, tell_line};
use bf_command_fault::CommandFault;
use bf_command_line::{Asked, CheckAsked, CommandLine, GraphAsked, asked};
use bf_device::Write;
use bf_disk::{Source, SourceFault};
use bf_findings::{Finding, findings};
use bf_input::read_graph_files;
use bf_quoted::push_shown_value;
use bf_value::{OutOfMemory, Text};
use std::alloc::Global;

/// Appends one finding to `text` as a line, with the characters escaped that a terminal doesn't show as themselves.
fn push_finding(alloc: Global, text: &mut String, finding: &Finding) -> Result<(), OutOfMemory>
    ensures { OnOk result (string_bytes text.new ≡ string_bytes text.old
        ++ finding_line finding.now) }
{
    let line = format!(in alloc; "{finding}")?;
    push_shown_value(text, line.as_str())?;
    text.push('\n')?;
    Ok(())
}

/// Gives one line for each finding, in their order; empty where there are none.
fn text_of_findings(alloc: Global, found: &[Finding]) -> Result<String, OutOfMemory>
    ensures { IfOk result (λ text. string_bytes text ≡ findings_text found.now) }
{
    let mut text = String::new(alloc);
    for finding in found {
        push_finding(alloc, &mut text, finding)?;
    }
    Ok(text)
}

/// Sees that a file can be read a second time. `Err` where it isn't a regular file, as a pipe, whose bytes `check` has
/// used up, where it can't be opened, or at want of memory.
fn find_again<S: Source>(alloc: Global, path: &str, files: &mut S) -> Result<(), CommandFault>
    ensures readable { OnOk result (IsReadable (S.file files.old path.now)) }
    ensures fault { IfErr result (IsReadingFault (S.file files.old) (path.now ∷ [])) }
    ensures stays { (p : List ℕ) → S.file files.new p ≡ S.file files.old p }
{
    match files.open_regular(path) {
        Ok(device) => {
            drop(device);
            Ok(())
        }
        Err(SourceFault::CannotRead) => Err(CommandFault::CannotRead(Text::copy_of(alloc, path)?)),
        Err(SourceFault::OutOfMemory) => Err(CommandFault::OutOfMemory),
    }
}

/// Sees that the graph file, and then the zone file where one is named, can be read a second time. `Err` for the first
/// that can't, or at want of memory.
fn find_all_again<S: Source>(
    alloc: Global,
    asked: &GraphAsked,
    files: &mut S,
) -> Result<(), CommandFault>
    ensures fault { IfErr result (IsReadingFault (S.file files.old) (graph_paths asked.now)) }
    ensures stays { (p : List ℕ) → S.file files.new p ≡ S.file files.old p }
{
    find_again(alloc, asked.graph.as_str(), files)?;
    match &asked.zone_file {
        Some(path) => find_again(alloc, path.as_str(), files),
        None => Ok(()),
    }
}

/// Reads the graph file, and the zone file where one is named, and lists what is wrong with the graph, one line for
/// each finding. `Err` where a file isn't a regular one or can't be read, or at want of memory.
fn read_explanation<S: Source>(
    alloc: Global,
    asked: GraphAsked,
    files: &mut S,
) -> Result<String, CommandFault>
    ensures ok { IfOk result (λ text. OfFiles (S.file files.old) asked
        (λ graph zone. IsExplanation graph zone (string_bytes text))) }
    ensures fault { IfErr result (IsReadingFault (S.file files.old) (graph_paths asked)) }
{
    find_all_again(alloc, &asked, files)?;
    let files = read_graph_files(alloc, asked, files)?;
    let found = findings(alloc, &files.graph, files.zone_file())?;
    let text = text_of_findings(alloc, found.as_slice())?;
    Ok(text)
}

/// Reads the graph's files and writes what is wrong with the graph to `err`; or where a file can't be read a second time,
/// or at want of memory, that fault. A write that fails is no error.
fn tell_findings<S: Source, E: Write>(alloc: Global, asked: GraphAsked, files: &mut S, err: &mut E)
    ensures { IsExplainedBy (S.file files.old) asked
        (HasHalted (E.failures err.old) (E.failures err.new)
        (E.interruptions err.old) (E.interruptions err.new))
        (E.written err.old) (E.written err.new) }
{
    match read_explanation(alloc, asked, files) {
        Ok(text) => tell_line(err, text.as_bytes()),
        Err(fault) => {
            let _told = tell_fault(alloc, &fault, err);
        }
    }
}

/// Where `asked` has `--explain`, reads the graph's files and writes what is wrong with the graph to `err`, or why that
/// can't be said; else does nothing.
fn explain_asked_check<S: Source, E: Write>(
    alloc: Global,
    asked: CheckAsked,
    files: &mut S,
    err: &mut E,
)
    ensures { IsExplainedIf asked.explain (S.file files.old) asked.graph
        (HasHalted (E.failures err.old) (E.failures err.new)
        (E.interruptions err.old) (E.interruptions err.new))
        (E.written err.old) (E.written err.new) }
{
    let CheckAsked { graph, explain } = asked;
    if explain {
        tell_findings(alloc, graph, files, err);
    }
}

/// Where the command is `check --explain`, reads the graph's files and writes what is wrong with the graph to `err`, or
/// why that can't be said; else does nothing.
#[tactic(auto, using(crate::proofs::Unasked::unasked))]
fn explain_command<S: Source, E: Write>(alloc: Global, command: Asked, files: &mut S, err: &mut E)
    ensures { IsExplained (S.file files.old) command
        (HasHalted (E.failures err.old) (E.failures err.new)
        (E.interruptions err.old) (E.interruptions err.new))
        (E.written err.old) (E.written err.new) }
{
    match command {
        Asked::Check(check) => explain_asked_check(alloc, check, files, err),
        other => drop(other),
    }
}

/// Where the line is `check --explain`, reads the graph's files and writes what is wrong with the graph to `err`, at
/// most a hundred findings; or why that can't be said: a file that isn't a regular one or can't be read, or want of
/// memory. Does nothing for other commands. `Err`, and nothing is written, where the line is wrong, asks for help, or
/// there is no memory to read it.
pub fn explain_check<S: Source, E: Write>(
    alloc: Global,
    words: &[String],
    files: &mut S,
    err: &mut E,
) -> Result<(), CommandFault>
    ensures told { OnOk result ((line : CommandLine) × IsLineBy (found_in words.now) line
        × IsExplained (S.file files.old) line.command
        (HasHalted (E.failures err.old) (E.failures err.new)
        (E.interruptions err.old) (E.interruptions err.new))
        (E.written err.old) (E.written err.new)) }
    ensures untold { OnErr result (E.written err.new ≡ E.written err.old) }
{
    match asked(alloc, words) {
        Ok(CommandLine { command, out: _ }) => {
            explain_command(alloc, command, files, err);
            Ok(())
        }
        Err(_) => Err(CommandFault::OutOfMemory),
    }
}
