//! The words of a try, as a line of a shell behind the variables that they name.
ghost use Rattle.std.specs.Prelude.{◌≡◌, ◌++◌, IfOk, OnOk, filter, string_bytes};
ghost use Rattle.bf_explain.specs.Variables.{hand_line_of, is_named_in, setting_of, settings_of, stands_in};
ghost use Rattle.bf_process.specs.Environment.{variables_of};

use bf_moment::Moment;
use bf_process::Variable;
use bf_quoted::{push_line, push_quoted};
use bf_value::{OutOfMemory, Text};
use bf_words::JobContext;
use std::alloc::{AllocError, Global};

/// Whether a name stands somewhere in a text.
fn stands_in(name: &[u8], text: &[u8]) -> bool
    ensures { result ≡ stands_in name.now text.now }
{
    for start in 0..text.len() {
        if text[start..].starts_with(name) {
            return true;
        }
    }
    false
}

/// Whether one of these words names a variable.
fn is_named(words: &[Text], variable: Variable) -> bool
    ensures { result ≡ is_named_in words.now variable }
{
    let name = variable.name().as_bytes();
    words
        .iter()
        .any(|word| stands_in(name, word.as_str().as_bytes()))
}

/// Adds what sets a variable behind `env`, such as `BACKFILL_DATE=2024-03-04`, and a space. `clock` is what the clocks
/// of the graph's zone show at the start of the try's run.
fn push_setting(
    alloc: Global,
    line: &mut String,
    variable: Variable,
    context: &JobContext<'_>,
    clock: &Moment,
) -> Result<(), OutOfMemory>
    ensures { OnOk result (string_bytes line.new ≡ string_bytes line.old
        ++ setting_of context.now clock.now.at.nanosecond variable) }
{
    let value = variable.value(alloc, context, clock)?;
    line.push_str(variable.name())?;
    line.push_str("=")?;
    push_quoted(alloc, line, value.as_str())?;
    line.push_str(" ")?;
    Ok(())
}

/// The variables that these words name, in order.
fn named_variables(alloc: Global, words: &[Text]) -> Result<Vec<Variable>, AllocError>
    ensures { IfOk result (λ named. named.items
        ≡ filter (is_named_in words.now) variables_of) }
{
    Variable::all()
        .iter()
        .copied()
        .filter(|variable| is_named(words, *variable))
        .collect(alloc)
}

/// Adds `env` and what sets these variables; adds nothing where there are none.
fn push_settings(
    alloc: Global,
    line: &mut String,
    named: &[Variable],
    context: &JobContext<'_>,
    clock: &Moment,
) -> Result<(), OutOfMemory>
    ensures { OnOk result (string_bytes line.new ≡ string_bytes line.old
        ++ settings_of context.now clock.now.at.nanosecond named.now) }
{
    if named.is_empty() {
        return Ok(());
    }
    line.push_str("env ")?;
    for variable in named {
        push_setting(alloc, line, *variable, context, clock)?;
    }
    Ok(())
}

/// The words of a try as a line of a shell, without a line feed: each quoted where a shell needs it, and before them
/// the variables of the try that they name.
pub(crate) fn hand_line(
    alloc: Global,
    words: &[Text],
    context: &JobContext<'_>,
    clock: &Moment,
) -> Result<Text, OutOfMemory>
    ensures { IfOk result (λ line. line
        ≡ hand_line_of context.now clock.now.at.nanosecond words.now) }
{
    let named = named_variables(alloc, words)?;
    let mut line = String::new(alloc);
    push_settings(alloc, &mut line, named.as_slice(), context, clock)?;
    push_line(alloc, &mut line, words)?;
    Ok(Text::new(line))
}
