//! The line that clears a task in a run.
ghost use Rattle.std.specs.Prelude.{◌≡◌, ◌++◌, ◌∷◌, [], IfOk, OnOk, codes, option_copied};
ghost use Rattle.bf_explain.specs.Clearing.{begins_with_hyphen_in, clear_line_of, clear_words_of, index_words, option_words, path_words, range_words, seed_words, short_start_of, short_start_in, zone_words};

use crate::paths::Paths;
use bf_dependents::Place;
use bf_plan::Plan;
use bf_quoted::{push_line, push_quoted};
use bf_report::{Report, RunReport};
use bf_value::{OutOfMemory, Text};
use bf_wording::{add_line, add_line_if, short_moment};
use std::alloc::Global;

/// Whether a word begins with a hyphen, as options do.
fn begins_with_hyphen(word: &str) -> bool
    ensures { result ≡ begins_with_hyphen_in word.now }
{
    match word.as_bytes() {
        [first, ..] => *first == b'-',
        [] => false,
    }
}

/// Adds an option and its value as two words, or as one, `NAME=VALUE`, where the value begins with a hyphen.
fn add_option(
    alloc: Global,
    words: &mut Vec<Text>,
    name: &str,
    word: &str,
) -> Result<(), OutOfMemory>
    ensures { OnOk result (words.new.items ≡ words.old.items ++ option_words name.now word.now) }
{
    if begins_with_hyphen(word) {
        words.push(Text::new(format!(in alloc; "{name}={word}")?))?;
        return Ok(());
    }
    add_line(alloc, words, name)?;
    add_line(alloc, words, word)
}

/// Adds the option `--zone-file` with its path; adds nothing where `zone_file` is None.
fn add_zone(
    alloc: Global,
    words: &mut Vec<Text>,
    zone_file: &Option<Text>,
) -> Result<(), OutOfMemory>
    ensures { OnOk result (words.new.items ≡ words.old.items ++ zone_words zone_file.now) }
{
    let Some(path) = zone_file else {
        return Ok(());
    };
    add_option(alloc, words, "--zone-file", path.as_str())?;
    Ok(())
}

/// Adds the paths of the graph and the report, with `--` before them where one begins with a hyphen.
fn add_paths(alloc: Global, words: &mut Vec<Text>, paths: &Paths) -> Result<(), OutOfMemory>
    ensures { OnOk result (words.new.items ≡ words.old.items ++ path_words paths.now) }
{
    let (graph, report) = (paths.graph.as_str(), paths.report.as_str());
    let hyphen = begins_with_hyphen(graph) || begins_with_hyphen(report);
    add_line_if(alloc, words, hyphen, "--")?;
    add_line(alloc, words, graph)?;
    add_line(alloc, words, report)
}

/// The start of a run in UTC, without its time where that is midnight; empty where `run` is None.
fn short_start(alloc: Global, run: Option<&RunReport>) -> Result<Text, OutOfMemory>
    ensures { IfOk result (λ text. text ≡ short_start_of (option_copied run.entry)) }
{
    match run {
        Some(run) => short_moment(alloc, run.interval.start),
        None => Text::copy_of(alloc, ""),
    }
}

/// The start of run number `run` in UTC, without its time where that is midnight; empty where the report has no such
/// run.
fn short_start_at(alloc: Global, report: &Report, run: usize) -> Result<Text, OutOfMemory>
    ensures { IfOk result (λ text. text ≡ short_start_in report.now run) }
{
    short_start(alloc, report.runs.get(run))
}

/// Adds `--from` and `--to` with the starts of the report's first and last run; both values are empty where it has no
/// runs.
fn add_range(alloc: Global, words: &mut Vec<Text>, report: &Report) -> Result<(), OutOfMemory>
    ensures { OnOk result (words.new.items ≡ words.old.items ++ range_words report.now) }
{
    let last = report.runs.len().saturating_sub(1);
    add_line(alloc, words, "--from")?;
    words.push(short_start_at(alloc, report, 0)?)?;
    add_line(alloc, words, "--to")?;
    words.push(short_start_at(alloc, report, last)?)?;
    Ok(())
}

/// Adds `--index` with this map index; adds nothing for None.
fn add_index(alloc: Global, words: &mut Vec<Text>, index: Option<i32>) -> Result<(), OutOfMemory>
    ensures { OnOk result (words.new.items ≡ words.old.items ++ index_words index) }
{
    let Some(index) = index else {
        return Ok(());
    };
    let text = index.to_string(alloc)?;
    add_option(alloc, words, "--index", text.as_str())
}

/// Adds `--task` and `--run` with the task and the run of a place, and `--index` where it is of one instance.
fn add_seed(
    alloc: Global,
    words: &mut Vec<Text>,
    plan: &Plan,
    report: &Report,
    place: Place,
) -> Result<(), OutOfMemory>
    ensures { OnOk result (words.new.items ≡ words.old.items
        ++ seed_words plan.now.dag report.now place) }
{
    add_option(alloc, words, "--task", plan.dag().id_of(place.task))?;
    add_line(alloc, words, "--run")?;
    words.push(short_start_at(alloc, report, place.run as usize)?)?;
    add_index(alloc, words, place.index)
}

/// The words `backfill clear`.
fn first_words(alloc: Global) -> Result<Vec<Text>, OutOfMemory>
    ensures { IfOk result (λ words. words.items ≡ codes "backfill" ∷ codes "clear" ∷ []) }
{
    let mut words = Vec::new(alloc);
    add_line(alloc, &mut words, "backfill")?;
    add_line(alloc, &mut words, "clear")?;
    Ok(words)
}

/// The words of the command that clears the task of `place` in its run. `paths` are the files that it names.
fn clear_words(
    alloc: Global,
    paths: &Paths,
    plan: &Plan,
    report: &Report,
    place: Place,
) -> Result<Vec<Text>, OutOfMemory>
    ensures { IfOk result (λ words. words.items
        ≡ clear_words_of paths.now plan.now.dag report.now place) }
{
    let mut words = first_words(alloc)?;
    add_zone(alloc, &mut words, &paths.zone_file)?;
    add_range(alloc, &mut words, report)?;
    add_seed(alloc, &mut words, plan, report, place)?;
    add_paths(alloc, &mut words, paths)?;
    Ok(words)
}

/// The path of the new report: that of the old report, followed by `.new`.
fn new_report_path(alloc: Global, paths: &Paths) -> Result<Text, OutOfMemory>
    ensures { IfOk result (λ path. path ≡ paths.now.report ++ codes ".new") }
{
    let report = paths.report.as_str();
    Ok(Text::new(format!(in alloc; "{report}.new")?))
}

/// The shell line, without a line feed, that clears the task of `place` in its run, or its one instance, and writes the new report to the
/// path of the old one with `.new` added. `paths` are the files that it names.
pub(crate) fn clear_line(
    alloc: Global,
    paths: &Paths,
    plan: &Plan,
    report: &Report,
    place: Place,
) -> Result<Text, OutOfMemory>
    ensures { IfOk result (λ line. line ≡ clear_line_of paths.now plan.now.dag report.now place) }
{
    let words = clear_words(alloc, paths, plan, report, place)?;
    let path = new_report_path(alloc, paths)?;
    let mut line = String::new(alloc);
    push_line(alloc, &mut line, words.as_slice())?;
    line.push_str(" > ")?;
    push_quoted(alloc, &mut line, path.as_str())?;
    Ok(Text::new(line))
}
