//! Reads the words of `clear`.
ghost use Rattle.std.specs.Prelude.{◌≡◌, IfOk, slice_get, Some, codes};
ghost use Rattle.clap.specs.Words.{FailsBy, found_of, rows_of};
ghost use Rattle.bf_command_line.specs.Wrongs.{cleared_wrongs, clear_wrongs, seeds_wrongs};
ghost use Rattle.bf_command_line.specs.Asked.{has_seeds_in, texts_in, AreSeedsBy, IsAskedBy, IsClearedBy, IsIntegerIfGiven, IsSeedAt};

use crate::forms::{Asked, ClearAsked, ClearPlanAsked, ClearedAsked, SeedAsked};
use crate::programs::programs_asked;
use crate::refusal::{
    cleared_twice_error, nothing_cleared_error, unpaired_indexes_error, unpaired_tasks_error,
};
use crate::value::{
    is_flag_set, optional_text, required_text, required_text_at, text_at, value_count_of,
};
use clap::{ArgMatches, Error};
use std::alloc::{AllocError, Global};

/// Answers the value of `--index` at `place`, from 0; None where there are fewer. `Err` where it isn't an integer,
/// which `clap` rules out.
fn index_at(matches: &ArgMatches<'_>, place: usize) -> Result<Option<i32>, AllocError>
    ensures { IfOk result (IsIntegerIfGiven
        (slice_get (texts_in (codes "index") (rows_of (found_of matches.now))) place)) }
{
    let Some(text) = text_at(matches, "index", place) else {
        return Ok(None);
    };
    match text.parse::<i32>() {
        Ok(index) => Ok(Some(index)),
        Err(_) => Err(AllocError),
    }
}

/// Makes a seed of the values of `--task`, `--run` and `--index` at `place`, from 0; the last may be missing. `Err`
/// where a task or run is missing there, or at want of memory.
fn seed_at(alloc: Global, matches: &ArgMatches<'_>, place: usize) -> Result<SeedAsked, AllocError>
    ensures { IfOk result (IsSeedAt (rows_of (found_of matches.now)) place) }
{
    Ok(SeedAsked {
        task: required_text_at(alloc, matches, "task", place)?,
        run: required_text_at(alloc, matches, "run", place)?,
        index: index_at(matches, place)?,
    })
}

/// Makes a seed for each value of `--task`, in order, with the `--run` and `--index` at its place. `Err` where a run is
/// missing, which `refuse_unpaired` rules out, or at want of memory.
fn seeds_asked(alloc: Global, matches: &ArgMatches<'_>) -> Result<Vec<SeedAsked>, AllocError>
    ensures { IfOk result (λ seeds. AreSeedsBy (rows_of (found_of matches.now)) seeds.items) }
{
    let mut seeds = Vec::new(alloc);
    for place in 0..value_count_of(matches, "task") {
        let seed = seed_at(alloc, matches, place)?;
        seeds.push(seed)?;
    }
    Ok(seeds)
}

/// Whether `--task`, `--run` or `--index` has a value.
fn has_seeds(matches: &ArgMatches<'_>) -> bool
    ensures { result ≡ has_seeds_in (rows_of (found_of matches.now)) }
{
    value_count_of(matches, "task") != 0
        || value_count_of(matches, "run") != 0
        || value_count_of(matches, "index") != 0
}

/// Checks that `--run` has as many values as `--task`, and `--index` as many or none. `Err` where not, or at want of
/// memory.
fn refuse_unpaired(alloc: Global, matches: &ArgMatches<'_>) -> Result<(), Error>
    ensures { FailsBy (seeds_wrongs (rows_of (found_of matches.now))) result }
{
    let tasks = value_count_of(matches, "task");
    let runs = value_count_of(matches, "run");
    let indexes = value_count_of(matches, "index");
    if tasks != runs {
        return Err(unpaired_tasks_error(alloc)?);
    }
    if indexes != 0 && indexes != tasks {
        return Err(unpaired_indexes_error(alloc)?);
    }
    Ok(())
}

/// Reads what to clear: seeds, a seeds file, or what failed. `Err` where the line names none of these or more than one,
/// its options don't pair, or memory runs out.
fn cleared_asked(alloc: Global, matches: &ArgMatches<'_>) -> Result<ClearedAsked, Error>
    ensures ok { IfOk result (IsClearedBy (rows_of (found_of matches.now))) }
    ensures err { FailsBy (cleared_wrongs (rows_of (found_of matches.now))) result }
{
    let file = optional_text(alloc, matches, "seeds")?;
    let seeds = has_seeds(matches);
    let failed = is_flag_set(matches, "failed");
    match (file, seeds, failed) {
        (None, true, false) => {
            refuse_unpaired(alloc, matches)?;
            let seeds = seeds_asked(alloc, matches)?;
            Ok(ClearedAsked::Seeds(seeds))
        }
        (Some(path), false, false) => Ok(ClearedAsked::File(path)),
        (None, false, true) => Ok(ClearedAsked::Failed),
        (None, false, false) => Err(nothing_cleared_error(alloc)?),
        (None, true, true) => Err(cleared_twice_error(alloc)?),
        (Some(_), _, _) => Err(cleared_twice_error(alloc)?),
    }
}

/// Reads what `clear`, which is `name`, asks for: to go on from a report, or with `--plan` to print what would be
/// cleared. `Err` where the range or what to clear is missing or doubled, options don't pair or lack one that they
/// need, the name of logs is empty, or memory runs out.
pub(crate) fn clear_asked(
    alloc: Global,
    name: &str,
    matches: &ArgMatches<'_>,
) -> Result<Asked, Error>
    ensures ok { IfOk result (IsAskedBy (Some (codes "clear", rows_of (found_of matches.now)))) }
    ensures err { FailsBy (clear_wrongs (rows_of (found_of matches.now))) result }
{
    let cleared = cleared_asked(alloc, matches)?;
    let run = programs_asked(alloc, name, matches)?;
    let report = required_text(alloc, matches, "report")?;
    let table = optional_text(alloc, matches, "table")?;
    if is_flag_set(matches, "plan") {
        return Ok(Asked::ClearPlan(ClearPlanAsked {
            graph: run.graph,
            report,
            range: run.range,
            cleared,
        }));
    }
    Ok(Asked::Clear(ClearAsked {
        graph: run.graph,
        report,
        range: run.range,
        cleared,
        table,
        workers: run.workers,
        progress: run.progress,
        quiet: run.quiet,
        launcher: run.launcher,
        logs: run.logs,
        journal: run.journal,
    }))
}
