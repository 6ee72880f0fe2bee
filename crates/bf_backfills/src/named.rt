//! What a line names to be cleared.
ghost use Rattle.std.specs.Prelude.{◌≡◌, ◌∷◌, ◌++◌, [], ℕ, List, IfErr, IfOk, OnOk, string_bytes};
ghost use Rattle.bf_disk.specs.Files.{AreReadable, named_paths};
ghost use Rattle.bf_input.specs.Inputs.{IsReadingFault};
ghost use Rattle.bf_input.specs.Moments.{IsNoMoment};
ghost use Rattle.bf_backfills.specs.Commands.{HasNoMoment, HasUnmeantRun, MeanSeeds, MeansRange, MeansSeed};
ghost use Rattle.bf_backfills.specs.inner.Named.{IsFaultOfTextsAsked, IsReadFor, IsUnmeant, MeansNamed, path_of};

use crate::range::range_of;
use bf_command_fault::CommandFault;
use bf_command_line::{ClearedAsked, RangeAsked, SeedAsked};
use bf_commands::ToClear;
use bf_dependents::Seed;
use bf_disk::Source;
use bf_input::{moment_of, read_seeds_bytes};
use bf_planning::RunRange;
use bf_value::{OutOfMemory, Text};
use std::alloc::Global;

/// What a line asks to clear, before a seeds file is read.
#[derive(Drop)]
pub(crate) enum UnreadToClear {
    /// These tasks in runs, or instances of them.
    Seeds(Vec<Seed>),
    /// What the lines of the file at this path name.
    File(String),
    /// Each instance that failed.
    Failed,
    /// Nothing: the whole report is kept.
    Nothing,
}

/// Reads the seed that a line names by a task, the start of a run, and maybe a map index. `Err` where the start is no
/// moment, or at want of memory.
fn read_seed(alloc: Global, asked: &SeedAsked) -> Result<Seed, CommandFault>
    ensures means { IfOk result (MeansSeed asked.now) }
    ensures bad { IfErr result (IsUnmeant (IsNoMoment (string_bytes asked.now.run))) }
{
    let run = moment_of(asked.run.as_str())?;
    let task = Text::copy_of(alloc, asked.task.as_str())?;
    Ok(Seed {
        task,
        run,
        index: asked.index,
    })
}

/// Appends a seed.
fn add_seed(seeds: &mut Vec<Seed>, seed: Seed) -> Result<(), OutOfMemory>
    ensures { OnOk result (seeds.new.items ≡ seeds.old.items ++ seed ∷ []) }
{
    seeds.push(seed)?;
    Ok(())
}

/// Reads the seeds that a line names, in its order. `Err` where the run of one is no moment, or at want of memory.
fn read_seeds(alloc: Global, asked: &[SeedAsked]) -> Result<Vec<Seed>, CommandFault>
    ensures means { IfOk result (λ seeds. MeanSeeds asked.now seeds.items) }
    ensures bad { IfErr result (IsUnmeant (HasUnmeantRun asked.now)) }
{
    let mut seeds = Vec::new(alloc);
    for one in asked {
        let seed = read_seed(alloc, one)?;
        add_seed(&mut seeds, seed)?;
    }
    Ok(seeds)
}

/// Reads what a line asks to clear; a seeds file is only named, not opened. `Err` where the run of a seed is no moment,
/// or at want of memory.
fn to_clear_asked(alloc: Global, asked: &ClearedAsked) -> Result<UnreadToClear, CommandFault>
    ensures means { IfOk result (MeansNamed asked.now) }
    ensures bad { IfErr result (IsUnmeant (HasNoMoment asked.now)) }
{
    match asked {
        ClearedAsked::Seeds(asked) => Ok(UnreadToClear::Seeds(read_seeds(
            alloc,
            asked.as_slice(),
        )?)),
        ClearedAsked::File(path) => Ok(UnreadToClear::File(String::from_str(
            alloc,
            path.as_str(),
        )?)),
        ClearedAsked::Failed => Ok(UnreadToClear::Failed),
        ClearedAsked::Nothing => Ok(UnreadToClear::Nothing),
    }
}

/// What a line's texts mean: a range, and what to clear in it.
#[derive(Drop)]
pub(crate) struct ToClearInRange {
    pub(crate) range: RunRange,
    pub(crate) named: UnreadToClear,
}

/// Reads the texts of a line, first its range and then what to clear. `Err` where one is no moment or no days, or at
/// want of memory.
pub(crate) fn meaning_of(
    alloc: Global,
    range: &RangeAsked,
    cleared: &ClearedAsked,
) -> Result<ToClearInRange, CommandFault>
    ensures range { IfOk result (λ meant. MeansRange range.now meant.range) }
    ensures named { IfOk result (λ meant. MeansNamed cleared.now meant.named) }
    ensures fault { IfErr result (IsFaultOfTextsAsked range.now cleared.now) }
{
    let range = range_of(range)?;
    let named = to_clear_asked(alloc, cleared)?;
    Ok(ToClearInRange { range, named })
}

/// Reads the seeds file, where one is named, and opens no other. `Err` where it can't be read, or at want of memory.
pub(crate) fn read_to_clear<S: Source>(
    alloc: Global,
    named: UnreadToClear,
    files: &mut S,
) -> Result<ToClear, CommandFault>
    ensures ok { IfOk result (IsReadFor (S.file files.old) named) }
    ensures readable { OnOk result (AreReadable (S.file files.old) (named_paths (path_of named))) }
    ensures fault { IfErr result (IsReadingFault (S.file files.old) (named_paths (path_of named))) }
    ensures stays { (p : List ℕ) → S.file files.new p ≡ S.file files.old p }
{
    match named {
        UnreadToClear::Seeds(seeds) => Ok(ToClear::Seeds(seeds)),
        UnreadToClear::File(path) => Ok(ToClear::File(read_seeds_bytes(alloc, path, files)?)),
        UnreadToClear::Failed => Ok(ToClear::Failed),
        UnreadToClear::Nothing => Ok(ToClear::Nothing),
    }
}
