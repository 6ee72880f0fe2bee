//! Seeds files.
ghost use Rattle.std.specs.Prelude.{◌≡◌, ◌⊎◌, ◌≤◌, length, map, IfOk, IfErr};
ghost use Rattle.bf_seeds.specs.declared.fault.SeedsFault.TheVariants;
ghost use Rattle.bf_seeds.specs.Seeds.{ArePlaces, IsFaultOfLine, IsFirstFault, lines_in, told_line_of};
ghost use Rattle.bf_seeds.specs.inner.Seeds.{IsPlaceOf};

use crate::fault::SeedsFault;
use crate::line::words_in;
use bf_dependents::{Place, Seed, add_place, place_of};
use bf_interval::Interval;
use bf_plan::Plan;
use bf_quoted::push_shown_value;
use bf_value::{OutOfMemory, Text};
use bf_wording::cut_text;
use std::alloc::{AllocError, Global};

/// The lines of a text that aren't empty, without their ends.
fn lines_of(alloc: Global, text: &str) -> Result<Vec<&str>, AllocError>
    ensures { IfOk result (λ found. map (λ line. line.now) found.items ≡ lines_in text.now) }
{
    text.lines().filter(|line| !line.is_empty()).collect(alloc)
}

/// The most characters that are told of a bad line.
const MOST_TOLD: usize = 200;

/// A line as it is told: with escapes for what a terminal wouldn't show as itself, and of more than 200 characters only
/// the first, with how many there are.
fn told_line(alloc: Global, line: &str) -> Result<Text, OutOfMemory>
    ensures { IfOk result (λ told. told ≡ told_line_of line.now) }
{
    let mut shown = String::new(alloc);
    push_shown_value(&mut shown, line)?;
    cut_text(alloc, shown.as_str(), MOST_TOLD)
}

/// The fault `BadSeed` with this line as it is told; `OutOfMemory` where there is no memory for that.
fn bad_seed(alloc: Global, line: &str) -> SeedsFault
    ensures { (result ≡ TheVariants.BadSeed (told_line_of line.now))
        ⊎ (result ≡ TheVariants.OutOfMemory) }
{
    match told_line(alloc, line) {
        Ok(told) => SeedsFault::BadSeed(told),
        Err(_) => SeedsFault::OutOfMemory,
    }
}

/// The place that a line names. `BadSeed` where the line has another form, `Unknown` where the plan lacks its task or
/// its run is the start of no data interval, `OutOfMemory` where memory ran out.
fn place_in_line(
    alloc: Global,
    plan: &Plan,
    intervals: &[Interval],
    line: &str,
) -> Result<Place, SeedsFault>
    requires few { length intervals.now ≤ 4_096 }
    ensures ok { IfOk result (IsPlaceOf plan.now.dag intervals.now line.now) }
    ensures err { IfErr result (IsFaultOfLine plan.now.dag intervals.now line.now) }
{
    let Some(words) = words_in(line) else {
        return Err(bad_seed(alloc, line));
    };
    let task = Text::copy_of(alloc, words.task)?;
    let seed = Seed {
        task,
        run: words.run,
        index: words.index,
    };
    match place_of(plan, intervals, &seed) {
        Ok(place) => Ok(place),
        Err(fault) => Err(SeedsFault::Unknown(fault)),
    }
}

/// The places that these lines name, in order. For the first bad line `BadSeed` where it has another form, or `Unknown`
/// where the plan lacks its task or its run is the start of no data interval; `OutOfMemory` where memory ran out.
fn places_of_lines(
    alloc: Global,
    plan: &Plan,
    intervals: &[Interval],
    lines: &[&str],
) -> Result<Vec<Place>, SeedsFault>
    requires few { length intervals.now ≤ 4_096 }
    ensures ok { IfOk result (λ places. ArePlaces plan.now.dag intervals.now
        (map (λ line. line.now) lines.now) places.items) }
    ensures err { IfErr result (IsFirstFault plan.now.dag intervals.now
        (map (λ line. line.now) lines.now)) }
{
    let mut places = Vec::new(alloc);
    for line in lines {
        match place_in_line(alloc, plan, intervals, line) {
            Ok(place) => add_place(&mut places, place)?,
            Err(fault) => return Err(fault),
        }
    }
    Ok(places)
}

/// The places that the lines of a text name, in order; empty lines are skipped. For the first bad line `BadSeed` where
/// it has another form, or `Unknown` where the plan lacks its task or its run is the start of no data interval;
/// `OutOfMemory` where memory ran out.
pub fn places_in_text(
    alloc: Global,
    plan: &Plan,
    intervals: &[Interval],
    text: &str,
) -> Result<Vec<Place>, SeedsFault>
    requires few { length intervals.now ≤ 4_096 }
    ensures ok { IfOk result (λ places. ArePlaces plan.now.dag intervals.now
        (lines_in text.now) places.items) }
    ensures err { IfErr result (IsFirstFault plan.now.dag intervals.now (lines_in text.now)) }
{
    match lines_of(alloc, text) {
        Ok(lines) => places_of_lines(alloc, plan, intervals, lines.as_slice()),
        Err(_) => Err(SeedsFault::OutOfMemory),
    }
}
