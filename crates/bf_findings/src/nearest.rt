//! The known name that is nearest to a text.
ghost use Rattle.std.specs.Prelude.{◌≡◌, ◌≤◌, ℕ, List, [], ◌∷◌, ◌++◌, Some, None, length, map, option_map, IfOk};
ghost use Rattle.std.specs.Str.{chars};
ghost use Rattle.bf_findings.specs.Nearest.{changes_below, changes_in, changes_of, changes_to, differing_parts, edits, lowered, shared, shared_at_end, IsNearest, IsSuggested};
ghost use Rattle.bf_findings.specs.inner.Nearest.{IsBest};

use crate::common::{shared_end, shared_start};
use bf_value::OutOfMemory;
use bf_wording::chars_of;
use std::alloc::Global;
use strsim::generic_levenshtein;

/// The most characters in which a text and a name near it may differ, from the first to the last.
const LONGEST_STRETCH: usize = 24;

/// Gives the characters of ASCII text, in order.
fn chars_of_ascii(alloc: Global, text: &[u8]) -> Result<Vec<char>, OutOfMemory>
    ensures { IfOk result (λ all. all.items ≡ text.now) }
{
    let mut all = Vec::new(alloc);
    for byte in text {
        all.push(char::from(*byte))?;
    }
    Ok(all)
}

/// Counts the changes that lead from a text to a name, in ASCII (Levenshtein).
fn edit_distance(alloc: Global, text: &[char], name: &[u8]) -> Result<usize, OutOfMemory>
    ensures { IfOk result (λ n. n ≡ edits text.now name.now) }
{
    let name = chars_of_ascii(alloc, name)?;
    Ok(generic_levenshtein(alloc, text, name.as_slice())?)
}

/// Gives the parts in which two texts differ, without their common beginning and end.
fn differing<'a>(text: &'a [char], name: &'a [u8]) -> (&'a [char], &'a [u8])
    ensures { (result.0.now, result.1.now) ≡ differing_parts text.entry.now name.entry.now }
{
    let start = shared_start(text, name);
    let (text, name) = (&text[start..], &name[start..]);
    let end = shared_end(text, name);
    (&text[..text.len() - end], &name[..name.len() - end])
}

/// Gives the number of changes where it is less than half of `longer`, else None.
fn if_below(longer: usize, changes: usize) -> Option<usize>
    ensures { result ≡ changes_below longer changes }
{
    if changes < longer.div_ceil(2) {
        Some(changes)
    } else {
        None
    }
}

/// Counts the changes that lead from a text to a name, both in lower case. None where they differ over more than
/// `LONGEST_STRETCH` characters, or where half of the longer one or more would change.
#[tactic(auto, unfolding(crate::specs::Nearest::changes_of))]
fn changes(alloc: Global, text: &[char], name: &[u8]) -> Result<Option<usize>, OutOfMemory>
    ensures { IfOk result (λ n. n ≡ changes_of text.now name.now) }
{
    let (of_text, of_name) = differing(text, name);
    if of_text.len().max(of_name.len()) > LONGEST_STRETCH {
        return Ok(None);
    }
    let changes = edit_distance(alloc, of_text, of_name)?;
    Ok(if_below(text.len().max(name.len()), changes))
}

/// Counts the changes that lead from a text in lower case to a name, whose case doesn't count; None where it isn't
/// near.
fn changes_to_name(alloc: Global, text: &[char], name: &str) -> Result<Option<usize>, OutOfMemory>
    ensures { IfOk result (λ n. n ≡ changes_of text.now (lowered name.now)) }
{
    let name = name.to_ascii_lowercase(alloc)?;
    changes(alloc, text, name.as_bytes())
}

/// A near name, and how many changes lead to it.
#[derive(Clone, Copy)]
struct Found<'a> {
    name: &'a str,
    changes: usize,
}

/// Gives the nearer of the best name so far and another; the best so far where both are as near.
#[tactic(auto, using(crate::proofs::Nearness::still_nearest, crate::proofs::Nearness::now_nearest, crate::proofs::Nearness::first_nearest))]
fn nearer<'a>(best: Option<Found<'a>>, other: Found<'a>) -> Found<'a>
    ensures { (text : List ℕ) (names : List (List ℕ)) → IsBest text names best.entry
        → changes_to text other.entry.name.now ≡ Some other.entry.changes
        → IsNearest text (names ++ other.entry.name.now ∷ []) result.name.now result.changes }
{
    match best {
        Some(best) if best.changes <= other.changes => best,
        _ => other,
    }
}

/// Gives the best name so far, and another where that is near and nearer. `changes` leads to the other; None where it
/// isn't near.
#[tactic(auto, using(crate::proofs::Nearness::still_best))]
fn better<'a>(best: Option<Found<'a>>, name: &'a str, changes: Option<usize>) -> Option<Found<'a>>
    ensures { (text : List ℕ) (names : List (List ℕ)) → IsBest text names best.entry
        → changes_to text name.entry.now ≡ changes
        → IsBest text (names ++ name.entry.now ∷ []) result }
{
    match changes {
        Some(changes) => Some(nearer(best, Found { name, changes })),
        None => best,
    }
}

/// Finds the nearest of the names that are near a text, whose characters in lower case are `characters`: the first of
/// several; None where none is near.
fn nearest<'a>(
    alloc: Global,
    characters: &[char],
    names: &[&'a str],
) -> Result<Option<Found<'a>>, OutOfMemory>
    ensures { IfOk result (λ best. (text : List ℕ) → characters.now ≡ chars (lowered text)
        → IsBest text (map (λ s. s.now) names.now) best) }
{
    let mut best = None;
    for name in names {
        best = better(best, name, changes_to_name(alloc, characters, name)?);
    }
    Ok(best)
}

/// Gives the characters of a text in lower case.
fn lowered_chars(alloc: Global, text: &str) -> Result<Vec<char>, OutOfMemory>
    ensures { IfOk result (λ all. all.items ≡ chars (lowered text.now)) }
{
    let text = text.to_ascii_lowercase(alloc)?;
    chars_of(alloc, text.as_str())
}

/// Finds the nearest of the names that are near a text, case aside, the first of several; None where none is.
pub(crate) fn suggested_name<'a>(
    alloc: Global,
    text: &str,
    names: &[&'a str],
) -> Result<Option<&'a str>, OutOfMemory>
    ensures { IfOk result (λ found. IsSuggested text.now (map (λ s. s.now) names.now)
        (option_map (λ s. s.now) found)) }
{
    let text = lowered_chars(alloc, text)?;
    match nearest(alloc, text.as_slice(), names)? {
        Some(found) => Ok(Some(found.name)),
        None => Ok(None),
    }
}
