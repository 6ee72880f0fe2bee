//! Lines of a seeds file.
ghost use Rattle.std.specs.Prelude.{◌≡◌, ℕ, ℤ, List, Option, IfSome, IfNone, option_map};
ghost use Rattle.bf_dependents.specs.declared.seeds.Seed.{Seed};
ghost use Rattle.bf_seeds.specs.Seeds.{split_at_space_of, SpellsSeed, SpellsTask};
ghost use Rattle.bf_seeds.specs.inner.Words.{seed_of};

use crate::index::index_in;
use bf_moment::moment_in;
use jiff::Timestamp;

/// What a line of a seeds file says: the start of a run, the id of a task, and a map index, None for all instances.
#[derive(Clone, Copy)]
pub(crate) struct Words<'a> {
    pub(crate) run: Timestamp,
    pub(crate) task: &'a str,
    pub(crate) index: Option<i32>,
}

/// What stands before the first space of a text and what stands after it; None where it has no space.
fn split_at_space(text: &str) -> Option<(&str, &str)>
    ensures { option_map (λ p. (p.0.now, p.1.now)) result ≡ split_at_space_of text.now }
{
    text.split_once(' ')
}

/// The task that a text `TASK` or `TASK INDEX` names, with the map index, None where it has none. None for any other
/// text.
fn task_in(text: &str) -> Option<(&str, Option<i32>)>
    ensures found { IfSome result
        (λ found. SpellsTask text.now (split_at_space_of text.now) found.0.now found.1) }
    ensures none { IfNone result ((task : List ℕ) (index : Option ℤ)
        → SpellsTask text.now (split_at_space_of text.now) task index → ⊥) }
{
    match split_at_space(text) {
        None if text.is_empty() => None,
        None => Some((text, None)),
        Some((task, index)) => {
            let index = index_in(index)?;
            if task.is_empty() {
                return None;
            }
            let index = Some(index);
            Some((task, index))
        }
    }
}

/// The run, the task and the map index that a line `RUN TASK` or `RUN TASK INDEX` names; None for any other line.
pub(crate) fn words_in(line: &str) -> Option<Words<'_>>
    ensures found { IfSome result (λ words. SpellsSeed line.now (seed_of words)) }
    ensures none { IfNone result ((seed : Seed) → SpellsSeed line.now seed → ⊥) }
{
    let (run, rest) = split_at_space(line)?;
    let run = moment_in(run)?;
    let (task, index) = task_in(rest)?;
    Some(Words { run, task, index })
}
