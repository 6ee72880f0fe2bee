//! Sentences on what stands directly upstream.
ghost use Rattle.std.specs.Prelude.{◌≡◌, ◌<◌, ◌==◌, ◌∷◌, ◌++◌, [], IfOk, OnOk, Some, codes, if◌then◌else◌, length};
ghost use Rattle.std.specs.List.{flat_map};
ghost use Rattle.bf_core.specs.Deciding.{branch_is, is_blocked_in};
ghost use Rattle.bf_why.specs.Decided.{branch_sentence_of, branch_where, blocked_branches_sentence_of, have_no_status_of, id_of, blocked_upstreams_sentence_of};
ghost use Rattle.bf_reason.specs.Settled.{value_among};

use crate::looking::first_pushed_by;
use bf_plan::Plan;
use bf_reason::{Settled, is_blocked, is_blocked_branch, is_skipping_branch};
use bf_value::{OutOfMemory, Text};
use bf_wording::{add_line_if, name_list, value_text};
use std::alloc::Global;

/// How many characters of a value a sentence shows.
const MOST_CHARACTERS: usize = 200;

/// The sentence that a branch succeeded and doesn't follow the task explained, with the value that it pushed, as JSON
/// cut to 200 characters.
fn branch_sentence(
    alloc: Global,
    plan: &Plan,
    settled: &[Settled<'_>],
    branch: u32,
) -> Result<Text, OutOfMemory>
    ensures { IfOk result (λ text. text ≡ branch_sentence_of plan.now.dag settled.now branch) }
{
    let id = plan.dag().id_of(branch);
    let value = value_text(alloc, first_pushed_by(settled, branch), MOST_CHARACTERS)?;
    let text = format!(in alloc;
        "The branch {id} succeeded and doesn't follow it: it pushed {value}."
    )?;
    Ok(Text::new(text))
}

/// Adds the sentence on `upstream` where it is a branch that succeeded and doesn't follow `task`; adds nothing
/// otherwise.
fn add_branch(
    alloc: Global,
    lines: &mut Vec<Text>,
    plan: &Plan,
    settled: &[Settled<'_>],
    upstream: u32,
    task: u32,
) -> Result<(), OutOfMemory>
    requires { task < length plan.now.dag.tasks }
    ensures { OnOk result (lines.new.items ≡ lines.old.items
        ++ branch_where plan.now.dag settled.now task upstream) }
{
    if is_skipping_branch(plan, settled, upstream, task) {
        lines.push(branch_sentence(alloc, plan, settled, upstream)?)?;
    }
    Ok(())
}

/// A sentence for each branch among `upstreams` that succeeded and doesn't follow `task`, in order. `settled` are the
/// tasks of the run.
pub(crate) fn branch_sentences(
    alloc: Global,
    plan: &Plan,
    settled: &[Settled<'_>],
    upstreams: &[u32],
    task: u32,
) -> Result<Vec<Text>, OutOfMemory>
    requires { task < length plan.now.dag.tasks }
    ensures { IfOk result (λ lines. lines.items
        ≡ flat_map (branch_where plan.now.dag settled.now task) upstreams.now) }
{
    let mut lines = Vec::new(alloc);
    for upstream in upstreams {
        add_branch(alloc, &mut lines, plan, settled, *upstream, task)?;
    }
    Ok(lines)
}

/// Adds the id of task number `task` to `ids` where `holds`; adds nothing otherwise.
pub fn add_id_if(
    alloc: Global,
    ids: &mut Vec<Text>,
    plan: &Plan,
    task: u32,
    holds: bool,
) -> Result<(), OutOfMemory>
    ensures { OnOk result (ids.new.items ≡ ids.old.items
        ++ (if holds then id_of plan.now.dag task ∷ [] else [])) }
{
    add_line_if(alloc, ids, holds, plan.dag().id_of(task))
}

/// Whether `upstream` is a branch without a status; true for a branch that `settled`, the tasks of the run, lacks.
fn is_blocked_branch_of(plan: &Plan, settled: &[Settled<'_>], upstream: u32) -> bool
    ensures { result ≡ branch_is plan.now.dag is_blocked_in upstream
        (Some (value_among settled.now upstream)) }
{
    is_blocked_branch(plan.dag(), settled, upstream)
}

/// The ids of the branches without a status among `upstreams`, in order. `settled` are the tasks of the run.
pub(crate) fn blocked_branch_ids(
    alloc: Global,
    plan: &Plan,
    settled: &[Settled<'_>],
    upstreams: &[u32],
) -> Result<Vec<Text>, OutOfMemory>
    ensures { IfOk result (λ ids. ids.items
        ≡ flat_map (λ u. if branch_is plan.now.dag is_blocked_in u
        (Some (value_among settled.now u))
        then id_of plan.now.dag u ∷ [] else []) upstreams.now) }
{
    let mut ids = Vec::new(alloc);
    for upstream in upstreams {
        let holds = is_blocked_branch_of(plan, settled, *upstream);
        add_id_if(alloc, &mut ids, plan, *upstream, holds)?;
    }
    Ok(ids)
}

/// The ids of the tasks without a status among `upstreams`, in order. `settled` are the tasks of the run.
pub(crate) fn blocked_task_ids(
    alloc: Global,
    plan: &Plan,
    settled: &[Settled<'_>],
    upstreams: &[u32],
) -> Result<Vec<Text>, OutOfMemory>
    ensures { IfOk result (λ ids. ids.items
        ≡ flat_map (λ u. if is_blocked_in (value_among settled.now u)
        then id_of plan.now.dag u ∷ [] else []) upstreams.now) }
{
    let mut ids = Vec::new(alloc);
    for upstream in upstreams {
        let holds = is_blocked(settled, *upstream);
        add_id_if(alloc, &mut ids, plan, *upstream, holds)?;
    }
    Ok(ids)
}

/// The end of a sentence on `count` tasks: ` has no status.` for 1, ` have no status.` for any other.
fn no_status_words(count: usize) -> &'static str
    ensures { result.now ≡ (if count == 1 then codes " has no status." else codes
        " have no status.") }
{
    if count == 1 {
        " has no status."
    } else {
        " have no status."
    }
}

/// `branch ` for a count of 1, `branches ` for any other, with the space at its end.
fn branch_word(count: usize) -> &'static str
    ensures { result.now ≡ (if count == 1 then codes "branch " else codes "branches ") }
{
    if count == 1 { "branch " } else { "branches " }
}

/// A list of these names and that they have no status, such as `load and merge have no status.`
pub fn no_status_text(alloc: Global, names: &[Text]) -> Result<Text, OutOfMemory>
    ensures { IfOk result (λ text. text ≡ have_no_status_of names.now) }
{
    let listed = name_list(alloc, names)?;
    let have = no_status_words(names.len());
    Ok(Text::new(format!(in alloc; "{listed}{have}")?))
}

/// The sentence that the branches of these names, directly upstream, have no status.
pub(crate) fn blocked_branches_sentence(alloc: Global, names: &[Text]) -> Result<Text, OutOfMemory>
    ensures { IfOk result (λ text. text ≡ blocked_branches_sentence_of names.now) }
{
    let branches = branch_word(names.len());
    let rest = no_status_text(alloc, names)?;
    Ok(Text::new(format!(in alloc; "Directly upstream, the {branches}{rest}")?))
}

/// The sentence that the tasks of these names, directly upstream, have no status.
pub(crate) fn blocked_upstreams_sentence(alloc: Global, names: &[Text]) -> Result<Text, OutOfMemory>
    ensures { IfOk result (λ text. text ≡ blocked_upstreams_sentence_of names.now) }
{
    let rest = no_status_text(alloc, names)?;
    Ok(Text::new(format!(in alloc; "Directly upstream, {rest}")?))
}
