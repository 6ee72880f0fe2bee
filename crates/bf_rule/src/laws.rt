//! What holds of the definitions. These functions do nothing: their contracts are the laws.
ghost use Rattle.std.specs.Prelude.{◌≡◌, ◌≢◌, ◌↔◌, ℕ, true, Option};
ghost use Rattle.bf_value.specs.declared.xval.Xval.{Xval};
ghost use Rattle.bf_rule.specs.Branches.{followed_at, IsNamedOrReached};
ghost use Rattle.bf_rule.specs.Verdicts.{verdict_of, IsLater};
ghost use Rattle.bf_rule.specs.declared.rule.Counts.{Counts};
ghost use Rattle.bf_rule.specs.declared.rule.Rule.{Rule};
ghost use Rattle.bf_rule.specs.declared.rule.Verdict.TheVariants.{Wait};

use bf_graph::Graph;

/// A law: a verdict other than `Wait` stays, whatever finishes later.
pub fn verdicts_stay()
    ensures { (rule : Rule) (earlier later : Counts) → IsLater earlier later →
        verdict_of rule earlier ≢ Wait → verdict_of rule earlier ≡ verdict_of rule later }
{}

/// A law: in every graph a branch's value follows just the tasks that it names and those that these reach. No path
/// is longer than `followed` looks.
pub fn followed_tasks_are_named_or_reached(graph: &Graph)
    ensures { (branch : ℕ) (value : Option Xval) (task : ℕ) →
        (followed_at graph.now branch value task ≡ true)
        ↔ IsNamedOrReached graph.now branch value task }
{
    let _tasks = graph.len();
    graph.tasks_have_ranks();
}
