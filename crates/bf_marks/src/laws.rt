//! What holds of all grids. These functions do nothing: their contracts are the laws, over the definitions alone.
ghost use Rattle.std.specs.Prelude.{◌≡◌, ◌<◌, ℕ, Some, length, slice_get};
ghost use Rattle.bf_plan.specs.declared.plan.Dag.{Dag};
ghost use Rattle.bf_plan.specs.Plans.{task_of};
ghost use Rattle.bf_plan.specs.Sound.{IsOneOf, IsSound};
ghost use Rattle.bf_marks.specs.RowOrder.{order_of};

/// A law: in the order of rows, each upstream of a task stands before the task.
pub fn rows_stand_behind_their_upstreams()
    ensures { (dag : Dag) (place task upstream : ℕ) → slice_get (order_of dag) place ≡ Some task
        → IsOneOf (task_of dag task).upstreams upstream
        → (before : ℕ) × (before < place) × (slice_get (order_of dag) before ≡ Some upstream) }
{}

/// A law: no task stands twice in the order of rows.
pub fn no_row_stands_twice()
    ensures { (dag : Dag) (one two task : ℕ) → slice_get (order_of dag) one ≡ Some task
        → slice_get (order_of dag) two ≡ Some task → one ≡ two }
{}

/// A law: each task of a sound graph stands in the order of rows.
pub fn each_task_has_a_row()
    ensures { (dag : Dag) → IsSound dag → (task : ℕ) → task < length dag.tasks
        → (place : ℕ) × (slice_get (order_of dag) place ≡ Some task) }
{}
