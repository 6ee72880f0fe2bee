//! Laws of failures.
ghost use Rattle.std.specs.Prelude.{◌≡◌, ◌↔◌, ℕ, Some, IsSome};
ghost use Rattle.bf_plan.specs.declared.plan.Dag.{Dag};
ghost use Rattle.bf_xcom.specs.declared.values.Outcome.{Outcome};
ghost use Rattle.bf_try.specs.declared.answers.Raw.{Raw};
ghost use Rattle.bf_try.specs.Grades.{grade_of};
ghost use Rattle.bf_failure.specs.declared.failure.Failure.{Failure};
ghost use Rattle.bf_failure.specs.Causes.{IsCause};
ghost use Rattle.bf_failure.specs.Failures.{failure_of};

/// A law: an answer has a failure exactly where it is graded as failed.
pub fn failed_tries_have_failures()
    ensures { (dag : Dag) (task : ℕ) (raw : Raw) →
        IsSome (failure_of dag task raw) ↔ (grade_of dag task raw ≡ Outcome.Failed) }
{}

/// A law: what the failure found in an answer says of that answer is true.
pub fn failures_are_causes()
    ensures { (dag : Dag) (task : ℕ) (raw : Raw) (failure : Failure) →
        failure_of dag task raw ≡ Some failure → IsCause dag task raw failure }
{}
