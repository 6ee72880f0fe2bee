//! What holds of all that is cleared. These functions do nothing: their contracts are the laws, over the definitions alone.
ghost use Rattle.std.specs.Prelude.{◌≡◌, ◌<◌, ◌↔◌, ◌∷◌, [], length, ℕ, suc, ℤ, Bool, true, List, Contains, None, Some};
ghost use Rattle.bf_plan.specs.declared.plan.Dag.{Dag};
ghost use Rattle.bf_plan.specs.Plans.{task_of};
ghost use Rattle.bf_plan.specs.Sound.{IsOneOf, IsSound};
ghost use Rattle.bf_dependents.specs.declared.place.Place.{Place};
ghost use Rattle.bf_dependents.specs.Dependents.{AreDependents, Following, IsDependent};
ghost use Rattle.bf_dependents.specs.Listing.{places_in, IsListed};

/// A law: what follows from seeds is part of every set that has the seeds and, with each of its members, all instances
/// of the tasks directly downstream in the same run and, where its task depends on its past, all instances of that task
/// in the next run.
pub fn dependents_are_least()
    ensures { (dag : Dag) (seeds : List Place) (has : ℕ → ℕ → ℤ → Bool) →
        ((k t : ℕ) (i : ℤ) → Contains seeds (record { run = k; task = t; index = None }) → has k t i
        ≡ true) →
        ((k t : ℕ) (i : ℤ) → Contains seeds (record { run = k; task = t; index = Some i })
        → has k t i ≡ true) →
        ((k t u : ℕ) (i j : ℤ) → IsOneOf (task_of dag t).upstreams u → has k u j ≡ true → has k t i
        ≡ true) →
        ((k t : ℕ) (i j : ℤ) → (task_of dag t).depends_on_past ≡ true → has k t j ≡ true
        → has (suc k) t i ≡ true) →
        (k t : ℕ) (i : ℤ) → IsDependent dag seeds k t i → has k t i ≡ true }
{}

/// A law: from seeds without a map index whole tasks follow: of a task in a run either all instances or none.
pub fn seeds_without_indexes_take_tasks()
    ensures { (dag : Dag) (seeds : List Place) → ((p : Place) → Contains seeds p → p.index ≡ None) →
        (k t : ℕ) (i j : ℤ) → IsDependent dag seeds k t i → IsDependent dag seeds k t j }
{}

/// A law: from a seed with a map index follows what follows from its whole task in that run, except for the task's
/// other instances there.
pub fn a_seed_with_an_index_leaves_its_neighbours()
    ensures { (dag : Dag) → IsSound dag → (k t : ℕ) (n : ℤ) (m s : ℕ) (i : ℤ) →
        IsDependent dag (record { run = k; task = t; index = Some n } ∷ []) m s i
        ↔ (IsDependent dag (record { run = k; task = t; index = None } ∷ []) m s i
        × (m ≡ k → s ≡ t → i ≡ n)) }
{}

/// A law: `places` lists exactly the instances that follow: all of a task listed without a map index, and each one
/// listed with its own.
pub fn places_are_what_follows()
    ensures { (dag : Dag) (seeds : List Place) (runs : ℕ) (all : Following)
        → AreDependents dag seeds runs all →
        (k t : ℕ) (i : ℤ) → k < runs → t < length dag.tasks →
        IsListed (places_in dag all runs) k t i ↔ IsDependent dag seeds k t i }
{}
