//! What holds of every backfill, whatever the order of its events. These functions do nothing: their contracts are
//! the laws, over the definitions alone.
ghost use Rattle.std.specs.Prelude.{◌≡◌, ℕ, List, Option};
ghost use Rattle.std.specs.FinMap;
ghost use Rattle.bf_core.specs.Terms.{Dag, Limits, Entry, Event, Ledger, TaskValue, name_cmp, IsSound, AreAlike};
ghost use Rattle.bf_core.specs.Deciding.{Seen, decision};
ghost use Rattle.bf_core.specs.Recursion.{decided, out, value_of, SolvesRecursion};
ghost use Rattle.bf_core.specs.Events.{WithinPools, IsLegal, replay, start, entry_in, HasEnded};
ghost use Rattle.bf_core.specs.Agreement.{Holds, Agrees, IsOutcome};

/// A law: every state to which a legal list of events leads agrees with each ledger that holds the state's entries.
pub fn legal_lists_agree()
    ensures { (dag : Dag) → IsSound dag → (limits : Limits) (runs : ℕ) (events : List Event)
        → IsLegal dag limits (start dag runs) events →
        (ledger : FinMap.FinMap name_cmp Entry)
        → Holds (FinMap.get ledger) (entry_in (replay dag (start dag runs) events).ledger) →
        Agrees dag (replay dag (start dag runs) events) (FinMap.get ledger) }
{}

/// A law: when every run is closed, the cells are the recursion's over the ledger, and the ledger holds just the tries
/// that the recursion asks for.
pub fn ended_lists_are_outcomes()
    ensures { (dag : Dag) → IsSound dag → (limits : Limits) (runs : ℕ) (events : List Event)
        → IsLegal dag limits (start dag runs) events →
        HasEnded (replay dag (start dag runs) events)
        → IsOutcome dag runs (replay dag (start dag runs) events) }
{}

/// A law: two ended backfills of one plan whose tries answer alike end in the same state, whatever their limits and the
/// order of their events.
pub fn alike_ledgers_end_alike()
    ensures { (dag : Dag) → IsSound dag → (one two : Limits) (runs : ℕ) (events others : List Event)
        →
        IsLegal dag one (start dag runs) events → IsLegal dag two (start dag runs) others →
        HasEnded (replay dag (start dag runs) events)
        → HasEnded (replay dag (start dag runs) others) →
        AreAlike (entry_in (replay dag (start dag runs) events).ledger)
        (entry_in (replay dag (start dag runs) others).ledger) →
        replay dag (start dag runs) events ≡ replay dag (start dag runs) others }
{}

/// A law: in every state that a legal list of events leads to, no pool has more slots occupied than its size.
pub fn legal_lists_keep_pools()
    ensures { (dag : Dag) (limits : Limits) (runs : ℕ) (events : List Event)
        → IsLegal dag limits (start dag runs) events →
        WithinPools limits (replay dag (start dag runs) events) }
{}

/// A law: the value of a task in a run is that of what is decided of it over the values of the tasks that it looks at.
/// The recursion counts down how far it may still look up in the graph; by this equation the count never runs out.
pub fn the_recursion_unfolds()
    ensures { (dag : Dag) → IsSound dag → (ledger : Ledger) (run task : ℕ) →
        out dag ledger run task ≡ value_of dag ledger run task (decided dag ledger run task) }
{}

/// A law: what is decided of a task in the first run doesn't depend on its value in a run before, as there is none.
pub fn the_first_run_has_no_past()
    ensures { (dag : Dag) (seen : ℕ → Seen) (past other : Option TaskValue) (task : ℕ) →
        decision dag 0 seen past task ≡ decision dag 0 seen other task }
{}

/// A law: the recursion's values solve its equation, and no others do.
pub fn the_recursion_has_one_solution()
    ensures solves { (dag : Dag) → IsSound dag → (ledger : Ledger) →
        SolvesRecursion dag ledger (out dag ledger) }
    ensures alone { (dag : Dag) → IsSound dag → (ledger : Ledger) (value : ℕ → ℕ → TaskValue) →
        SolvesRecursion dag ledger value →
        (run task : ℕ) → value run task ≡ out dag ledger run task }
{}
