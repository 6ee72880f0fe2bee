//! What holds of every backfill that goes on from a report. These functions do nothing: their contracts are the laws, over the
//! definitions alone.
ghost use Rattle.std.specs.Prelude.{◌≡◌, ◌↔◌, ℕ, true, List, Some, length, slice_get};
ghost use Rattle.bf_value.specs.declared.name.JobName.{JobName};
ghost use Rattle.bf_interval.specs.declared.interval.Interval.{Interval};
ghost use Rattle.bf_interval.specs.Runs.{AreOfRuns};
ghost use Rattle.bf_plan.specs.declared.plan.Dag.{Dag};
ghost use Rattle.bf_plan.specs.Sound.{IsNamed, IsSound};
ghost use Rattle.bf_try.specs.Tries.{Ledger, AreAlike};
ghost use Rattle.bf_core.specs.Agreement.{HoldsItsTries};
ghost use Rattle.bf_report.specs.declared.report.Report.{Report};
ghost use Rattle.bf_report.specs.Dated.{IsDated};
ghost use Rattle.bf_kept.specs.Kept.{AreFit};
ghost use Rattle.bf_dependents.specs.declared.place.Place.{Place};
ghost use Rattle.bf_dependents.specs.Dependents.{IsBeside};
ghost use Rattle.bf_clear.specs.Aligning.{IsAligned};
ghost use Rattle.bf_clear.specs.Entries.{told};
ghost use Rattle.bf_clear.specs.Keeping.{AreKept};
ghost use Rattle.bf_clear.specs.Matching.{MatchesPlan, is_report_in};

/// A law: the report of a backfill that has ended tells exactly the entries of its ledger.
pub fn reports_tell_ledgers()
    ensures { (dag : Dag) (intervals : List Interval) (ledger : Ledger)
        → HoldsItsTries dag (length intervals) ledger →
        (report : Report) → IsDated dag intervals ledger report → (n : JobName)
        → told dag report n ≡ ledger n }
{}

/// A law: a backfill that goes on from what is kept of another's report has the same entries as that one for all tries
/// but those that are cleared with the seeds.
pub fn resumed_backfills_keep_the_rest()
    ensures { (dag : Dag) → IsSound dag
        → (intervals : List Interval) (seeds : List Place) (was kept resumed : Ledger)
        (report : Report) →
        HoldsItsTries dag (length intervals) was → AreFit dag was → IsDated dag intervals was report
        → AreKept dag seeds report kept →
        HoldsItsTries dag (length intervals) resumed → AreAlike kept resumed →
        (n : JobName) → IsBeside dag seeds n → resumed n ≡ was n }
{}

/// A law: `is_report_of` answers true exactly where the dag ids, the data intervals, the ids of tasks and, in version 2,
/// the tasks that each instance pulled from are equal, as `MatchesPlan` says.
pub fn reports_match_by_equations()
    ensures { (dag : Dag) (intervals : List Interval) (report : Report) →
        is_report_in dag intervals report ≡ true ↔ MatchesPlan dag intervals report }
{}

/// A law: the report of a backfill of a plan over data intervals is one of this plan over them.
pub fn own_reports_match()
    ensures { (dag : Dag) → IsSound dag
        → (intervals : List Interval) (ledger : Ledger) (report : Report) →
        IsDated dag intervals ledger report → MatchesPlan dag intervals report }
{}

/// A law: a report brought into the shape of other data intervals, as `clear_places_by_ids` does, still tells exactly the entries of its
/// own backfill's ledger, in each run over one of that backfill's data intervals.
pub fn kept_reports_tell_ledgers()
    ensures { (dag : Dag) → IsNamed dag → (before intervals : List Interval)
        → AreOfRuns before → (ledger : Ledger) → HoldsItsTries dag (length before) ledger →
        (report aligned : Report) → IsDated dag before ledger report
        → IsAligned dag intervals report aligned →
        (interval : Interval) (j : ℕ) (n : JobName) → slice_get before j ≡ Some interval
        → slice_get intervals n.run ≡ Some interval →
        told dag aligned n ≡ ledger (record n { run = j }) }
{}
