//! What holds of all reports. These functions do nothing: their contracts are the laws, over the definitions alone.
ghost use Rattle.std.specs.Prelude.{◌≡◌, List, length};
ghost use Rattle.std.specs.FinMap;
ghost use Rattle.bf_value.specs.Names.{name_cmp};
ghost use Rattle.bf_plan.specs.declared.plan.Dag.{Dag};
ghost use Rattle.bf_plan.specs.Sound.{IsSound};
ghost use Rattle.bf_interval.specs.declared.interval.Interval.{Interval};
ghost use Rattle.bf_try.specs.declared.ledger.Entry.{Entry};
ghost use Rattle.bf_try.specs.Tries.{AreAlike};
ghost use Rattle.bf_core.specs.Agreement.{HoldsItsTries};
ghost use Rattle.bf_report.specs.declared.report.Report.{Report};
ghost use Rattle.bf_report.specs.Dated.{IsDated};

/// A law: two backfills of one plan over the same data intervals, of which each made just the tries that the
/// recursion asks for, and whose tries answer alike, have one ledger and one report.
pub fn alike_ledgers_report_alike()
    ensures { (dag : Dag) → IsSound dag
        → (intervals : List Interval) (one two : FinMap.FinMap name_cmp Entry) →
        HoldsItsTries dag (length intervals) (FinMap.get one)
        → HoldsItsTries dag (length intervals) (FinMap.get two) →
        AreAlike (FinMap.get one) (FinMap.get two) → (report other : Report) →
        IsDated dag intervals (FinMap.get one) report → IsDated dag intervals (FinMap.get two) other
        →
        (one ≡ two) × (report ≡ other) }
{}
