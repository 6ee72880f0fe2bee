//! What holds of journals. These functions do nothing: their contracts are the laws, over the definitions alone.
ghost use Rattle.std.specs.Prelude.{◌≡◌, ◌+◌, ◌++◌, ℕ, Bool, List, [], All, Option, Some, length, take};
ghost use Rattle.bf_value.specs.declared.name.JobName.{JobName};
ghost use Rattle.bf_value.specs.declared.xval.Xval.{Xval};
ghost use Rattle.bf_plan.specs.declared.plan.Dag.{Dag};
ghost use Rattle.bf_plan.specs.Sound.{IsNamed};
ghost use Rattle.bf_interval.specs.declared.interval.Interval.{Interval};
ghost use Rattle.bf_interval.specs.Runs.{AreOfRuns};
ghost use Rattle.bf_try.specs.declared.ledger.Entry.{Entry};
ghost use Rattle.bf_try.specs.Tries.{Ledger};
ghost use Rattle.bf_kept.specs.Kept.{AreFit};
ghost use Rattle.bf_journal.specs.Lines.{text_of_lines, whole_lines};
ghost use Rattle.bf_journal.specs.Records.{IsTellable};
ghost use Rattle.bf_journal.specs.Tells.{TellAll};
ghost use Rattle.bf_journal.specs.Recording.{IsRecordBy, IsWritten};
ghost use Rattle.bf_journal.specs.Retrying.{without_failed};
ghost use Rattle.bf_journal.specs.Left.{IsLeftByCrashes};
ghost use Rattle.bf_journal.specs.Cuts.{AreAllTold, IsCutJournal, KeepsGraded, ReadsWholeOnes};

use bf_try::TaskRunner;

/// A law: of a journal that was cut short at any byte just the records are read whose whole line is left.
pub fn whole_records_are_read()
    ensures { (records : List Xval) → All IsTellable records → (n : ℕ)
        → ReadsWholeOnes records n }
{}

/// A law: the whole lines of a journal tell only one list of tries.
pub fn journals_tell_one_list()
    ensures { (dag : Dag) (intervals : List Interval) → IsNamed dag → AreOfRuns intervals
        → (values : List (Option Xval)) (tries others : List (JobName × Entry))
        → TellAll dag intervals values tries → TellAll dag intervals values others → tries
        ≡ others }
{}

/// A law: however often a journal was cut short, at whatever byte, and gone on with by backfills over this runner,
/// its lines are read, and each kept try has the grade of an answer that the runner may give it. That is a premise of
/// `resume`, so what is printed after any number of crashes is what a backfill from nothing may print.
pub fn cut_journals_keep_graded_tries<R: TaskRunner>(runner: &R)
    ensures told { (dag : Dag) (intervals : List Interval) (bytes : List ℕ)
        → IsCutJournal (R.may_answer runner.now) dag intervals bytes
        → AreAllTold dag intervals bytes }
    ensures graded { (dag : Dag) (intervals : List Interval) → IsNamed dag
        → AreOfRuns intervals → (bytes : List ℕ)
        → IsCutJournal (R.may_answer runner.now) dag intervals bytes
        → KeepsGraded (R.may_answer runner.now) dag intervals bytes }
{}

/// A law: an empty journal is one that was cut short and gone on with; so is what is left of such a journal when it
/// is cut again, at any byte; and so is what it holds once a backfill has gone on after its whole lines.
pub fn journals_are_cut_and_gone_on_with<R: TaskRunner>(runner: &R)
    ensures begun { (dag : Dag) (intervals : List Interval)
        → IsCutJournal (R.may_answer runner.now) dag intervals [] }
    ensures cut { (dag : Dag) (intervals : List Interval) (bytes : List ℕ) (n : ℕ)
        → IsCutJournal (R.may_answer runner.now) dag intervals bytes
        → IsCutJournal (R.may_answer runner.now) dag intervals (take n bytes) }
    ensures gone_on { (dag : Dag) (intervals : List Interval) (head bytes written : List ℕ)
        (failed : Bool)
        → IsCutJournal (R.may_answer runner.now) dag intervals bytes
        → IsWritten (IsRecordBy (R.may_answer runner.now) dag intervals)
        (Some (take (length head + length (text_of_lines (whole_lines bytes))) (head ++ bytes)))
        (Some (head ++ written)) failed
        → IsCutJournal (R.may_answer runner.now) dag intervals written }
{}

/// A law: kept tries without the failed ones (`without_failed`) are a part of the kept ones, and fit the plan where
/// those do.
pub fn what_is_left_is_kept()
    ensures part { (dag : Dag) (kept : Ledger) (n : JobName) (e : Entry)
        → without_failed dag kept n ≡ Some e → kept n ≡ Some e }
    ensures fit { (dag : Dag) (kept : Ledger) → AreFit dag kept
        → AreFit dag (without_failed dag kept) }
{}

/// A law: an empty journal is one that crashes may leave, and so is each beginning of a journal that they leave.
pub fn what_crashes_leave_may_be_cut<R: TaskRunner>(runner: &R)
    ensures nothing { (dag : Dag) (intervals : List Interval) (head : List ℕ)
        → IsLeftByCrashes (R.may_answer runner.now) dag intervals head [] }
    ensures cut { (dag : Dag) (intervals : List Interval) (head held : List ℕ) (n : ℕ)
        → IsLeftByCrashes (R.may_answer runner.now) dag intervals head held
        → IsLeftByCrashes (R.may_answer runner.now) dag intervals head (take n held) }
{}
