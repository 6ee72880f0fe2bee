//! What holds of the definitions. These functions do nothing: their contracts are the laws.
ghost use Rattle.std.specs.Prelude.{◌≡◌, ℕ, Bool, List, Option, Ok};
ghost use Rattle.jiff.specs.declared.timestamp.Timestamp.{Timestamp};
ghost use Rattle.bf_plan.specs.declared.plan.Dag.{Dag};
ghost use Rattle.bf_plan.specs.Sound.{IsNamed, IsSound};
ghost use Rattle.bf_interval.specs.declared.interval.Interval.{Interval};
ghost use Rattle.bf_interval.specs.Runs.{AreOfRuns};
ghost use Rattle.bf_try.specs.Tries.{Ledger};
ghost use Rattle.bf_core.specs.Answered.{AreGraded};
ghost use Rattle.bf_table.specs.declared.table.TableEntry.{TableEntry};
ghost use Rattle.bf_journal.specs.Heads.{head_text};
ghost use Rattle.bf_journal.specs.Left.{IsLeftByCrashes};
ghost use Rattle.bf_commands.specs.DatedRuns.{IsDryReport};
ghost use Rattle.bf_planning.specs.declared.range.RunRange.{RunRange};
ghost use Rattle.bf_commands.specs.Journaled.{Heading, IsJournalReport};
ghost use Rattle.bf_planning.specs.Lists.{HasListing};
ghost use Rattle.bf_commands.specs.OneRun.{IsSingleReport};
ghost use Rattle.bf_commands.specs.OverTable.{TableReport};
ghost use Rattle.bf_commands.specs.Reported.{IsReportBy};

use bf_try::TaskRunner;

/// Proves that a graph file, a zone file and a range have at most one list of data intervals.
pub fn listings_are_unique()
    ensures { (graph : List ℕ) (file : Option (List ℕ)) (range : RunRange)
        (xs ys : List Interval)
        → HasListing graph file range (Ok xs) → HasListing graph file range (Ok ys) → xs ≡ ys }
{}

/// Proves that a plan, a table and data intervals have at most one report, in whatever order the tries ran.
pub fn reports_are_unique()
    ensures { (dag : Dag) → IsSound dag
        → (table : List TableEntry) (intervals : List Interval) (one two : List ℕ)
        (success other : Bool)
        → TableReport dag table intervals one success → TableReport dag table intervals two other
        → (one ≡ two) × (success ≡ other) }
{}

/// Proves that the bytes of a graph file, a zone file and a table, and a range, have at most one report. So what `dry`
/// prints depends on them alone, and not on the number of workers.
pub fn dry_reports_are_unique()
    ensures { (graph : List ℕ) (file : Option (List ℕ)) (table : List ℕ) (range : RunRange)
        (one two : List ℕ) (success other : Bool)
        → IsDryReport graph file table range one success
        → IsDryReport graph file table range two other
        → (one ≡ two) × (success ≡ other) }
{}

/// Proves that the bytes of a graph file, a zone file and a table, and a moment, have at most one report. So what
/// `single` prints depends on them alone.
pub fn single_reports_are_unique()
    ensures { (graph : List ℕ) (file : Option (List ℕ)) (table : List ℕ) (at : Timestamp)
        (one two : List ℕ) (success other : Bool)
        → IsSingleReport graph file table at one success
        → IsSingleReport graph file table at two other
        → (one ≡ two) × (success ≡ other) }
{}

/// Proves that a backfill which goes on from what crashes left of its journal writes a report that one without a crash
/// may write: also where failed tries are made again (`retry`), and where a report's tries are kept (`before`) that the
/// runner could have given. A command leaves such a journal again, by `KeepsJournal`.
pub fn crashes_change_no_report<R: TaskRunner>(runner: &R)
    ensures { (dag : Dag) (intervals : List Interval) → IsNamed dag → AreOfRuns intervals
        → (cleared : Heading)
        → (before : Ledger) → AreGraded (R.may_answer runner.now) dag before
        → (retry : Bool) (held : List ℕ)
        → IsLeftByCrashes (R.may_answer runner.now) dag intervals (head_text dag intervals cleared)
        held → (text : List ℕ) (success : Bool)
        → IsJournalReport before retry held cleared (R.may_answer runner.now) dag intervals text
        success
        → IsReportBy (R.may_answer runner.now) dag intervals text success }
{}
