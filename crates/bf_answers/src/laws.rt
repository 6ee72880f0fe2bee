//! What holds of all tables that are made of reports. These functions do nothing but call other laws: their contracts are the laws,
//! over the definitions alone.
ghost use Rattle.std.specs.Prelude.{◌≡◌, ◌≤◌, true, List, Ok, Some, length, map};
ghost use Rattle.std.specs.FinMap;
ghost use Rattle.bf_value.specs.Names.{name_cmp};
ghost use Rattle.bf_value.specs.declared.name.JobName.{JobName};
ghost use Rattle.bf_interval.specs.declared.interval.Interval.{Interval};
ghost use Rattle.bf_plan.specs.declared.plan.Dag.{Dag};
ghost use Rattle.bf_plan.specs.Sound.{IsSound};
ghost use Rattle.bf_xcom.specs.declared.values.Outcome.{Outcome};
ghost use Rattle.bf_try.specs.declared.ledger.Entry.{Entry};
ghost use Rattle.bf_try.specs.Grades.{fits_in, grade_of};
ghost use Rattle.bf_table.specs.Tables.{answer_of, longest_table, table_in};
ghost use Rattle.bf_core.specs.Agreement.{HoldsItsTries};
ghost use Rattle.bf_core.specs.Answered.{AreGraded};
ghost use Rattle.bf_report.specs.declared.report.InstanceReport.{InstanceReport};
ghost use Rattle.bf_report.specs.declared.report.Report.{Report};
ghost use Rattle.bf_report.specs.Dated.{IsDated};
ghost use Rattle.bf_report_reader.specs.Rules.{IsShownReport};
ghost use Rattle.bf_kept.specs.Kept.{AreFit};
ghost use Rattle.bf_clear.specs.Entries.{found_at, outcome_of_try_in};
ghost use Rattle.bf_answers.specs.Answers.{answers_in};
ghost use Rattle.bf_answers.specs.Over.{answering, MayAnswer};
ghost use Rattle.bf_answers.specs.TableText.{answers_text};

use bf_moment::{long_form_is_what_is_written, moments_differ_in_text};

/// A law: the table written of a report that can be read is read back with exactly its entries, where it isn't longer
/// than a table may be.
pub fn tables_are_read_back()
    ensures { (report : Report) → IsShownReport report
        → length (answers_text report) ≤ longest_table
        → table_in (answers_text report) ≡ Ok (answers_in report) }
{
    long_form_is_what_is_written();
}

/// A law: where a report has the graph's tasks and these data intervals, each of its tries, answered from its table,
/// ends as the report says, as far as the try's task can end so.
pub fn tries_end_as_told()
    ensures { (dag : Dag) (intervals : List Interval) (report : Report)
        → IsShownReport report
        → report.tasks ≡ map (λ task. task.id) dag.tasks → map (λ run. run.interval) report.runs
        ≡ intervals
        → (name : JobName) (instance : InstanceReport) (outcome : Outcome)
        → found_at report name.run name.task name.index ≡ Some instance
        → outcome_of_try_in instance.result name.attempt ≡ Some outcome
        → fits_in dag name.task outcome
        ≡ true
        → grade_of dag name.task (answer_of (answering dag intervals report) name) ≡ outcome }
{
    moments_differ_in_text();
}

/// A law: a backfill of the same plan and data intervals whose tries are answered from the table of a report ends with
/// that report.
pub fn reports_are_made_again()
    ensures { (dag : Dag) → IsSound dag
        → (intervals : List Interval) (was again : FinMap.FinMap name_cmp Entry)
        → HoldsItsTries dag (length intervals) (FinMap.get was) → AreFit dag (FinMap.get was)
        → HoldsItsTries dag (length intervals) (FinMap.get again)
        → (report : Report) → IsDated dag intervals (FinMap.get was) report
        → IsShownReport report
        → AreGraded (MayAnswer dag intervals report) dag (FinMap.get again)
        → (other : Report) → IsDated dag intervals (FinMap.get again) other → other ≡ report }
{
    moments_differ_in_text();
}
