//! What holds of all reasons. These functions do nothing: their contracts are the laws, over the definitions alone.
ghost use Rattle.std.specs.Prelude.{◌≡◌, ℕ, false, List, Option, Some, not};
ghost use Rattle.std.specs.Char.{is_ascii_digit};
ghost use Rattle.bf_interval.specs.declared.interval.Interval.{Interval};
ghost use Rattle.bf_core.specs.Terms.{Dag, IsSound, Ledger, TaskValue};
ghost use Rattle.bf_core.specs.Deciding.{Seen, decision};
ghost use Rattle.bf_report.specs.declared.report.TaskReport.{TaskReport};
ghost use Rattle.bf_report.specs.declared.report.Report.{Report};
ghost use Rattle.bf_report.specs.Dated.{IsDated};
ghost use Rattle.bf_clear.specs.Entries.{report_at};
ghost use Rattle.bf_reason.specs.Letters.{letter_of, told_state, state_of, follows_in};
ghost use Rattle.bf_reason.specs.Reasons.{reason, decided_for};

/// A law: the cause given for a task leads to just what is decided for it.
pub fn the_reasons_are_those_of_the_decision()
    ensures { (dag : Dag) (run : ℕ) (seen : ℕ → Seen) (before : Option TaskValue)
        (task : ℕ) →
        decided_for (reason dag run seen before task) ≡ decision dag run seen before task }
{}

/// A law: a task's letter tells the state that the report has, whatever the graph makes of the task.
pub fn letters_tell_the_states()
    ensures { (dag : Dag) (report : Report) (run task : ℕ) (told : TaskReport) →
        told_state (letter_of dag report run task told) ≡ state_of told }
{}

/// A law: a task's letter is a digit exactly where the report of the task isn't what is decided for it, given what the
/// report has of the other tasks.
pub fn digits_tell_what_does_not_follow()
    ensures { (dag : Dag) (report : Report) (run task : ℕ) (told : TaskReport) →
        is_ascii_digit (letter_of dag report run task told)
        ≡ not (follows_in dag report run task told) }
{}

/// A law: no task in a backfill's report has a digit by its own graph, since the report has each as it was decided.
pub fn own_reports_have_no_digit()
    ensures { (dag : Dag) → IsSound dag → (intervals : List Interval) (ledger : Ledger)
        → (report : Report) → IsDated dag intervals ledger report
        → (run task : ℕ) (told : TaskReport) → report_at report run task ≡ Some told
        → is_ascii_digit (letter_of dag report run task told) ≡ false }
{
    digits_tell_what_does_not_follow();
}
