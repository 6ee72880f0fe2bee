//! What holds of all cells. These functions do nothing: their contracts are the laws, over the definitions alone.
ghost use Rattle.std.specs.Prelude.{◌≡◌, ◌<◌, ◌^◌, ℕ, List, Some, false, length, slice_get, true};
ghost use Rattle.std.specs.Char.{is_ascii_digit};
ghost use Rattle.std.specs.List.{list_any};
ghost use Rattle.bf_cells.specs.Cells.{cells_text, letters_from};
ghost use Rattle.bf_cells.specs.Whole.{HasWholeMoments};
ghost use Rattle.bf_core.specs.Terms.{Dag, IsSound, Ledger};
ghost use Rattle.bf_interval.specs.declared.interval.Interval.{Interval};
ghost use Rattle.bf_page.specs.Safe.{safe};
ghost use Rattle.bf_plan.specs.Ids.{is_id_in};
ghost use Rattle.bf_report.specs.Dated.{IsDated};
ghost use Rattle.bf_report.specs.declared.report.Report.{Report};
ghost use Rattle.bf_report.specs.declared.report.RunReport.{RunReport};
ghost use Rattle.bf_report.specs.declared.report.TaskReport.{TaskReport};

use bf_moment::long_form_is_what_is_written;
use bf_reason::own_reports_have_no_digit;

/// A law: a run has as many letters as tasks.
pub fn each_task_has_a_letter()
    ensures { (dag : Dag) (report : Report) (run place : ℕ) (tasks : List TaskReport) →
        length (letters_from dag report run place tasks) ≡ length tasks }
{}

/// A law: no letter of a run is a digit in a backfill's own report.
pub fn own_letters_have_no_digit()
    ensures { (dag : Dag) → IsSound dag → (intervals : List Interval) (ledger : Ledger) →
        (report : Report) → IsDated dag intervals ledger report →
        (number : ℕ) (run : RunReport) → slice_get report.runs number ≡ Some run →
        list_any is_ascii_digit (letters_from dag report number 0 run.tasks) ≡ false }
{
    own_reports_have_no_digit();
}

/// A law: a page has the cells of a report unescaped where its dag id is an id and its moments are whole seconds.
pub fn cells_stand_as_they_are()
    ensures { (dag : Dag) (report : Report) (bytes : ℕ) → is_id_in report.dag_id ≡ true
        → HasWholeMoments report.runs →
        length dag.tasks < 2 ^ 64 → length report.runs < 2 ^ 64 → bytes < 2 ^ 64 →
        safe (cells_text dag report bytes) ≡ cells_text dag report bytes }
{
    long_form_is_what_is_written();
    bf_page::cells_stand_as_they_are();
}
