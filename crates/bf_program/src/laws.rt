//! What holds of commands over what others print. These functions do nothing but call other laws: their contracts are the laws, over
//! the definitions alone.
ghost use Rattle.std.specs.Char.{is_ascii_digit};
ghost use Rattle.std.specs.List.{list_any};
ghost use Rattle.std.specs.Prelude.{◌≡◌, ℕ, Bool, false, List, Option, Ok, Some, slice_get};
ghost use Rattle.bf_read.specs.declared.draft.Draft.{Draft};
ghost use Rattle.bf_check.specs.Checking.{dag_of};
ghost use Rattle.bf_interval.specs.declared.interval.Interval.{Interval};
ghost use Rattle.bf_try.specs.Tries.{Ledger};
ghost use Rattle.bf_report.specs.declared.report.RunReport.{RunReport};
ghost use Rattle.bf_cells.specs.Cells.{letters_from};
ghost use Rattle.bf_planning.specs.Graphs.{IsGraph};
ghost use Rattle.bf_planning.specs.Lists.{HasListing};
ghost use Rattle.bf_planning.specs.declared.range.RunRange.{RunRange};
ghost use Rattle.bf_commands.specs.DatedRuns.{IsDryReport};
ghost use Rattle.bf_commands.specs.Reported.{IsReportBy, IsReportOf};
ghost use Rattle.bf_views.specs.Pages.{IsPageOf, PageWords};
ghost use Rattle.bf_views.specs.Tables.{IsTableOf};

use bf_answers::{reports_are_made_again, tables_are_read_back};
use bf_cells::own_letters_have_no_digit;
use bf_try::TaskRunner;

/// Proves that `dry` prints a backfill's report again, byte for byte and with the same success: of the same graph and
/// range, over the table that `answers` makes of that report, whatever runner made its tries.
pub fn reports_are_printed_again<R: TaskRunner>(runner: &R)
    ensures { (graph : List ℕ) (file : Option (List ℕ)) (range : RunRange) (draft : Draft)
        (found : List Interval)
        → IsGraph graph file draft → HasListing graph file range (Ok found)
        → (report table text : List ℕ) (success other : Bool)
        → IsReportBy (R.may_answer runner.now) (dag_of draft) found report success
        → IsTableOf report table → IsDryReport graph file table range text other → (text ≡ report)
        × (other ≡ success) }
{
    tables_are_read_back();
    reports_are_made_again();
}

/// Proves that on the page of a report that a backfill of the same graph printed, no digit stands among the letters of
/// a run.
pub fn own_pages_have_no_digit()
    ensures { (graph : List ℕ) (zone : Option (List ℕ)) (draft : Draft)
        → IsGraph graph zone draft
        → (found : List Interval) (ledger : Ledger) (report : List ℕ) (success : Bool)
        → IsReportOf (dag_of draft) found ledger report success
        → (words : PageWords) (journal : Option (List ℕ)) (text : List ℕ)
        → (page : IsPageOf words graph zone report journal text)
        → (number : ℕ) (run : RunReport) → slice_get page.report.runs number ≡ Some run
        → list_any is_ascii_digit (letters_from (dag_of page.draft) page.report number 0 run.tasks)
        ≡ false }
{
    own_letters_have_no_digit();
}
