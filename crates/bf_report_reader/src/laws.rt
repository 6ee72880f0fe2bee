//! Laws of the texts of reports. These functions do nothing: their contracts are the laws.
ghost use Rattle.std.specs.Prelude.{◌≡◌, List, length};
ghost use Rattle.bf_plan.specs.Sound.{IsNamed, IsSound};
ghost use Rattle.bf_core.specs.Terms.{Dag, Limits};
ghost use Rattle.bf_core.specs.declared.event.Event.{Event};
ghost use Rattle.bf_core.specs.declared.state.State.{State};
ghost use Rattle.bf_core.specs.Events.{entry_in};
ghost use Rattle.bf_core.specs.Agreement.{IsOutcome};
ghost use Rattle.bf_core.specs.Cores.{IsJournal};
ghost use Rattle.bf_interval.specs.declared.interval.Interval.{Interval};
ghost use Rattle.bf_report.specs.Dated.{IsDated};
ghost use Rattle.bf_report.specs.Values.{HasSoundValues};
ghost use Rattle.bf_report.specs.declared.report.Report.{Report};
ghost use Rattle.bf_report.specs.Report.{report_text};
ghost use Rattle.bf_report_reader.specs.Rules.{IsShownReport};
ghost use Rattle.bf_interval.specs.Runs.{AreOfRuns};

/// A law: no two reports that keep the rules of a report have one text.
pub fn no_two_reports_have_one_text()
    ensures { (one two : Report) → IsShownReport one → IsShownReport two →
        report_text one ≡ report_text two → one ≡ two }
{}

/// A law: the report of a backfill that has ended keeps the rules of a report, so that it is read back as itself,
/// where the backfill is of a sound plan with ids, over data intervals that runs have.
pub fn reports_of_backfills_keep_the_rules()
    ensures { (dag : Dag) → IsSound dag → IsNamed dag → (intervals : List Interval)
        → AreOfRuns intervals →
        (limits : Limits) (journal : List Event) (state : State) →
        IsJournal dag limits (length intervals) journal state
        → IsOutcome dag (length intervals) state →
        (report : Report) → IsDated dag intervals (entry_in state.ledger) report
        → HasSoundValues report →
        IsShownReport report }
{}
