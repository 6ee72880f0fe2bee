//! What holds of all walks. This function does nothing: its contract is the law, over the definitions alone.
ghost use Rattle.std.specs.Prelude.{ℕ, Contains, List};
ghost use Rattle.bf_core.specs.Terms.{Dag};
ghost use Rattle.bf_report.specs.declared.report.Report.{Report};
ghost use Rattle.bf_roots.specs.declared.step.Root.{Root};
ghost use Rattle.bf_roots.specs.Walks.{AreRootsOf, IsRootOf};

/// A law: the walk comes to the task and run of each root in the list, and what the root says began there.
pub fn each_root_is_come_to()
    ensures { (dag : Dag) (report : Report) (run task : ℕ) (roots : List Root)
        → AreRootsOf dag report run task roots →
        (root : Root) → Contains roots root → IsRootOf dag report run task root }
{}
