//! What holds of all lines. These functions do nothing: their contracts are the laws, over the definitions alone.
ghost use Rattle.std.specs.Prelude.{◌≡◌, ◌<◌, ◌≤◌, ◌^◌, ℕ, List, Some};
ghost use Rattle.json.specs.Json.{document, max_depth};
ghost use Rattle.json.specs.Tree.{depth};
ghost use Rattle.serde_json.specs.Data.{object, unsigned};
ghost use Rattle.serde_json.specs.Written.{compact_text, outline};
ghost use Rattle.bf_report.specs.Values.{IsSoundInstance};
ghost use Rattle.bf_report.specs.declared.report.InstanceReport.{InstanceReport};
ghost use Rattle.bf_report.specs.declared.report.RunReport.{RunReport};
ghost use Rattle.bf_show.specs.JsonLines.{instance_members, untried_members};

/// A law: the line of an expanded task's sound instance is read as JSON with just its members, in order, where it nests
/// no deeper than JSON is read.
pub fn instances_are_read_back()
    ensures { (run : RunReport) (id : List ℕ) (index : ℕ) (instance : InstanceReport) → index
        < 2 ^ 64
        → instance.result.tries < 2 ^ 64 → IsSoundInstance instance
        → depth (outline (object (instance_members run id (unsigned index) instance))) ≤ max_depth
        → document (compact_text (object (instance_members run id (unsigned index) instance)))
        ≡ Some (outline (object (instance_members run id (unsigned index) instance))) }
{}

/// A law: the line of a task that didn't run is read as JSON with just its members, in order.
pub fn untried_tasks_are_read_back()
    ensures { (run : RunReport) (id state : List ℕ)
        → document (compact_text (object (untried_members run id state)))
        ≡ Some (outline (object (untried_members run id state))) }
{}
