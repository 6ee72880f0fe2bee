//! The kind and the weight rule of a task.
ghost use Rattle.bf_read.specs.Gives.{Gives};
ghost use Rattle.bf_read.specs.Fields.{kind_in, weight_rule_in};
ghost use Rattle.bf_read.specs.inner.Fields.{member_of};

use crate::fault::ReadFault;
use crate::fields::{Field, text_at};
use bf_plan::{TaskKind, WeightRule};

/// Reads a task's kind, `Program` where the key is missing; `Shape` where the value names no kind.
#[tactic(auto, unfolding(crate::specs::Fields::kind_in))]
pub(crate) fn kind_at(field: Field) -> Result<TaskKind, ReadFault>
    ensures { Gives (λ k. k) result (kind_in (member_of field.entry)) }
{
    if field.value.is_none() {
        return Ok(TaskKind::Program);
    }
    let name = text_at(field)?;
    TaskKind::named(name).ok_or(ReadFault::Shape(field.path))
}

/// Reads a task's weight rule, `Downstream` where the key is missing; `Shape` where the value names no weight rule.
#[tactic(auto, unfolding(crate::specs::Fields::weight_rule_in))]
pub(crate) fn weight_rule_at(field: Field) -> Result<WeightRule, ReadFault>
    ensures { Gives (λ r. r) result (weight_rule_in (member_of field.entry)) }
{
    if field.value.is_none() {
        return Ok(WeightRule::Downstream);
    }
    let name = text_at(field)?;
    WeightRule::named(name).ok_or(ReadFault::Shape(field.path))
}
