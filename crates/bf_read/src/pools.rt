//! The pools of a graph file.
ghost use Rattle.std.specs.Prelude.{◌≡◌, All, IfOk};
ghost use Rattle.serde_json.specs.View.{view, members_view};
ghost use Rattle.bf_read.specs.Drafts.{IsPool, StandByName};
ghost use Rattle.bf_read.specs.Gives.{Gives};
ghost use Rattle.bf_read.specs.Fields.{pool_in, each_member, pools_in};
ghost use Rattle.bf_read.specs.inner.Fields.{member_of};

use crate::draft::PoolDraft;
use crate::fault::ReadFault;
use crate::fields::{
    Field, field_with_value, id_of_text, members_at, number_within, whole_number_at,
};
use crate::limits::MOST_SLOTS;
use crate::path::Path;
use bf_value::Sequence;
use serde_json::{Map, Value};
use std::alloc::Global;

/// Reads a pool from a member of `pools`: its name, and its slots, from 1 to `MOST_SLOTS`. At `path`: `Shape` for no
/// whole number, then `BadName` for a name that is no id, then `LimitPassed`; `OutOfMemory` at want of memory.
#[tactic(auto, unfolding(crate::specs::Fields::pool_in))]
fn pool_at(alloc: Global, path: Path, name: &str, value: &Value) -> Result<PoolDraft, ReadFault>
    ensures exact { Gives (λ p. p) result (pool_in path name.now (view value.now)) }
    ensures named { IfOk result (λ p. p.name ≡ name.now) }
    ensures pool { IfOk result IsPool }
{
    let number = whole_number_at(field_with_value(path, value))?;
    let name = id_of_text(alloc, path, name)?;
    let slots = number_within(path, 1, MOST_SLOTS, number)?;
    Ok(PoolDraft { name, slots })
}

/// Reads the pools, by name in byte order; an Err is that of the first bad one, or `OutOfMemory`.
fn pools_in(
    alloc: Global,
    path: Path,
    members: &Map<String, Value>,
) -> Result<Vec<PoolDraft>, ReadFault>
    ensures exact { Gives (λ v. v.items) result
        (each_member (pool_in path) (members_view members.now.entries)) }
    ensures pools { IfOk result (λ v. All IsPool v.items) }
    ensures by_name { IfOk result (λ v. StandByName v.items) }
{
    let mut pools = Vec::new(alloc);
    for (name, value) in members.iter() {
        pools.push(pool_at(alloc, path, name.as_str(), value)?)?;
    }
    Ok(pools)
}

/// Reads the pools that a file names, by name in byte order; none where the key is missing. `Shape` where it is no
/// object; else an Err is that of the first bad pool, or `OutOfMemory`.
#[tactic(auto, unfolding(crate::specs::Fields::pools_in))]
pub(crate) fn pools_at(alloc: Global, field: Field) -> Result<Sequence<PoolDraft>, ReadFault>
    ensures exact { Gives (λ ps. ps) result (pools_in (member_of field.entry)) }
    ensures pools { IfOk result (λ ps. All IsPool ps) }
    ensures by_name { IfOk result StandByName }
{
    if field.value.is_none() {
        return Ok(Sequence::new(alloc));
    }
    let members = members_at(field)?;
    let pools = pools_in(alloc, field.path, members)?;
    Ok(Sequence::from_vec(pools))
}
