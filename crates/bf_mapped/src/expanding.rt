//! Items of an expansion.
ghost use Rattle.std.specs.Prelude.{◌≡◌, IfOk};
ghost use Rattle.std.specs.List.{filter_map};
ghost use Rattle.bf_mapped.specs.Items.{items_of};

use crate::source::{Items, SourceValues};
use bf_value::{OutOfMemory, Sequence, Xval};
use std::alloc::Global;

/// The pushed values, in order; an instance that pushed nothing is left out.
fn pushed_items(alloc: Global, pushed: Sequence<Option<Xval>>) -> Result<Vec<Xval>, OutOfMemory>
    ensures { IfOk result (λ items. items.items ≡ filter_map (λ v. v) pushed) }
{
    let mut items = Vec::new(alloc);
    for value in pushed.into_vec() {
        if let Some(value) = value {
            items.push(value)?;
        }
    }
    Ok(items)
}

/// The items that a source gives to an expansion: those of the list that an unmapped source pushed, or what the
/// instances of an expanded one pushed, by map index, without those that pushed nothing. `Missing` where the source has
/// nothing, or is unmapped and pushed no list.
pub fn items(alloc: Global, source: SourceValues) -> Result<Items, OutOfMemory>
    ensures { IfOk result (λ items. items ≡ items_of source) }
{
    match source {
        SourceValues::Pushed(Some(Xval::List(values))) => {
            Ok(Items::List(Sequence::from_vec(values.into_vec())))
        }
        SourceValues::Each(pushed) => {
            let items = pushed_items(alloc, pushed)?;
            Ok(Items::List(Sequence::from_vec(items)))
        }
        SourceValues::Pushed(_) | SourceValues::Absent => Ok(Items::Missing),
    }
}
