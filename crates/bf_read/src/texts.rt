//! Lists of texts.
ghost use Rattle.std.specs.Prelude.{◌≡◌, map, IfOk};
ghost use Rattle.serde_json.specs.View.{items_view};
ghost use Rattle.bf_read.specs.Gives.{Gives};
ghost use Rattle.bf_value.specs.Distinct.{AreDistinct};
ghost use Rattle.bf_read.specs.Drafts.{distinct_texts_of};
ghost use Rattle.bf_read.specs.Fields.{texts_of, upstreams_in};
ghost use Rattle.bf_read.specs.inner.Fields.{member_of};

use crate::fault::ReadFault;
use crate::fields::{Field, field_with_value, items_at, text_at};
use crate::path::Path;
use bf_value::{OutOfMemory, Text};
use serde_json::Value;
use std::alloc::Global;
use std::collections::HashSet;

/// Gives the texts of a list. `Shape` at `path` where an item is no text, `OutOfMemory` at want of memory.
fn texts_in<'a>(alloc: Global, path: Path, items: &'a [Value]) -> Result<Vec<&'a str>, ReadFault>
    ensures { Gives (λ v. map (λ s. s.now) v.items) result
        (texts_of path (items_view items.entry.now)) }
{
    let mut texts = Vec::new(alloc);
    for item in items {
        texts.push(text_at(field_with_value(path, item))?)?;
    }
    Ok(texts)
}

/// Copies the distinct texts, in order of first use.
pub(crate) fn distinct_texts(alloc: Global, texts: &[&str]) -> Result<Vec<Text>, OutOfMemory>
    ensures { IfOk result (λ v. v.items ≡ distinct_texts_of (map (λ s. s.now) texts.now)) }
{
    let mut seen = HashSet::new(alloc);
    let mut found = Vec::new(alloc);
    for text in texts {
        if seen.insert(*text)? {
            found.push(Text::copy_of(alloc, text)?)?;
        }
    }
    Ok(found)
}

/// Reads the distinct upstreams of a task, in order of first use; none where the key is missing. `Shape` where it is no
/// list of texts, `OutOfMemory` at want of memory.
#[tactic(auto, unfolding(crate::specs::Fields::upstreams_in))]
pub(crate) fn upstreams_at(alloc: Global, field: Field) -> Result<Vec<Text>, ReadFault>
    ensures exact { Gives (λ v. v.items) result (upstreams_in (member_of field.entry)) }
    ensures distinct { IfOk result (λ v. AreDistinct v.items) }
{
    if field.value.is_none() {
        return Ok(Vec::new(alloc));
    }
    let items = items_at(field)?;
    let texts = texts_in(alloc, field.path, items)?;
    Ok(distinct_texts(alloc, texts.as_slice())?)
}
